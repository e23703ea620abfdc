// Whom a session asks.
ghost use Rattle.std.specs.Prelude.{◌≡◌, ◌≢◌, Err, IfOk, Option, map};
ghost use Rattle.tool_io.specs.Folder.{Told};
ghost use Rattle.lsp_answers.specs.States.{IsAfter, judged, judged_change};
ghost use Rattle.server_documents.specs.Documents.{after_open};
ghost use Rattle.server_documents.specs.Held as in_held;
ghost use Rattle.server_folder.specs.Folders.{with_told};
ghost use Rattle.server_texts.specs.Notes as in_notes;
ghost use Rattle.server_texts.specs.Server.{server_meaning};

use crate::found::find_named;
use crate::notes::all_notes;
use crate::replies::reply_to;
use family_levels::Family;
use lsp_answers::{AnswerFault, Answers, Due};
use lsp_wire::{Call, Change, FileEvent, Note, Reply, Uri};
use server_documents::Documents;
use server_folder::{close, judge, take_files, take_root};
use std::alloc::Global;
use step_count::Steps;
use tool_io::Folder;
use tool_list::{Chars, List, Memory};

/// The texts of a root's modules over a folder. Each answer is derived from the texts as they
/// stand: what was found of a module is kept where it still holds.
pub struct Workspace<F> {
    folder: F,
    documents: Documents,
    family: Family,
}

impl<F: Folder> Workspace<F> {
    /// Nothing is held, over this folder.
    pub fn new(alloc: Global, folder: F) -> Workspace<F>
        ensures folder { result.folder ≡ folder }
        ensures documents { result.documents ≡ in_held.nothing }
    {
        Workspace {
            folder,
            documents: Documents::new(alloc),
            family: Family::new(alloc),
        }
    }

    /// Gives the folder back.
    pub fn into_folder(self) -> F
        ensures { result ≡ self.folder }
    {
        let Workspace {
            folder,
            documents: _,
            family: _,
        } = self;
        folder
    }
}

// The notes of all open documents, in their order.
fn notes_in<L>(
    alloc: Global,
    documents: &Documents,
    family: &mut Family,
    steps: &mut Steps<L>,
) -> Result<List<List<Note>>, Memory>
    ensures { IfOk result (λ notes. notes
        ≡ map (λ o. in_notes.notes_of documents.now o.name) documents.now.opened) }
{
    let names = documents.opened(alloc)?;
    if names.is_empty() {
        return Ok(List::new(alloc));
    }
    if documents.limit().is_some() {
        return Err(Memory);
    }
    let texts = documents.texts(alloc)?;
    let wanted = documents.opened(alloc)?;
    find_named(alloc, texts.as_slice(), wanted, family, steps)?;
    let notes = all_notes(alloc, documents, family.found(), names.as_slice())?;
    Ok(notes)
}

// Opens a document. A text of 2 GiB is want of memory.
fn open(
    alloc: Global,
    documents: &mut Documents,
    uri: &Uri,
    text: &Chars,
) -> Result<(), AnswerFault>
    ensures goes { (told : Option Told) → IsAfter
        (judged (after_open (with_told documents.old told) uri.now text.now)) result
        (with_told documents.new told) }
    ensures quiet { result ≢ Err AnswerFault.Folder }
{
    if text.as_str().len() >= 1 << 31 {
        return Err(AnswerFault::Memory);
    }
    documents.open(alloc, uri.as_str(), text)?;
    judge(documents)
}

// Changes a document.
fn change(
    alloc: Global,
    documents: &mut Documents,
    uri: &Uri,
    changes: &List<Change>,
) -> Result<(), AnswerFault>
    ensures goes { (told : Option Told) → IsAfter
        (judged_change server_meaning (with_told documents.old told) uri.now changes.now) result
        (with_told documents.new told) }
    ensures quiet { result ≢ Err AnswerFault.Folder }
{
    documents.change(alloc, uri.as_str(), changes)?;
    judge(documents)
}

impl<F: Folder> Answers for Workspace<F> {
    ghost state = { λ w. with_told w.documents (F.told w.folder) };

    ghost fault_count = { λ w. F.fault_count w.folder };

    ghost meaning = { server_meaning };

    fn root<L>(
        &mut self,
        alloc: Global,
        root: Option<&Uri>,
        _steps: &mut Steps<L>,
    ) -> Result<(), AnswerFault> {
        match root {
            Some(uri) => take_root(alloc, &mut self.documents, &mut self.folder, uri.as_str()),
            None => judge(&self.documents),
        }
    }

    fn open<L>(
        &mut self,
        alloc: Global,
        uri: &Uri,
        text: &Chars,
        _steps: &mut Steps<L>,
    ) -> Result<(), AnswerFault> {
        open(alloc, &mut self.documents, uri, text)
    }

    fn change<L>(
        &mut self,
        alloc: Global,
        uri: &Uri,
        changes: &List<Change>,
        _steps: &mut Steps<L>,
    ) -> Result<(), AnswerFault> {
        change(alloc, &mut self.documents, uri, changes)
    }

    fn close<L>(
        &mut self,
        alloc: Global,
        uri: &Uri,
        _steps: &mut Steps<L>,
    ) -> Result<(), AnswerFault> {
        close(alloc, &mut self.documents, &mut self.folder, uri.as_str())?;
        judge(&self.documents)
    }

    fn files<L>(
        &mut self,
        alloc: Global,
        events: &List<FileEvent>,
        _steps: &mut Steps<L>,
    ) -> Result<(), AnswerFault> {
        take_files(
            alloc,
            &mut self.documents,
            &mut self.folder,
            events.as_slice(),
        )?;
        judge(&self.documents)
    }

    fn due<L>(&mut self, alloc: Global, steps: &mut Steps<L>) -> Result<List<Due>, Memory> {
        let notes = notes_in(alloc, &self.documents, &mut self.family, steps)?;
        self.documents.send(alloc, notes.as_slice())
    }

    fn ask<L>(
        &mut self,
        alloc: Global,
        call: &Call,
        steps: &mut Steps<L>,
    ) -> Result<Reply, Memory> {
        reply_to(alloc, &self.documents, &mut self.family, call, steps)
    }

    fn faults(&self) -> u64 {
        self.folder.faults()
    }
}
