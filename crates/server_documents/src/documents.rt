// The texts of a root's modules and the open documents.
ghost use Rattle.std.specs.Prelude.{◌≡◌, ℕ, IfErr, IfNone, IfOk, IfSome, IsTrue, List as ListOf, None, OnErr, OnOk, Some, ◌<◌, ◌^◌, cond, false, is_some, length, map, option_map};
ghost use Rattle.std.specs.BTreeMap.{values};
ghost use Rattle.std.specs.Cmp.Lexicographic.{slice_cmp};
ghost use Rattle.std.specs.List.{sum_by};
ghost use Rattle.std.specs.List.Sorted.{IsStrictlySortedBy};
ghost use Rattle.std.specs.Map.{lookup};
ghost use Rattle.std.specs.Ordering.{nat_cmp};
ghost use Rattle.std.specs.Str.{bytes_eq};
ghost use Rattle.doc_edit.specs.Edits.{first_backward, first_excess};
ghost use Rattle.std.specs.Option.{option_copied};
ghost use Rattle.lsp_answers.specs.States.{first_too_long, limit_of};
ghost use Rattle.server_documents.specs.Documents as in_documents;
ghost use Rattle.server_documents.specs.Documents.{put, without};
ghost use Rattle.server_documents.specs.Held as in_held;
ghost use Rattle.server_documents.specs.Held.{AreHeld, AreShort, HasDocument, HaveDocuments, held_as, held_len, opened_entry, text_as};
ghost use Rattle.lsp_answers.specs.States.{notices};
ghost use Rattle.lsp_wire.specs.declared.types.Note.{Note as NoteValue};
ghost use Rattle.server_documents.specs.Notices as in_notices;
ghost use Rattle.server_documents.specs.declared.held.Held.{Held as HeldValue};

use crate::held::{Held, ModuleText, texts_of};
use crate::notices::{dues_of, names_of, with_sent};
use crate::opened::{Named, Open};
use doc_edit::{EditError, apply};
use lsp_answers::{AnswerFault, Due};
use lsp_wire::{Change, Note};
use server_uris::{Root, document_root, module_of};
use std::alloc::Global;
use std::collections::BTreeMap;
use std::marker::Model;
use std::mem;
use tla_text::{Text, TextError};
use tool_list::{Chars, List, Memory};

// The most modules whose texts are held, and the most bytes of these together.
const MOST_MODULES: u64 = 1024;

const MOST_BYTES: u64 = 1 << 25;

/// The texts of a root's modules and the open documents. Contracts see them as a state that holds no
/// folder.
pub struct Documents {
    root: Option<Root>,
    texts: BTreeMap<Chars, Held>,
    opened: BTreeMap<Chars, Open>,
    due: Option<Named>,
}

// By hand, so that a proof meets one call wherever a value ends.
impl Drop for Documents {
    fn drop(self) {
        let Documents {
            root: _,
            texts: _,
            opened: _,
            due: _,
        } = self;
    }
}

impl Model for Documents {
    ghost use Rattle.std.specs.Prelude.{None, map};
    ghost use Rattle.lsp_answers.specs.States as states;
    ghost use Rattle.server_documents.specs.Held.{AreHeld, opened_entry, text_as};

    ghost Value = { states.State };

    ghost view = { λ d. record {
      root = d.root;
      texts = map text_as d.texts.entries;
      opened = map opened_entry d.opened.entries;
      due = d.due;
      folder = None;
    } };

    ghost invariant = { λ d. AreHeld d.texts.entries d.opened.entries };
}

// The bytes of all texts.
fn byte_count(texts: &BTreeMap<Chars, Held>) -> u64
    requires { sum_by held_len (values texts.now) < 2 ^ 64 }
    ensures { result ≡ sum_by held_len (values texts.now) }
{
    texts.values().map(|held| held.bytes().len() as u64).sum()
}

// Puts a document's text under a module's name, in the place of what is there.
fn put_text(texts: &mut BTreeMap<Chars, Held>, name: &Chars, held: Held) -> Result<(), Memory>
    ensures texts { OnOk result (map text_as texts.new.entries
        ≡ put (λ t. t.name) (text_as (name.now, held)) (map text_as texts.old.entries)) }
    ensures held { OnOk result ((other : ListOf ℕ) → held_as texts.new.entries other
        ≡ cond (bytes_eq other name.now) (Some held) (held_as texts.old.entries other)) }
    ensures others { (other : ListOf ℕ) → bytes_eq other name.now ≡ false
        → held_as texts.new.entries other ≡ held_as texts.old.entries other }
    ensures short { AreShort texts.old.entries → length (in_held.bytes_of held) < 2 ^ 31
        → AreShort texts.new.entries }
    ensures err { OnErr result (texts.new.entries ≡ texts.old.entries) }
{
    let Ok(name) = name.copied() else {
        return Err(Memory);
    };
    match texts.insert(name, held) {
        Ok(_) => Ok(()),
        Err(_) => Err(Memory),
    }
}

// Puts an open document under its module's name, in the place of what is there.
fn put_open(opened: &mut BTreeMap<Chars, Open>, name: &Chars, document: Open) -> Result<(), Memory>
    ensures opened { OnOk result (map opened_entry opened.new.entries
        ≡ put (λ o. o.name) (opened_entry (name.now, document))
        (map opened_entry opened.old.entries)) }
    ensures documents { OnOk result ((texts : ListOf (ListOf ℕ × HeldValue))
        → HasDocument texts name.now → HaveDocuments texts opened.old.entries
        → HaveDocuments texts opened.new.entries) }
    ensures err { OnErr result (opened.new.entries ≡ opened.old.entries) }
{
    let Ok(name) = name.copied() else {
        return Err(Memory);
    };
    match opened.insert(name, document) {
        Ok(_) => Ok(()),
        Err(_) => Err(Memory),
    }
}

// Takes the text of a module away, if it has one.
fn take_text(texts: &mut BTreeMap<Chars, Held>, name: &Chars)
    ensures texts { map text_as texts.new.entries
        ≡ without (λ t. t.name) name.now (map text_as texts.old.entries) }
    ensures others { (other : ListOf ℕ) → bytes_eq other name.now ≡ false
        → held_as texts.new.entries other ≡ held_as texts.old.entries other }
    ensures short { AreShort texts.old.entries → AreShort texts.new.entries }
{
    // The proof needs that the names are in order.
    let _len = texts.len();
    let _text = texts.remove(name);
}

// Takes the document of a module away, if it is open.
fn take_open(opened: &mut BTreeMap<Chars, Open>, name: &Chars) -> Option<Open>
    ensures value { result ≡ lookup (λ key. bytes_eq name.now key) opened.old.entries }
    ensures opened { map opened_entry opened.new.entries
        ≡ without (λ o. o.name) name.now (map opened_entry opened.old.entries) }
    ensures none { IfNone result (opened.new.entries ≡ opened.old.entries) }
    ensures documents { (texts : ListOf (ListOf ℕ × HeldValue))
        → HaveDocuments texts opened.old.entries → HaveDocuments texts opened.new.entries }
{
    // The proof needs that the names are in order.
    let _len = opened.len();
    opened.remove(name)
}

// The text of the open document of a module.
fn document_text<'a>(texts: &'a BTreeMap<Chars, Held>, name: &Chars) -> Option<&'a Text>
    ensures { option_copied result
        ≡ in_held.document_in (held_as texts.now.entries name.now) }
{
    match texts.get(name) {
        Some(Held::Document(text)) => Some(text),
        Some(Held::File(_)) => None,
        None => None,
    }
}

// A text after changes, unless one of these is backward.
fn changed(alloc: Global, text: &Text, changes: &List<Change>) -> Result<Option<Text>, AnswerFault>
    requires { length text.now < 2 ^ 31 }
    ensures text { IfOk result (λ changed. changed
        ≡ in_held.text_after (first_backward changes.now) text.now changes.now) }
    ensures short { OnOk result (first_backward changes.now ≡ None
        → first_excess text.now changes.now ≡ None) }
    ensures long { IfErr result (in_held.IsEditFault (first_backward changes.now)
        (first_excess text.now changes.now)) }
{
    let mut changed = Text::from_utf8(alloc, text.bytes())?;
    match apply(alloc, &mut changed, changes) {
        Ok(()) => Ok(Some(changed)),
        Err(EditError::BackwardRange { .. }) => Ok(None),
        Err(EditError::TooLarge { bytes }) => Err(AnswerFault::Limit { said: bytes }),
        Err(EditError::Memory) => Err(AnswerFault::Memory),
    }
}

impl Documents {
    /// Nothing is held.
    pub fn new(alloc: Global) -> Documents
        ensures { result ≡ in_held.nothing }
    {
        Documents {
            root: None,
            texts: BTreeMap::new(alloc),
            opened: BTreeMap::new(alloc),
            due: None,
        }
    }

    /// The root.
    pub fn root(&self) -> Option<&Root>
        ensures { option_copied result ≡ self.now.root }
    {
        self.root.as_ref()
    }

    /// The path of the folder that was read, if one was.
    pub fn path(&self) -> Option<&str>
        ensures { option_copied result ≡ in_documents.path_of self.now }
    {
        match &self.root {
            Some(root) => root.path(),
            None => None,
        }
    }

    /// Takes the client's root, in the place of what is there. No text and no document changes.
    pub fn set_root(&mut self, root: Root)
        ensures { self.new ≡ in_held.with_root self.old root }
    {
        self.root = Some(root);
    }

    /// The text of a module, if it has one.
    pub fn text(&self, name: &Chars) -> Option<&[u8]>
        ensures { option_copied result ≡ in_documents.text_of self.now name.now }
    {
        match self.texts.get(name) {
            Some(held) => Some(held.bytes()),
            None => None,
        }
    }

    /// All texts, in byte order of their names.
    pub fn texts(&self, alloc: Global) -> Result<List<ModuleText<'_>>, Memory>
        ensures texts { IfOk result (λ texts. texts ≡ self.now.texts) }
        ensures order { IfOk result (λ _. IsStrictlySortedBy (slice_cmp nat_cmp)
            (map (λ t. t.name) self.now.texts)) }
    {
        // The proof needs that the names are in order.
        let _len = self.texts.len();
        texts_of(alloc, &self.texts)
    }

    /// The text of a module's document, if it is open.
    pub fn document(&self, name: &Chars) -> Option<&Text>
        ensures { IsTrue (is_some (in_documents.opened_as self.now name.now))
            → option_copied result ≡ in_documents.text_of self.now name.now }
    {
        document_text(&self.texts, name)
    }

    /// Whether the document of a module is open.
    pub fn is_open(&self, name: &Chars) -> bool
        ensures { result ≡ is_some (in_documents.opened_as self.now name.now) }
    {
        self.opened.contains_key(name)
    }

    /// The URI of a module's document as it was spelled, if it is open.
    pub fn opened_uri(&self, name: &Chars) -> Option<&Chars>
        ensures { option_copied result
            ≡ option_map (λ o. o.uri) (in_documents.opened_as self.now name.now) }
    {
        match self.opened.get(name) {
            Some(document) => Some(&document.uri),
            None => None,
        }
    }

    /// The limit that the texts pass, if one: the number of the modules where these are more than 1,024,
    /// or else the bytes of all texts where these are more than 2^25.
    pub fn limit(&self) -> Option<u64>
        ensures { result ≡ limit_of self.now }
    {
        let count = self.texts.len() as u64;
        if count > MOST_MODULES {
            return Some(count);
        }
        let bytes = byte_count(&self.texts);
        if bytes > MOST_BYTES {
            Some(bytes)
        } else {
            None
        }
    }

    /// The module of an open document, under whatever spelling of its URI.
    pub fn opened_at(&self, alloc: Global, uri: &str) -> Result<Option<Chars>, Memory>
        ensures { IfOk result (λ name. name
            ≡ option_map (λ o. o.name) (in_documents.opened_at self.now uri.now)) }
    {
        let Some(name) = module_of(alloc, self.root(), uri)? else {
            return Ok(None);
        };
        if self.is_open(&name) {
            Ok(Some(name))
        } else {
            Ok(None)
        }
    }

    /// A module whose document is not open gets the bytes of its file, or loses what it has.
    pub fn set_file(&mut self, name: &Chars, bytes: Option<List<u8>>) -> Result<(), Memory>
        requires closed { is_some (in_documents.opened_as self.old name.now) ≡ false }
        requires short { IfSome bytes (λ bytes. length bytes < 2 ^ 31) }
        ensures { OnOk result (self.new ≡ in_documents.with_text self.old name.now bytes) }
    {
        match bytes {
            Some(bytes) => put_text(&mut self.texts, name, Held::File(bytes)),
            None => {
                take_text(&mut self.texts, name);
                Ok(())
            }
        }
    }

    // The document of a module is open with this text, and its notice is due.
    fn hold(&mut self, name: Chars, uri: Chars, text: Text) -> Result<(), Memory>
        requires { length text < 2 ^ 31 }
        ensures { OnOk result (self.new
            ≡ in_documents.with_opened self.old uri text (Some name)) }
    {
        put_text(&mut self.texts, &name, Held::Document(text))?;
        let document = Open {
            uri: uri.copied()?,
            sent: None,
        };
        put_open(&mut self.opened, &name, document)?;
        self.due = Some(Named { name, uri });
        Ok(())
    }

    /// Opens a document, or replaces its text. Where there is no root, it makes one; a document that is
    /// no member of the root is ignored.
    pub fn open(&mut self, alloc: Global, uri: &str, text: &Chars) -> Result<(), Memory>
        requires { length text.now < 2 ^ 31 }
        ensures { OnOk result (self.new
            ≡ in_documents.after_open self.old uri.now text.now) }
    {
        if self.root.is_none() {
            self.root = document_root(alloc, uri)?;
        }
        let Some(name) = module_of(alloc, self.root.as_ref(), uri)? else {
            return Ok(());
        };
        let text = Text::from_utf8(alloc, text.as_str().as_bytes())?;
        self.hold(name, Chars::from_str(alloc, uri)?, text)
    }

    /// Closes a document, and answers its module, whose file counts again: whoever reads it hands it to
    /// `set_file`. One that is not open is ignored.
    pub fn close(&mut self, alloc: Global, uri: &str) -> Result<Option<Chars>, Memory>
        ensures closed { OnOk result (self.new
            ≡ in_held.unopened_as self.old (in_documents.opened_at self.old uri.now)) }
        ensures name { IfOk result (λ name. name
            ≡ option_map (λ o. o.name) (in_documents.opened_at self.old uri.now)) }
    {
        let Some(name) = module_of(alloc, self.root.as_ref(), uri)? else {
            return Ok(None);
        };
        let Some(document) = take_open(&mut self.opened, &name) else {
            return Ok(None);
        };
        let uri = document.uri.copied()?;
        self.due = Some(Named {
            name: name.copied()?,
            uri,
        });
        Ok(Some(name))
    }

    /// Makes all changes of an open document, or none where one of these is backward, and its notice is
    /// due. A document that is not open is ignored. `Limit` comes exactly where none is backward and the
    /// text would have more than 2^25 bytes after some change, and says how many after the first such.
    /// After a fault all is as before.
    pub fn change(
        &mut self,
        alloc: Global,
        uri: &str,
        changes: &List<Change>,
    ) -> Result<(), AnswerFault>
        ensures changed { OnOk result (self.new
            ≡ in_documents.after_change self.old uri.now changes.now) }
        ensures short { OnOk result (first_too_long
            (in_documents.changed_texts self.old uri.now changes.now) ≡ None) }
        ensures long { IfErr result (in_held.IsChangeFault (first_too_long
            (in_documents.changed_texts self.old uri.now changes.now))) }
        ensures kept { OnErr result (self.new ≡ self.old) }
    {
        let Some(name) = module_of(alloc, self.root.as_ref(), uri)? else {
            return Ok(());
        };
        let Some(document) = self.opened.get(&name) else {
            return Ok(());
        };
        let uri = document.uri.copied()?;
        let Some(text) = document_text(&self.texts, &name) else {
            return Ok(());
        };
        let Some(changed) = changed(alloc, text, changes)? else {
            return Ok(());
        };
        put_text(&mut self.texts, &name, Held::Document(changed))?;
        self.due = Some(Named { name, uri });
        Ok(())
    }
    /// The modules of the open documents, in byte order.
    pub fn opened(&self, alloc: Global) -> Result<List<Chars>, Memory>
        ensures { IfOk result (λ names. names ≡ map (λ o. o.name) self.now.opened) }
    {
        names_of(alloc, &self.opened)
    }

    /// The notices to send, by the notes of the open documents' modules in byte order of these. They then
    /// count as sent.
    pub fn send(&mut self, alloc: Global, notes: &[List<Note>]) -> Result<List<Due>, Memory>
        ensures dues { IfOk result (λ dues. (notes_of : ListOf ℕ → ListOf NoteValue)
            → notes.now ≡ map (λ o. notes_of o.name) self.old.opened
            → dues ≡ notices notes_of self.old.due self.old.opened) }
        ensures sent { OnOk result ((notes_of : ListOf ℕ → ListOf NoteValue)
            → notes.now ≡ map (λ o. notes_of o.name) self.old.opened
            → self.new ≡ in_notices.after_notices notes_of self.old) }
    {
        let opened = mem::replace(&mut self.opened, BTreeMap::new(alloc));
        let due = mem::replace(&mut self.due, None);
        let dues = dues_of(alloc, &opened, due, notes)?;
        self.opened = with_sent(alloc, opened, notes)?;
        Ok(dues)
    }
}
