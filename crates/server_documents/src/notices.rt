// The notices of open documents.
ghost use Rattle.std.specs.Prelude.{◌≡◌, ◌++◌, ◌∷◌, [], ℕ, IfOk, List as ListOf, OnOk, map};
ghost use Rattle.std.specs.BTreeMap.{insert_entry};
ghost use Rattle.std.specs.Cmp.Lexicographic.{slice_cmp};
ghost use Rattle.std.specs.Ordering.{nat_cmp};
ghost use Rattle.lsp_answers.specs.States as states;
ghost use Rattle.lsp_answers.specs.States.{Opened, notices};
ghost use Rattle.lsp_wire.specs.declared.types.Note.{Note as NoteValue};
ghost use Rattle.server_documents.specs.Held.{HaveDocuments, opened_entry};
ghost use Rattle.server_documents.specs.Notices as in_notices;
ghost use Rattle.server_documents.specs.declared.held.Held.{Held as HeldValue};

use crate::opened::{Named, Open};
use lsp_answers::Due;
use lsp_wire::{Area, Note, Position};
use std::alloc::Global;
use std::cmp::Ordering;
use std::collections::BTreeMap;
use tool_list::{Chars, List, Memory, copied};

fn same_position(a: Position, b: Position) -> bool
    ensures { result ≡ states.same_position a b }
{
    a.line == b.line && a.unit == b.unit
}

fn same_area(a: Area, b: Area) -> bool
    ensures { result ≡ states.same_area a b }
{
    same_position(a.start, b.start) && same_position(a.end, b.end)
}

fn same_note(a: Note, b: Note) -> bool
    ensures { result ≡ in_notices.same_note a b }
{
    a.code == b.code && same_area(a.area, b.area)
}

// Whether notes have the same numbers and areas.
fn same_notes(a: &[Note], b: &[Note]) -> bool
    ensures { result ≡ states.same_notes a.now b.now }
{
    let mut rest = b;
    for note in a {
        let Some((other, more)) = rest.split_first() else {
            return false;
        };
        if !same_note(*note, *other) {
            return false;
        }
        rest = more;
    }
    rest.is_empty()
}

// Whether these notes were last sent for a document.
fn was_sent(document: &Open, notes: &[Note]) -> bool
    ensures { result ≡ states.was_sent document.now.sent notes.now }
{
    match &document.sent {
        Some(sent) => same_notes(sent.as_slice(), notes),
        None => false,
    }
}

// The notice of an open document.
fn notice(alloc: Global, document: &Open, notes: &[Note]) -> Result<Due, Memory>
    ensures { IfOk result (λ due. due ≡ in_notices.due_of document.now notes.now) }
{
    Ok(Due {
        uri: document.uri.copied()?,
        notes: copied(alloc, notes)?,
    })
}

// The notice that takes the notes of a closed document back.
fn closing(alloc: Global, named: Named) -> Due
    ensures { result ≡ states.closing named }
{
    Due {
        uri: named.into_uri(),
        notes: List::new(alloc),
    }
}

// A document that was not named gets a notice where its notes differ from those last sent.
fn add_other(
    alloc: Global,
    dues: &mut List<Due>,
    document: &Open,
    notes: &[Note],
) -> Result<(), Memory>
    ensures { OnOk result (dues.new ≡ dues.old ++ in_notices.other_dues document.now notes.now) }
{
    if was_sent(document, notes) {
        return Ok(());
    }
    dues.push(notice(alloc, document, notes)?)
}

// Adds the notice of an open document, and before it that of the named one, where this is closed and
// comes before.
fn add_due(
    alloc: Global,
    dues: &mut List<Due>,
    due: &mut Option<Named>,
    name: &Chars,
    document: &Open,
    notes: &[Note],
) -> Result<(), Memory>
    ensures { OnOk result ((notes_of : ListOf ℕ → ListOf NoteValue) → (rest : ListOf Opened)
        → notes_of name.now ≡ notes.now
        → dues.old ++ notices notes_of due.old (opened_entry (name.now, document.now) ∷ rest)
        ≡ dues.new ++ notices notes_of due.new rest) }
{
    let Some(named) = due.take() else {
        return add_other(alloc, dues, document, notes);
    };
    match named.name.cmp(name) {
        Ordering::Less => {
            dues.push(closing(alloc, named))?;
            add_other(alloc, dues, document, notes)
        }
        Ordering::Equal => dues.push(notice(alloc, document, notes)?),
        Ordering::Greater => {
            *due = Some(named);
            add_other(alloc, dues, document, notes)
        }
    }
}

// Adds the notice of the named document, where it comes behind all that are open.
fn add_last(alloc: Global, dues: &mut List<Due>, due: Option<Named>) -> Result<(), Memory>
    ensures { OnOk result ((notes_of : ListOf ℕ → ListOf NoteValue)
        → dues.new ≡ dues.old ++ notices notes_of due []) }
{
    match due {
        Some(named) => dues.push(closing(alloc, named)),
        None => Ok(()),
    }
}

/// The notices of open documents and of the named one, in byte order of modules, by the notes of the
/// open documents in this order.
pub fn dues_of(
    alloc: Global,
    opened: &BTreeMap<Chars, Open>,
    due: Option<Named>,
    notes: &[List<Note>],
) -> Result<List<Due>, Memory>
    ensures { IfOk result (λ dues. (notes_of : ListOf ℕ → ListOf NoteValue)
        → notes.now ≡ map (λ o. notes_of o.name) (map opened_entry opened.now.entries)
        → dues ≡ notices notes_of due (map opened_entry opened.now.entries)) }
{
    let mut dues = List::new(alloc);
    let mut due = due;
    let mut rest = notes;
    for (name, document) in opened {
        let Some((notes, more)) = rest.split_first() else {
            return Err(Memory);
        };
        add_due(alloc, &mut dues, &mut due, name, document, notes.as_slice())?;
        rest = more;
    }
    add_last(alloc, &mut dues, due)?;
    Ok(dues)
}

// Puts an open document under its module's name.
fn put(opened: &mut BTreeMap<Chars, Open>, name: Chars, document: Open) -> Result<(), Memory>
    ensures { OnOk result (opened.new.entries
        ≡ insert_entry (slice_cmp nat_cmp) opened.old.entries name document) }
{
    match opened.insert(name, document) {
        Ok(_) => Ok(()),
        Err(_) => Err(Memory),
    }
}

/// The open documents, once their notes are sent.
pub fn with_sent(
    alloc: Global,
    opened: BTreeMap<Chars, Open>,
    notes: &[List<Note>],
) -> Result<BTreeMap<Chars, Open>, Memory>
    ensures sent { IfOk result (λ sent. (notes_of : ListOf ℕ → ListOf NoteValue)
        → notes.now ≡ map (λ o. notes_of o.name) (map opened_entry opened.entries)
        → map opened_entry sent.entries
        ≡ map (in_notices.as_sent notes_of) (map opened_entry opened.entries)) }
    ensures documents { IfOk result (λ sent. (texts : ListOf (ListOf ℕ × HeldValue))
        → HaveDocuments texts opened.entries → HaveDocuments texts sent.entries) }
{
    let mut sent = BTreeMap::new(alloc);
    let mut rest = notes;
    // The proof needs that the names are in order.
    let _len = opened.len();
    for (name, document) in opened {
        let Some((notes, more)) = rest.split_first() else {
            return Err(Memory);
        };
        let notes = copied(alloc, notes.as_slice())?;
        put(&mut sent, name, document.with_notes(notes))?;
        rest = more;
    }
    Ok(sent)
}

/// The modules of open documents, in byte order.
pub fn names_of(alloc: Global, opened: &BTreeMap<Chars, Open>) -> Result<List<Chars>, Memory>
    ensures { IfOk result (λ names. names
        ≡ map (λ o. o.name) (map opened_entry opened.now.entries)) }
{
    let mut names = List::new(alloc);
    for name in opened.keys() {
        names.push(name.copied()?)?;
    }
    Ok(names)
}
