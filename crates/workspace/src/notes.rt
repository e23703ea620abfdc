// The notes of open documents.
ghost use Rattle.std.specs.Prelude.{◌≡◌, IfOk, is_some, map, true};
ghost use Rattle.std.specs.List.{All};
ghost use Rattle.server_documents.specs.Documents.{opened_as};
ghost use Rattle.server_texts.specs.Notes as in_notes;
ghost use Rattle.workspace.specs.Found.{AreNamesFound, IsNameFound};

use family_levels::Findings;
use lsp_wire::Note;
use server_documents::Documents;
use server_notes::notes_on;
use std::alloc::Global;
use tool_list::{Chars, List, Memory};

// The notes of an open document, by what is found of the texts.
fn notes_of(
    alloc: Global,
    documents: &Documents,
    found: &Findings,
    name: &Chars,
) -> Result<List<Note>, Memory>
    requires found { IsNameFound documents.now.texts found.now name.now }
    requires opened { is_some (opened_as documents.now name.now) ≡ true }
    ensures { IfOk result (λ notes. notes ≡ in_notes.notes_of documents.now name.now) }
{
    let Some(text) = documents.document(name) else {
        return Ok(List::new(alloc));
    };
    // The proof needs that a text is UTF-8.
    let _bytes = text.bytes();
    let notes = notes_on(alloc, text, found.faults(name.as_str()))?;
    Ok(notes)
}

/// The notes of open documents, in their order.
pub fn all_notes(
    alloc: Global,
    documents: &Documents,
    found: &Findings,
    names: &[Chars],
) -> Result<List<List<Note>>, Memory>
    requires found { AreNamesFound documents.now.texts found.now names.now }
    requires opened { All (λ name. is_some (opened_as documents.now name) ≡ true) names.now }
    ensures { IfOk result (λ notes. notes ≡ map (in_notes.notes_of documents.now) names.now) }
{
    let mut notes = List::new(alloc);
    for name in names {
        notes.push(notes_of(alloc, documents, found, name)?)?;
    }
    Ok(notes)
}
