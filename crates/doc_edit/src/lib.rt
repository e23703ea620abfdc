//! The changes of a document: all of them in order, or none.
//!
//! Each change is of the text that the changes before it left. Knows nothing of documents' names,
//! of modules, and of how changes are sent.
#![tactic(auto)]

mod change;

ghost use Rattle.std.specs.Prelude.{◌≡◌, IfErr, IfOk, OnErr, OnOk};
ghost use Rattle.std.specs.declared.option.Option.TheVariants.{None};
ghost use Rattle.doc_edit.specs.Edits.{after_changes, first_backward, first_excess, IsRefused};

use change::{edited, first_backward, first_of};
use lsp_wire::Change;
use std::alloc::Global;
use tla_text::Text;
use tool_list::{List, Memory};

/// Why a document was not changed.
#[derive(Clone, Copy, Debug, PartialEq, Eq)]
pub enum EditError {
    /// The change of this index, from 0, is the first whose area starts after its end.
    BackwardRange { index: u64 },
    /// The text would have more than 2^25 bytes after a change: so many after the first such.
    TooLarge { bytes: u64 },
    /// There was no room.
    Memory,
}

impl From<Memory> for EditError {
    ghost use Rattle.doc_edit.specs.declared.EditError.{EditError};
    ghost use Rattle.std.specs.Prelude.{◌≡◌};

    ghost from_gives = { λ _ e. e ≡ EditError.Memory };

    fn from(_: Memory) -> Self {
        EditError::Memory
    }
}

/// Makes all changes of a text, in order. A change without an area replaces the whole text. In an
/// area a unit past its line's end means the line's end, a line past the last means the text's end,
/// and a place inside a surrogate pair means the pair's start.
///
/// `BackwardRange` comes exactly where an area starts after its end, by the numbers as sent.
/// `TooLarge` comes exactly where none does, and the text would have more than 2^25 bytes after
/// some change. After a refusal the text is as before.
pub fn apply(alloc: Global, text: &mut Text, changes: &List<Change>) -> Result<(), EditError>
    ensures ok { OnOk result (text.new ≡ after_changes text.old changes.now) }
    ensures err { OnErr result (text.new ≡ text.old) }
    ensures allowed { OnOk result (first_backward changes.now ≡ None) }
    ensures short { OnOk result (first_excess text.old changes.now ≡ None) }
    ensures cause { IfErr result
        (IsRefused (first_backward changes.now) (first_excess text.old changes.now)) }
{
    let changes = changes.as_slice();
    if let Some(index) = first_backward(changes) {
        return Err(EditError::BackwardRange { index });
    }
    let Some((first, rest)) = first_of(changes) else {
        return Ok(());
    };
    let after_first = edited(alloc, text, first)?;
    *text = after_rest(alloc, after_first, rest)?;
    Ok(())
}

// A text after all changes.
fn after_rest(alloc: Global, text: Text, changes: &[Change]) -> Result<Text, EditError>
    requires { first_backward changes.now ≡ None }
    ensures ok { IfOk result (λ last. last ≡ after_changes text changes.now) }
    ensures short { OnOk result (first_excess text changes.now ≡ None) }
    ensures cause { IfErr result (IsRefused None (first_excess text changes.now)) }
{
    let mut last = text;
    let mut rest = changes;
    'changes: while let Some((change, more)) = first_of(rest) {
        last = edited(alloc, &last, change)?;
        rest = more;
    }
    Ok(last)
}
