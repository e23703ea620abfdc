ghost use Rattle.std.specs.Prelude.{◌≡◌};
ghost use Rattle.fact_values.specs.Names.{name_eq};
ghost use Rattle.fact_store.specs.Slots as slots_of;
ghost use Rattle.fact_store.specs.Right as rules;

use crate::given::Given;
use std::sync::Arc;
use tool_list::{Chars, List};

/// A fact with what it was made from.
pub struct Kept<F: Drop> {
    /// The bytes, where they are not those that the slot has now.
    pub from: Option<List<u8>>,
    pub given: Given<F>,
    pub fact: Arc<F>,
}

// By hand, so that a proof meets one call wherever a value ends.
impl<F: Drop> Drop for Kept<F> {
    fn drop(self) {
        let Kept {
            from: _,
            given: _,
            fact: _,
        } = self;
    }
}

/// A text with its parts, and the fact that was last made from a text of that name.
pub struct Slot<O: Drop, F: Drop> {
    pub name: Chars,
    pub bytes: List<u8>,
    pub own: O,
    pub needs: Option<List<Chars>>,
    pub kept: Option<Kept<F>>,
}

// By hand, so that a proof meets one call wherever a value ends.
impl<O: Drop, F: Drop> Drop for Slot<O, F> {
    fn drop(self) {
        let Slot {
            name: _,
            bytes: _,
            own: _,
            needs: _,
            kept: _,
        } = self;
    }
}

impl<O: Drop, F: Drop> Slot<O, F> {
    /// The text, its own part and its needs.
    pub fn into_text(self) -> (List<u8>, O, Option<List<Chars>>)
        ensures bytes { result.0 ≡ self.bytes }
        ensures own { result.1 ≡ self.own }
        ensures needs { result.2 ≡ self.needs }
    {
        let Slot {
            name: _,
            bytes,
            own,
            needs,
            kept: _,
        } = self;
        (bytes, own, needs)
    }
}

/// Whether two names, or two texts, are the same.
pub fn same_bytes(a: &[u8], b: &[u8]) -> bool
    ensures { result ≡ name_eq a.now b.now }
{
    a == b
}

// Where a fact was made from, once its text has these bytes.
fn source_after(from: Option<List<u8>>, before: List<u8>, bytes: &[u8]) -> Option<List<u8>>
    ensures { result ≡ slots_of.source_after from before bytes.now }
{
    let source = from.unwrap_or(before);
    if same_bytes(source.as_slice(), bytes) {
        return None;
    }
    Some(source)
}

// A fact once its text has these bytes.
fn kept_after<F: Drop>(kept: Option<Kept<F>>, before: List<u8>, bytes: &[u8]) -> Option<Kept<F>>
    ensures { result ≡ slots_of.kept_after kept before bytes.now }
{
    let mut kept = kept?;
    kept.from = source_after(kept.from.take(), before, bytes);
    Some(kept)
}

/// Gives a slot another text with its parts.
pub fn set_text<O: Drop, F: Drop>(
    slot: &mut Slot<O, F>,
    bytes: List<u8>,
    own: O,
    needs: Option<List<Chars>>,
)
    ensures { slot.new
        ≡ record {
          name = slot.old.name;
          bytes = bytes;
          own = own;
          needs = needs;
          kept =
              slots_of.kept_after slot.old.kept slot.old.bytes bytes;
        } }
{
    let before = std::mem::replace(&mut slot.bytes, bytes);
    slot.kept = kept_after(slot.kept.take(), before, slot.bytes.as_slice());
    slot.own = own;
    slot.needs = needs;
}

/// Puts what the needs give now in the place of what they gave when the fact was made.
pub fn set_inputs<O: Drop, F: Drop>(slot: &mut Slot<O, F>, given: Given<F>)
    ensures { slot.new ≡ record slot.old { kept = rules.with_given slot.old.kept given } }
{
    if let Some(kept) = &mut slot.kept {
        kept.given = given;
    }
}
