// Names that come into scope and leave it.
ghost use Rattle.std.specs.Prelude.{◌≡◌, ◌∷◌, ◌++◌, ◌<◌, [], IfOk, OnOk, length, map};
ghost use Rattle.tla_model.specs.Entities.{meant};
ghost use Rattle.declared_names.specs.Nodes.{form_at, parts_at};
ghost use Rattle.tla_model.specs.Entities.{place_in};
ghost use Rattle.tree_flattener.specs.Entering.{Enters, entries_of, entry_of};
ghost use Rattle.tree_flattener.specs.Steps.{Cuts, Puts};

use crate::locals::{Entry, Local};
use crate::state::Flattening;
use crate::written::Written;
use declared_names::binders;
use std::alloc::Global;
use tla_model::{Binder, Meaning};
use tla_symbols::Lexeme;
use tool_list::{List, Memory};
use tree_names::ModuleText;
use tree_rules::order_of;

/// A frame with more places, by its number, and how many more these are.
#[derive(Clone, Copy)]
pub(crate) struct Entered {
    pub frame: usize,
    pub count: usize,
}

// The most places of the frames of one module, taken together: some 70 bytes each.
const MOST_PLACES: usize = 67_108_864;

// The same meanings, for one more frame beside so many. `Memory` comes where so many frames of this
// length would have too many places.
fn copied_meanings(
    alloc: Global,
    meanings: &[Meaning],
    frames: usize,
) -> Result<List<Meaning>, Memory>
    ensures { IfOk result (λ copies. copies ≡ meanings.now) }
{
    if meanings.len().saturating_mul(frames) > MOST_PLACES {
        return Err(Memory);
    }
    let mut copies = List::new(alloc);
    for meaning in meanings {
        copies.push(meaning.copied()?)?;
    }
    Ok(copies)
}

// Puts a name into scope, by where the text declares it.
fn put(
    text: &ModuleText<'_>,
    locals: &mut Vec<Entry>,
    name: Lexeme,
    local: Local,
) -> Result<(), Memory>
    ensures { OnOk result (locals.new.items ≡ locals.old.items ++ record {
      place = place_in text.now.starts name.span.start;
      local = local;
    } ∷ []) }
{
    let place = text.place(name);
    locals.push(Entry { place, local })?;
    Ok(())
}

// Puts a parameter into scope, at the next place of a frame.
fn place_name(
    text: &ModuleText<'_>,
    locals: &mut Vec<Entry>,
    frame: &mut List<Meaning>,
    binder: Binder,
) -> Result<(), Memory>
    ensures locals { OnOk result (locals.new.items ≡ locals.old.items ++ entry_of text.now (length
        frame.old) binder ∷ []) }
    ensures frame { OnOk result (frame.new ≡ frame.old ++ meant text.now binder ∷ []) }
{
    let name = binder.name;
    let meaning = text.meaning(binder)?;
    let order = order_of(&meaning)?;
    let place = frame.len();
    put(text, locals, name, Local::Place { place, order })?;
    frame.push(meaning)?;
    Ok(())
}

// Puts names into scope, one after another.
fn place_all(
    text: &ModuleText<'_>,
    locals: &mut Vec<Entry>,
    frame: &mut List<Meaning>,
    names: List<Binder>,
) -> Result<(), Memory>
    ensures locals { OnOk result (locals.new.items ≡ locals.old.items ++ entries_of text.now
        (length frame.old) names) }
    ensures frame { OnOk result (frame.new ≡ frame.old ++ map (meant text.now) names) }
{
    for binder in names.into_vec() {
        place_name(text, locals, frame, binder)?;
    }
    Ok(())
}

/// Puts the parameters of a node into scope, in a frame with more places.
pub(crate) fn enter(
    alloc: Global,
    written: &Written<'_>,
    state: &mut Flattening,
    frame: usize,
    node: u32,
) -> Result<Entered, Memory>
    requires node { node < length written.now.tree.now }
    requires frame { frame < length state.old.frames.items }
    ensures { IfOk result (λ entered. Enters written.now.text.now state.old state.new frame
        (form_at written.now.tree.now node) (parts_at written.now.tree.now node) entered) }
{
    let names = binders(alloc, written.tree, node, written.tree.children(node))?;
    let count = names.len();
    let frames = state.frames.len();
    let mut meanings = copied_meanings(alloc, state.frames[frame].as_slice(), frames)?;
    place_all(written.text, &mut state.locals, &mut meanings, names)?;
    let number = state.frames.len();
    state.frames.push(meanings)?;
    Ok(Entered {
        frame: number,
        count,
    })
}

/// Puts a defined name into scope.
pub(crate) fn put_name(
    written: &Written<'_>,
    state: &mut Flattening,
    name: Lexeme,
    local: Local,
) -> Result<(), Memory>
    ensures { OnOk result (Puts state.old state.new (record {
      place = place_in written.now.text.now.starts name.span.start;
      local = local;
    } ∷ [])) }
{
    put(written.text, &mut state.locals, name, local)
}

/// Leaves the names in scope that there were at a mark.
pub(crate) fn leave(state: &mut Flattening, mark: usize)
    ensures { Cuts state.old state.new mark }
{
    state.locals.truncate(mark);
}
