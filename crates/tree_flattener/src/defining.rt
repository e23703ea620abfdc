// Definitions that are added.
ghost use Rattle.std.specs.Prelude.{◌≡◌, ◌<◌, IfOk, Some, length};
ghost use Rattle.std.specs.List.{AllByRecursion};
ghost use Rattle.std.specs.Option.{option_or};
ghost use Rattle.tree_flattener.specs.Steps.{Defines, IsRootMade};
ghost use Rattle.tree_flattener.specs.Worlds.{frame_at};

use crate::adding::add_constant;
use crate::state::Flattening;
use kind_table::Definition;
use std::alloc::Global;
use tool_list::Memory;

/// The node of a body: the first of these, or a constant where there is none.
pub(crate) fn root_of(alloc: Global, state: &mut Flattening, is: &[usize]) -> Result<usize, Memory>
    requires { AllByRecursion (λ i. i < length state.old.flat.nodes) is.now }
    ensures { IfOk result (λ root. IsRootMade state.old state.new is.now root) }
{
    match is {
        [] => {
            let root = add_constant(alloc, state)?;
            Ok(root)
        }
        [first, ..] => Ok(*first),
    }
}

// How many places a frame has.
pub(crate) fn frame_len(state: &Flattening, frame: usize) -> usize
    requires { frame < length state.now.frames.items }
    ensures { result ≡ length (frame_at state.now.frames.items frame) }
{
    state.frames[frame].len()
}

/// Adds a definition over a frame, by the node of its body.
pub(crate) fn define(state: &mut Flattening, frame: usize, root: usize) -> Result<usize, Memory>
    requires { frame < length state.old.frames.items }
    ensures { IfOk result (λ d. Defines state.old state.new (record {
      outer = length (frame_at state.old.frames.items frame);
      root = root;
    }) d) }
{
    let outer = frame_len(state, frame);
    let d = state.flat.define(Definition { outer, root })?;
    Ok(d)
}

/// Puts a body, unless there is one.
pub(crate) fn put_body(body: &mut Option<usize>, i: usize)
    ensures { body.new ≡ option_or body.old (Some i) }
{
    if body.is_none() {
        *body = Some(i);
    }
}
