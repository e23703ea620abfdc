// What names mean, as lists.
ghost use Rattle.std.specs.Prelude.{◌≡◌, ◌<◌, ◌++◌, IfOk, length, map};
ghost use Rattle.tla_tree.specs.Arena.{tree_at};
ghost use Rattle.tla_model.specs.Entities.{meant};
ghost use Rattle.tla_model.specs.Scopes as scopes;
ghost use Rattle.declared_names.specs.Listed.{listed};
ghost use Rattle.flattened_units.specs.Units.{meanings_of};
ghost use Rattle.tree_names.specs.Parameters.{entries_in};

use declared_names::defined;
use std::alloc::Global;
use tla_model::{Binder, Meaning};
use tla_tree::Tree;
use tool_list::{List, Memory};
use tree_names::{ModuleText, Parameter};

/// What parameters mean, without their names.
pub(crate) fn meanings_of(
    alloc: Global,
    parameters: &List<Parameter>,
) -> Result<List<Meaning>, Memory>
    ensures { IfOk result (λ meanings. meanings ≡ meanings_of (entries_in parameters.now)) }
{
    let mut meanings = List::new(alloc);
    for parameter in parameters.as_slice() {
        meanings.push(parameter.meaning.copied()?)?;
    }
    Ok(meanings)
}

/// The same meanings, with more behind them.
pub(crate) fn with_more(
    alloc: Global,
    first: &[Meaning],
    more: &[Meaning],
) -> Result<List<Meaning>, Memory>
    ensures { IfOk result (λ meanings. meanings ≡ first.now ++ more.now) }
{
    let mut meanings = List::new(alloc);
    for meaning in first {
        meanings.push(meaning.copied()?)?;
    }
    for meaning in more {
        meanings.push(meaning.copied()?)?;
    }
    Ok(meanings)
}

// What a name means that may be there.
fn found_meanings(
    alloc: Global,
    text: &ModuleText<'_>,
    found: Option<Binder>,
) -> Result<List<Meaning>, Memory>
    ensures { IfOk result (λ meanings. meanings ≡ map (meant text.now) (listed found)) }
{
    let mut meanings = List::new(alloc);
    match found {
        None => Ok(meanings),
        Some(binder) => {
            let meaning = text.meaning(binder)?;
            meanings.push(meaning)?;
            Ok(meanings)
        }
    }
}

/// What the name means that a node defines, if it defines one.
pub(crate) fn defined_meanings(
    alloc: Global,
    text: &ModuleText<'_>,
    tree: &Tree,
    node: u32,
) -> Result<List<Meaning>, Memory>
    requires { node < length tree.now }
    ensures { IfOk result (λ meanings. meanings
        ≡ map (meant text.now) (scopes.definition (tree_at tree.now node))) }
{
    let found = defined(alloc, tree, node, tree.children(node))?;
    let meanings = found_meanings(alloc, text, found)?;
    Ok(meanings)
}
