// The symbols and parameters of a frame, each by itself.
ghost use Rattle.std.specs.Prelude.{◌≡◌, ◌≤◌, IfOk, length, map};
ghost use Rattle.kind_text.specs.FlatModule as text;
ghost use Rattle.kind_text.specs.FlatModule.{IsOrdered};
ghost use Rattle.kind_table.specs.Flattened.{flat_of};
ghost use Rattle.level_facts.specs.Facts.{AreKinds, IsFacts, argument_item};
ghost use Rattle.tree_kinds.specs.Standing.{itself};
ghost use Rattle.flat_kinds.specs.Symbols.{item_itself};
ghost use Rattle.flattened_trees.specs.Answers.{items_of};

use kind_table::FlatModule;
use level_facts::{Argument, KindFacts};
use std::alloc::{AllocError, Global};
use tla_model::{Entity, Meaning};
use tla_symbols::{Kind, Rule};

/// The kinds of the nodes from one on, before another one, over the symbols and parameters of a
/// frame. Nothing is said of nodes that are made of nodes before the first one.
pub fn kinds_over_frame(
    alloc: Global,
    facts: &mut KindFacts,
    flat: &FlatModule,
    frame: &[Meaning],
    start: usize,
    end: usize,
) -> Result<Vec<Option<Kind>>, AllocError>
    requires ordered { IsOrdered (flat_of flat.now) }
    requires facts { IsFacts (flat_of flat.now) facts.old }
    requires start { start ≤ end }
    requires end { end ≤ length (flat_of flat.now).nodes }
    ensures facts { IsFacts (flat_of flat.now) facts.new }
    ensures kinds { IfOk result (λ kinds. AreKinds (flat_of flat.now) (items_of frame.now) start end
        kinds.items) }
{
    let arguments = arguments_of(alloc, frame)?;
    let kinds = facts.kinds_over(alloc, flat, &arguments, start, end)?;
    Ok(kinds)
}

// What each stands for by itself.
fn arguments_of(alloc: Global, frame: &[Meaning]) -> Result<Vec<Argument>, AllocError>
    ensures { IfOk result (λ v. (flat : text.FlatModule)
        → map (argument_item flat) v.items ≡ items_of frame.now) }
{
    let mut arguments = Vec::with_capacity(alloc, frame.len())?;
    for meaning in frame {
        arguments.push(argument_of(meaning))?;
    }
    Ok(arguments)
}

/// What a name stands for by itself, as an argument.
pub fn argument_of(meaning: &Meaning) -> Argument
    ensures { (flat : text.FlatModule) → argument_item flat result ≡ item_itself meaning.now }
{
    match meaning {
        Meaning::BuiltIn => Argument::Value(Some(Kind::Const)),
        Meaning::Declared { entity, .. } => entity_argument(entity),
    }
}

// The same of an entity.
fn entity_argument(entity: &Entity) -> Argument
    ensures { (flat : text.FlatModule) → argument_item flat result ≡ itself entity.now }
{
    match entity {
        Entity::Constant { .. } => Argument::Stays(Rule::Plain),
        Entity::Variable => Argument::Value(Some(Kind::State)),
        Entity::Parameter { .. } => Argument::Stays(Rule::Boolean),
        Entity::Bound { state: true } => Argument::Value(Some(Kind::State)),
        Entity::Bound { state: false } => Argument::Value(Some(Kind::Const)),
        Entity::Definition { .. } | Entity::Instance { .. } | Entity::Module => {
            Argument::Value(None)
        }
    }
}
