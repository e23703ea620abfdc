// Whether a module is constant.
ghost use Rattle.std.specs.Prelude.{◌≡◌, IfOk, if◌then◌else◌, length, map, nat_eq, true};
ghost use Rattle.std.specs.List.{AllByRecursion};
ghost use Rattle.tla_tree.specs.Arena.{AreThere};
ghost use Rattle.tla_model.specs.Lexemes.{LexemesLie, LiesIn, unit_lexemes};
ghost use Rattle.unit_grammar.specs.UnitNodes.{HasNodes, module_of, nodes_in, unit_at};
ghost use Rattle.module_model.specs.Modules.{text_of};
ghost use Rattle.module_kinds.specs.Constancy as constancy;
ghost use Rattle.module_constancy.specs.Places.{AreConstant, IsConstancyOf, named_at};

use crate::files::Files;
use crate::place::Place;
use crate::trees::{extends_constant, is_constant_unit};
use std::alloc::Global;
use tla_tree::{ModuleTree, Tree, Unit};
use tool_list::Memory;
use tree_names::ModuleText;

// Whether nothing in a unit goes beyond constants, where it is one of the outermost module.
fn keeps_constant<F: Files>(
    files: &F,
    place: &Place<'_>,
    text: &ModuleText<'_>,
    tree: &Tree,
    unit: &Unit,
) -> bool
    requires there { AreThere tree.now (nodes_in unit.now) }
    requires lie { AllByRecursion (LiesIn text.now.source)
        (unit_lexemes (unit_at tree.now unit.now)) }
    ensures { result ≡ (if nat_eq (length place.now.round.items) 0
        then constancy.is_constant_unit text.now.source (named_at (F.constant files.now) place.now)
        (unit_at tree.now unit.now) else true) }
{
    if !place.is_outermost() {
        return true;
    }
    is_constant_unit(files, place, text, tree, unit)
}

// Whether nothing in units goes beyond constants, where they are some of the outermost module.
fn are_constant_units<'a, F: Files>(
    files: &F,
    place: &mut Place<'a>,
    text: &ModuleText<'a>,
    tree: &Tree,
    units: &[Unit],
) -> Result<bool, Memory>
    requires there { AllByRecursion (λ unit. AreThere tree.now (nodes_in unit)) units.now }
    requires lie { AllByRecursion
        (λ unit. AllByRecursion (LiesIn text.now.source) (unit_lexemes (unit_at tree.now unit)))
        units.now }
    ensures { IfOk result (λ constant. AreConstant (F.constant files.now) text.now
        (map (unit_at tree.now) units.now) place.old constant) }
{
    for unit in units {
        if !keeps_constant(files, place, text, tree, unit) {
            return Ok(false);
        }
        place.pass(text, tree, unit)?;
    }
    Ok(true)
}

/// Whether a module is constant, by which files are.
pub fn is_constant<'a, F: Files>(
    alloc: Global,
    files: &F,
    text: &ModuleText<'a>,
    tree: &ModuleTree,
) -> Result<bool, Memory>
    requires nodes { HasNodes tree.now }
    requires lie { LexemesLie text.now.source (module_of tree.now) }
    requires text { text.now ≡ text_of tree.now.source (module_of tree.now) }
    ensures { IfOk result (λ constant. IsConstancyOf (F.constant files.now) tree.now.source
        (module_of tree.now) constant) }
{
    let mut place = Place::new(alloc, text.file())?;
    if !extends_constant(files, &place, text, tree.extends.as_slice()) {
        return Ok(false);
    }
    let constant = are_constant_units(files, &mut place, text, &tree.tree, tree.units.as_slice())?;
    Ok(constant)
}
