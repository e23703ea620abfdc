// Own symbols of nested modules, which are known at their ends and asked for where they begin.
ghost use Rattle.std.specs.Prelude.{◌≡◌, ◌∷◌, [], IfOk, OnOk, List as ListOf, drop, false, map, reverse};
ghost use Rattle.std.specs.Bool.{OnTrue};
ghost use Rattle.std.specs.List.{All, AllByRecursion};
ghost use Rattle.tla_symbols.specs.declared.lexeme.Lexeme.{Lexeme};
ghost use Rattle.tla_tree.specs.Arena.{AreThere, Node};
ghost use Rattle.tla_model.specs.Lexemes.{LexemesLie, LiesIn, unit_lexemes};
ghost use Rattle.module_model.specs.Imports.{Imports};
ghost use Rattle.module_model.specs.Modules.{text_of};
ghost use Rattle.tla_model.specs.Entities.{Text};
ghost use Rattle.unit_grammar.specs.UnitNodes.{HasNodes, module_of, nodes_in, unit_at};
ghost use Rattle.unit_grammar.specs.Units.{ModuleEnd};
ghost use Rattle.unit_scope.specs.EnclosingReadings.{IsSomewhere};
ghost use Rattle.unit_scope.specs.Steps.{IsUnread, Leads, behind_unit};
ghost use Rattle.unit_flattener.specs.Ahead as in_ahead;
ghost use Rattle.own_symbols.specs.Ahead.{first_own};
ghost use Rattle.unit_flattener.specs.Ahead.{AppendsEnds, AreBegun, IsTakenAt};
ghost use Rattle.unit_flattener.specs.Ahead.{taken_by, taken_in};
ghost use Rattle.unit_flattener.specs.Modules.{AreOwnOf};

use crate::meanings::meanings_of;
use brought_entries::end_nested;
use std::alloc::Global;
use tla_model::Meaning;
use tla_tree::{ModuleTree, Tree, Unit};
use tool_list::{List, Memory};
use tree_names::ModuleText;
use unit_scope::ModuleReader;

// Goes behind the end of a nested module, and appends its own symbols.
fn push_end<'a>(
    alloc: Global,
    text: &ModuleText<'a>,
    reader: &mut ModuleReader<'a>,
    ends: &mut Vec<List<Meaning>>,
) -> Result<(), Memory>
    requires somewhere { IsSomewhere text.now reader.old }
    ensures state { OnOk result ((closing : Lexeme) → Leads text.now
        (behind_unit text.now (ModuleEnd closing)) reader.old reader.new) }
    ensures somewhere { OnOk result (IsSomewhere text.now reader.new) }
    ensures ends { OnOk result ((closing : Lexeme) → AppendsEnds text.now reader.old
        (ModuleEnd closing ∷ []) ends.old.items ends.new.items) }
{
    if reader.round.is_empty() {
        ends.push(List::new(alloc))?;
        return Ok(());
    }
    let parameters = end_nested(alloc, text, reader)?;
    ends.push(meanings_of(alloc, &parameters)?)?;
    Ok(())
}

// Goes behind a unit, and appends the own symbols of a nested module that ends there.
fn push_unit<'a>(
    alloc: Global,
    text: &ModuleText<'a>,
    reader: &mut ModuleReader<'a>,
    tree: &Tree,
    unit: &Unit,
    ends: &mut Vec<List<Meaning>>,
) -> Result<(), Memory>
    requires there { AreThere tree.now (nodes_in unit.now) }
    requires lie { AllByRecursion (LiesIn text.now.source)
        (unit_lexemes (unit_at tree.now unit.now)) }
    requires somewhere { IsSomewhere text.now reader.old }
    ensures state { OnOk result (Leads text.now (behind_unit text.now
        (unit_at tree.now unit.now)) reader.old reader.new) }
    ensures somewhere { OnOk result (IsSomewhere text.now reader.new) }
    ensures ends { OnOk result (AppendsEnds text.now reader.old (unit_at tree.now unit.now ∷ [])
        ends.old.items ends.new.items) }
{
    match unit {
        Unit::ModuleEnd(_) => push_end(alloc, text, reader, ends),
        _ => reader.pass(alloc, text, tree, unit),
    }
}

// The own symbols of nested modules that end in units, in the order of their ends.
fn ends_in<'a>(
    alloc: Global,
    text: &ModuleText<'a>,
    reader: &mut ModuleReader<'a>,
    tree: &Tree,
    units: &[Unit],
) -> Result<Vec<List<Meaning>>, Memory>
    requires there { AllByRecursion (λ unit. AreThere tree.now (nodes_in unit)) units.now }
    requires lie { AllByRecursion
        (λ unit. AllByRecursion (LiesIn text.now.source) (unit_lexemes (unit_at tree.now unit)))
        units.now }
    requires somewhere { IsSomewhere text.now reader.old }
    ensures { IfOk result (λ ends. AppendsEnds text.now reader.old
        (map (unit_at tree.now) units.now) [] ends.items) }
{
    let mut ends = Vec::new(alloc);
    for unit in units {
        push_unit(alloc, text, reader, tree, unit, &mut ends)?;
    }
    Ok(ends)
}

/// Takes the last of these symbols, or none where there are none.
pub(crate) fn pop_own(alloc: Global, ending: &mut Vec<List<Meaning>>) -> List<Meaning>
    ensures first { result ≡ first_own (reverse ending.old.items) }
    ensures rest { reverse ending.new.items ≡ drop 1 (reverse ending.old.items) }
{
    match ending.pop() {
        Some(own) => own,
        None => List::new(alloc),
    }
}

// Goes before a unit: a module that begins has the symbols of the one that ends first behind it.
fn take_unit(
    alloc: Global,
    unit: &Unit,
    ends: &mut Vec<List<Meaning>>,
    ending: &mut Vec<List<Meaning>>,
    begun: &mut Vec<List<Meaning>>,
) -> Result<(), Memory>
    ensures { OnOk result (IsTakenAt unit.now
        (taken_in ends.old.items ending.old.items begun.old.items)
        (taken_in ends.new.items ending.new.items begun.new.items)) }
{
    match unit {
        Unit::ModuleBegin { .. } => {
            begun.push(pop_own(alloc, ending))?;
            Ok(())
        }
        Unit::ModuleEnd(_) => {
            if let Some(own) = ends.pop() {
                ending.push(own)?;
            }
            Ok(())
        }
        _ => Ok(()),
    }
}

// The own symbols of the modules that begin in units, those of the first one last, by those at the
// ends.
fn begun_in(
    alloc: Global,
    units: &[Unit],
    ends: Vec<List<Meaning>>,
) -> Result<Vec<List<Meaning>>, Memory>
    ensures { IfOk result (λ begun. (nodes : ListOf Node) → reverse begun.items
        ≡ (taken_by (map (unit_at nodes) units.now) (reverse ends.items)).owned.begun) }
{
    let mut ends = ends;
    let mut ending = Vec::new(alloc);
    let mut begun = Vec::new(alloc);
    let mut index = units.len();
    while index > 0 {
        index -= 1;
        take_unit(alloc, &units[index], &mut ends, &mut ending, &mut begun)?;
    }
    Ok(begun)
}

// Whether a nested module begins.
fn begins(unit: &Unit) -> bool
    ensures { result ≡ in_ahead.begins unit.now }
{
    matches!(unit, Unit::ModuleBegin { .. })
}

// Whether no nested module begins in units.
fn begins_none(units: &[Unit]) -> bool
    ensures { OnTrue result (All (λ unit. in_ahead.begins unit ≡ false) units.now) }
{
    for unit in units {
        if begins(unit) {
            return false;
        }
    }
    true
}

/// Whether no nested module begins in a module: then there are no own symbols of such modules.
pub fn has_no_nested(tree: &ModuleTree) -> bool
    ensures { OnTrue result ((text : Text) (imports : Imports)
        → AreOwnOf text imports tree.now.source (module_of tree.now) []) }
{
    begins_none(tree.units.as_slice())
}

// The own symbols of the nested modules that begin in units, those of the first one last: what each
// turns out to have at its end. The reader goes behind the units.
fn own_symbols<'a>(
    alloc: Global,
    text: &ModuleText<'a>,
    reader: &mut ModuleReader<'a>,
    tree: &Tree,
    units: &[Unit],
) -> Result<Vec<List<Meaning>>, Memory>
    requires there { AllByRecursion (λ unit. AreThere tree.now (nodes_in unit)) units.now }
    requires lie { AllByRecursion
        (λ unit. AllByRecursion (LiesIn text.now.source) (unit_lexemes (unit_at tree.now unit)))
        units.now }
    requires somewhere { IsSomewhere text.now reader.old }
    ensures { IfOk result (λ own. AreBegun text.now reader.old (map (unit_at tree.now) units.now)
        (reverse own.items)) }
{
    let ends = ends_in(alloc, text, reader, tree, units)?;
    let own = begun_in(alloc, units, ends)?;
    Ok(own)
}

/// The own symbols of the nested modules that begin in a module, those of the first one last, by a
/// reader that stands before what the module extends and goes ahead.
pub fn symbols_ahead<'a>(
    alloc: Global,
    text: &ModuleText<'a>,
    tree: &ModuleTree,
    reader: ModuleReader<'a>,
) -> Result<Vec<List<Meaning>>, Memory>
    requires nodes { HasNodes tree.now }
    requires lie { LexemesLie text.now.source (module_of tree.now) }
    requires text { text.now ≡ text_of tree.now.source (module_of tree.now) }
    requires unread { IsUnread text.now reader.scope.imported.now (module_of tree.now) reader }
    ensures { IfOk result (λ own. AreOwnOf text.now reader.entry.scope.imported.now
        tree.now.source (module_of tree.now) (reverse own.items)) }
{
    let mut reader = reader;
    reader.pass_extended(alloc, text, tree)?;
    let units = tree.units.as_slice();
    let own = own_symbols(alloc, text, &mut reader, &tree.tree, units)?;
    Ok(own)
}
