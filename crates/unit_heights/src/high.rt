// The first unit of a module that is too high.
ghost use Rattle.std.specs.Prelude.{◌≡◌, ◌+◌, ◌<◌, ◌≤◌, ◌^◌, List, [], ◌∷◌, map, max, length};
ghost use Rattle.std.specs.List.{AllByRecursion};
ghost use Rattle.tla_tree.specs.Arena.{Node, AreThere, tree_at, height_at};
ghost use Rattle.unit_grammar.specs.Heights.{highest_unit};
ghost use Rattle.unit_grammar.specs.UnitNodes.{unit_at, nodes_in};
ghost use Rattle.unit_heights.specs.TooHigh as limits;
ghost use Rattle.unit_heights.specs.TooHigh.{IsHigh, IsRead};
ghost use Rattle.unit_heights.specs.FirstHigh as high;
ghost use Rattle.unit_heights.specs.FirstHigh.{BeginsFurther};

use tla_symbols::Lexeme;
use tla_tree::{ModuleTree, Tree, Unit};

/// The most height of one module.
pub const MOST_HEIGHT: u32 = 1000;

// The height of a node, as that of a unit.
fn node_height(tree: &Tree, node: u32) -> u64
    requires { node < length tree.now }
    ensures value { result ≡ max 1 (height_at tree.now node) }
    ensures fits { result < 2 ^ 32 }
{
    tree.height(node).max(1) as u64
}

// How high a unit is that stands inside so many nested modules. The end of one adds nothing.
fn height_inside(depth: u64, unit: &Unit, tree: &Tree) -> u64
    requires there { AreThere tree.now (nodes_in unit.now) }
    requires few { depth < 2 ^ 63 }
    ensures { result ≡ highest_unit depth (unit_at tree.now unit.now ∷ []) }
{
    match unit {
        Unit::OperatorDefinition { node, .. }
        | Unit::FunctionDefinition { node, .. }
        | Unit::ModuleDefinition { node, .. }
        | Unit::Instance { node, .. }
        | Unit::Assumption { node, .. }
        | Unit::Theorem { node, .. } => depth + node_height(tree, *node),
        Unit::Variables { .. }
        | Unit::Constants { .. }
        | Unit::Line(_)
        | Unit::ModuleBegin { .. } => depth + 1,
        Unit::ModuleEnd(_) => 0,
    }
}

// How many modules are open behind a unit.
fn depth_after(depth: u64, unit: &Unit) -> u64
    requires { depth < 2 ^ 63 }
    ensures value { (nodes : List Node) → result ≡ high.depth_after depth (unit_at nodes unit.now) }
    ensures most { result ≤ depth + 1 }
{
    match unit {
        Unit::ModuleBegin { .. } => depth + 1,
        Unit::ModuleEnd(_) => depth.saturating_sub(1),
        _ => depth,
    }
}

// The unit of the outermost module that holds a unit, where this one began before.
fn outer<'a>(depth: u64, begun: &'a Unit, unit: &'a Unit) -> &'a Unit
    ensures { result.now ≡ high.outer depth begun.now unit.now }
{
    if depth == 0 { unit } else { begun }
}

// The unit of the outermost module that holds the first unit that is too high, or the last.
fn high_unit<'a>(first: &'a Unit, units: &'a [Unit], tree: &Tree) -> &'a Unit
    requires first { AreThere tree.now (nodes_in first.now) }
    requires there { AllByRecursion (λ unit. AreThere tree.now (nodes_in unit)) units.now }
    ensures value { unit_at tree.now result.now
        ≡ high.high_unit 0 (unit_at tree.now first.now) (map (unit_at tree.now) units.now) }
    ensures there { AreThere tree.now (nodes_in result.now) }
{
    let mut depth: u64 = 0;
    let mut begun = first;
    for unit in units {
        begun = outer(depth, begun, unit);
        if height_inside(depth, unit, tree) > MOST_HEIGHT as u64 {
            return begun;
        }
        depth = depth_after(depth, unit);
    }
    begun
}

// Where a definition or an instance begins.
fn begins_with(local: Option<Lexeme>, node: u32, tree: &Tree) -> u32
    requires { node < length tree.now }
    ensures { result ≡ high.begins_with local (tree_at tree.now node) }
{
    match local {
        Some(word) => word.span.start,
        None => tree.span(node).start,
    }
}

// Where a unit's first lexeme begins.
fn begins_at(unit: &Unit, tree: &Tree) -> u32
    requires { AreThere tree.now (nodes_in unit.now) }
    ensures { result ≡ high.begins_at (unit_at tree.now unit.now) }
{
    match unit {
        Unit::OperatorDefinition { local, node }
        | Unit::FunctionDefinition { local, node }
        | Unit::ModuleDefinition { local, node }
        | Unit::Instance { local, node } => begins_with(*local, *node, tree),
        Unit::Assumption { word, .. } | Unit::Theorem { word, .. } => word.span.start,
        Unit::ModuleBegin { dashes, .. } => dashes.span.start,
        Unit::Variables { .. } | Unit::Constants { .. } | Unit::Line(_) | Unit::ModuleEnd(_) => 0,
    }
}

// How many lexemes stand before the one that begins at a place.
fn place_of(lexemes: &[Lexeme], at: u32) -> usize
    ensures { result ≡ high.place_of lexemes.now at }
{
    for (place, lexeme) in lexemes.iter().enumerate() {
        if lexeme.span.start == at {
            return place;
        }
    }
    lexemes.len()
}

// How many lexemes stand before the first unit that is too high.
fn before_high(lexemes: &[Lexeme], units: &[Unit], tree: &Tree) -> usize
    requires { AllByRecursion (λ unit. AreThere tree.now (nodes_in unit)) units.now }
    ensures { result ≡ high.before_high lexemes.now (map (unit_at tree.now) units.now) }
{
    let Some(first) = units.first() else {
        return 0;
    };
    let unit = high_unit(first, units, tree);
    place_of(lexemes, begins_at(unit, tree))
}

/// The first lexeme of the first unit of the outermost module that is too high.
pub fn first_high(tree: &ModuleTree, lexemes: &[Lexeme]) -> Lexeme
    requires read { IsRead tree.now lexemes.now }
    requires further { BeginsFurther 0 lexemes.now }
    requires few { length lexemes.now < 2 ^ 32 }
    requires high { limits.MOST_HEIGHT < tree.now.height }
    ensures { IsHigh tree.now lexemes.now result }
{
    lexemes[before_high(lexemes, tree.units.as_slice(), &tree.tree)]
}
