// How high modules are.
ghost use Rattle.std.specs.Prelude.{◌≡◌, ◌≤◌, ◌<◌, ◌^◌, List, ◌∷◌, IfOk, OnErr, length, map, max};
ghost use Rattle.std.specs.List.{AllByRecursion};
ghost use Rattle.tla_tree.specs.Arena.{AreThere, height_at};
ghost use Rattle.unit_grammar.specs.Units.{UnitTree};
ghost use Rattle.unit_grammar.specs.Heights as heights;
ghost use Rattle.unit_grammar.specs.Heights.{highest_unit};
ghost use Rattle.unit_grammar.specs.UnitNodes.{nodes_in, unit_at};

use tla_tree::{Tree, Unit};
use tool_list::Memory;

// The height of a unit that has this node.
fn height_of(tree: &Tree, node: u32) -> u32
    requires { node < length tree.now }
    ensures { result ≡ max 1 (height_at tree.now node) }
{
    tree.height(node).max(1)
}

// The height of a unit that is no begin and no end of a nested module.
fn unit_height(tree: &Tree, unit: &Unit) -> u32
    requires { AreThere tree.now (nodes_in unit.now) }
    ensures { result ≡ heights.unit_height (unit_at tree.now unit.now) }
{
    match unit {
        Unit::OperatorDefinition { node, .. }
        | Unit::FunctionDefinition { node, .. }
        | Unit::ModuleDefinition { node, .. }
        | Unit::Instance { node, .. }
        | Unit::Assumption { node, .. }
        | Unit::Theorem { node, .. } => height_of(tree, *node),
        _ => 1,
    }
}

// What was seen of units: how many nested modules are open, and the height so far.
#[derive(Clone, Copy)]
struct Measured {
    inside: u32,
    highest: u32,
}

impl Measured {
    // One unit more. `Memory` only where the height is 2^32 or more.
    fn with(self, tree: &Tree, unit: &Unit) -> Result<Measured, Memory>
        requires { AreThere tree.now (nodes_in unit.now) }
        ensures ok { IfOk result (λ more. (rest : List UnitTree)
            → max more.highest (highest_unit more.inside rest)
            ≡ max self.highest (highest_unit self.inside (unit_at tree.now unit.now ∷ rest))) }
        ensures bound { OnErr result ((rest : List UnitTree)
            → 2 ^ 32 ≤ highest_unit self.inside (unit_at tree.now unit.now ∷ rest)) }
    {
        let Measured { inside, highest } = self;
        match unit {
            Unit::ModuleBegin { .. } => {
                let inside = inside.checked_add(1).ok_or(Memory)?;
                Ok(Measured {
                    inside,
                    highest: highest.max(inside),
                })
            }
            Unit::ModuleEnd(_) => Ok(Measured {
                inside: inside.saturating_sub(1),
                highest,
            }),
            _ => {
                let height = inside.checked_add(unit_height(tree, unit)).ok_or(Memory)?;
                Ok(Measured {
                    inside,
                    highest: highest.max(height),
                })
            }
        }
    }
}

/// The height of the highest of units. `Memory` only where it is 2^32 or more.
pub fn highest(tree: &Tree, units: &[Unit]) -> Result<u32, Memory>
    requires { AllByRecursion (λ unit. AreThere tree.now (nodes_in unit)) units.now }
    ensures ok { IfOk result
        (λ height. height ≡ highest_unit 0 (map (unit_at tree.now) units.now)) }
    ensures bound { OnErr result
        (2 ^ 32 ≤ highest_unit 0 (map (unit_at tree.now) units.now)) }
{
    let mut measured = Measured {
        inside: 0,
        highest: 0,
    };
    for unit in units {
        measured = measured.with(tree, unit)?;
    }
    Ok(measured.highest)
}
