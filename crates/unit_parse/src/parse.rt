// The one module that a list of lexemes spells.
ghost use Rattle.std.specs.Prelude.{◌≡◌, ◌*◌, ◌≤◌, ◌<◌, ◌^◌, ℕ, List, Some, IfOk, IfErr, length};
ghost use Rattle.unit_grammar.specs.Units.{ModuleUnits, UnitTree};
ghost use Rattle.unit_grammar.specs.Derivation.{DerivesModule};
ghost use Rattle.unit_grammar.specs.FirstBad.{EndsOnce};
ghost use Rattle.unit_machine.specs.Machine as machine;
ghost use Rattle.unit_parse.specs.Modules.{AreUnits, IsFault, IsModule};
ghost use Rattle.unit_parse.specs.ReaderMeaning.{IsState};
ghost use Rattle.unit_parse.specs.NodeCounts.{IsFew};

use crate::state::State;
use std::alloc::Global;
use tla_symbols::Lexeme;
use tla_tree::{ModuleTree, Tree, Unit};
use tool_list::{Chars, List, Memory};
use unit_frames::highest;
use unit_steps::Point;

/// Why no module was read.
#[derive(Clone, Copy, Debug, PartialEq, Eq)]
pub enum ParseError {
    /// There was no room, or a number is too large to be kept: the tree has 2^32 - 1 nodes, an operator
    /// has as many places, or the height is 2^32 or more.
    Memory,
    /// The lexemes are no module. `index` is the least for which no module begins with the lexemes up
    /// to and with the one of this index, from 0.
    FirstBad { index: u32 },
}

impl From<Memory> for ParseError {
    ghost use Rattle.unit_parse.specs.declared.parse.ParseError.{ParseError};
    ghost use Rattle.std.specs.Prelude.{◌≡◌};

    ghost from_gives = { λ _ e. e ≡ ParseError.Memory };

    fn from(_: Memory) -> Self {
        ParseError::Memory
    }
}

// The units after the first, which begins the module.
fn module_of(alloc: Global, tree: Tree, units: List<Unit>) -> Result<ModuleTree, Memory>
    requires { (us : List UnitTree) × (found : ModuleUnits) × AreUnits tree units us
        × (machine.whole us ≡ Some found) }
    ensures ok { IfOk result (λ parsed. (us : List UnitTree) → (found : ModuleUnits)
        → AreUnits tree units us → machine.whole us ≡ Some found → IsModule parsed found) }
    ensures tree { IfOk result (λ parsed. parsed.tree ≡ tree) }
{
    let mut units = units.into_vec();
    let Unit::ModuleBegin { name, extends, .. } = units.remove(0) else {
        unreachable!();
    };
    let height = highest(&tree, units.as_slice())?;
    let source = Chars::from_str(alloc, "")?;
    Ok(ModuleTree {
        name,
        extends,
        units: List::from_vec(units),
        tree,
        height,
        source,
    })
}

// The module that is read, where the outermost one is closed.
fn closed(alloc: Global, state: State, tree: Tree) -> Result<ModuleTree, Memory>
    requires { (st : machine.State) × (found : ModuleUnits) × IsState tree state st
        × (machine.answer (Some st) ≡ Some found) }
    ensures ok { IfOk result (λ parsed. (st : machine.State) → (found : ModuleUnits)
        → IsState tree state st → machine.answer (Some st) ≡ Some found → IsModule parsed found) }
    ensures few { IfOk result (λ parsed. (count : ℕ) → IsFew tree state count
        → length parsed.tree ≤ 17 * count) }
{
    let State::At(point) = state else {
        unreachable!();
    };
    let Point::Stands(reached, _, _) = point else {
        unreachable!();
    };
    module_of(alloc, tree, reached.units)
}

/// Reads the lexemes of a text. The answer is the one module that they derive, without the text
/// (*Specifying Systems*, chapters 15 and 17), and its tree has at most 17 nodes for each lexeme.
///
/// `FirstBad` comes exactly where they derive none. It calls nothing that calls itself, however
/// deep modules and expressions are nested.
pub fn parse_module(alloc: Global, lexemes: &List<Lexeme>) -> Result<ModuleTree, ParseError>
    requires ends { EndsOnce lexemes.now }
    requires few { length lexemes.now < 2 ^ 32 }
    ensures ok { IfOk result (λ parsed. (found : ModuleUnits) × DerivesModule found lexemes.now
        × IsModule parsed found) }
    ensures few { IfOk result (λ parsed. length parsed.tree ≤ 17 * length lexemes.now) }
    ensures err { IfErr result (λ fault. IsFault lexemes.now fault) }
{
    let mut tree = Tree::new(alloc);
    let mut state = State::opening(alloc);
    for (index, lexeme) in lexemes.as_slice().iter().enumerate() {
        let Ok(moved) = state.step(&mut tree, *lexeme) else {
            return Err(ParseError::Memory);
        };
        let Some(next) = moved else {
            return Err(ParseError::FirstBad {
                index: index as u32,
            });
        };
        state = next;
    }
    let Ok(module) = closed(alloc, state, tree) else {
        return Err(ParseError::Memory);
    };
    Ok(module)
}
