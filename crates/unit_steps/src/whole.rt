// Where a whole part goes: into its unit, or to the frame that waits for it.
ghost use Rattle.std.specs.Prelude.{◌≡◌, ◌<◌, ◌≤◌, ℕ, List, [], ◌∷◌, length, IfOk};
ghost use Rattle.tla_symbols.specs.declared.lexeme.Lexeme.{Lexeme};
ghost use Rattle.tla_tree.specs.Arena as arena;
ghost use Rattle.tla_tree.specs.Arena.{tree_at};
ghost use Rattle.tla_tree.specs.Syntax as syntax;
ghost use Rattle.tla_tree.specs.Lexemes as lexemes;
ghost use Rattle.tree_parts.specs.Parts.{IsPart};
ghost use Rattle.unit_grammar.specs.Units as units;
ghost use Rattle.unit_machine.specs.Machine as machine;
ghost use Rattle.unit_grammar.specs.UnitNodes.{AreUnits};
ghost use Rattle.unit_frames.specs.FrameMeaning.{AreParts, IsBegun, IsReached, IsUnder};
ghost use Rattle.unit_steps.specs.PointMeaning.{IsMoved};
ghost use Rattle.unit_steps.specs.Waiting.{waiting};

use crate::due::{after_declared, after_unit};
use crate::point::{Next, Point};
use tla_symbols::Lexeme;
use tla_tree::{Form, Tree, Unit};
use tool_list::{List, Memory};
use tree_parts::Part;
use unit_frames::{Begun, Reached, Unfinished, then};
use unit_tables::after_part;

// The unit of a definition, by its form.
fn defined(tree: &Tree, local: Option<Lexeme>, node: u32) -> Unit
    requires { node < length tree.now }
    ensures { AreUnits tree.now (result ∷ []) (units.defined local (tree_at tree.now node) ∷ []) }
{
    match tree.form(node) {
        Form::FunctionDefinition(_) => Unit::FunctionDefinition { local, node },
        Form::ModuleDefinition(_) => Unit::ModuleDefinition { local, node },
        _ => Unit::OperatorDefinition { local, node },
    }
}

// Declarations of constants, and one more, before a lexeme.
fn declare(
    reached: Reached,
    declarations: List<u32>,
    node: u32,
    lexeme: Lexeme,
) -> Result<Option<Next>, Memory>
    ensures moves { IfOk result (λ moved. (nodes : List arena.Node) → (depth : ℕ)
        → (us : List units.UnitTree) → (xs : syntax.Trees) → (x : syntax.Tree)
        → (spelled : List Lexeme) → (part : Part) → IsReached nodes reached depth us
        → AreParts nodes declarations xs → part.node ≡ node → IsPart nodes part x spelled
        → IsMoved nodes moved (machine.after_declared (lexemes.then xs x) depth us lexeme)) }
    ensures few { IfOk result (λ moved. waiting moved ≤ 1) }
{
    let Ok(declarations) = then(declarations, node) else {
        return Err(Memory);
    };
    after_declared(reached, declarations, lexeme)
}

// A whole part of a unit that was read after others, before a lexeme.
fn finished(
    reached: Reached,
    begun: Begun,
    tree: &Tree,
    node: u32,
    lexeme: Lexeme,
) -> Result<Option<Next>, Memory>
    requires { node < length tree.now }
    ensures moves { IfOk result (λ moved. (depth : ℕ) → (us : List units.UnitTree)
        → (b : machine.Begun) → (x : syntax.Tree) → (spelled : List Lexeme) → (part : Part)
        → IsReached tree.now reached depth us → IsBegun tree.now begun b → part.node ≡ node
        → IsPart tree.now part x spelled
        → IsMoved tree.now moved (machine.finished b x depth us lexeme)) }
    ensures few { IfOk result (λ moved. waiting moved ≤ 1) }
{
    match begun {
        Begun::Constants(declarations) => declare(reached, declarations, node, lexeme),
        Begun::Definition(local) => after_unit(reached, defined(tree, local, node), lexeme),
        Begun::Instance(local) => after_unit(reached, Unit::Instance { local, node }, lexeme),
        Begun::Assumption(word) => after_unit(
            reached,
            Unit::Assumption {
                word,
                name: None,
                node,
            },
            lexeme,
        ),
        Begun::Theorem(word) => after_unit(
            reached,
            Unit::Theorem {
                word,
                name: None,
                node,
            },
            lexeme,
        ),
    }
}

/// A whole part of a unit, before a lexeme.
pub(crate) fn finish(
    unfinished: Unfinished,
    tree: &Tree,
    part: Part,
    lexeme: Lexeme,
) -> Result<Option<Next>, Memory>
    requires { part.node < length tree.now }
    ensures moves { IfOk result (λ moved. (depth : ℕ) → (us : List units.UnitTree)
        → (b : machine.Begun) → (x : syntax.Tree) → (spelled : List Lexeme)
        → IsReached tree.now unfinished.reached depth us → IsBegun tree.now unfinished.begun b
        → IsPart tree.now part x spelled
        → IsMoved tree.now moved (machine.finished b x depth us lexeme)) }
    ensures few { IfOk result (λ moved. waiting moved ≤ 1) }
{
    let (reached, begun) = unfinished.into_begun();
    finished(reached, begun, tree, part.node, lexeme)
}

// A whole part of a unit that was read after others, with its last lexeme: declarations of
// constants may end so.
fn conclude(reached: Reached, begun: Begun, node: u32) -> Result<Option<Next>, Memory>
    ensures moves { IfOk result (λ moved. (nodes : List arena.Node) → (depth : ℕ)
        → (us : List units.UnitTree) → (b : machine.Begun) → (x : syntax.Tree)
        → (spelled : List Lexeme) → (part : Part) → IsReached nodes reached depth us
        → IsBegun nodes begun b → part.node ≡ node → IsPart nodes part x spelled
        → IsMoved nodes moved (machine.concluded b x depth us)) }
    ensures few { IfOk result (λ moved. waiting moved ≡ 0) }
{
    match begun {
        Begun::Constants(declarations) => {
            let Ok(declarations) = then(declarations, node) else {
                return Err(Memory);
            };
            Ok(Some(Next::At(Point::Declared(reached, declarations))))
        }
        _ => Ok(None),
    }
}

/// A frame has ended with its last lexeme, and the one below takes its part.
pub(crate) fn shut(unfinished: Unfinished, part: Part) -> Result<Option<Next>, Memory>
    ensures moves { IfOk result (λ moved. (nodes : List arena.Node) → (depth : ℕ)
        → (us : List units.UnitTree) → (b : machine.Begun) → (fs : List machine.Frame)
        → (x : syntax.Tree) → (spelled : List Lexeme) → IsUnder nodes unfinished b fs depth us
        → IsPart nodes part x spelled
        → IsMoved nodes moved (machine.shut b fs x spelled depth us)) }
    ensures few { IfOk result (λ moved. waiting moved ≤ length unfinished.below.items) }
{
    let mut unfinished = unfinished;
    let Some(mut frame) = unfinished.below.pop() else {
        let (reached, begun) = unfinished.into_begun();
        return conclude(reached, begun, part.node);
    };
    let wait = after_part(frame.wait);
    let Ok(()) = frame.takes(wait, part) else {
        return Err(Memory);
    };
    Ok(Some(Next::At(Point::Part(unfinished, frame))))
}
