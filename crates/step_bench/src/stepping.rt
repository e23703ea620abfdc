//! One machine, stepped over a list of lexemes.

ghost use Rattle.std.specs.Prelude.{◌≡◌, [], IfOk, ◌≤◌, ◌*◌, length};
ghost use Rattle.step_bench.specs.Stepping.{HasStopped};

use expr_parse::{ExprMachine, Goal, Step};
use std::alloc::Global;
use tla_symbols::Lexeme;
use tla_tree::Tree;
use tool_list::Memory;

/// Where a machine stops.
#[derive(Clone, Copy)]
pub struct Stop {
    /// How many lexemes were stepped over, with the one at which the machine stops.
    pub lexemes: usize,
    /// What the last of them led to.
    pub step: Step,
}

/// Steps a machine for expressions over the lexemes, until one does not go on with what stands before
/// it, or all are read.
pub fn step_over(alloc: Global, lexemes: &[Lexeme], tree: &mut Tree) -> Result<Stop, Memory>
    requires { tree.old ≡ [] }
    ensures stopped { IfOk result (HasStopped lexemes.now tree.new) }
    ensures within { IfOk result (λ stop. stop.lexemes ≤ length lexemes.now) }
    ensures few { IfOk result (λ stop. length tree.new ≤ 8 * stop.lexemes) }
{
    let mut machine = ExprMachine::new(alloc, Goal::Expression);
    let mut count = 0;
    while count < lexemes.len() {
        let lexeme = lexemes[count];
        let step = machine.step(&lexeme, &lexeme, tree)?;
        match step {
            Step::Going => count += 1,
            Step::Done { .. } | Step::Refused => {
                return Ok(Stop {
                    lexemes: count + 1,
                    step,
                });
            }
        }
    }
    Ok(Stop {
        lexemes: count,
        step: Step::Going,
    })
}
