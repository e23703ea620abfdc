// The operators that wait for their last operand.
ghost use Rattle.std.specs.Prelude.{◌≡◌, ◌↔◌, ◌⊎◌, ◌≤◌, List, [], ◌∷◌, ◌++◌, length, take, drop, IsErrOf, IfOk, IfErr, OnOk, OnErr};
ghost use Rattle.tla_tree.specs.Edges.{product};
ghost use Rattle.precedence.specs.Choices.{same_edge};
ghost use Rattle.precedence.specs.Ranges.{edge};
ghost use Rattle.precedence.specs.Waiting as stack;
ghost use Rattle.precedence.specs.declared.Choice.{Choice};
ghost use Rattle.precedence.specs.declared.Choice.TheVariants.{Ends, Waits, Clashes};
ghost use Rattle.precedence.specs.declared.neighbour.Operator.{Operator};
ghost use Rattle.precedence.specs.declared.op_stack.OpError.{OpError};

use crate::Choice;
use crate::neighbour::{Operator, choose};
use std::alloc::{AllocFailed, Global};
use std::marker::Model;
use tla_symbols::{Fix, Op};

// So many operators may wait at most.
const MOST: usize = 1 << 20;

/// Why an operator does not wait.
#[derive(Clone, Copy, Debug, PartialEq, Eq)]
pub enum OpError {
    /// There was no room.
    Memory,
    /// As many wait as may: this many.
    Depth { held: u32 },
}

impl From<AllocFailed<Operator>> for OpError {
    ghost use Rattle.precedence.specs.declared.op_stack.OpError.{OpError};
    ghost use Rattle.std.specs.Prelude.{◌≡◌};

    ghost from_gives = { λ _ e. e ≡ OpError.Memory };

    fn from(_: AllocFailed<Operator>) -> Self {
        OpError::Memory
    }
}

/// Neither order of two neighbouring operators is good.
#[derive(Clone, Copy, Debug, PartialEq, Eq)]
pub struct Clash;

/// The operators that wait for their last operand (*Specifying Systems*, section 15.2.1), each in
/// the operand of those before it. Contracts see them from the outermost.
#[derive(Drop)]
pub struct OpStack {
    waiting: Vec<Operator>,
}

impl Model for OpStack {
    ghost use Rattle.std.specs.Prelude.{◌≤◌, List, length};
    ghost use Rattle.precedence.specs.declared.neighbour.Operator.{Operator};
    ghost use Rattle.precedence.specs.Waiting.{most};

    ghost Value = { List Operator };

    ghost view = { λ s. s.waiting.items };

    ghost invariant = { λ s. length s.waiting.items ≤ most };
}

impl OpStack {
    /// No operator waits. It takes no memory.
    pub fn new(alloc: Global) -> OpStack
        ensures { result ≡ [] }
    {
        OpStack {
            waiting: Vec::new(alloc),
        }
    }

    /// From here on the operator waits too. `Depth` comes exactly where 2^20 operators wait. After
    /// an error the stack is as before.
    pub fn push(&mut self, op: Op, fix: Fix) -> Result<(), OpError>
        ensures ok { OnOk result (self.new ≡ self.old ++ record { op = op; fix = fix } ∷ []) }
        ensures depth { IsErrOf result (OpError.Depth stack.most) ↔ (length self.old ≡ stack.most) }
        ensures only { IfErr result (λ error. (error ≡ OpError.Memory)
            ⊎ (error ≡ OpError.Depth stack.most)) }
        ensures err { OnErr result (self.new ≡ self.old) }
    {
        let held = self.waiting.as_slice().len();
        if held == MOST {
            return Err(OpError::Depth { held: held as u32 });
        }
        self.waiting.push(Operator { op, fix })?;
        Ok(())
    }

    /// Closes the operators that end before this infix or postfix operator, which are the innermost
    /// ones, and answers how many they are. A `\X` stays for a further `\X`. `Clash` comes exactly
    /// where neither order is good at the operator at which closing stops. After it the stack is as
    /// before.
    pub fn reduce(&mut self, op: Op, fix: Fix) -> Result<u32, Clash>
        ensures ok { IfOk result (λ count. (closed : List Operator) × (length closed ≡ count)
            × stack.Closes self.old (record { op = op; fix = fix }) self.new closed Waits) }
        ensures clash { OnErr result ((kept closed : List Operator)
            × stack.Closes self.old (record { op = op; fix = fix }) kept closed Clashes) }
        ensures err { OnErr result (self.new ≡ self.old) }
    {
        let coming = Operator { op, fix };
        let waiting = self.waiting.as_slice();
        let held = waiting.len();
        let kept = kept_before(waiting, coming);
        if matches!(
            &innermost_outcome(&waiting[..kept], coming),
            Choice::Clashes
        ) {
            return Err(Clash);
        }
        self.waiting.truncate(kept);
        Ok((held - kept) as u32)
    }

    /// Closes all operators, and answers how many they are.
    pub fn close(&mut self) -> u32
        ensures count { result ≡ length self.old }
        ensures closed { self.new ≡ [] }
    {
        let held = self.waiting.as_slice().len();
        self.waiting.clear();
        held as u32
    }
}

/// Closing has one outcome: no other operators are kept where it stops, and it does not both go
/// well and clash.
pub fn one_closing()
    ensures { (waiting kept closed other further : List Operator) → (coming : Operator)
        → (stop halt : Choice) → stack.Closes waiting coming kept closed stop
        → stack.Closes waiting coming other further halt → (stop ≡ Ends → ⊥) → (halt ≡ Ends → ⊥)
        → (kept ≡ other) × (stop ≡ halt) }
{}

// How many operators are left where closing stops.
fn kept_before(waiting: &[Operator], coming: Operator) -> usize
    ensures within { result ≤ length waiting.now }
    ensures ended { stack.AllEnd (drop result waiting.now) coming }
    ensures stopped { (stack.innermost_outcome (take result waiting.now) coming ≡ Ends) → ⊥ }
{
    let mut kept = waiting.len();
    while matches!(&innermost_outcome(&waiting[..kept], coming), Choice::Ends) {
        kept -= 1;
    }
    kept
}

// What becomes of the innermost operator. Where none waits, the one that comes is the outermost.
fn innermost_outcome(waiting: &[Operator], coming: Operator) -> Choice
    ensures { result ≡ stack.innermost_outcome waiting.now coming }
{
    match waiting.last() {
        Some(operator) => outcome(*operator, coming),
        None => Choice::Waits,
    }
}

// What becomes of a waiting operator, where a `\X` waits for a further operand at a further `\X`.
fn outcome(waiting: Operator, coming: Operator) -> Choice
    ensures { result ≡ stack.outcome waiting coming }
{
    if is_product(waiting) && is_product(coming) {
        Choice::Waits
    } else {
        choose(waiting, coming)
    }
}

fn is_product(operator: Operator) -> bool
    ensures { result ≡ same_edge (edge operator) product }
{
    matches!(
        &operator,
        Operator {
            op: Op::Product,
            fix: Fix::Infix,
        }
    )
}
