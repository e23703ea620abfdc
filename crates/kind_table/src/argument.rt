// What is put in for parameters, in a table where equal arguments have one number.
ghost use Rattle.std.specs.Prelude.{◌≡◌, IfOk, OnOk, length, map};
ghost use Rattle.std.specs.Cmp.Rules.{hashing};
ghost use Rattle.std.proofs.Common.{rules};
ghost use Rattle.kind_table.specs.Input.{arg_input};
ghost use Rattle.kind_table.specs.Table.{AddsOnly, AddsValues, AllWithin, Grows, IsArg, IsStored, IsTable, IsValue, value_at};

use indexmap::IndexSet;
use std::alloc::{AllocError, Global};
use std::hash::{Hash, Hasher};
use tla_symbols::{Kind, Rule};

/// What stands for a parameter. Numbers are of earlier entries of the same table.
#[derive(Drop, PartialEq, Eq)]
pub enum Arg {
    /// An expression of a kind, or without one.
    Value(Option<Kind>),
    /// A symbol or a parameter that stays: a constant, and an operator by this rule.
    Stays(Rule),
    /// An operator that is built in or declared.
    BuiltIn(Rule),
    /// A definition as an operator, with what stands round it.
    Operator(usize, Vec<usize>),
}

impl Hash for Arg {
    ghost hash_input = { arg_input };

    ghost respects_eq = { Prim.search (hashing, rules) };

    fn hash<H: Hasher>(&self, state: &mut H) {
        if let Arg::Operator(definition, outer) = self {
            definition.hash(state);
            outer.hash(state);
        }
    }
}

/// The number of an argument, which is new or stands there already.
pub fn number(arguments: &mut IndexSet<Arg>, arg: Arg) -> Result<usize, AllocError>
    requires table { IsTable arguments.old.keys }
    requires arg { IsArg (length arguments.old.keys) arg }
    ensures stored { IfOk result (λ n. IsStored arguments.new.keys n arg) }
    ensures grows { Grows arguments.old.keys arguments.new.keys }
    ensures only { AddsOnly (λ other. other ≡ arg) arguments.old.keys arguments.new.keys }
{
    let (n, _) = arguments.insert_full(arg)?;
    Ok(n)
}

/// The kind of an argument that is an expression.
pub fn value(arguments: &IndexSet<Arg>, n: usize) -> Option<Kind>
    ensures { result ≡ value_at arguments.now.keys n }
{
    match arguments.get_index(n) {
        Some(Arg::Value(kind)) => *kind,
        Some(Arg::Stays(_)) => Some(Kind::Const),
        _ => None,
    }
}

/// The kinds of arguments that are expressions.
pub fn values(
    alloc: Global,
    arguments: &IndexSet<Arg>,
    numbers: &[usize],
) -> Result<Vec<Option<Kind>>, AllocError>
    ensures { IfOk result (λ v. v.items ≡ map (value_at arguments.now.keys) numbers.now) }
{
    let mut kinds = Vec::with_capacity(alloc, numbers.len())?;
    for n in numbers {
        kinds.push(value(arguments, *n))?;
    }
    Ok(kinds)
}

/// Puts expressions of these kinds behind what stands in a frame.
pub fn add_values(
    arguments: &mut IndexSet<Arg>,
    frame: &mut Vec<usize>,
    kinds: &[Option<Kind>],
) -> Result<(), AllocError>
    requires table { IsTable arguments.old.keys }
    requires frame { AllWithin arguments.old.keys frame.old.items }
    ensures grows { Grows arguments.old.keys arguments.new.keys }
    ensures only { AddsOnly IsValue arguments.old.keys arguments.new.keys }
    ensures added { OnOk result (AddsValues arguments.old.keys arguments.new.keys frame.old.items
        frame.new.items kinds.now) }
{
    for kind in kinds {
        let n = number(arguments, Arg::Value(*kind))?;
        frame.push(n)?;
    }
    Ok(())
}
