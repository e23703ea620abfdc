// Symbols that modules define, and those that are built in.
ghost use Rattle.std.specs.Prelude.{◌≡◌};
ghost use Rattle.tla_model.specs.Scopes as scopes;
ghost use Rattle.tree_kinds.specs.Expanding as expanding;

use tla_symbols::{Fix, Op, definable, range_of};

/// Whether a symbol means what a module defines it to be.
pub fn is_free(op: Op) -> bool
    ensures { result ≡ scopes.is_free op }
{
    definable(op, Fix::Prefix) || definable(op, Fix::Infix) || definable(op, Fix::Postfix)
}

/// The symbol of a prefix operator: that of minus is `-.`.
pub fn prefixed(op: Op) -> Op
    ensures { result ≡ scopes.prefixed op }
{
    match op {
        Op::Minus => Op::Negative,
        _ => op,
    }
}

/// The places of a symbol that is built in.
pub fn built_in_places(op: Op) -> usize
    ensures { result ≡ expanding.built_in_places op }
{
    if range_of(op, Fix::Infix).is_some() {
        2
    } else {
        1
    }
}
