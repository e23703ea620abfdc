// What no clause says of operators that wait: they cross threads, and the call that takes memory
// answers. Beside it a few neighbours of the book's table of precedences.
use precedence::{Clash, OpError, OpStack, Operator};
use std::alloc::Global;
use std::test::Fail;
use tla_symbols::{Fix, Op};

fn crosses_threads<T: Send + Sync>(_: &T) {}

// How many of two waiting infix operators close before the one that comes.
fn closed(
    alloc: Global,
    outer: Op,
    inner: Op,
    coming: Operator,
) -> Result<Result<u32, Clash>, OpError> {
    let mut stack = OpStack::new(alloc);
    stack.push(outer, Fix::Infix)?;
    stack.push(inner, Fix::Infix)?;
    Ok(stack.reduce(coming.op, coming.fix))
}

#[test]
fn tells_neighbours_apart(rt: HostRuntime) -> Result<(), Fail> {
    let alloc = rt.alloc();
    crosses_threads(&OpStack::new(alloc));
    crosses_threads(&OpError::Memory);
    crosses_threads(&Clash);
    for (outer, inner, op, fix, count) in [
        (Op::And, Op::Cup, Op::Cap, Fix::Infix, Err(Clash)),
        (Op::And, Op::Cup, Op::Cup, Fix::Infix, Ok(1)),
        (Op::And, Op::Plus, Op::Equal, Fix::Infix, Ok(1)),
        (Op::And, Op::Equal, Op::Plus, Fix::Infix, Ok(0)),
        (Op::And, Op::Product, Op::Product, Fix::Infix, Ok(0)),
        (Op::And, Op::Product, Op::Star, Fix::Infix, Err(Clash)),
        (Op::And, Op::Implies, Op::Implies, Fix::Infix, Err(Clash)),
        (Op::Or, Op::And, Op::Or, Fix::Infix, Err(Clash)),
        (Op::Plus, Op::Star, Op::Prime, Fix::Postfix, Ok(0)),
        (Op::Plus, Op::Star, Op::Equal, Fix::Infix, Ok(2)),
        (Op::And, Op::Equal, Op::In, Fix::Infix, Err(Clash)),
        (Op::And, Op::Equal, Op::And, Fix::Infix, Ok(2)),
    ] {
        let found = closed(alloc, outer, inner, Operator { op, fix })?;
        assert!(rt; found == count);
    }
    Ok(())
}
