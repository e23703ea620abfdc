// What no clause says of open lists: they cross threads, and the call that takes memory answers.
use junction_lists::ListStack;
use std::test::Fail;
use tla_symbols::{LexKind, Lexeme, Op, Span};

fn crosses_threads<T: Send + Sync>(_: &T) {}

fn sign(op: Op, length: u32, col: u32) -> Lexeme {
    Lexeme {
        kind: LexKind::Sym(op),
        span: Span {
            start: 10,
            end: length.saturating_add(10),
        },
        line: 0,
        col,
    }
}

#[test]
fn keeps_columns(rt: HostRuntime) -> Result<(), Fail> {
    let alloc = rt.alloc();
    let mut lists = ListStack::new(alloc);
    crosses_threads(&lists);
    assert_eq!(rt; lists.covers(0), 0);
    assert!(rt; !lists.bullet(&sign(Op::And, 2, 4)));
    lists.open(Op::And, 4)?;
    lists.open(Op::Or, 7)?;
    lists.open(Op::And, 9)?;
    for (col, covered) in [(0, 3), (4, 3), (5, 2), (7, 2), (8, 1), (9, 1), (10, 0)] {
        assert_eq!(rt; lists.covers(col), covered, "{col}");
    }
    for (op, length, col, is_bullet) in [
        (Op::And, 2, 9, true),
        (Op::And, 5, 9, false),
        (Op::Or, 2, 9, false),
        (Op::And, 2, 8, false),
        (Op::Or, 2, 7, false),
        (Op::Cup, 2, 9, false),
    ] {
        assert_eq!(rt; lists.bullet(&sign(op, length, col)), is_bullet, "{col}");
    }
    lists.after(1);
    assert!(rt; lists.bullet(&sign(Op::Or, 2, 7)));
    lists.after(2);
    assert_eq!(rt; lists.covers(0), 0);
    Ok(())
}
