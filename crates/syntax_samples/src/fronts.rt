// Fronts of texts beside what the sentences of the language ask of them.
use std::alloc::Global;
use std::process::Abort;
use std::test::Fail;
use tla_front::{FrontError, front};
use tla_model::Diagnostic;

// What the front of a text is.
#[derive(Clone, Copy, Debug, PartialEq, Eq)]
enum Found {
    // A tree with so many units and of this height. A nested module has its begin and its end as units.
    Tree(usize, u32),
    // A fault of this code, from one byte to another.
    Fault(u16, u32, u32),
    Unread,
}

use Found::{Fault, Tree};

// The front of a text, for a file of the name `A`.
fn front_of(rt: &impl Abort, alloc: Global, text: &[u8]) -> Found {
    assert!(rt; text.len() < 2_000_000);
    match front(alloc, "A", text) {
        Ok(tree) => Tree(tree.units.len(), tree.height),
        Err(FrontError::Fault(Diagnostic { code, span })) => Fault(code, span.start, span.end),
        Err(FrontError::Memory) => Found::Unread,
    }
}

// Each of these texts has its front.
fn finds(rt: &impl Abort, alloc: Global, rows: &[(&[u8], Found)]) {
    for (row, (text, front)) in rows.iter().enumerate() {
        assert_eq!(rt; front_of(rt, alloc, *text), *front, "row {row}");
    }
}

// Each of these units has its front, as the only ones of a module. The first line has 19 bytes.
fn finds_units(rt: &impl Abort, alloc: Global, rows: &[(&str, Found)]) -> Result<(), Fail> {
    for (units, front) in rows {
        let text = format!(in alloc; "---- MODULE A ----\n{units}\n====")?;
        assert_eq!(rt; front_of(rt, alloc, text.as_bytes()), *front, "{units}");
    }
    Ok(())
}

// With these pieces around it so often, the unit is as high as may be, or too high.
fn finds_heights(rt: &impl Abort, alloc: Global, unit: [&str; 5], end: u32) -> Result<(), Fail> {
    let [before, open, inside, close, after] = unit;
    for (times, height) in [(998, 999), (999, 1000), (1000, 1001)] {
        let (opened, closed) = (open.repeat(alloc, times)?, close.repeat(alloc, times)?);
        let text = format!(in alloc;
            "---- MODULE A ----\n{before}{opened}{inside}{closed}{after}\n===="
        )?;
        let front = if height > 1000 {
            Fault(105, 19, end)
        } else {
            Tree(1, height)
        };
        assert_eq!(rt;
            front_of(rt, alloc, text.as_bytes()),
            front,
            "{before}{open}{close}{after}"
        );
    }
    Ok(())
}

// Declarations, `EXTENDS` and lines.
static DECLARATIONS: [(&str, Found); 26] = [
    ("", Tree(0, 0)),
    ("EXTENDS Naturals, B", Tree(0, 0)),
    ("EXTENDS VARIABLE x", Fault(202, 27, 35)),
    ("EXTENDS B,", Fault(202, 30, 34)),
    ("EXTENDS B EXTENDS C", Fault(202, 29, 36)),
    ("VARIABLE x EXTENDS B", Fault(202, 30, 37)),
    ("VARIABLE x VARIABLES y, 1z", Tree(2, 1)),
    ("VARIABLE", Fault(202, 28, 32)),
    ("VARIABLE x,", Fault(202, 31, 35)),
    ("VARIABLE x f(_)", Fault(202, 33, 34)),
    ("VARIABLE x(_)", Fault(202, 29, 30)),
    ("VARIABLES x y", Fault(202, 33, 37)),
    (
        "CONSTANT c CONSTANTS d, F(_), G(_, _), -. _, _ + _, _ ^+",
        Tree(2, 1),
    ),
    ("CONSTANT F()", Fault(202, 30, 31)),
    ("CONSTANT F(x)", Fault(202, 30, 31)),
    ("CONSTANT F(_+_)", Fault(202, 31, 32)),
    ("CONSTANT - _", Fault(202, 28, 29)),
    ("CONSTANT -. x", Fault(202, 31, 32)),
    ("CONSTANT _ => _", Fault(202, 30, 32)),
    ("CONSTANT _ + x", Fault(202, 32, 33)),
    ("CONSTANT _ + _ + _", Fault(202, 34, 35)),
    ("LOCAL CONSTANT c", Fault(202, 25, 33)),
    ("LOCAL ASSUME TRUE", Fault(202, 25, 31)),
    ("LOCAL ----", Fault(202, 25, 29)),
    ("---- ------ VARIABLE x ----", Tree(4, 1)),
    ("--- VARIABLE x", Fault(202, 19, 21)),
];

// Definitions.
static DEFINITIONS: [(&str, Found); 35] = [
    ("LOCAL F == 1 G == F", Tree(2, 1)),
    ("F(x, G(_), _ + _, -. _) == G(x) + x", Tree(1, 3)),
    ("-. a == a LOCAL a (+) b == <<a, b>> a ^# == a'", Tree(3, 2)),
    (
        r"f[x, y \in S, <<z, 1w>> \in T \cup U] == x[y, z]",
        Tree(1, 2),
    ),
    (
        "I == INSTANCE B J(c, F(_)) == INSTANCE B WITH d <- F(c), + <- F",
        Tree(2, 2),
    ),
    ("F = 1", Fault(202, 21, 22)),
    ("F ==", Fault(202, 24, 28)),
    ("F) == 1", Fault(202, 20, 21)),
    ("F() == 1", Fault(202, 21, 22)),
    ("F(x == 1", Fault(202, 23, 25)),
    ("F(x, 1) == x", Fault(202, 24, 25)),
    ("F(- _) == 1", Fault(202, 21, 22)),
    (r"F(x)[y \in S] == 1", Fault(202, 23, 24)),
    ("F(x, G(_)) == 1 )", Fault(202, 35, 36)),
    ("x => y == 1", Fault(202, 21, 23)),
    ("x + 1 == 1", Fault(202, 23, 24)),
    ("x + y = 1", Fault(202, 25, 26)),
    ("x ' == 1", Fault(202, 21, 22)),
    ("x ^+ y == 1", Fault(202, 24, 25)),
    (r"x \X y == 1", Fault(202, 21, 23)),
    ("~ x == 1", Fault(202, 19, 20)),
    ("- x == 1", Fault(202, 19, 20)),
    ("f[x] == 1", Fault(202, 22, 23)),
    (r"f[x \in S => T] == 1", Fault(202, 29, 31)),
    (r"f[x \in S, y] == 1", Fault(202, 31, 32)),
    (r"f[<<x, 1>> \in S] == 1", Fault(202, 26, 27)),
    (r"f[x \in S] ( y) == 1", Fault(202, 30, 31)),
    (r"f[x \in S] == INSTANCE B", Fault(202, 33, 41)),
    ("LOCAL F == 1 LOCAL", Fault(202, 38, 42)),
    ("a + b == INSTANCE B", Fault(202, 28, 36)),
    (
        r"F ==
  /\ a
  /\ b
-. x == x",
        Tree(2, 2),
    ),
    (r"F == /\ a -. x == 1", Tree(2, 2)),
    ("F == a -. x == 1", Tree(2, 1)),
    (r"F == /\ a - x == 1", Fault(202, 33, 35)),
    ("F == 1 2", Fault(202, 26, 27)),
];

// Instances, assumptions and theorems.
static INSTANCES: [(&str, Found); 25] = [
    ("INSTANCE B LOCAL INSTANCE C", Tree(2, 1)),
    (
        "INSTANCE B WITH x <- y + 1, + <- *, -. <- -., ^+ <- ', F <- G",
        Tree(1, 2),
    ),
    ("INSTANCE B WITH F <- + a == 1", Tree(2, 1)),
    ("INSTANCE B WITH F <- +\nVARIABLE x", Tree(2, 1)),
    ("INSTANCE B WITH F <- =>", Tree(1, 1)),
    ("INSTANCE 1", Fault(202, 28, 29)),
    ("INSTANCE B WITH", Fault(202, 35, 39)),
    ("INSTANCE B WITH x, y <- z", Fault(202, 36, 37)),
    ("INSTANCE B WITH x <-", Fault(202, 40, 44)),
    ("INSTANCE B WITH x <- y,", Fault(202, 43, 47)),
    ("INSTANCE B WITH F <- -", Fault(202, 42, 46)),
    (r"INSTANCE B WITH F <- /\", Fault(202, 43, 47)),
    (r"INSTANCE B WITH F <- \X", Fault(202, 40, 42)),
    ("INSTANCE B WITH F <- ~", Fault(202, 42, 46)),
    ("INSTANCE B WITH => <- F", Fault(202, 35, 37)),
    ("INSTANCE B WITH - <- F", Tree(1, 1)),
    ("INSTANCE B WITH F <- + + a", Fault(202, 42, 43)),
    ("INSTANCE B(c)", Fault(202, 29, 30)),
    ("INSTANCE B VARIABLE x WITH c <- d", Fault(202, 41, 45)),
    (
        r"ASSUME a \in S ASSUMPTION b AXIOM c THEOREM a = b",
        Tree(4, 2),
    ),
    ("ASSUME VARIABLE x", Fault(202, 26, 34)),
    ("ASSUME F == 1", Fault(202, 28, 30)),
    ("THEOREM", Fault(202, 27, 31)),
    ("THEOREM T == 1", Fault(202, 29, 31)),
    ("AXIOM INSTANCE B", Fault(202, 25, 33)),
];

// Expressions, each as the body of a definition.
static EXPRESSIONS: [(&str, Found); 33] = [
    (
        "F == LET I == INSTANCE B WITH c <- a' IN I!G(b)",
        Tree(1, 3),
    ),
    (
        r"F == LET f[x \in S] == x G(y) == 1 a + b == a IN f[1]",
        Tree(1, 3),
    ),
    ("F == LET IN 1", Fault(202, 28, 30)),
    ("F == LET VARIABLE x IN 1", Fault(202, 28, 36)),
    ("F == LET LOCAL G == 1 IN 1", Fault(202, 28, 33)),
    ("F == LET INSTANCE B IN 1", Fault(202, 28, 36)),
    ("F == LET G == 1", Fault(202, 35, 39)),
    (r"F == {x \in S : y \in T}", Tree(1, 3)),
    (r"F == {x \in S, y \in T}", Tree(1, 3)),
    ("F == {x + 1 : y}", Fault(202, 34, 35)),
    (r"F == [x, y \in S, <<z, w>> \in T |-> {}]", Tree(1, 2)),
    (
        "F == [[f EXCEPT !.a[1, i] = @ + 1, !.b = {}] EXCEPT ![1] = <<>>]",
        Tree(1, 4),
    ),
    (
        r"F == [a]_b' \/ <<a>>_<<x, y>> \/ WF_b(a) \/ SF_(b)(a)",
        Tree(1, 6),
    ),
    ("F == [a]_[b]_x", Fault(202, 30, 32)),
    ("F == CASE a -> b [] OTHER -> c", Tree(1, 2)),
    (
        "F == CASE a -> b [] OTHER -> c [] d -> e",
        Fault(202, 50, 52),
    ),
    ("F == IF a THEN b", Fault(202, 36, 40)),
    (
        r"F == G(/\, -, -., ~, ', =>) \X G(++) \X B!G(1)!H",
        Tree(1, 3),
    ),
    ("F == G(+) a", Tree(1, 2)),
    (r"F == G(\X, 1)", Fault(202, 26, 28)),
    ("F == G()", Fault(202, 26, 27)),
    (
        r"F == \A x, y \in S : \E z : \AA u : CHOOSE <<v, w>> \in S : z",
        Tree(1, 5),
    ),
    (r"F == \AA x \in S : x", Fault(202, 30, 33)),
    ("F == CHOOSE x, y : x", Fault(202, 32, 33)),
    ("F == a = b = c", Fault(202, 30, 31)),
    (r"F == a \cup b \cap c", Fault(202, 33, 37)),
    ("F == ENABLED a'", Fault(202, 33, 34)),
    ("F == -. a", Fault(202, 24, 26)),
    ("F == ~a' = -b + c.d[1].e", Tree(1, 7)),
    (
        r"F == /\ a
     \/ b",
        Tree(1, 3),
    ),
    (
        r"F == /\ (a
     \/ b)",
        Fault(202, 35, 37),
    ),
    (
        r"F == /\ a
     /\",
        Fault(202, 37, 41),
    ),
    (r#"F == \h1F + \b01 + \o17 + .5 + 1.5 + "a\n""#, Tree(1, 6)),
];

// Headers, closing lines, nested modules, and texts without a lexeme.
static MODULES: [(&[u8], Found); 21] = [
    (b"---- MODULE A ----\n====", Tree(0, 0)),
    (
        b"a ? \"\n-----MODULE A--------\nVARIABLE x====\n? VARIABLE \"",
        Tree(1, 1),
    ),
    (
        b"---- MODULE A ----\n---- MODULE B ---- EXTENDS C VARIABLE x ====\nVARIABLE y ====",
        Tree(4, 2),
    ),
    (
        b"---- MODULE A ----\n---- MODULE B ----\n---- MODULE C ---- ====\nF == {{}}\n====\n====",
        Tree(5, 3),
    ),
    (
        b"---- MODULE A ----\n---- MODULE B ----\n====\n",
        Fault(202, 43, 43),
    ),
    (
        b"---- MODULE A ----\n---- MODULE B ----\nVARIABLE ====\n====",
        Fault(202, 47, 51),
    ),
    (
        b"---- MODULE A ----\n---- MODULE ----\n====\n====",
        Fault(202, 31, 35),
    ),
    (
        b"---- MODULE A ----\nLOCAL ---- MODULE B ----\n====\n====",
        Fault(202, 25, 29),
    ),
    (b"---- MODULE A ====", Fault(202, 14, 18)),
    (b"---- MODULE VARIABLE ----\n====", Fault(202, 12, 20)),
    (b"---- MODULE 1 ----\n====", Fault(202, 12, 13)),
    (b"---- MODULE A ---- F == 1 ", Fault(202, 26, 26)),
    (b"---- MODULE A ---- F == ?", Fault(201, 24, 25)),
    (b"---- MODULE A ---- F == \"a", Fault(201, 24, 25)),
    (b"---- MODULE A ---- F == 1 (* (* *)", Fault(201, 26, 28)),
    (b"---- MODULE A ---- F == a = b = ?", Fault(202, 30, 31)),
    (b"--- MODULE A ---\n====", Fault(102, 0, 0)),
    (b"---- MODULES A ----\n====", Fault(102, 0, 0)),
    (b"---- MODULE B ----\n====", Fault(103, 12, 13)),
    (b"---- MODULE AA ----\nVARIABLE x\n====", Fault(103, 12, 14)),
    (b"---- MODULE B ----\nVARIABLE ====", Fault(202, 28, 32)),
];

// What opens a level of an expression, what stands inside all, and what closes a level.
static LEVELS: [(&str, &str, &str); 36] = [
    ("(", "a", ")"),
    ("{", "a", "}"),
    ("<<", "a", ">>"),
    ("f[", "a", "]"),
    ("", "a", "[1]"),
    ("", "a", ".b"),
    ("", "a", "'"),
    ("", "a", " + a"),
    ("~", "a", ""),
    (r"/\ ", "a", ""),
    ("F(", "a", ")"),
    ("I!F(a, ", "a", ")!G"),
    ("IF a THEN ", "a", " ELSE a"),
    ("IF ", "a", " THEN a ELSE a"),
    ("IF a THEN a ELSE ", "a", ""),
    ("CASE a -> ", "a", ""),
    ("CASE ", "a", " -> a"),
    ("CASE a -> a [] OTHER -> ", "a", ""),
    ("LET x == 1 IN ", "a", ""),
    ("LET x == ", "a", " IN x"),
    (r"LET f[x \in ", "a", "] == 1 IN 1"),
    ("LET I == INSTANCE B WITH c <- ", "a", " IN 1"),
    (r"\A x : ", "a", ""),
    (r"\E x \in ", "a", " : a"),
    ("CHOOSE x : ", "a", ""),
    (r"{x \in ", "a", " : a}"),
    ("{", "a", r" : x \in a}"),
    (r"[x \in a |-> ", "a", "]"),
    ("[a -> ", "a", "]"),
    ("[h |-> ", "a", "]"),
    ("[h : ", "a", "]"),
    ("[a EXCEPT ![", "a", "] = a]"),
    ("[", "a", " EXCEPT !.h = a]"),
    ("[", "a", "]_b"),
    ("<<", "a", ">>_b"),
    ("WF_b(", "a", ")"),
];

// What stands in a unit before its expression and behind it, and where its first lexeme ends.
static UNITS: [(&str, &str, u32); 9] = [
    ("LOCAL F == ", "", 24),
    ("F(x) == ", "", 20),
    ("-. x == ", "", 21),
    (r"f[x \in ", "] == 1", 20),
    (r"f[x \in S] == ", "", 20),
    ("INSTANCE B WITH c <- ", "", 27),
    ("I == INSTANCE B WITH c <- ", "", 20),
    ("ASSUME ", "", 25),
    ("THEOREM ", "", 26),
];

// Where `@` is of height 1,000: what is too high is at fault where no lexeme is bad, whatever the
// module's name.
static ORDER: [(&str, Found); 9] = [
    ("---- MODULE A ----\nF == @\n====", Tree(1, 1000)),
    ("---- MODULE A ----\nF == {@}\n====", Fault(105, 19, 20)),
    ("---- MODULE B ----\nF == {@}\n====", Fault(105, 19, 20)),
    ("---- MODULE B ----\nF == @\n====", Fault(103, 12, 13)),
    (
        "---- MODULE A ----\nF == {@}\n====\nF ==",
        Fault(105, 19, 20),
    ),
    (
        "---- MODULE A ----\nVARIABLE x\nLOCAL F == {@}\nG == {@}\n====",
        Fault(105, 30, 35),
    ),
    (
        "---- MODULE A ----\nVARIABLE x\n---- MODULE B ----\nF == 1\nG == @\n====\n====",
        Fault(105, 30, 34),
    ),
    (
        "---- MODULE A ----\nF == {@} =\n====",
        Fault(202, 2028, 2032),
    ),
    (
        "---- MODULE A ----\nF == {@} = ?\n====",
        Fault(201, 2028, 2029),
    ),
];

#[test]
fn reads_units(rt: HostRuntime) -> Result<(), Fail> {
    let alloc = rt.alloc();
    finds_units(&rt, alloc, &DECLARATIONS)?;
    finds_units(&rt, alloc, &DEFINITIONS)?;
    finds_units(&rt, alloc, &INSTANCES)?;
    finds_units(&rt, alloc, &EXPRESSIONS)
}

#[test]
fn reads_modules(rt: HostRuntime) {
    finds(&rt, rt.alloc(), &MODULES);
}

#[test]
fn limits_heights(rt: HostRuntime) -> Result<(), Fail> {
    let alloc = rt.alloc();
    for (open, inside, close) in &LEVELS {
        finds_heights(&rt, alloc, ["F == ", *open, *inside, *close, ""], 20)?;
    }
    for (before, after, end) in &UNITS {
        finds_heights(&rt, alloc, [*before, "(", "a", ")", *after], *end)?;
    }
    Ok(())
}

#[test]
fn limits_nested_modules(rt: HostRuntime) -> Result<(), Fail> {
    let alloc = rt.alloc();
    for (times, front) in [
        (999, Tree(1998, 999)),
        (1000, Tree(2000, 1000)),
        (1001, Fault(105, 19, 23)),
        (3000, Fault(105, 19, 23)),
    ] {
        let (opened, closed) = (
            "---- MODULE B ----\n".repeat(alloc, times)?,
            "====\n".repeat(alloc, times)?,
        );
        let text = format!(in alloc; "---- MODULE A ----\n{opened}{closed}====")?;
        assert_eq!(rt; front_of(&rt, alloc, text.as_bytes()), front, "{times}");
    }
    Ok(())
}

#[test]
fn orders_faults(rt: HostRuntime) -> Result<(), Fail> {
    let alloc = rt.alloc();
    let (opened, closed) = ("(".repeat(alloc, 999)?, ")".repeat(alloc, 999)?);
    let high = format!(in alloc; "{opened}a{closed}")?;
    for (text, front) in &ORDER {
        let text = text.replace(alloc, "@", high.as_str())?;
        assert_eq!(rt; front_of(&rt, alloc, text.as_bytes()), *front, "{text}");
    }
    Ok(())
}

#[test]
fn refuses_what_is_no_module(rt: HostRuntime) -> Result<(), Fail> {
    let alloc = rt.alloc();
    let (full, large, no_text) = (
        vec![in alloc; b' '; 1 << 20]?,
        vec![in alloc; b' '; (1 << 20) + 1]?,
        vec![in alloc; 0xff; (1 << 20) + 1]?,
    );
    let rows: [(&[u8], Found); 9] = [
        (b"", Fault(102, 0, 0)),
        (full.as_slice(), Fault(102, 0, 0)),
        (large.as_slice(), Fault(104, 0, 0)),
        (no_text.as_slice(), Fault(101, 0, 0)),
        (b"\xff", Fault(101, 0, 0)),
        (b"---- MODULE A ----\n\xc3\xa9\xc3", Fault(101, 21, 21)),
        (b"---- MODULE A ----\n\xc3\xa9\n====", Fault(201, 19, 21)),
        (
            b"---- MODULE A ----\n====\n\xc3\xa9\xe2\x82",
            Fault(101, 26, 26),
        ),
        (
            b"---- MODULE A ----\n(* \xe2\x82\xac *) x == ?",
            Fault(201, 34, 35),
        ),
    ];
    finds(&rt, alloc, &rows);
    Ok(())
}
