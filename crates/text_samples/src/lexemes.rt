// Lexemes by the sentences of the language.
use std::alloc::Global;
use std::process::Abort;
use tla_lexeme::{LexError, lex};
use tla_symbols::Lexeme;
use tla_text::Text;
use tool_list::List;

const HEADER: &str = "----MODULE A----\n";

fn read(rt: &impl Abort, alloc: Global, source: &str) -> Text {
    assert!(rt; source.len() < 1000);
    Text::read(alloc, source.as_bytes()).expect(rt, source)
}

fn lexemes_of(rt: &impl Abort, alloc: Global, text: &Text) -> List<Lexeme> {
    assert!(rt; text.bytes().len() < 1000);
    lex(alloc, text).expect(rt, "lexemes")
}

// Puts a lexeme's kind and its spelling behind the others.
fn show(rt: &impl Abort, alloc: Global, text: &Text, lexeme: &Lexeme, shown: &mut String) {
    let span = lexeme.span.start as usize..lexeme.span.end as usize;
    let bytes = text.bytes().get(span).expect(rt, "a span lies in the text");
    let spelling = std::str::from_utf8(bytes).expect(rt, "a lexeme is UTF-8");
    let one = format!(in alloc; "{:?}<{spelling}> ", lexeme.kind).expect(rt, spelling);
    shown.push_str(one.as_str()).expect(rt, spelling);
}

// The lexemes behind the header, each with its kind and its spelling.
fn shown(rt: &impl Abort, alloc: Global, body: &str) -> String {
    let source = format!(in alloc; "{HEADER}{body}").expect(rt, body);
    let text = read(rt, alloc, source.as_str());
    let mut shown = String::new(alloc);
    for lexeme in lexemes_of(rt, alloc, &text).as_slice().iter().skip(4) {
        show(rt, alloc, &text, lexeme, &mut shown);
    }
    shown
}

// Lines behind the header, each with its lexemes.
static LONGEST: [(&str, &str); 16] = [
    ("1..5", "Number<1> Sym(DotDot)<..> Number<5> End<> "),
    ("1.5 .5", "Number<1.5> Number<.5> End<> "),
    (r"\b01 \hFFg", r"Number<\b01> Number<\hFF> Name<g> End<> "),
    (
        "1a 12_ _1",
        "Name<1a> Number<12> Mark(Underscore)<_> Mark(Underscore)<_> Number<1> End<> ",
    ),
    (
        "WF_x WF_",
        "Word(WeakFair)<WF_> Name<x> Word(WeakFair)<WF_> End<> ",
    ),
    ("x<-1", "Name<x> Mark(LeftArrow)<<-> Number<1> End<> "),
    ("G(-)", "Name<G> Sym(CircleMinus)<(-)> End<> "),
    (
        "]_ >>_ <=====",
        "Mark(RightBracketSubscript)<]_> Mark(RightAngleSubscript)<>>_> Sym(LessEqual)<<=> Close<====> ",
    ),
    (
        r"\inx \b2",
        r"Sym(In)<\in> Name<x> Sym(SetMinus)<\> Name<b2> End<> ",
    ),
    (
        "|---- r.1 1-.5",
        "Sym(RightTurnstile)<|-> Sym(MinusMinus)<--> Sym(Minus)<-> Name<r> Number<.1> Number<1> Sym(Negative)<-.> Number<5> End<> ",
    ),
    (r#""\q" x"#, r#"Bad<"> "#),
    (
        "\"\\\"\\\\ é\t\" \"a\nb\"",
        "Str<\"\\\"\\\\ é\t\"> Bad<\"> ",
    ),
    (
        r#"(* (* *) *)x\* "é
(*)"#,
        "Name<x> Bad<(*> ",
    ),
    (
        r"SUBSET \X y😀",
        r"Sym(PowerSet)<SUBSET> Sym(Product)<\X> Name<y> Bad<😀> ",
    ),
    ("===== MODULE", "Close<=====> "),
    (
        "MODULE ==== ==== x",
        "Word(Module)<MODULE> Equals<====> Close<====> ",
    ),
];

fn takes(rt: &impl Abort, alloc: Global, body: &str, expected: &str) {
    let found = shown(rt, alloc, body);
    assert!(rt; found.as_str() == expected, "{body}: {found}");
}

#[test]
fn takes_the_longest(rt: HostRuntime) {
    for (body, expected) in &LONGEST {
        takes(&rt, rt.alloc(), *body, *expected);
    }
}

// Puts a lexeme's byte, line and column behind the others.
fn place(rt: &impl Abort, alloc: Global, lexeme: &Lexeme, shown: &mut String) {
    let one = format!(in alloc; "{}@{}:{} ", lexeme.span.start, lexeme.line, lexeme.col);
    shown
        .push_str(one.expect(rt, "a place").as_str())
        .expect(rt, "a place");
}

// Where each lexeme of a text stands: its byte, its line and its column.
fn places_of(rt: &impl Abort, alloc: Global, source: &str) -> String {
    let text = read(rt, alloc, source);
    let mut shown = String::new(alloc);
    for lexeme in lexemes_of(rt, alloc, &text).as_slice() {
        place(rt, alloc, lexeme, &mut shown);
    }
    shown
}

fn stand(rt: &impl Abort, alloc: Global, source: &str, expected: &str) {
    let found = places_of(rt, alloc, source);
    assert!(rt; found.as_str() == expected, "{source}: {found}");
}

// Texts, each with where its lexemes stand.
static PLACES: [(&str, &str); 2] = [
    (
        "(* --- MODULE ---- MODULES ------\t MODULE",
        "27@0:27 35@0:41 41@0:47 ",
    ),
    (
        "x\r\n----MODULE A\r(* 😀\n*)\ty\"é\"\tz",
        "3@1:0 7@1:4 14@1:11 27@3:8 28@3:9 33@3:16 34@3:17 ",
    ),
];

#[test]
fn counts_lines_and_columns(rt: HostRuntime) {
    for (source, expected) in &PLACES {
        stand(&rt, rt.alloc(), *source, *expected);
    }
}

fn fault_of(rt: &impl Abort, alloc: Global, source: &str) -> Option<LexError> {
    let text = read(rt, alloc, source);
    assert!(rt; text.bytes().len() < 1000);
    lex(alloc, &text).err()
}

#[test]
fn looks_for_the_header(rt: HostRuntime) {
    let fault = fault_of(&rt, rt.alloc(), "--- MODULE A ---- MODULE_");
    assert!(rt; fault == Some(LexError::NoHeader));
}
