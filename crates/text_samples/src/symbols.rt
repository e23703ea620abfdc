// Values from the tables of the language.
use tla_spelling::{mark_of, op_of, word_of};
use tla_symbols::{Fix, Kind, Mark, Op, Rule, Word, definable, range_of, rule_of};

fn crosses_threads<T: Send + Sync>() {}

#[test]
fn crosses() {
    crosses_threads::<Option<Op>>();
    crosses_threads::<Option<Rule>>();
    crosses_threads::<Kind>();
}

static SYNONYMS: [(&str, Option<Op>); 15] = [
    (r"\land", Some(Op::And)),
    (r"/\", Some(Op::And)),
    (r"\neg", Some(Op::Not)),
    ("/=", Some(Op::NotEqual)),
    ("<=", Some(Op::LessEqual)),
    (r"\union", Some(Op::Cup)),
    ("UNION", Some(Op::BigUnion)),
    (r"\times", Some(Op::Product)),
    (r"(\X)", Some(Op::CircleTimes)),
    (r"\circ", Some(Op::Concatenate)),
    ("-.", Some(Op::Negative)),
    ("-", Some(Op::Minus)),
    ("==", None),
    (r"\inx", None),
    ("", None),
];

#[test]
fn joins_synonyms(rt: HostRuntime) {
    for (spelling, op) in &SYNONYMS {
        assert!(rt; op_of(spelling.as_bytes()) == *op, "{spelling}");
    }
}

static WORDS: [(&str, Option<Word>); 5] = [
    ("WF_", Some(Word::WeakFair)),
    ("ASSUMPTION", Some(Word::Assumption)),
    ("ENABLED", None),
    ("TRUE", None),
    ("LAMBDA", None),
];

static MARKS: [(&str, Option<Mark>); 3] = [
    ("]_", Some(Mark::RightBracketSubscript)),
    (r"\AA", Some(Mark::TemporalForAll)),
    ("=", None),
];

#[test]
fn tells_words_and_marks_apart(rt: HostRuntime) {
    for (spelling, word) in &WORDS {
        assert!(rt; word_of(spelling.as_bytes()) == *word, "{spelling}");
    }
    for (spelling, mark) in &MARKS {
        assert!(rt; mark_of(spelling.as_bytes()) == *mark, "{spelling}");
    }
}

fn infix_range(op: Op) -> Option<(u8, u8, bool)> {
    let range = range_of(op, Fix::Infix)?;
    Some((range.lo, range.hi, range.left))
}

static RANGES: [(Op, Option<(u8, u8, bool)>); 4] = [
    (Op::ActionCompose, Some((5, 14, true))),
    (Op::Percent, Some((10, 11, false))),
    (Op::Minus, Some((11, 11, true))),
    (Op::Prime, None),
];

// Symbols as what stands before or behind an operand: whether it has a range, and whether it can be
// defined.
static FIXES: [(Op, Fix, bool, bool); 4] = [
    (Op::Minus, Fix::Prefix, true, false),
    (Op::Negative, Fix::Prefix, false, true),
    (Op::SharpClosure, Fix::Postfix, true, true),
    (Op::Prime, Fix::Postfix, true, false),
];

#[test]
fn gives_places(rt: HostRuntime) {
    for (op, range) in &RANGES {
        assert!(rt; infix_range(*op) == *range, "{op:?}");
    }
    assert!(rt; rule_of(Op::PlusArrow, Fix::Infix) == Some(Rule::Leads));
    assert!(rt; rule_of(Op::DotDot, Fix::Infix).is_none());
}

#[test]
fn tells_what_can_be_defined(rt: HostRuntime) {
    for (op, fix, has_range, is_definable) in &FIXES {
        assert!(rt; range_of(*op, *fix).is_some() == *has_range, "{op:?}");
        assert!(rt; definable(*op, *fix) == *is_definable, "{op:?}");
    }
}
