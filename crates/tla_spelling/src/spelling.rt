// The spellings of reserved words, symbols and marks. Each table has its entries in groups, each of
// one first byte: few words of a text begin as one of them.
ghost use Rattle.std.specs.Prelude.{◌≡◌};
ghost use Rattle.tla_spelling.specs.Groups as grouped;
ghost use Rattle.tla_spelling.specs.Spellings as spellings;

use tla_symbols::{Mark, Op, Word};

static WORDS: [(u8, &[(&str, Word)]); 11] = [
    (
        b'A',
        &[
            ("ASSUME", Word::Assume),
            ("ASSUMPTION", Word::Assumption),
            ("AXIOM", Word::Axiom),
        ],
    ),
    (
        b'C',
        &[
            ("CASE", Word::Case),
            ("CHOOSE", Word::Choose),
            ("CONSTANT", Word::Constant),
            ("CONSTANTS", Word::Constants),
        ],
    ),
    (
        b'E',
        &[
            ("ELSE", Word::Else),
            ("EXCEPT", Word::Except),
            ("EXTENDS", Word::Extends),
        ],
    ),
    (
        b'I',
        &[
            ("IF", Word::If),
            ("IN", Word::In),
            ("INSTANCE", Word::Instance),
        ],
    ),
    (b'L', &[("LET", Word::Let), ("LOCAL", Word::Local)]),
    (b'M', &[("MODULE", Word::Module)]),
    (b'O', &[("OTHER", Word::Other)]),
    (b'S', &[("SF_", Word::StrongFair)]),
    (b'T', &[("THEN", Word::Then), ("THEOREM", Word::Theorem)]),
    (
        b'V',
        &[("VARIABLE", Word::Variable), ("VARIABLES", Word::Variables)],
    ),
    (b'W', &[("WF_", Word::WeakFair), ("WITH", Word::With)]),
];

static SYMBOLS: [(u8, &[(&str, Op)]); 27] = [
    (b'~', &[("~", Op::Not), ("~>", Op::LeadsTo)]),
    (
        b'\\',
        &[
            ("\\lnot", Op::Not),
            ("\\neg", Op::Not),
            ("\\equiv", Op::Equivalent),
            ("\\land", Op::And),
            ("\\/", Op::Or),
            ("\\lor", Op::Or),
            ("\\in", Op::In),
            ("\\notin", Op::NotIn),
            ("\\subseteq", Op::SubsetEqual),
            ("\\leq", Op::LessEqual),
            ("\\geq", Op::GreaterEqual),
            ("\\subset", Op::Subset),
            ("\\supset", Op::Superset),
            ("\\supseteq", Op::SupersetEqual),
            ("\\sqsubset", Op::SquareSubset),
            ("\\sqsubseteq", Op::SquareSubsetEqual),
            ("\\sqsupset", Op::SquareSuperset),
            ("\\sqsupseteq", Op::SquareSupersetEqual),
            ("\\prec", Op::Precedes),
            ("\\preceq", Op::PrecedesEqual),
            ("\\succ", Op::Succeeds),
            ("\\succeq", Op::SucceedsEqual),
            ("\\ll", Op::MuchLess),
            ("\\gg", Op::MuchGreater),
            ("\\sim", Op::Similar),
            ("\\simeq", Op::SimilarEqual),
            ("\\asymp", Op::Asymptotic),
            ("\\approx", Op::Approximate),
            ("\\cong", Op::Congruent),
            ("\\doteq", Op::DotEqual),
            ("\\propto", Op::Proportional),
            ("\\cdot", Op::ActionCompose),
            ("\\", Op::SetMinus),
            ("\\cup", Op::Cup),
            ("\\union", Op::Cup),
            ("\\cap", Op::Cap),
            ("\\intersect", Op::Cap),
            ("\\sqcap", Op::SquareCap),
            ("\\sqcup", Op::SquareCup),
            ("\\uplus", Op::MultisetUnion),
            ("\\wr", Op::Wreath),
            ("\\oplus", Op::CirclePlus),
            ("\\ominus", Op::CircleMinus),
            ("\\X", Op::Product),
            ("\\times", Op::Product),
            ("\\odot", Op::CircleDot),
            ("\\otimes", Op::CircleTimes),
            ("\\bigcirc", Op::BigCircle),
            ("\\bullet", Op::BulletSign),
            ("\\o", Op::Concatenate),
            ("\\circ", Op::Concatenate),
            ("\\star", Op::StarSign),
            ("\\div", Op::Divide),
            ("\\oslash", Op::CircleSlash),
        ],
    ),
    (b'E', &[("ENABLED", Op::Enabled)]),
    (
        b'U',
        &[("UNCHANGED", Op::Unchanged), ("UNION", Op::BigUnion)],
    ),
    (b'[', &[("[]", Op::Always)]),
    (
        b'<',
        &[
            ("<>", Op::Eventually),
            ("<=>", Op::Equivalent),
            ("<", Op::Less),
            ("<=", Op::LessEqual),
            ("<:", Op::LessColon),
        ],
    ),
    (b'S', &[("SUBSET", Op::PowerSet)]),
    (b'D', &[("DOMAIN", Op::Domain)]),
    (
        b'-',
        &[
            ("-.", Op::Negative),
            ("-+->", Op::PlusArrow),
            ("-|", Op::LeftTurnstile),
            ("-", Op::Minus),
            ("--", Op::MinusMinus),
        ],
    ),
    (
        b'=',
        &[
            ("=>", Op::Implies),
            ("=", Op::Equal),
            ("=<", Op::LessEqual),
            ("=|", Op::LeftModels),
        ],
    ),
    (
        b'/',
        &[
            ("/\\", Op::And),
            ("/=", Op::NotEqual),
            ("/", Op::Slash),
            ("//", Op::SlashSlash),
        ],
    ),
    (b'#', &[("#", Op::NotEqual), ("##", Op::HashHash)]),
    (b'>', &[(">", Op::Greater), (">=", Op::GreaterEqual)]),
    (
        b'|',
        &[
            ("|-", Op::RightTurnstile),
            ("|=", Op::RightModels),
            ("|", Op::Bar),
            ("||", Op::BarBar),
        ],
    ),
    (
        b':',
        &[
            (":=", Op::Assign),
            ("::=", Op::Produces),
            (":>", Op::ColonGreater),
        ],
    ),
    (b'@', &[("@@", Op::AtAt)]),
    (b'.', &[("..", Op::DotDot), ("...", Op::Ellipsis)]),
    (b'!', &[("!!", Op::BangBang)]),
    (b'$', &[("$", Op::Dollar), ("$$", Op::DollarDollar)]),
    (b'?', &[("??", Op::QueryQuery)]),
    (b'+', &[("+", Op::Plus), ("++", Op::PlusPlus)]),
    (
        b'(',
        &[
            ("(+)", Op::CirclePlus),
            ("(-)", Op::CircleMinus),
            ("(.)", Op::CircleDot),
            ("(\\X)", Op::CircleTimes),
            ("(/)", Op::CircleSlash),
        ],
    ),
    (b'%', &[("%", Op::Percent), ("%%", Op::PercentPercent)]),
    (b'*', &[("*", Op::Star), ("**", Op::StarStar)]),
    (
        b'&',
        &[("&", Op::Ampersand), ("&&", Op::AmpersandAmpersand)],
    ),
    (
        b'^',
        &[
            ("^", Op::Caret),
            ("^^", Op::CaretCaret),
            ("^+", Op::PlusClosure),
            ("^*", Op::StarClosure),
            ("^#", Op::SharpClosure),
        ],
    ),
    (b'\'', &[("'", Op::Prime)]),
];

static MARKS: [(u8, &[(&str, Mark)]); 18] = [
    (b'=', &[("==", Mark::Define)]),
    (b'-', &[("->", Mark::Arrow)]),
    (b'<', &[("<-", Mark::LeftArrow), ("<<", Mark::LeftAngle)]),
    (b'|', &[("|->", Mark::MapsTo)]),
    (b',', &[(",", Mark::Comma)]),
    (b':', &[(":", Mark::Colon)]),
    (b'!', &[("!", Mark::Bang)]),
    (b'@', &[("@", Mark::At)]),
    (b'(', &[("(", Mark::LeftParen)]),
    (b')', &[(")", Mark::RightParen)]),
    (b'[', &[("[", Mark::LeftBracket)]),
    (
        b']',
        &[
            ("]", Mark::RightBracket),
            ("]_", Mark::RightBracketSubscript),
        ],
    ),
    (b'{', &[("{", Mark::LeftBrace)]),
    (b'}', &[("}", Mark::RightBrace)]),
    (
        b'>',
        &[(">>", Mark::RightAngle), (">>_", Mark::RightAngleSubscript)],
    ),
    (b'_', &[("_", Mark::Underscore)]),
    (b'.', &[(".", Mark::Dot)]),
    (
        b'\\',
        &[
            ("\\A", Mark::ForAll),
            ("\\E", Mark::Exists),
            ("\\AA", Mark::TemporalForAll),
            ("\\EE", Mark::TemporalExists),
        ],
    ),
];

// What the first entry with a spelling means.
fn meaning_of<E: Copy>(entries: &[(&str, E)], spelling: &[u8]) -> Option<E>
    ensures { result ≡ spellings.meaning_of (λ e. e.0.now) (λ e. e.1) entries.now spelling.now }
{
    for entry in entries {
        if entry.0.as_bytes() == spelling {
            return Some(entry.1);
        }
    }
    None
}

// What a spelling means that begins with a byte, in the first group of that byte.
fn meaning_from<E: Copy>(groups: &[(u8, &[(&str, E)])], first: u8, spelling: &[u8]) -> Option<E>
    ensures { result
        ≡ grouped.meaning_from (λ e. e.0.now) (λ e. e.1) (λ g. g.0)
        (λ g. g.1.now) groups.now first spelling.now }
{
    for group in groups {
        if group.0 == first {
            return meaning_of(group.1, spelling);
        }
    }
    None
}

// What a spelling means in a table whose entries stand in groups, each of one first byte.
fn meaning_in<E: Copy>(groups: &[(u8, &[(&str, E)])], spelling: &[u8]) -> Option<E>
    ensures { result
        ≡ grouped.meaning_in (λ e. e.0.now) (λ e. e.1) (λ g. g.0)
        (λ g. g.1.now) groups.now spelling.now }
{
    match spelling {
        [first, ..] => meaning_from(groups, *first, spelling),
        [] => None,
    }
}

/// The reserved word with this spelling. None exactly where there is none, and for the words that
/// are operators.
pub fn word_of(spelling: &[u8]) -> Option<Word>
    ensures { result ≡ spellings.word_of spelling.now }
{
    meaning_in(&WORDS, spelling)
}

/// The operator symbol with this spelling. None exactly where there is none.
pub fn op_of(spelling: &[u8]) -> Option<Op>
    ensures { result ≡ spellings.op_of spelling.now }
{
    meaning_in(&SYMBOLS, spelling)
}

/// The mark with this spelling. None exactly where there is none.
pub fn mark_of(spelling: &[u8]) -> Option<Mark>
    ensures { result ≡ spellings.mark_of spelling.now }
{
    meaning_in(&MARKS, spelling)
}
