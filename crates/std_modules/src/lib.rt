//! The built-in modules.
//!
//! Answers the text of a built-in module, and the names of all. Knows nothing of how a text is read.
#![tactic(auto)]

ghost use Rattle.std.specs.Prelude.{◌≡◌, option_copied};
ghost use Rattle.std_modules.specs.StdTexts as std_texts;

mod texts;

use texts::{BAGS, FINITE_SETS, INTEGERS, NATURALS, REAL_TIME, REALS, SEQUENCES, TLC};

/// The names of the built-in modules, each once.
pub static STD_NAMES: [&str; 8] = [
    "Naturals",
    "Integers",
    "Reals",
    "Sequences",
    "FiniteSets",
    "Bags",
    "RealTime",
    "TLC",
];

static TEXTS: [(&str, &str); 8] = [
    ("Naturals", NATURALS),
    ("Integers", INTEGERS),
    ("Reals", REALS),
    ("Sequences", SEQUENCES),
    ("FiniteSets", FINITE_SETS),
    ("Bags", BAGS),
    ("RealTime", REAL_TIME),
    ("TLC", TLC),
];

// The text of the first entry with a name.
fn text_in(texts: &[(&'static str, &'static str)], name: &str) -> Option<&'static str>
    ensures { option_copied result
        ≡ std_texts.text_in (λ e. e.0.now) (λ e. e.1.now) texts.now name.now }
{
    for text in texts {
        if text.0 == name {
            return Some(text.1);
        }
    }
    None
}

/// The text of the built-in module of this name. None exactly for any other name.
pub fn std_text(name: &str) -> Option<&'static str>
    ensures { option_copied result ≡ std_texts.std_text name.now }
{
    text_in(&TEXTS, name)
}
