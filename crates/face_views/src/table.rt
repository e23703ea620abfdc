// Whether tables have the same names, in the same order, with the same meanings.
ghost use Rattle.std.specs.Prelude.{◌≡◌};
ghost use Rattle.tla_model.specs.Stretches.{shown};
ghost use Rattle.face_views.specs.Exact.{Tells};

use crate::meaning::is_same_meaning;
use tla_model::{Meaning, NameTable};
use tla_symbols::Op;

// Whether words are the same, and what they mean. Words are short, so that to compare their bytes
// one by one is the least work.
fn is_same_word(one: (&str, &Meaning), other: (&str, &Meaning)) -> bool
    ensures { Tells result (shown one.entry ≡ shown other.entry) }
{
    one.0.as_bytes() == other.0.as_bytes() && is_same_meaning(one.1, other.1)
}

// Whether the words are the same.
fn are_same_words(one: &NameTable, other: &NameTable) -> bool
    ensures { Tells result (one.now.words ≡ other.now.words) }
{
    let len = one.len();
    if len != other.len() {
        return false;
    }
    for index in 0..len {
        let Some(word) = one.word_at(index) else {
            unreachable!();
        };
        let Some(second) = other.word_at(index) else {
            unreachable!();
        };
        if !is_same_word(word, second) {
            return false;
        }
    }
    true
}

// Whether symbols are the same, and what they mean.
fn is_same_symbol(one: &(Op, Meaning), other: &(Op, Meaning)) -> bool
    ensures { Tells result (one.now ≡ other.now) }
{
    one.0 == other.0 && is_same_meaning(&one.1, &other.1)
}

// Whether all symbols are the same.
fn are_same_symbols(one: &[(Op, Meaning)], other: &[(Op, Meaning)]) -> bool
    ensures { Tells result (one.now ≡ other.now) }
{
    if one.len() != other.len() {
        return false;
    }
    for index in 0..one.len() {
        if !is_same_symbol(&one[index], &other[index]) {
            return false;
        }
    }
    true
}

/// Whether tables have the same words and the same symbols, each in the same order and with the
/// same meanings.
pub fn are_same_names(one: &NameTable, other: &NameTable) -> bool
    ensures { Tells result (one.now ≡ other.now) }
{
    are_same_words(one, other) && are_same_symbols(one.symbols(), other.symbols())
}
