//! The lexemes from the header on.
ghost use Rattle.std.specs.Prelude.{◌≡◌, ◌==◌, ◌&&◌, ◌+◌, ◌≤◌, ◌<◌, ◌^◌, ◌∷◌, false, drop, length, IfOk, if◌then◌else◌};
ghost use Rattle.std.specs.Bool.{OnFalse};
ghost use Rattle.std.specs.List.{All};
ghost use Rattle.std.specs.Str.{IsCharBoundary, IsUtf8};
ghost use Rattle.tla_lexeme.specs.Lengths as lengths;
ghost use Rattle.tla_lexeme.specs.Lexing as lexing;
ghost use Rattle.tla_lexeme.specs.ModulePart as module_part;
ghost use Rattle.tla_lexeme.specs.Spans.{IsPlaced};
ghost use Rattle.tla_symbols.specs.declared.lexeme.LexKind.{LexKind};

use crate::begin::{Begin, Member, what_begins};
use crate::word::bare_len;
use std::alloc::Global;
use tla_symbols::{LexKind, Lexeme, Span, Word};
use tla_text::{Place, Text};
use tool_list::{List, Memory, skip};

// How many words `MODULE` and how many runs of `=` have been read.
#[derive(Clone, Copy)]
struct Counts {
    words: u32,
    runs: u32,
}

impl Counts {
    // Whether a lexeme of this kind closes the module.
    fn closes(self, kind: LexKind) -> bool
        requires { self.runs + 1 < 2 ^ 32 }
        ensures { result ≡ (module_part.is_equals kind && self.runs + 1 == self.words) }
    {
        is_equals(kind) && self.runs + 1 == self.words
    }

    fn after(self, kind: LexKind) -> Counts
        requires runs { self.runs + 1 < 2 ^ 32 }
        requires words { self.words + 1 < 2 ^ 32 }
        ensures words { result.words
            ≡ (if module_part.is_module_word kind then self.words + 1 else self.words) }
        ensures runs { result.runs
            ≡ (if module_part.is_equals kind then self.runs + 1 else self.runs) }
    {
        match kind {
            LexKind::Equals => Counts {
                words: self.words,
                runs: self.runs + 1,
            },
            LexKind::Word(Word::Module) => Counts {
                words: self.words + 1,
                runs: self.runs,
            },
            _ => self,
        }
    }
}

fn is_equals(kind: LexKind) -> bool
    ensures { result ≡ module_part.is_equals kind }
{
    matches!(kind, LexKind::Equals)
}

// The kind that a lexeme has in the module part.
fn kind_in(closes: bool, kind: LexKind) -> LexKind
    ensures { result ≡ (if closes then LexKind.Close else kind) }
{
    if closes { LexKind::Close } else { kind }
}

// A lexeme of so many bytes at an offset that has this place.
fn lexeme_of(at: u32, place: Place, kind: LexKind, len: u32) -> Lexeme
    requires { at + len < 2 ^ 32 }
    ensures { result
        ≡ record {
          kind = kind;
          span = record { start = at; end = at + len };
          line = place.line;
          col
              = place.column;
        } }
{
    Lexeme {
        kind,
        span: Span {
            start: at,
            end: at + len,
        },
        line: place.line,
        col: place.column,
    }
}

// What comes behind the blanks and comments at a place, and where.
#[derive(Clone, Copy)]
struct Behind {
    at: usize,
    bare: usize,
    begin: Begin,
}

// Passes over blanks and comments. So many bytes at the place are known to be digits and `_`, as
// `bare_len` counts them, or 0 where that is not known.
fn behind_gap(text: &[u8], start: usize, known: usize) -> Behind
    requires utf8 { IsUtf8 text.now }
    requires at_char { IsCharBoundary text.now start }
    requires known { 0 < known → known ≡ lengths.bare_len (drop start text.now) }
    ensures no_gap { lengths.is_gap result.begin ≡ false }
    ensures begin { result.begin ≡ lexing.what_begins (drop result.at text.now) }
    ensures bare { result.bare ≡ lengths.bare_len (drop result.at text.now) }
    ensures at_char { IsCharBoundary text.now result.at }
    ensures further { start ≤ result.at }
    ensures lexemes { lexing.lexemes_after text.now start 0 (drop start text.now)
        ≡ lexing.lexemes_after text.now result.at 0 (drop result.at text.now) }
{
    let mut at = start;
    let mut bare = known;
    while at < text.len() {
        let rest = skip(text, at);
        bare = bare_len(rest, bare);
        let begin = what_begins(rest, bare);
        let Begin::Gap(len) = begin else {
            return Behind { at, bare, begin };
        };
        at += len;
        bare = bare.saturating_sub(len);
    }
    Behind {
        at,
        bare: 0,
        begin: Begin::TextEnd,
    }
}

// The lexeme that comes next.
#[derive(Clone, Copy)]
struct Next {
    at: usize,
    member: Member,
    // What is known of the bytes behind it, as `bare_len` counts them.
    bare: usize,
    // Whether it is `End` or `Bad`.
    is_last: bool,
}

// The next lexeme: the longest behind blanks and comments, `Bad` where none begins there, or `End`.
fn next_lexeme(text: &[u8], start: usize, known: usize) -> Next
    requires utf8 { IsUtf8 text.now }
    requires at_char { IsCharBoundary text.now start }
    requires known { 0 < known → known ≡ lengths.bare_len (drop start text.now) }
    ensures lexemes { lexing.lexemes_after text.now start 0 (drop start text.now)
        ≡ lexing.lexeme_of text.now result.at result.member.kind result.member.len
        ∷ lengths.lexemes_behind text.now result.is_last (result.at + result.member.len) }
    ensures at_char { IsCharBoundary text.now result.at }
    ensures further { start ≤ result.at }
    ensures short { result.at + result.member.len ≤ length text.now + 4 }
    ensures behind { OnFalse result.is_last
        (lengths.IsBehind text.now result.at (result.at + result.member.len) result.bare) }
    ensures end_at_char { IsCharBoundary text.now (result.at + result.member.len) }
{
    let Behind { at, bare, begin } = behind_gap(text, start, known);
    match begin {
        Begin::Longest(member) => Next {
            at,
            member,
            bare: bare.saturating_sub(member.len),
            is_last: false,
        },
        Begin::Nothing(len) => Next {
            at,
            member: Member {
                len,
                kind: LexKind::Bad,
            },
            bare: 0,
            is_last: true,
        },
        _ => Next {
            at,
            member: Member {
                len: 0,
                kind: LexKind::End,
            },
            bare: 0,
            is_last: true,
        },
    }
}

/// The lexemes from an offset on, up to the run that closes the module.
pub fn part_from(alloc: Global, text: &Text, start: usize) -> Result<List<Lexeme>, Memory>
    requires at_char { IsCharBoundary text.now start }
    requires low { length text.now ≤ 2 ^ 27 }
    ensures part { IfOk result (λ found. found ≡ module_part.part_from text.now start) }
    ensures placed { IfOk result (λ found. All (λ l. IsPlaced text.now l.span) found) }
{
    let bytes = text.bytes();
    let mut found = List::new(alloc);
    let mut at = start;
    let mut bare = 0;
    let mut seen = start as u32;
    let mut place = text.align_place(seen);
    let mut counts = Counts { words: 0, runs: 0 };
    'lexemes: loop {
        let next = next_lexeme(bytes, at, bare);
        let here = next.at as u32;
        place = text.align_further(seen, place, here);
        seen = here;
        let closes = counts.closes(next.member.kind);
        found.push(lexeme_of(
            here,
            place,
            kind_in(closes, next.member.kind),
            next.member.len as u32,
        ))?;
        if closes || next.is_last {
            return Ok(found);
        }
        counts = counts.after(next.member.kind);
        at = next.at + next.member.len;
        bare = next.bare;
    }
}
