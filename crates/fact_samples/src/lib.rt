//! A small way to derive facts, and the tests of the store of facts over it.
//!
//! A text has a face of one byte, one byte that no other text sees, and the names of two bytes that
//! it needs. A text that begins with `!` is broken.
#![tactic(auto)]

ghost use Rattle.std.specs.Prelude.{◌≡◌, ◌+◌, ◌*◌, ◌%◌, ◌<◌, ℕ, List, IfOk, slice_index};
ghost use Rattle.fact_store.specs.Given.{input_state, states};
ghost use Rattle.fact_samples.specs.Sample as sample;

use fact_store::{Derive, Given, Input};
use std::alloc::Global;
use std::str;
use step_count::Steps;
use tool_list::{Chars, List, Memory};

/// What is derived of a small text.
#[derive(Clone, Copy, Debug, PartialEq, Eq)]
pub struct SampleFact {
    /// The byte that other texts see.
    pub face: u8,
    /// The byte that they do not see.
    pub hidden: u8,
    /// A digest of what the needs give.
    pub below: u32,
}

/// The way to derive facts of small texts.
#[derive(Drop)]
pub struct Sample;

// The byte at an index, or 0 past the end.
fn byte_at(bytes: &[u8], index: usize) -> u8
    ensures { result ≡ slice_index bytes.now index }
{
    match bytes.get(index) {
        Some(byte) => *byte,
        None => 0,
    }
}

// Names of two bytes, one behind the other.
fn names_of(alloc: Global, bytes: &[u8]) -> Result<List<Chars>, Memory>
    ensures { IfOk result (λ names. names ≡ sample.names bytes.now) }
{
    let mut names = List::new(alloc);
    let mut at = 0;
    while bytes.len() - at >= 2 {
        let Ok(name) = str::from_utf8(&bytes[at..at + 2]) else {
            return Err(Memory);
        };
        names.push(Chars::from_str(alloc, name)?)?;
        at += 2;
    }
    Ok(names)
}

// What is seen of what a need gives.
fn seen(input: &Input<SampleFact>) -> u32
    ensures value { result ≡ sample.seen (input_state input.now) }
    ensures small { result < 512 }
{
    match input {
        Input::NoText => 0,
        Input::Cyclic => 1,
        Input::Broken => 2,
        Input::Fact(fact) => 3 + fact.face as u32,
    }
}

// A digest of what the needs give.
fn below(given: &[(Chars, Input<SampleFact>)]) -> u32
    ensures { result ≡ sample.below (states given.now) }
{
    let mut digest: u32 = 0;
    for (_, input) in given {
        digest = (digest * 31 + seen(input)) % 65536;
    }
    digest
}

impl Derive for Sample {
    ghost use Rattle.std.specs.Prelude.{ℕ, slice_index};
    ghost use Rattle.std.proofs.Common.{ap};
    ghost use Rattle.fact_samples.specs.Sample as sample;
    ghost use Rattle.fact_samples.specs.SampleLaws.{same_refl_lem, same_sym_lem, same_trans_lem, below_same};

    type Own = List<u8>;

    type Fact = SampleFact;

    ghost own_of = { sample.own_of };

    ghost needs_of = { sample.needs_of };

    ghost fact_of = { sample.fact_of };

    ghost same = { sample.same };

    fn own(&mut self, alloc: Global, name: &str, bytes: &[u8]) -> Result<List<u8>, Memory> {
        let _ = name;
        Ok(List::from_vec(Vec::from_slice(alloc, bytes)?))
    }

    fn needs(&self, alloc: Global, own: &List<u8>) -> Result<Option<List<Chars>>, Memory> {
        let bytes = own.as_slice();
        if byte_at(bytes, 0) == b'!' {
            return Ok(None);
        }
        let from = bytes.len().min(2);
        let names = names_of(alloc, &bytes[from..])?;
        Ok(Some(names))
    }

    fn fact<L>(
        &mut self,
        alloc: Global,
        name: &str,
        own: &List<u8>,
        given: &Given<SampleFact>,
        steps: &mut Steps<L>,
    ) -> Result<SampleFact, Memory> {
        let _ = alloc;
        let _ = name;
        let _ = steps.count();
        steps.tick();
        let bytes = own.as_slice();
        Ok(SampleFact {
            face: byte_at(bytes, 0),
            hidden: byte_at(bytes, 1),
            below: below(given.as_slice()),
        })
    }

    fn same_face(&self, a: &SampleFact, b: &SampleFact) -> bool {
        a.face == b.face
    }

    ghost same_refl = { same_refl_lem };

    ghost same_sym = { same_sym_lem };

    ghost same_trans = { same_trans_lem };

    ghost respects = { λ name own xs ys e. ap
        (λ (n : ℕ). record { face = slice_index own 0; hidden = slice_index own 1; below = n })
        (below_same 0 xs ys e) };
}

#[cfg(test)]
mod tests;
