// The store over small texts: what is answered, and how many derivations it costs.
use crate::*;
use fact_store::{Answer, FactStore, NewText};
use std::process::Abort;
use std::test::Fail;

// What is done to a store: names get texts or lose them, or the value of one is asked for.
#[derive(Clone, Copy)]
enum Step<'a> {
    Put(&'a str, &'a str),
    Remove(&'a str),
    Batch(&'a [(&'a str, Option<&'a str>)]),
    Demand(&'a str),
}

// What came of a step.
#[derive(Clone, Copy, Debug, PartialEq, Eq)]
enum Said {
    Done,
    NoText,
    Broken,
    // The fact's face, its hidden byte and its digest, and how many derivations it took.
    Fact(u8, u8, u32, u64),
}

use Said::{Broken, Done, Fact, NoText};
use Step::{Batch, Demand, Put, Remove};

// Steps on one store, each with what has to come of it.
type Script = &'static [(Step<'static>, Said)];

// Edits: those alone cost a derivation that show.
static EDITS: [(Step, Said); 17] = [
    (Put("Bb", "b1Aa"), Done),
    (Demand("Bb"), Fact(b'b', b'1', 0, 1)),
    (Put("Aa", "a1"), Done),
    (Demand("Bb"), Fact(b'b', b'1', 100, 2)),
    (Demand("Aa"), Fact(b'a', b'1', 0, 0)),
    // An edit and its undoing.
    (Put("Aa", "c1"), Done),
    (Put("Aa", "a1"), Done),
    (Demand("Bb"), Fact(b'b', b'1', 100, 0)),
    // An edit that the face does not show.
    (Put("Aa", "a2"), Done),
    (Demand("Bb"), Fact(b'b', b'1', 100, 1)),
    (Demand("Aa"), Fact(b'a', b'2', 0, 0)),
    // An edit of the face.
    (Put("Aa", "d2"), Done),
    (Demand("Bb"), Fact(b'b', b'1', 103, 2)),
    // A text that is removed.
    (Remove("Aa"), Done),
    (Remove("Zz"), Done),
    (Demand("Bb"), Fact(b'b', b'1', 0, 1)),
    (Demand("Aa"), NoText),
];

// Demands in the middle of puts.
static PUTS: [(Step, Said); 12] = [
    (Put("Dd", "d1Bb"), Done),
    (Put("Bb", "b1AaCc"), Done),
    (Put("Aa", "a1"), Done),
    (Demand("Dd"), Fact(b'd', b'1', 101, 3)),
    // Below "Bb" a face comes and a hidden byte changes; its own face stays, and "Dd" is not made anew.
    (Put("Cc", "c1"), Done),
    (Put("Aa", "a2"), Done),
    (Demand("Dd"), Fact(b'd', b'1', 101, 3)),
    (Demand("Bb"), Fact(b'b', b'1', 100 * 31 + 102, 0)),
    (Put("Dd", "e1Bb"), Done),
    (Put("Ee", "f1DdAa"), Done),
    (Demand("Ee"), Fact(b'f', b'1', 104 * 31 + 100, 2)),
    (Demand("Dd"), Fact(b'e', b'1', 101, 0)),
];

// Cycles that are made and broken, and a broken text.
static CYCLES: [(Step, Said); 13] = [
    (Put("Aa", "a1Bb"), Done),
    (Put("Bb", "b1Aa"), Done),
    (Put("Cc", "c1AaCc"), Done),
    (Demand("Aa"), Fact(b'a', b'1', 1, 1)),
    (Demand("Bb"), Fact(b'b', b'1', 1, 1)),
    (Demand("Cc"), Fact(b'c', b'1', 100 * 31 + 1, 1)),
    (Put("Bb", "!"), Done),
    (Demand("Bb"), Broken),
    (Demand("Aa"), Fact(b'a', b'1', 2, 1)),
    (Put("Bb", "b1"), Done),
    (Demand("Aa"), Fact(b'a', b'1', 101, 2)),
    // The text that made the cycle again.
    (Put("Bb", "b1Aa"), Done),
    (Demand("Cc"), Fact(b'c', b'1', 100 * 31 + 1, 1)),
];

// Texts of several names that are put in one go.
static BATCHES: [(Step, Said); 9] = [
    (
        Batch(&[
            ("Aa", Some("a1")),
            ("Bb", Some("b1")),
            ("Cc", Some("c1AaBb")),
        ]),
        Done,
    ),
    (Demand("Cc"), Fact(b'c', b'1', 100 * 31 + 101, 3)),
    // Two faces change below "Cc".
    (Batch(&[("Aa", Some("d1")), ("Bb", Some("e1"))]), Done),
    (Demand("Cc"), Fact(b'c', b'1', 103 * 31 + 104, 3)),
    // A text that goes and comes back, and one that becomes what it was.
    (
        Batch(&[
            ("Aa", None),
            ("Bb", Some("x1")),
            ("Aa", Some("d1")),
            ("Bb", Some("e1")),
        ]),
        Done,
    ),
    (Demand("Cc"), Fact(b'c', b'1', 103 * 31 + 104, 0)),
    // A text that goes at last, and one that comes and goes.
    (
        Batch(&[
            ("Aa", Some("a1")),
            ("Zz", Some("z1")),
            ("Aa", None),
            ("Zz", None),
        ]),
        Done,
    ),
    (Demand("Cc"), Fact(b'c', b'1', 104, 1)),
    (Demand("Zz"), NoText),
];

// Behind a chain of a thousand names, from "TX" down to "Aa".
static CHAIN: [(Step, Said); 5] = [
    (Demand("TX"), Fact(b'f', b'1', 105, 1000)),
    (Put("Aa", "f2"), Done),
    (Demand("TX"), Fact(b'f', b'1', 105, 1)),
    // The end needs the top: each need of the chain leads back.
    (Put("Aa", "f1TX"), Done),
    (Demand("TX"), Fact(b'f', b'1', 1, 1)),
];

// Behind a star of a thousand names that need "01", and "02" that needs them all.
static STAR: [(Step, Said); 6] = [
    (Put("01", "m1"), Done),
    (Demand("Aa"), Fact(b'g', b'1', 112, 2)),
    (Demand("TX"), Fact(b'g', b'1', 112, 1)),
    (Demand("02"), Fact(b'f', b'1', 33024, 999)),
    (Put("01", "m2"), Done),
    (Demand("02"), Fact(b'f', b'1', 33024, 1)),
];

// A store with its way to derive facts, and the count of derivations.
#[derive(Drop)]
struct Trial {
    store: FactStore<Sample>,
    sample: Sample,
    steps: Steps<()>,
}

impl Trial {
    fn new(alloc: Global) -> Trial {
        Trial {
            store: FactStore::new(alloc),
            sample: Sample,
            steps: Steps::new(()),
        }
    }

    fn put(&mut self, alloc: Global, name: &str, bytes: Option<&[u8]>) -> Result<Said, Memory> {
        self.store.put_text(alloc, name, bytes, &mut self.sample)?;
        Ok(Done)
    }

    fn batch(&mut self, alloc: Global, texts: &[(&str, Option<&str>)]) -> Result<Said, Memory> {
        let mut news = Vec::new(alloc);
        for (name, text) in texts {
            news.push(new_text(alloc, name, *text)?)?;
        }
        self.store.put_texts(alloc, &news, &mut self.sample)?;
        Ok(Done)
    }

    fn demand(&mut self, alloc: Global, name: &str) -> Result<Said, Memory> {
        let before = self.steps.count();
        let answer = self
            .store
            .demand(alloc, name, &mut self.sample, &mut self.steps)?;
        let cost = self.steps.count().saturating_sub(before);
        Ok(match answer {
            Answer::NoText => NoText,
            Answer::Broken => Broken,
            Answer::Fact(fact) => Fact(fact.face, fact.hidden, fact.below, cost),
        })
    }

    fn takes(&mut self, alloc: Global, step: Step) -> Result<Said, Memory> {
        match step {
            Put(name, text) => self.put(alloc, name, Some(text.as_bytes())),
            Remove(name) => self.put(alloc, name, None),
            Batch(texts) => self.batch(alloc, texts),
            Demand(name) => self.demand(alloc, name),
        }
    }

    fn follows(&mut self, rt: &impl Abort, alloc: Global, script: Script) -> Result<(), Fail> {
        for (index, (step, want)) in script.iter().enumerate() {
            let said = self.takes(alloc, *step)?;
            assert_eq!(rt; said, *want, "step {index}");
        }
        Ok(())
    }
}

// The text that a name gets, if it does not lose it.
fn new_text(alloc: Global, name: &str, text: Option<&str>) -> Result<NewText, Memory> {
    let bytes = match text {
        Some(text) => Some(List::from_vec(Vec::from_slice(alloc, text.as_bytes())?)),
        None => None,
    };
    Ok(NewText {
        name: Chars::from_str(alloc, name)?,
        bytes,
    })
}

fn crosses_threads<T: Send + Sync>(_: &T) {}

#[test]
fn answers_at_little_cost(rt: HostRuntime) -> Result<(), Fail> {
    let alloc = rt.alloc();
    let scripts: [Script; 4] = [&EDITS, &PUTS, &CYCLES, &BATCHES];
    for script in scripts {
        let mut trial = Trial::new(alloc);
        trial.follows(&rt, alloc, script)?;
        crosses_threads(&trial.store);
    }
    Ok(())
}

// A thousand names, from "Aa" to "TX".
fn thousand_names(alloc: Global) -> Result<Vec<String>, Memory> {
    let mut names = Vec::new(alloc);
    for first in "ABCDEFGHIJKLMNOPQRST".chars() {
        for second in "abcdefghijklmnopqrstuvwxyzABCDEFGHIJKLMNOPQRSTUVWX".chars() {
            names.push(name_of(alloc, first, second)?)?;
        }
    }
    Ok(names)
}

fn name_of(alloc: Global, first: char, second: char) -> Result<String, Memory> {
    let mut name = String::new(alloc);
    name.push(first)?;
    name.push(second)?;
    Ok(name)
}

// A text that needs the name.
fn needing(alloc: Global, name: &str) -> Result<String, Memory> {
    let mut text = String::from_str(alloc, "f1")?;
    text.push_str(name)?;
    Ok(text)
}

// Gives each of the names a text that needs the one before.
fn chain(alloc: Global, names: &[String]) -> Result<Trial, Memory> {
    let mut trial = Trial::new(alloc);
    let mut text = needing(alloc, "")?;
    for name in names {
        trial.takes(alloc, Put(name.as_str(), text.as_str()))?;
        text = needing(alloc, name.as_str())?;
    }
    Ok(trial)
}

// Gives each of the names a text that needs "01", and "02" one that needs them all.
fn star(alloc: Global, names: &[String]) -> Result<Trial, Memory> {
    let mut trial = Trial::new(alloc);
    let mut text = needing(alloc, "")?;
    for name in names {
        trial.takes(alloc, Put(name.as_str(), "g101"))?;
        text.push_str(name.as_str())?;
    }
    trial.takes(alloc, Put("02", text.as_str()))?;
    Ok(trial)
}

#[test]
fn follows_a_thousand_names(rt: HostRuntime) -> Result<(), Fail> {
    let alloc = rt.alloc();
    let names = thousand_names(alloc)?;
    chain(alloc, &names)?.follows(&rt, alloc, &CHAIN)?;
    star(alloc, &names)?.follows(&rt, alloc, &STAR)?;
    Ok(())
}
