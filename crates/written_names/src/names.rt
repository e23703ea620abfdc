// What names mean, and what stands in, by where names begin.
ghost use Rattle.std.specs.Prelude.{◌≡◌, ◌++◌, ◌∷◌, [], ℕ, IfOk, OnOk, if◌then◌else◌, nat_eq, unwrap_or};
ghost use Rattle.indexmap.specs.IndexMap.{get};
ghost use Rattle.readable_laws.specs.Uses.{implied_at};
ghost use Rattle.written_names.specs.Names.{AreNamesOf, meaning_there, means_there};

use indexmap::IndexMap;
use std::alloc::Global;
use tla_model::{Finding, Meaning};
use tool_list::{List, Memory};

/// What the names of a text mean, by where they begin, in bytes.
pub struct WrittenNames {
    /// What each name and symbol means.
    pub means: IndexMap<u32, Meaning>,
    /// The symbols that stand in for parameters which an INSTANCE does not replace, in their order,
    /// by where the name of its module begins.
    pub implied: IndexMap<u32, List<Meaning>>,
}

// By hand, so that a proof meets one call wherever a value ends.
impl Drop for WrittenNames {
    fn drop(self) {
        let WrittenNames {
            means: _,
            implied: _,
        } = self;
    }
}

impl WrittenNames {
    /// What names mean where nothing was found. It takes no memory.
    pub fn new(alloc: Global) -> WrittenNames
        ensures { AreNamesOf [] result }
    {
        WrittenNames {
            means: IndexMap::new(alloc),
            implied: IndexMap::new(alloc),
        }
    }
}

// Keeps what the name means that begins there, unless something is kept.
fn put_meaning(
    means: &mut IndexMap<u32, Meaning>,
    start: u32,
    meaning: &Meaning,
) -> Result<(), Memory>
    ensures { OnOk result ((other : ℕ) → get nat_eq means.new other
        ≡ meaning_there (get nat_eq means.old other) start meaning.now other) }
{
    if means.get(&start).is_some() {
        return Ok(());
    }
    means.insert(start, meaning.copied()?)?;
    Ok(())
}

// Keeps one more symbol that stands in where the name of a module begins.
fn put_implied(
    alloc: Global,
    implied: &mut IndexMap<u32, List<Meaning>>,
    start: u32,
    meaning: &Meaning,
) -> Result<(), Memory>
    ensures { OnOk result ((other : ℕ) → unwrap_or (get nat_eq implied.new other) []
        ≡ unwrap_or (get nat_eq implied.old other) []
        ++ (if nat_eq other start then meaning.now ∷ [] else [])) }
{
    let meaning = meaning.copied()?;
    if let Some(symbols) = implied.get_mut(&start) {
        return symbols.push(meaning);
    }
    let mut symbols = List::new(alloc);
    symbols.push(meaning)?;
    implied.insert(start, symbols)?;
    Ok(())
}

// Keeps what was found at one name.
fn put(alloc: Global, names: &mut WrittenNames, finding: &Finding) -> Result<(), Memory>
    ensures means { OnOk result ((start : ℕ) → get nat_eq names.new.means start
        ≡ means_there (get nat_eq names.old.means start) finding.now start) }
    ensures implied { OnOk result ((start : ℕ) → unwrap_or (get nat_eq names.new.implied start) []
        ≡ unwrap_or (get nat_eq names.old.implied start) [] ++ implied_at start finding.now) }
{
    match finding {
        Finding::Means { at, meaning } => put_meaning(&mut names.means, at.span.start, meaning),
        Finding::Implied { at, meaning, .. } => {
            put_implied(alloc, &mut names.implied, at.span.start, meaning)
        }
        _ => Ok(()),
    }
}

/// What the names of a text mean where these findings are all that was found of it. Of two uses
/// that begin at one place the first counts.
pub fn written_names(alloc: Global, findings: &[Finding]) -> Result<WrittenNames, Memory>
    ensures { IfOk result (AreNamesOf findings.now) }
{
    let mut names = WrittenNames::new(alloc);
    for finding in findings {
        put(alloc, &mut names, finding)?;
    }
    Ok(names)
}
