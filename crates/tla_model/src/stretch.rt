// Words that tables share.
ghost use Rattle.std.specs.Prelude.{◌≡◌, ◌++◌, ◌∷◌, [], IfOk, OnOk, if◌then◌else◌, length, map, option_map, slice_get};
ghost use Rattle.tla_model.specs.EntityKinds.{is_instance, stands_for_parameter, words_meant};
ghost use Rattle.tla_model.specs.Meant.{AreMeant, NotesMeaning, word_meaning};
ghost use Rattle.tla_model.specs.Stretches.{AreAt, one_of, shown, words_at, words_of};

use crate::names::Meaning;
use indexmap::IndexMap;
use std::alloc::Global;
use std::marker::Model;
use tool_list::Memory;

/// Words with what they mean, in the order in which they were put.
pub type Words = IndexMap<String, Meaning>;

/// Words that tables share. Contracts see them in order, with what they mean. Where parameters and where
/// instances stand among them is noted once, and where each thing stands that can be named behind an
/// instance.
pub struct Stretch {
    words: Words,
    // The places of the constants and variables, and those of the instances.
    parameters: Vec<usize>,
    instances: Vec<usize>,
    // The first place of each definition and each instance.
    meant: IndexMap<Meaning, usize>,
}

// By hand, so that a proof meets one call wherever a value ends.
impl Drop for Stretch {
    fn drop(self) {
        let Stretch {
            words: _,
            parameters: _,
            instances: _,
            meant: _,
        } = self;
    }
}

impl Model for Stretch {
    ghost use Rattle.std.specs.Prelude.{ℕ, List};
    ghost use Rattle.tla_model.specs.Entities.{Meaning};
    ghost use Rattle.tla_model.specs.EntityKinds.{is_instance, stands_for_parameter};
    ghost use Rattle.tla_model.specs.Meant.{AreMeant};
    ghost use Rattle.tla_model.specs.Stretches.{AreAt, words_of};

    ghost Value = { List (List ℕ × Meaning) };

    ghost view = { λ s. words_of s.words.entries };

    ghost invariant = { λ s. AreAt stands_for_parameter (words_of s.words.entries) s.parameters.items
        × AreAt is_instance (words_of s.words.entries) s.instances.items
        × AreMeant (words_of s.words.entries) (words_of s.words.entries) s.meant };
}

// Notes a place, if it is one of those.
fn note(places: &mut Vec<usize>, is_one: bool, place: usize) -> Result<(), Memory>
    ensures { OnOk result (places.new.items ≡ places.old.items
        ++ (if is_one then place ∷ [] else [])) }
{
    if !is_one {
        return Ok(());
    }
    places.push(place)?;
    Ok(())
}

// Where parameters stand among words.
fn parameter_places(alloc: Global, words: &Words) -> Result<Vec<usize>, Memory>
    ensures { IfOk result (λ places. AreAt stands_for_parameter (words_of words.now.entries)
        places.items) }
{
    let mut places = Vec::new(alloc);
    for index in 0..words.len() {
        let Some((_, meaning)) = words.get_index(index) else {
            unreachable!();
        };
        note(&mut places, meaning.is_parameter(), index)?;
    }
    Ok(places)
}

// Where instances stand among words.
fn instance_places(alloc: Global, words: &Words) -> Result<Vec<usize>, Memory>
    ensures { IfOk result (λ places. AreAt is_instance (words_of words.now.entries)
        places.items) }
{
    let mut places = Vec::new(alloc);
    for index in 0..words.len() {
        let Some((_, meaning)) = words.get_index(index) else {
            unreachable!();
        };
        note(&mut places, meaning.is_instance(), index)?;
    }
    Ok(places)
}

// Notes where something stands that can be named behind an instance.
fn note_meaning(
    places: &mut IndexMap<Meaning, usize>,
    meaning: &Meaning,
    place: usize,
) -> Result<(), Memory>
    ensures { OnOk result (NotesMeaning places.old places.new meaning.now place) }
{
    if !meaning.stands_behind() {
        return Ok(());
    }
    let key = meaning.copied()?;
    places.insert(key, place)?;
    Ok(())
}

// Where each definition and each instance first stands among words.
fn meant_places(alloc: Global, words: &Words) -> Result<IndexMap<Meaning, usize>, Memory>
    ensures { IfOk result (λ places. AreMeant (words_of words.now.entries)
        (words_of words.now.entries) places) }
{
    let mut places = IndexMap::new(alloc);
    let mut index = words.len();
    while index > 0 {
        index -= 1;
        let Some((_, meaning)) = words.get_index(index) else {
            unreachable!();
        };
        note_meaning(&mut places, meaning, index)?;
    }
    Ok(places)
}

/// Which word stands at a place, and what it means.
pub fn entry_at(words: &Words, index: usize) -> Option<(&str, &Meaning)>
    ensures { option_map shown result ≡ slice_get (words_of words.now.entries) index }
{
    match words.get_index(index) {
        Some((word, meaning)) => Some((word.as_str(), meaning)),
        None => None,
    }
}

// Appends the word that stands at a place.
fn push_at<'b>(
    found: &mut Vec<(&'b str, &'b Meaning)>,
    words: &'b Words,
    place: usize,
) -> Result<(), Memory>
    ensures { OnOk result (map shown found.new.items ≡ map shown found.old.items
        ++ one_of (slice_get (words_of words.now.entries) place)) }
{
    let Some(entry) = entry_at(words, place) else {
        return Ok(());
    };
    found.push(entry)?;
    Ok(())
}

// Appends the words that stand at these places.
fn push_all<'b>(
    found: &mut Vec<(&'b str, &'b Meaning)>,
    words: &'b Words,
    places: &[usize],
) -> Result<(), Memory>
    ensures { OnOk result (map shown found.new.items ≡ map shown found.old.items
        ++ words_at (words_of words.now.entries) places.now) }
{
    for place in places {
        push_at(found, words, *place)?;
    }
    Ok(())
}

impl Stretch {
    /// These words.
    pub fn new(alloc: Global, words: Words) -> Result<Stretch, Memory>
        ensures { IfOk result (λ stretch. stretch ≡ words_of words.entries) }
    {
        let parameters = parameter_places(alloc, &words)?;
        let instances = instance_places(alloc, &words)?;
        let meant = meant_places(alloc, &words)?;
        Ok(Stretch {
            words,
            parameters,
            instances,
            meant,
        })
    }

    /// The words.
    pub fn words(&self) -> &Words
        ensures { words_of result.now.entries ≡ self.now }
    {
        &self.words
    }

    /// How many words there are.
    pub fn len(&self) -> usize
        ensures { result ≡ length self.now }
    {
        self.words.len()
    }

    /// The first word that means this and can be named behind an instance, with what it means.
    pub fn word_meaning(&self, meaning: &Meaning) -> Option<(&str, &Meaning)>
        ensures { option_map shown result ≡ word_meaning self.now meaning.now }
    {
        let place = self.meant.get(meaning)?;
        entry_at(&self.words, *place)
    }

    /// Appends the words that stand for parameters, in order.
    pub fn push_parameters<'b>(
        &'b self,
        found: &mut Vec<(&'b str, &'b Meaning)>,
    ) -> Result<(), Memory>
        ensures { OnOk result (map shown found.new.items ≡ map shown found.old.items
            ++ words_meant stands_for_parameter self.now) }
    {
        push_all(found, &self.words, self.parameters.as_slice())
    }

    /// Appends the words that name instances, in order.
    pub fn push_instances<'b>(
        &'b self,
        found: &mut Vec<(&'b str, &'b Meaning)>,
    ) -> Result<(), Memory>
        ensures { OnOk result (map shown found.new.items ≡ map shown found.old.items
            ++ words_meant is_instance self.now) }
    {
        push_all(found, &self.words, self.instances.as_slice())
    }
}
