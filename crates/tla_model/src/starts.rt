// Where things begin in a text.
ghost use Rattle.std.specs.Prelude.{◌≡◌, ◌<◌, ◌^◌, ◌+◌, ◌++◌, ◌∷◌, [], IfOk, OnOk, length};
ghost use Rattle.tla_model.specs.Entities.{place_in};
ghost use Rattle.tla_model.specs.Starting.{AreNoted};

use indexmap::IndexMap;
use std::alloc::Global;
use std::marker::Model;
use tool_list::Memory;

/// Where things of one kind begin in a text, in bytes and in order. Contracts see the list. Fewer than
/// 2^32 - 1 are kept.
pub struct Starts {
    starts: Vec<u32>,
    // For each of these numbers, how many things stand before the first that begins there.
    places: IndexMap<u32, u32>,
}

// By hand, so that a proof meets one call wherever a value ends.
impl Drop for Starts {
    fn drop(self) {
        let Starts {
            starts: _,
            places: _,
        } = self;
    }
}

impl Model for Starts {
    ghost use Rattle.std.specs.Prelude.{ℕ, List};
    ghost use Rattle.tla_model.specs.Starting.{AreNoted};

    ghost Value = { List ℕ };

    ghost view = { λ s. s.starts.items };

    ghost invariant = { λ s. AreNoted s.places.entries s.starts.items };
}

// Appends where something begins, and notes its place unless another one begins there.
fn note(places: &mut IndexMap<u32, u32>, starts: &mut Vec<u32>, start: u32) -> Result<(), Memory>
    requires few { length starts.old.items + 2 < 2 ^ 32 }
    requires noted { AreNoted places.old.entries starts.old.items }
    ensures noted { OnOk result (AreNoted places.new.entries starts.new.items) }
    ensures starts { OnOk result (starts.new.items ≡ starts.old.items ++ start ∷ []) }
{
    let place = starts.len() as u32;
    starts.push(start)?;
    if places.contains_key(&start) {
        return Ok(());
    }
    places.insert(start, place)?;
    Ok(())
}

impl Starts {
    /// Where these begin, in order. `Memory` comes where so many can't be counted, too.
    pub fn new(alloc: Global, starts: &[u32]) -> Result<Starts, Memory>
        ensures { IfOk result (λ kept. kept ≡ starts.now) }
    {
        if starts.len() >= 0xFFFF_FFFE {
            return Err(Memory);
        }
        let mut kept = Vec::new(alloc);
        let mut places = IndexMap::new(alloc);
        for start in starts {
            note(&mut places, &mut kept, *start)?;
        }
        Ok(Starts {
            starts: kept,
            places,
        })
    }

    /// How many of them stand before the first that begins there; all of them where none does.
    pub fn place_of(&self, start: u32) -> u32
        ensures place { result ≡ place_in self.now start }
        ensures few { result + 1 < 2 ^ 32 }
    {
        match self.places.get(&start) {
            Some(place) => *place,
            None => self.starts.len() as u32,
        }
    }
}
