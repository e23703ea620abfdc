// The failures of an object in memory.
ghost use Rattle.std.specs.Prelude.{◌≡◌, ◌+◌, ◌-◌, ◌^◌, ◌==◌, min};
ghost use Rattle.std.specs.List.{list_any};
ghost use Rattle.tool_io.specs.Causes.{Rose};

use tool_list::List;

/// The numbers of the calls that fail, counted from 1, and how often the object has failed.
#[derive(Drop)]
pub struct Failures {
    fails: List<u32>,
    calls: u64,
    faults: u64,
}

impl Failures {
    /// An object that fails at the calls of these numbers, before its first call.
    pub fn new(fails: List<u32>) -> Failures
        ensures { result ≡ record { fails = fails; calls = 0; faults = 0 } }
    {
        Failures {
            fails,
            calls: 0,
            faults: 0,
        }
    }

    /// Counts a call, and answers whether it is one that fails.
    pub fn is_due(&mut self) -> bool
        ensures call { self.new.calls ≡ min (self.old.calls + 1) (2 ^ 64 - 1) }
        ensures due { result ≡ list_any (λ number. number == self.new.calls) self.old.fails }
        ensures stays { self.new.faults ≡ self.old.faults }
        ensures list { self.new.fails ≡ self.old.fails }
    {
        self.calls = self.calls.saturating_add(1);
        is_among(self.fails.as_slice(), self.calls)
    }

    /// How many calls were counted.
    pub fn done(&self) -> u64
        ensures { result ≡ self.now.calls }
    {
        self.calls
    }

    /// Counts a failure.
    pub fn raise(&mut self)
        ensures rose { Rose self.old.faults self.new.faults }
        ensures calls { self.new.calls ≡ self.old.calls }
        ensures list { self.new.fails ≡ self.old.fails }
    {
        self.faults = self.faults.saturating_add(1);
    }

    /// How often the object has failed.
    pub fn count(&self) -> u64
        ensures { result ≡ self.now.faults }
    {
        self.faults
    }
}

fn is_among(numbers: &[u32], call: u64) -> bool
    ensures { result ≡ list_any (λ number. number == call) numbers.now }
{
    numbers.iter().any(|number| u64::from(*number) == call)
}
