//! A count of module checks, which only a tick changes.
//!
//! Knows nothing of what is counted.
#![tactic(auto)]

ghost use Rattle.std.specs.Prelude.{◌≡◌, ◌+◌, ◌-◌, ◌^◌, min, ℕ};

use std::marker::Model;

/// Counts module checks up to the last value of a `u64`, beside a ledger of any type that goes
/// along untouched. Contracts see the count.
#[derive(Drop)]
pub struct Steps<L> {
    ledger: L,
    count: u64,
}

impl<L> Model for Steps<L> {
    ghost Value = { ℕ };

    ghost view = { λ s. s.count };
}

impl<L> Steps<L> {
    /// A count of 0. It takes no memory.
    pub fn new(ledger: L) -> Steps<L>
        ensures { result ≡ 0 }
    {
        Steps { ledger, count: 0 }
    }

    /// Counts one check. At the last value nothing changes.
    pub fn tick(&mut self)
        ensures { self.new ≡ min (self.old + 1) (2 ^ 64 - 1) }
    {
        self.count = self.count.saturating_add(1);
    }

    /// How many checks were counted.
    pub fn count(&self) -> u64
        ensures { result ≡ self.now }
    {
        self.count
    }
}
