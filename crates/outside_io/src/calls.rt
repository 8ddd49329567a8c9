// What the objects in memory share: the calls are counted, those with a given number fail, and so are faults.
ghost use Rattle.outside_io.specs.Calls.{counted, named, passed};
ghost use Rattle.outside_io.specs.Moved.{Rose};
ghost use Rattle.std.specs.List.{list_any};
ghost use Rattle.std.specs.Prelude.{◌≡◌, ℕ, ◌+◌, ◌==◌, List, []};

use crate::Failed;
use crate::faults::raise;
use std::marker::Model;

/// How many calls there were, which of them fail, and how many did.
#[derive(Drop)]
pub struct Calls {
    made: u64,
    fails: Vec<u64>,
    faults: u64,
}

impl Model for Calls {
    ghost use Rattle.outside_io.specs.Calls.{Calls as CallCounts};

    ghost Value = { CallCounts };

    ghost view = { λ c. record { made = c.made; fails = c.fails.items; faults = c.faults } };
}

/// Tells whether the number after this one is in the list.
fn next_is_among(count: u64, numbers: &[u64]) -> bool
    ensures { result ≡ list_any (λ number. number == count + 1) numbers.now }
{
    match count.checked_add(1) {
        Some(next) => numbers.contains(&next),
        None => false,
    }
}

impl Calls {
    pub fn new(fails: Vec<u64>) -> Calls
        ensures { result ≡ record { made = 0; fails = fails.items; faults = 0 } }
    {
        Calls {
            made: 0,
            fails,
            faults: 0,
        }
    }

    /// The same with no calls made, and none that fails.
    pub fn again(self) -> Calls
        ensures { result ≡ record { made = 0; fails = []; faults = 0 } }
    {
        let mut fails = self.fails;
        fails.clear();
        Calls::new(fails)
    }

    /// Counts a call, and tells whether it is one of those that fail.
    pub fn begin(&mut self) -> bool
        ensures fails { result ≡ named self.old }
        ensures counted { self.new ≡ passed self.old }
    {
        let fails = next_is_among(self.made, &self.fails);
        self.made = self.made.saturating_add(1);
        fails
    }

    /// Counts a fault.
    pub fn fault(&mut self) -> Failed
        ensures rose { Rose self.old.faults self.new.faults }
        ensures counted { self.new ≡ record { made = self.old.made; fails = self.old.fails; faults = counted self.old.faults } }
    {
        raise(&mut self.faults)
    }

    pub fn made(&self) -> u64
        ensures { result ≡ self.now.made }
    {
        self.made
    }

    pub fn faults(&self) -> u64
        ensures { result ≡ self.now.faults }
    {
        self.faults
    }
}
