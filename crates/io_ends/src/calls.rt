// The calls of a device in memory: how many were made, which of them fail, how many failed, and how many bytes go through in one call.
ghost use Rattle.std.specs.Prelude.{◌≡◌, ◌≤◌, ◌<◌, ◌↔◌, IsTrue, [], ◌∷◌};
ghost use Rattle.io_ends.specs.Faults.{one_more};
ghost use Rattle.io_ends.specs.Memory.{NextFails, GoesOn, at_most};

use crate::Failed;

#[derive(Drop)]
pub(crate) struct Calls {
    pub(crate) made: u64,
    pub(crate) fails: Vec<u64>,
    pub(crate) faults: u64,
}

impl Calls {
    pub(crate) fn new(fails: Vec<u64>) -> Calls
        ensures { result ≡ record { made = 0; fails = fails; faults = 0 } }
    {
        Calls {
            made: 0,
            fails,
            faults: 0,
        }
    }

    // Counts a call, and answers whether it has to fail.
    pub(crate) fn begin(&mut self) -> bool
        ensures fails { IsTrue result ↔ NextFails self.old.made self.old.fails.items }
        ensures counted { self.new ≡ record self.old { made = one_more self.old.made } }
    {
        let fails = is_next(&self.fails, self.made);
        self.made = self.made.saturating_add(1);
        fails
    }

    // Counts a fault.
    pub(crate) fn fail(&mut self) -> Failed
        ensures { self.new ≡ record self.old { faults = one_more self.old.faults } }
    {
        self.faults = self.faults.saturating_add(1);
        Failed
    }
}

// Whether the next call has one of these numbers. A number that is too
// large for a `u64` is not in the list, so the count may stay at its last value.
fn is_next(numbers: &[u64], made: u64) -> bool
    ensures { IsTrue result ↔ NextFails made numbers.now }
{
    match made.checked_add(1) {
        Some(number) => numbers.contains(&number),
        None => false,
    }
}

// This many bytes, but no more than go through in one call.
pub(crate) fn at_most(most: Option<usize>, n: usize) -> usize
    requires { GoesOn most }
    ensures value { result ≡ at_most most n }
    ensures fits { result ≤ n }
    ensures some { 0 < n → 0 < result }
{
    match most {
        None => n,
        Some(most) => n.min(most),
    }
}
