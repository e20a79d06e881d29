// What is kept of the reported bounds of one key.
ghost use Rattle.std.specs.Prelude.{◌≡◌};
ghost use Rattle.rbound.specs.Bounds.{numbers_in};
ghost use Rattle.rtrace_form.specs.Faults.{same_numbers};
ghost use Rattle.rtrace.specs.Kept.{lesser, wrong_by, first_kept, more_kept};

use rbound::Bound;

/// The first bound of a key, and what differs from it.
#[derive(Clone, Copy)]
pub(crate) struct Kept {
    /// The number of the record with the first bound.
    pub(crate) first: u64,
    /// This bound.
    pub(crate) bound: Bound,
    /// The number of the first record with a different bound, if there is one.
    pub(crate) other: Option<u64>,
}

impl Kept {
    /// What is kept once the record with this number gave the first bound.
    pub(crate) fn new(number: u64, bound: Bound) -> Kept
        ensures { result ≡ first_kept number bound }
    {
        Kept {
            first: number,
            bound,
            other: None,
        }
    }

    /// What is kept once one more record gave a bound; its number is higher than those before.
    pub(crate) fn with(self, number: u64, bound: Bound) -> Kept
        ensures { result ≡ more_kept self number bound }
    {
        if same_numbers(bound, self.bound) {
            self
        } else {
            Kept {
                other: self.other.or(Some(number)),
                ..self
            }
        }
    }

    /// The first record with a wrong bound, where this one is right.
    pub(crate) fn wrong(self, right: Bound) -> Option<u64>
        ensures { result ≡ wrong_by self (numbers_in right) }
    {
        if same_numbers(self.bound, right) {
            return self.other;
        }
        Some(self.first)
    }
}

/// Whether two bounds have the same numbers.
fn same_numbers(a: Bound, b: Bound) -> bool
    ensures { result ≡ same_numbers (numbers_in a) (numbers_in b) }
{
    a.reads == b.reads && (a.writes == b.writes && a.units == b.units)
}

/// The lesser of two numbers, each of which may be missing.
pub(crate) fn lesser(a: Option<u64>, b: Option<u64>) -> Option<u64>
    ensures { result ≡ lesser a b }
{
    match (a, b) {
        (None, number) | (number, None) => number,
        (Some(m), Some(n)) => Some(if m <= n { m } else { n }),
    }
}
