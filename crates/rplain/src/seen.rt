// What one look at settled claims says about later ones.
ghost use Rattle.std.specs.FinSet.{empty, union};
ghost use Rattle.std.specs.Prelude.{if◌then◌else◌, ◌≡◌, true, false};
ghost use Rattle.rplain.specs.NewClaim.{no_seen, with_seen};
ghost use Rattle.rmodel.specs.Settling.{with_bars};

use rmodel::Claimed;
use rset::ResourceSet;

/// What is seen of a list of claims.
#[derive(Clone, Copy)]
pub struct Seen {
    /// What the entitled and satisfied writes write.
    pub active: ResourceSet,
    /// What the satisfied writes write.
    pub kept: ResourceSet,
    /// The resources by which writes bar later ones.
    pub bars: ResourceSet,
}

/// Nothing was seen.
pub fn no_seen() -> Seen
    ensures { result ≡ no_seen }
{
    Seen {
        active: ResourceSet::empty(),
        kept: ResourceSet::empty(),
        bars: ResourceSet::empty(),
    }
}

/// The set where this holds, and nothing where it does not. In a function of its own it compiles to no branch.
#[inline]
fn only_where(holds: bool, set: ResourceSet) -> ResourceSet
    ensures { result ≡ if holds then set else empty }
{
    if holds { set } else { ResourceSet::empty() }
}

/// These resources, with the set where this holds.
#[inline]
fn and_where(all: ResourceSet, holds: bool, set: ResourceSet) -> ResourceSet
    ensures { result ≡ if holds then union all set else all }
{
    all.union(only_where(holds, set))
}

/// These resources, with those by which a write bars later ones.
#[inline]
fn with_bars(all: ResourceSet, x: &Claimed) -> ResourceSet
    ensures { result ≡ with_bars all x.now }
{
    let writes = x.claim.writes;
    let places = x.claim.places;
    let write = x.claim.write_half;
    let bars = if x.is_satisfied() { writes } else { places };
    if write { all.union(bars) } else { all }
}

/// What was seen of claims, with one more claim. There is no branch, as nothing predicts which claims are reads and how
/// far they are. A read claim writes nothing, so what it writes may be added.
#[inline]
pub(crate) fn with_seen(all: Seen, x: &Claimed) -> Seen
    requires { x.now.claim.write_half ≡ false → x.now.claim.writes ≡ empty }
    ensures { result ≡ with_seen all x.now }
{
    let active = x.is_active();
    let satisfied = x.is_satisfied();
    let writes = x.claim.writes;
    Seen {
        active: and_where(all.active, active, writes),
        kept: and_where(all.kept, satisfied, writes),
        bars: with_bars(all.bars, x),
    }
}

/// What was seen of claims, with one more write. There is no branch.
#[inline]
pub(crate) fn with_write(all: Seen, x: &Claimed) -> Seen
    requires { x.now.claim.write_half ≡ true }
    ensures { result ≡ with_seen all x.now }
{
    let satisfied = x.is_satisfied();
    let writes = x.claim.writes;
    let bars = if satisfied { writes } else { x.claim.places };
    Seen {
        active: and_where(all.active, x.is_active(), writes),
        kept: and_where(all.kept, satisfied, writes),
        bars: all.bars.union(bars),
    }
}
