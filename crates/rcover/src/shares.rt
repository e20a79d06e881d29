// The seats that have a write, and what each takes.
ghost use Rattle.std.specs.Prelude.{◌≡◌, ◌≤◌, ◌<◌, ◌&&◌, ◌||◌, ℕ, length, take, slice_get};
ghost use Rattle.std.specs.List.{AllByRecursion};
ghost use Rattle.std.specs.FinSet.{contains};
ghost use Rattle.rset.specs.declared.TheConstants.{SEATS};
ghost use Rattle.rclaim.specs.Events.{seat_of};
ghost use Rattle.rmodel.specs.WellFormed.{EachPair, Distinct};
ghost use Rattle.rmodel.specs.Claims.{satisfied_by};
ghost use Rattle.rcover.specs.Shares.{no_share, share_of, shares_with, is_write_of, is_written, takes_write, writes_if, TellWrites};

use crate::writes_told::{is_finish, is_write_told};
use rclaim::{Event, StatusChange};
use rmodel::Claimed;
use rset::{ResourceSet, SEATS};

/// What a write takes: its places, and which of them it writes.
#[derive(Clone, Copy)]
pub struct Share {
    /// Its places.
    pub places: ResourceSet,
    /// What it writes.
    pub writes: ResourceSet,
}

/// Nothing that is taken.
pub(crate) fn no_share() -> Share
    ensures { result ≡ no_share }
{
    Share {
        places: ResourceSet::empty(),
        writes: ResourceSet::empty(),
    }
}

/// What a claim takes.
fn share_of(x: &Claimed) -> Share
    ensures { result ≡ share_of x.now.claim }
{
    Share {
        places: x.claim.places,
        writes: x.claim.writes,
    }
}

/// Notes what a claim takes, if it is a write.
fn note_share(shares: &mut [Share], x: &Claimed)
    requires { x.now.claim.seat < length shares.old }
    ensures shares { (seat : ℕ) → slice_get shares.new seat ≡ shares_with shares.old x.now seat }
    ensures len { length shares.new ≡ length shares.old }
{
    if x.claim.write_half {
        shares[x.claim.seat as usize] = share_of(x);
    }
}

/// The same seats with that of a claim, if it is a write.
fn with_writer(writers: ResourceSet, x: &Claimed) -> ResourceSet
    requires { x.now.claim.seat < SEATS }
    ensures { (seat : ℕ) → contains result seat ≡ (contains writers seat || is_write_of seat x.now) }
{
    if x.claim.write_half {
        writers.with(x.claim.seat)
    } else {
        writers
    }
}

/// Notes which seats have a write at a moment, and what each takes, where those before this place are noted.
pub(crate) fn note_writes(
    writers: &mut ResourceSet,
    shares: &mut [Share],
    moment: &[Claimed],
    from: usize,
)
    requires from { from ≤ length moment.now }
    requires told { TellWrites writers.old shares.old (take from moment.now) }
    requires low { AllByRecursion (λ x. x.claim.seat < SEATS) moment.now }
    requires places { SEATS ≤ length shares.old }
    requires one_each { EachPair Distinct moment.now }
    ensures told { TellWrites writers.new shares.new moment.now }
    ensures len { length shares.new ≡ length shares.old }
{
    for i in from..moment.len() {
        let x = &moment[i];
        *writers = with_writer(*writers, x);
        note_share(shares, x);
    }
}

/// Whether an event takes a write away; `writers` are the seats that have one.
pub(crate) fn takes_write(event: &Event, writers: ResourceSet) -> bool
    requires { seat_of event.now < SEATS }
    ensures { result ≡ takes_write event.now writers }
{
    is_finish(event) && writers.has(event.seat())
}

/// What the write of a seat writes.
fn writes_of(shares: &[Share], seat: u8) -> ResourceSet
    ensures { result ≡ writes_if (slice_get shares.now seat) }
{
    match shares.get(usize::from(seat)) {
        Some(share) => share.writes,
        None => ResourceSet::empty(),
    }
}

/// The same resources, with what a write writes that is reported to be satisfied.
fn with_written(written: ResourceSet, shares: &[Share], s: &StatusChange) -> ResourceSet
    ensures { (l : ℕ) → contains result l ≡ (contains written l || ((s.now.write_half && satisfied_by s.now.status) && contains (writes_if (slice_get shares.now s.now.seat)) l)) }
{
    if is_write_told(s) {
        written.union(writes_of(shares, s.seat))
    } else {
        written
    }
}

/// All that is written by the writes that are reported to be satisfied.
pub fn written_by(shares: &[Share], statuses: &[StatusChange]) -> ResourceSet
    ensures { (l : ℕ) → contains result l ≡ is_written shares.now statuses.now l }
{
    let mut written = ResourceSet::empty();
    for s in statuses {
        written = with_written(written, shares, s);
    }
    written
}
