// What is kept of the waits of all seats.
ghost use Rattle.std.specs.Prelude.{◌≡◌, ◌<◌, true, false, ℕ, length, if◌then◌else◌};
ghost use Rattle.std.specs.List.{AllByRecursion};
ghost use Rattle.rclaim.specs.Events.{seat_of};
ghost use Rattle.rclaim.specs.declared.claim.Claim.{Claim};
ghost use Rattle.rset.specs.declared.TheConstants.{SEATS};
ghost use Rattle.rmodel.specs.WellFormed.{Among, EachPair, Rises, Distinct};
ghost use Rattle.rcover.specs.Follow.{table_of, with_entry, kept_with};
ghost use Rattle.rcover.specs.Kept.{length_by, section_of, HasRoom, IsTaken, AreLong, AreOf, WaitApart, may_wait, kept_of};
ghost use Rattle.rcover_laws.specs.Lists.{AreAtMost};
ghost use Rattle.std.specs.FinSet.{contains};
ghost use Rattle.rcover_laws.specs.Moments.{Moment};
ghost use Rattle.rcover_laws.specs.Told.{waits_to_rise};
ghost use Rattle.rcover.specs.NotedSeats.{HoldWaiting, HoldReading, NoneWaits, TellWanted, is_rising, TellRising};
ghost use Rattle.rcover.specs.Lines.{HeadsTell, StandsAt, ArePlaced};
ghost use Rattle.rcover.specs.Due.{ReadStays, is_looked_at, is_write_of_these, is_due, StoodBy};
ghost use Rattle.rcover.specs.Begun.{rises_at};
ghost use Rattle.rcover_laws.specs.Sections.{Sections};
ghost use Rattle.rcover.specs.Tracked.{no_sections, gone_on};

use crate::lines::Head;
use crate::rising::still_rises;
use crate::run::{FoundRead, Run, clear, keep_by, none_taken};
use crate::section::{CoverSection, Lengths, section_of};
use crate::stood::has_stood;
use crate::waiting_reads::reads_stay;
use rclaim::Event;
use rcover_laws::waits_first;
use rmodel::Claimed;
use rset::ResourceSet;

/// The seats of the writes that are looked at: that of the upgrade that rises, and those that wait and whose heads changed.
fn looked_at(
    event: &Event,
    waiting: ResourceSet,
    moved: ResourceSet,
    risen: ResourceSet,
) -> ResourceSet
    requires { seat_of event.now < SEATS }
    ensures { (seat : ℕ) → contains result seat ≡ is_looked_at event.now waiting moved risen seat }
{
    let changed = waiting.meet(moved.union(risen));
    let seat = event.seat();
    // The wait of its seat begins only with a rise.
    if has_stood(event, seat) {
        return changed;
    }
    changed.with(seat)
}

/// Whether what is kept of a claim's wait may change: the write is looked at, or the wait of the read begins, or what came to be
/// satisfied writes some of what it reads.
fn is_due(event: &Event, looked: ResourceSet, written: ResourceSet, x: &Claimed) -> bool
    requires { x.now.claim.seat < SEATS }
    ensures { result ≡ is_due event.now looked written x.now }
{
    if x.claim.write_half {
        looked.has(x.claim.seat)
    } else {
        !has_stood(event, x.claim.seat) || x.claim.reads.meets(written)
    }
}

/// Whether a claim waits before it holds anything, or waits to rise. `rising` says which claims wait to rise.
fn may_wait(rising: ResourceSet, x: &Claimed) -> bool
    requires { x.now.claim.seat < SEATS }
    ensures { (n : Moment) → waits_to_rise n x.now ≡ is_rising rising x.now → result ≡ may_wait n x.now }
{
    waits_first(x) || still_rises(rising.has(x.claim.seat), x)
}

// Inlined: it has too many arguments to be worth a call.
/// Keeps what is due of a claim's wait at the next moment.
#[inline(always)]
fn keep_wait(
    runs: &mut [Run],
    taken: &mut FoundRead,
    event: &Event,
    lengths: &[Lengths],
    lost: &Head,
    section: &CoverSection,
    moved: ResourceSet,
    risen: ResourceSet,
    heads: &[Head],
    x: &Claimed,
    last: &[Claimed],
    next: &[Claimed],
)
    requires low { x.now.claim.seat < SEATS }
    requires seat { x.now.claim.seat < length runs.old }
    requires head { x.now.claim.seat < length heads.now }
    requires heads { HeadsTell heads.now lost.now moved risen last.now next.now x.now }
    requires section { section.now ≡ section_of lengths.now lost.now.claim }
    requires taken { IsTaken lengths.now last.now taken.old }
    requires last_rises { EachPair Rises last.now }
    requires next_rises { EachPair Rises next.now }
    requires room { AllByRecursion HasRoom runs.old }
    requires few { AreAtMost SEATS (if rises_at event.now x.now.claim.seat then no_sections else gone_on x.now.claim (table_of runs.old x.now.claim.seat) last.now next.now) }
    ensures taken { IsTaken lengths.now last.now taken.new }
    ensures kept { (seat : ℕ) → table_of runs.new seat ≡ with_entry (table_of runs.old) x.now.claim.seat (if rises_at event.now x.now.claim.seat then no_sections else gone_on x.now.claim (table_of runs.old x.now.claim.seat) last.now next.now) seat }
    ensures room { AllByRecursion HasRoom runs.new }
    ensures len { length runs.new ≡ length runs.old }
    ensures lengths { (len : Claim → ℕ) → AreOf (length_by lengths.now) len last.now → length_by lengths.now x.now.claim ≡ len x.now.claim → AllByRecursion (AreLong len) runs.old → AllByRecursion (AreLong len) runs.new }
{
    keep_by(
        &mut runs[x.claim.seat as usize],
        event,
        taken,
        lengths,
        lost,
        section,
        moved,
        risen,
        heads,
        x,
        last,
        next,
    );
}

// Inlined: it has too many arguments to be worth a call.
/// Keeps what is due of a claim's wait at the next moment, if the claim waits.
#[inline(always)]
fn keep_due(
    runs: &mut [Run],
    taken: &mut FoundRead,
    rising: ResourceSet,
    event: &Event,
    lengths: &[Lengths],
    lost: &Head,
    section: &CoverSection,
    moved: ResourceSet,
    risen: ResourceSet,
    heads: &[Head],
    x: &Claimed,
    last: &[Claimed],
    next: &[Claimed],
)
    requires low { x.now.claim.seat < SEATS }
    requires rising { waits_to_rise next.now x.now ≡ is_rising rising x.now }
    requires seat { x.now.claim.seat < length runs.old }
    requires head { x.now.claim.seat < length heads.now }
    requires heads { HeadsTell heads.now lost.now moved risen last.now next.now x.now }
    requires section { section.now ≡ section_of lengths.now lost.now.claim }
    requires taken { IsTaken lengths.now last.now taken.old }
    requires last_rises { EachPair Rises last.now }
    requires next_rises { EachPair Rises next.now }
    requires stood { StoodBy event.now last.now next.now x.now }
    requires room { AllByRecursion HasRoom runs.old }
    requires few { may_wait next.now x.now ≡ true → AreAtMost SEATS (kept_of last.now next.now (table_of runs.old x.now.claim.seat) x.now) }
    ensures taken { IsTaken lengths.now last.now taken.new }
    ensures kept { (seat : ℕ) → table_of runs.new seat ≡ kept_with last.now next.now (table_of runs.old) x.now seat }
    ensures room { AllByRecursion HasRoom runs.new }
    ensures len { length runs.new ≡ length runs.old }
    ensures lengths { (len : Claim → ℕ) → AreOf (length_by lengths.now) len last.now → length_by lengths.now x.now.claim ≡ len x.now.claim → AllByRecursion (AreLong len) runs.old → AllByRecursion (AreLong len) runs.new }
{
    if !may_wait(rising, x) {
        return;
    }
    keep_wait(
        runs, taken, event, lengths, lost, section, moved, risen, heads, x, last, next,
    );
}

/// Keeps what is due of a claim's wait at the next moment, if anything is and the claim waits.
fn keep_at(
    runs: &mut [Run],
    taken: &mut FoundRead,
    looked: ResourceSet,
    rising: ResourceSet,
    event: &Event,
    written: ResourceSet,
    lengths: &[Lengths],
    lost: &Head,
    section: &CoverSection,
    moved: ResourceSet,
    risen: ResourceSet,
    heads: &[Head],
    x: &Claimed,
    last: &[Claimed],
    next: &[Claimed],
)
    requires low { x.now.claim.seat < SEATS }
    requires undue { is_due event.now looked written x.now ≡ false → may_wait next.now x.now ≡ true → (a : Sections) → kept_of last.now next.now a x.now ≡ a }
    requires rising { waits_to_rise next.now x.now ≡ is_rising rising x.now }
    requires seat { x.now.claim.seat < length runs.old }
    requires head { x.now.claim.seat < length heads.now }
    requires heads { HeadsTell heads.now lost.now moved risen last.now next.now x.now }
    requires section { section.now ≡ section_of lengths.now lost.now.claim }
    requires taken { IsTaken lengths.now last.now taken.old }
    requires last_rises { EachPair Rises last.now }
    requires next_rises { EachPair Rises next.now }
    requires stood { StoodBy event.now last.now next.now x.now }
    requires room { AllByRecursion HasRoom runs.old }
    requires few { may_wait next.now x.now ≡ true → AreAtMost SEATS (kept_of last.now next.now (table_of runs.old x.now.claim.seat) x.now) }
    ensures taken { IsTaken lengths.now last.now taken.new }
    ensures kept { (seat : ℕ) → table_of runs.new seat ≡ kept_with last.now next.now (table_of runs.old) x.now seat }
    ensures room { AllByRecursion HasRoom runs.new }
    ensures len { length runs.new ≡ length runs.old }
    ensures lengths { (len : Claim → ℕ) → AreOf (length_by lengths.now) len last.now → length_by lengths.now x.now.claim ≡ len x.now.claim → AllByRecursion (AreLong len) runs.old → AllByRecursion (AreLong len) runs.new }
{
    if !is_due(event, looked, written, x) {
        return;
    }
    keep_due(
        runs, taken, rising, event, lengths, lost, section, moved, risen, heads, x, last, next,
    );
}

/// Keeps what is due of the waits of all claims at the next moment. Of the writes, only those of these seats are looked at.
fn keep_looked(
    runs: &mut [Run],
    looked: ResourceSet,
    rising: ResourceSet,
    event: &Event,
    written: ResourceSet,
    lengths: &[Lengths],
    lost: &Head,
    moved: ResourceSet,
    risen: ResourceSet,
    heads: &[Head],
    last: &[Claimed],
    next: &[Claimed],
)
    requires low { AllByRecursion (λ x. x.claim.seat < SEATS) next.now }
    requires undue { AllByRecursion (λ x. is_due event.now looked written x ≡ false → may_wait next.now x ≡ true → (a : Sections) → kept_of last.now next.now a x ≡ a) next.now }
    requires rising { TellRising rising next.now }
    requires seats { AllByRecursion (λ x. x.claim.seat < length runs.old) next.now }
    requires head { AllByRecursion (λ x. x.claim.seat < length heads.now) next.now }
    requires heads { AllByRecursion (HeadsTell heads.now lost.now moved risen last.now next.now) next.now }
    requires last_rises { EachPair Rises last.now }
    requires next_rises { EachPair Rises next.now }
    requires stood { AllByRecursion (StoodBy event.now last.now next.now) next.now }
    requires room { AllByRecursion HasRoom runs.old }
    requires apart { EachPair (WaitApart next.now) next.now }
    requires few { AllByRecursion (λ x. may_wait next.now x ≡ true → AreAtMost SEATS (kept_of last.now next.now (table_of runs.old x.claim.seat) x)) next.now }
    ensures kept { AllByRecursion (λ x. may_wait next.now x ≡ true → table_of runs.new x.claim.seat ≡ kept_of last.now next.now (table_of runs.old x.claim.seat) x) next.now }
    ensures others { (seat : ℕ) → NoneWaits next.now seat → table_of runs.new seat ≡ table_of runs.old seat }
    ensures room { AllByRecursion HasRoom runs.new }
    ensures len { length runs.new ≡ length runs.old }
    ensures lengths { (len : Claim → ℕ) → AreOf (length_by lengths.now) len last.now → AreOf (length_by lengths.now) len next.now → AllByRecursion (AreLong len) runs.old → AllByRecursion (AreLong len) runs.new }
{
    let section = section_of(lengths, &lost.claim);
    let mut taken = none_taken();
    for x in next {
        keep_at(
            runs, &mut taken, looked, rising, event, written, lengths, lost, &section, moved,
            risen, heads, x, last, next,
        );
    }
}

/// The write of a seat whose place is noted.
fn write_at<'a>(places: &[usize], next: &'a [Claimed], seat: u8) -> &'a Claimed
    requires { StandsAt places.now next.now seat }
    ensures there { Among result.now next.now }
    ensures write { result.now.claim.write_half ≡ true }
    ensures own { result.now.claim.seat ≡ seat }
{
    &next[places[usize::from(seat)]]
}

/// Keeps what is due of the waits of some seats' writes at the next moment, where these writes are at the noted places. Nothing
/// is due of any other claim.
fn keep_writes(
    runs: &mut [Run],
    looked: ResourceSet,
    rising: ResourceSet,
    event: &Event,
    lengths: &[Lengths],
    lost: &Head,
    moved: ResourceSet,
    risen: ResourceSet,
    heads: &[Head],
    places: &[usize],
    last: &[Claimed],
    next: &[Claimed],
)
    requires low { AllByRecursion (λ x. x.claim.seat < SEATS) next.now }
    requires placed { (seat : ℕ) → contains looked seat ≡ true → StandsAt places.now next.now seat }
    requires undue { AllByRecursion (λ x. is_write_of_these looked x ≡ false → may_wait next.now x ≡ true → (a : Sections) → kept_of last.now next.now a x ≡ a) next.now }
    requires rising { TellRising rising next.now }
    requires seats { AllByRecursion (λ x. x.claim.seat < length runs.old) next.now }
    requires head { AllByRecursion (λ x. x.claim.seat < length heads.now) next.now }
    requires heads { AllByRecursion (HeadsTell heads.now lost.now moved risen last.now next.now) next.now }
    requires last_rises { EachPair Rises last.now }
    requires next_rises { EachPair Rises next.now }
    requires one_each { EachPair Distinct next.now }
    requires stood { AllByRecursion (StoodBy event.now last.now next.now) next.now }
    requires room { AllByRecursion HasRoom runs.old }
    requires apart { EachPair (WaitApart next.now) next.now }
    requires few { AllByRecursion (λ x. may_wait next.now x ≡ true → AreAtMost SEATS (kept_of last.now next.now (table_of runs.old x.claim.seat) x)) next.now }
    ensures kept { AllByRecursion (λ x. may_wait next.now x ≡ true → table_of runs.new x.claim.seat ≡ kept_of last.now next.now (table_of runs.old x.claim.seat) x) next.now }
    ensures others { (seat : ℕ) → NoneWaits next.now seat → table_of runs.new seat ≡ table_of runs.old seat }
    ensures room { AllByRecursion HasRoom runs.new }
    ensures len { length runs.new ≡ length runs.old }
    ensures lengths { (len : Claim → ℕ) → AreOf (length_by lengths.now) len last.now → AreOf (length_by lengths.now) len next.now → AllByRecursion (AreLong len) runs.old → AllByRecursion (AreLong len) runs.new }
{
    if looked.is_empty() {
        return;
    }
    let section = section_of(lengths, &lost.claim);
    let mut taken = none_taken();
    for seat in looked.iter() {
        let x = write_at(places, next, seat);
        keep_due(
            runs, &mut taken, rising, event, lengths, lost, &section, moved, risen, heads, x, last,
            next,
        );
    }
}

/// Brings what is kept of the waits of all seats from the `last` moment to the `next`, the one after an event. Each wait there
/// was there before it, except that of an upgrade that rises. For each claim that waits at the next moment, before it holds
/// anything or to rise, the run of its seat keeps just what is due (`kept_of`): nothing if the wait begins, and else what it
/// kept, with what is taken for the periods that are over. The runs of all other seats keep what they kept. Lengths are in units,
/// and the kept ones stay right if `lengths` are. There are as many runs as before, each with its room, and no memory is taken.
///
/// No seats wait at the next moment but those `waiting`; the seats that rose say which claims wait to rise; and no seats have a
/// claim that reads but those `reading`, each reading what `wanted` says of its seat. If a read reads nothing that is `written`,
/// the write that keeps it waiting does not become satisfied. `moved` are the seats of the writes whose head was the `lost` one
/// and is another now, and `risen` those of the writes whose least claim came to be satisfied: `heads` has the heads of both, and
/// the writes are at the `places` noted for their seats.
pub fn keep(
    runs: &mut [Run],
    waiting: ResourceSet,
    rising: ResourceSet,
    reading: ResourceSet,
    wanted: &[ResourceSet],
    event: &Event,
    written: ResourceSet,
    lengths: &[Lengths],
    lost: &Head,
    moved: ResourceSet,
    risen: ResourceSet,
    heads: &[Head],
    places: &[usize],
    last: &[Claimed],
    next: &[Claimed],
)
    requires event { seat_of event.now < SEATS }
    requires low { AllByRecursion (λ x. x.claim.seat < SEATS) next.now }
    requires waiting { HoldWaiting waiting next.now }
    requires rising { TellRising rising next.now }
    requires reading { HoldReading reading next.now }
    requires wanted { TellWanted wanted.now next.now }
    requires seats { AllByRecursion (λ x. x.claim.seat < length runs.old) next.now }
    requires head { AllByRecursion (λ x. x.claim.seat < length heads.now) next.now }
    requires heads { AllByRecursion (HeadsTell heads.now lost.now moved risen last.now next.now) next.now }
    requires placed { ArePlaced places.now moved risen next.now }
    requires reads { AllByRecursion (ReadStays written last.now next.now) next.now }
    requires last_rises { EachPair Rises last.now }
    requires next_rises { EachPair Rises next.now }
    requires one_each { EachPair Distinct next.now }
    requires stood { AllByRecursion (StoodBy event.now last.now next.now) next.now }
    requires room { AllByRecursion HasRoom runs.old }
    requires apart { EachPair (WaitApart next.now) next.now }
    requires few { AllByRecursion (λ x. may_wait next.now x ≡ true → AreAtMost SEATS (kept_of last.now next.now (table_of runs.old x.claim.seat) x)) next.now }
    ensures kept { AllByRecursion (λ x. may_wait next.now x ≡ true → table_of runs.new x.claim.seat ≡ kept_of last.now next.now (table_of runs.old x.claim.seat) x) next.now }
    ensures others { (seat : ℕ) → NoneWaits next.now seat → table_of runs.new seat ≡ table_of runs.old seat }
    ensures room { AllByRecursion HasRoom runs.new }
    ensures len { length runs.new ≡ length runs.old }
    ensures lengths { (len : Claim → ℕ) → AreOf (length_by lengths.now) len last.now → AreOf (length_by lengths.now) len next.now → AllByRecursion (AreLong len) runs.old → AllByRecursion (AreLong len) runs.new }
{
    let looked = looked_at(event, waiting, moved, risen);
    if reads_stay(event, written, waiting, reading, wanted) {
        keep_writes(
            runs, looked, rising, event, lengths, lost, moved, risen, heads, places, last, next,
        );
        return;
    }
    keep_looked(
        runs, looked, rising, event, written, lengths, lost, moved, risen, heads, last, next,
    );
}

/// Keeps nothing of the wait of a seat. What is kept of all others stays; there are as many runs as before, and each has its
/// room.
pub fn clear_run(runs: &mut [Run], seat: u8)
    requires seat { seat < length runs.old }
    requires room { AllByRecursion HasRoom runs.old }
    ensures kept { (other : ℕ) → table_of runs.new other ≡ with_entry (table_of runs.old) seat no_sections other }
    ensures room { AllByRecursion HasRoom runs.new }
    ensures len { length runs.new ≡ length runs.old }
    ensures lengths { (len : Claim → ℕ) → AllByRecursion (AreLong len) runs.old → AllByRecursion (AreLong len) runs.new }
{
    clear(&mut runs[seat as usize]);
}
