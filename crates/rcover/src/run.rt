// What is kept of the wait of a seat.
ghost use Rattle.std.specs.Prelude.{◌≡◌, ◌↔◌, ◌≤◌, ◌<◌, ◌&&◌, ◌++◌, ◌∷◌, [], not, true, false, IfSome, IsTrue, find, option_map, List, ℕ, length, vec_capacity, if◌then◌else◌};
ghost use Rattle.rclaim.specs.declared.claim.Claim.{Claim};
ghost use Rattle.rset.specs.declared.TheConstants.{SEATS};
ghost use Rattle.rcover.specs.declared.section.Lengths.{Lengths};
ghost use Rattle.rcover.specs.Kept.{claims_of, claim_if, kept_in, length_by, section_of, HaveLengths, HasRoom, IsTaken, AreLong, AreOf};
ghost use Rattle.rcover.specs.Last.{first_at};
ghost use Rattle.rcover.specs.Lines.{head_of, HeadsTell};
ghost use Rattle.rcover.specs.Begun.{rises_at};
ghost use Rattle.rcover_laws.specs.Lists.{is_wanted, reads_against, with_option, AreAtMost};
ghost use Rattle.rmodel.specs.Claims.{is_satisfied};
ghost use Rattle.rcover_laws.specs.Moments.{Moment, is_claim, holds_at};
ghost use Rattle.rmodel.specs.WellFormed.{EachPair, Rises};
ghost use Rattle.rcover.specs.Shown.{closed_by};
ghost use Rattle.rcover.specs.Tracked.{no_sections, keeper_at, read_closed_if, gone_on};

use crate::lines::Head;
use crate::section::{CoverSection, Lengths, add_found, push_section, section_if};
use crate::stood::has_stood;
use rclaim::{Claim, Event};
use rcover_laws::{Wanted, is_claim, is_wanted, keeper_at};
use rmodel::Claimed;
use rset::ResourceSet;

/// The sections of the closed periods of a wait. Those of the present period are seen at its last moment.
#[derive(Drop)]
pub struct Run {
    /// Those that count as reads.
    pub reads: Vec<CoverSection>,
    /// Those that count as writes.
    pub writes: Vec<CoverSection>,
}

/// The read that was taken at the last moment for claims that read and write this, with its length. It is looked for only once.
#[derive(Clone, Copy)]
pub struct FoundRead {
    /// What those claims read.
    pub reads: ResourceSet,
    /// What they write.
    pub writes: ResourceSet,
    /// None, if there was no such read.
    pub section: Option<CoverSection>,
}

/// The claim of least stamp that is wanted and satisfied at a moment.
fn first_at(wanted: &Wanted, moment: &[Claimed]) -> Option<Claim>
    ensures { result ≡ first_at (is_wanted wanted.now) moment.now }
{
    moment
        .iter()
        .find(|x| is_wanted(wanted, &x.claim) && x.is_satisfied())
        .map(|x| x.claim)
}

/// The section of the claim of least stamp that is wanted and satisfied at a moment, if there is one.
pub(crate) fn section_at(
    lengths: &[Lengths],
    wanted: &Wanted,
    moment: &[Claimed],
) -> Option<CoverSection>
    ensures section { result ≡ option_map (section_of lengths.now) (first_at (is_wanted wanted.now) moment.now) }
    ensures claim { claim_if result ≡ first_at (is_wanted wanted.now) moment.now }
    ensures lengths { (len : Claim → ℕ) → AreOf (length_by lengths.now) len moment.now → IfSome result (λ s. s.len ≡ len s.claim) }
{
    section_if(lengths, first_at(wanted, moment))
}

/// What is taken for a claim that reads and writes nothing: no read.
pub fn none_taken() -> FoundRead
    ensures { (ls : List Lengths) (m : Moment) → IsTaken ls m result }
{
    FoundRead {
        reads: ResourceSet::empty(),
        writes: ResourceSet::empty(),
        section: None,
    }
}

/// What is taken at a moment for claims that read and write what this one does.
fn taken_at(lengths: &[Lengths], c: &Claim, moment: &[Claimed]) -> FoundRead
    ensures taken { IsTaken lengths.now moment.now result }
    ensures section { result.section ≡ option_map (section_of lengths.now) (first_at (reads_against c.now) moment.now) }
{
    FoundRead {
        reads: c.reads,
        writes: c.writes,
        section: section_at(lengths, &Wanted::ReadAgainst(*c), moment),
    }
}

/// Whether what is taken for a claim was found already: for one that reads and writes the same.
fn is_for(taken: &FoundRead, c: &Claim) -> bool
    ensures { IsTrue result ↔ ((c.now.reads ≡ taken.now.reads) × (c.now.writes ≡ taken.now.writes)) }
{
    c.reads == taken.reads && c.writes == taken.writes
}

/// Finds what is taken for a claim at a moment, if that was not found already.
fn find_taken(taken: &mut FoundRead, lengths: &[Lengths], c: &Claim, moment: &[Claimed])
    requires { IsTaken lengths.now moment.now taken.old }
    ensures taken { IsTaken lengths.now moment.now taken.new }
    ensures section { taken.new.section ≡ option_map (section_of lengths.now) (first_at (reads_against c.now) moment.now) }
{
    if is_for(taken, c) {
        return;
    }
    *taken = taken_at(lengths, c, moment);
}

/// Keeps the read that is taken for a least claim at the last moment.
fn keep_taken(
    reads: &mut Vec<CoverSection>,
    taken: &mut FoundRead,
    lengths: &[Lengths],
    least: &Claim,
    last: &[Claimed],
)
    requires taken { IsTaken lengths.now last.now taken.old }
    requires room { length (with_option (claims_of reads.old.items) (first_at (reads_against least.now) last.now)) ≤ vec_capacity reads.old }
    ensures taken { IsTaken lengths.now last.now taken.new }
    ensures claims { claims_of reads.new.items ≡ with_option (claims_of reads.old.items) (first_at (reads_against least.now) last.now) }
    ensures capacity { vec_capacity reads.new ≡ vec_capacity reads.old }
    ensures lengths { (len : Claim → ℕ) → AreOf (length_by lengths.now) len last.now → HaveLengths len reads.old.items → HaveLengths len reads.new.items }
{
    find_taken(taken, lengths, least, last);
    add_found(reads, &taken.section);
}

/// Whether the period of the least claim of a line goes on at the next moment: it is still the least, and unsatisfied.
fn goes_on(least: &Head, next_least: &Head) -> bool
    ensures { result ≡ (is_claim least.now.claim next_least.now.claim && not next_least.now.holds) }
{
    is_claim(&least.claim, &next_least.claim) && !next_least.holds
}

/// Keeps the section of a least claim that was satisfied, if another is the least at the next moment.
fn keep_section(writes: &mut Vec<CoverSection>, section: &CoverSection, next_least: &Claim)
    requires room { length (if is_claim section.now.claim next_least.now then claims_of writes.old.items else claims_of writes.old.items ++ section.now.claim ∷ []) ≤ vec_capacity writes.old }
    ensures claims { claims_of writes.new.items ≡ (if is_claim section.now.claim next_least.now then claims_of writes.old.items else claims_of writes.old.items ++ section.now.claim ∷ []) }
    ensures capacity { vec_capacity writes.new ≡ vec_capacity writes.old }
    ensures lengths { (len : Claim → ℕ) → section.now.len ≡ len section.now.claim → HaveLengths len writes.old.items → HaveLengths len writes.new.items }
{
    if is_claim(&section.claim, next_least) {
        return;
    }
    push_section(writes, section);
}

// Inlined: it has too many arguments to be worth a call.
/// Keeps what is over of the wait of a write whose head was the lost one: the lost claim itself, if it was satisfied, and else
/// the read that was taken for it. `section` is the lost claim's own.
#[inline(always)]
fn close_lost(
    run: &mut Run,
    taken: &mut FoundRead,
    lengths: &[Lengths],
    lost: &Head,
    section: &CoverSection,
    next_least: &Head,
    last: &[Claimed],
)
    requires section { section.now ≡ section_of lengths.now lost.now.claim }
    requires taken { IsTaken lengths.now last.now taken.old }
    requires room { HasRoom run.old }
    requires few { AreAtMost SEATS (closed_by lost.now (kept_in run.old) last.now next_least.now) }
    ensures taken { IsTaken lengths.now last.now taken.new }
    ensures kept { kept_in run.new ≡ closed_by lost.now (kept_in run.old) last.now next_least.now }
    ensures room { HasRoom run.new }
    ensures lengths { (len : Claim → ℕ) → AreOf (length_by lengths.now) len last.now → length_by lengths.now lost.now.claim ≡ len lost.now.claim → AreLong len run.old → AreLong len run.new }
{
    if lost.holds {
        keep_section(&mut run.writes, section, &next_least.claim);
        return;
    }
    if goes_on(lost, next_least) {
        return;
    }
    keep_taken(&mut run.reads, taken, lengths, &lost.claim, last);
}

// Inlined: it has too many arguments to be worth a call.
/// Keeps what is over of the wait of a write at the next moment: what the lost head leaves, if the write had it, and the read
/// that was taken for its least claim, if that came to be satisfied.
#[inline(always)]
fn go_on_write(
    run: &mut Run,
    taken: &mut FoundRead,
    lengths: &[Lengths],
    lost: &Head,
    section: &CoverSection,
    moved: ResourceSet,
    risen: ResourceSet,
    heads: &[Head],
    x: &Claimed,
    last: &[Claimed],
    next: &[Claimed],
)
    requires low { x.now.claim.seat < SEATS }
    requires head { x.now.claim.seat < length heads.now }
    requires write { x.now.claim.write_half ≡ true }
    requires heads { HeadsTell heads.now lost.now moved risen last.now next.now x.now }
    requires section { section.now ≡ section_of lengths.now lost.now.claim }
    requires taken { IsTaken lengths.now last.now taken.old }
    requires room { HasRoom run.old }
    requires few { AreAtMost SEATS (closed_by (head_of last.now x.now.claim) (kept_in run.old) last.now (head_of next.now x.now.claim)) }
    ensures taken { IsTaken lengths.now last.now taken.new }
    ensures kept { kept_in run.new ≡ closed_by (head_of last.now x.now.claim) (kept_in run.old) last.now (head_of next.now x.now.claim) }
    ensures room { HasRoom run.new }
    ensures lengths { (len : Claim → ℕ) → AreOf (length_by lengths.now) len last.now → length_by lengths.now x.now.claim ≡ len x.now.claim → AreLong len run.old → AreLong len run.new }
{
    let seat = x.claim.seat;
    let least = &heads[seat as usize];
    if moved.has(seat) {
        close_lost(run, taken, lengths, lost, section, least, last);
        return;
    }
    if risen.has(seat) {
        keep_taken(&mut run.reads, taken, lengths, &least.claim, last);
    }
}

/// Whether the first claim at a moment that is this one, if there is any, is satisfied.
fn first_holds(c: &Claim, moment: &[Claimed]) -> Option<bool>
    ensures { result ≡ option_map is_satisfied (find (λ x. is_claim c.now x.claim) moment.now) }
{
    moment
        .iter()
        .find(|x| is_claim(c, &x.claim))
        .map(|x| x.is_satisfied())
}

/// Whether a write is satisfied at a moment: no other claim there has its stamp and half.
fn holds_write(c: &Claim, moment: &[Claimed]) -> bool
    requires rising { EachPair Rises moment.now }
    requires write { c.now.write_half ≡ true }
    ensures { result ≡ holds_at c.now moment.now }
{
    first_holds(c, moment).unwrap_or(false)
}

/// Keeps the read that was taken for the write that keeps a read claim waiting, if that write is satisfied at the next moment.
fn close_read(
    reads: &mut Vec<CoverSection>,
    lengths: &[Lengths],
    keeper: Option<Claim>,
    last: &[Claimed],
    next: &[Claimed],
)
    requires room { 1 ≤ vec_capacity reads.old }
    requires write { IfSome keeper (λ v. v.write_half ≡ true) }
    requires last_rises { EachPair Rises last.now }
    requires next_rises { EachPair Rises next.now }
    ensures claims { (writes : List Claim) → claims_of reads.new.items ≡ (read_closed_if keeper (record { reads = claims_of reads.old.items; writes = writes }) last.now next.now).reads }
    ensures capacity { vec_capacity reads.new ≡ vec_capacity reads.old }
    ensures lengths { (len : Claim → ℕ) → AreOf (length_by lengths.now) len last.now → HaveLengths len reads.old.items → HaveLengths len reads.new.items }
{
    let Some(v) = keeper else {
        return;
    };
    if !holds_write(&v, next) {
        return;
    }
    if holds_write(&v, last) {
        return;
    }
    reads.clear();
    add_found(reads, &section_at(lengths, &Wanted::Against(v), last));
}

/// Keeps the read that was taken for the write that keeps a read claim waiting, if that write is satisfied at the next moment.
fn close_read_of(
    reads: &mut Vec<CoverSection>,
    lengths: &[Lengths],
    c: &Claim,
    last: &[Claimed],
    next: &[Claimed],
)
    requires room { 1 ≤ vec_capacity reads.old }
    requires last_rises { EachPair Rises last.now }
    requires next_rises { EachPair Rises next.now }
    ensures claims { (writes : List Claim) → claims_of reads.new.items ≡ (read_closed_if (keeper_at c.now last.now) (record { reads = claims_of reads.old.items; writes = writes }) last.now next.now).reads }
    ensures capacity { vec_capacity reads.new ≡ vec_capacity reads.old }
    ensures lengths { (len : Claim → ℕ) → AreOf (length_by lengths.now) len last.now → HaveLengths len reads.old.items → HaveLengths len reads.new.items }
{
    close_read(reads, lengths, keeper_at(c, last), last, next);
}

// Inlined: it has too many arguments to be worth a call.
/// What a run keeps at the next moment, if the wait of the claim goes on.
#[inline(always)]
fn go_on(
    run: &mut Run,
    taken: &mut FoundRead,
    lengths: &[Lengths],
    lost: &Head,
    section: &CoverSection,
    moved: ResourceSet,
    risen: ResourceSet,
    heads: &[Head],
    x: &Claimed,
    last: &[Claimed],
    next: &[Claimed],
)
    requires low { x.now.claim.seat < SEATS }
    requires head { x.now.claim.seat < length heads.now }
    requires last_rises { EachPair Rises last.now }
    requires next_rises { EachPair Rises next.now }
    requires heads { HeadsTell heads.now lost.now moved risen last.now next.now x.now }
    requires section { section.now ≡ section_of lengths.now lost.now.claim }
    requires taken { IsTaken lengths.now last.now taken.old }
    requires room { HasRoom run.old }
    requires few { AreAtMost SEATS (gone_on x.now.claim (kept_in run.old) last.now next.now) }
    ensures taken { IsTaken lengths.now last.now taken.new }
    ensures kept { kept_in run.new ≡ gone_on x.now.claim (kept_in run.old) last.now next.now }
    ensures room { HasRoom run.new }
    ensures lengths { (len : Claim → ℕ) → AreOf (length_by lengths.now) len last.now → length_by lengths.now x.now.claim ≡ len x.now.claim → AreLong len run.old → AreLong len run.new }
{
    if x.claim.write_half {
        go_on_write(
            run, taken, lengths, lost, section, moved, risen, heads, x, last, next,
        );
        return;
    }
    close_read_of(&mut run.reads, lengths, &x.claim, last, next);
}

/// Keeps nothing.
pub fn clear(run: &mut Run)
    requires { HasRoom run.old }
    ensures kept { kept_in run.new ≡ no_sections }
    ensures room { HasRoom run.new }
    ensures lengths { (len : Claim → ℕ) → AreLong len run.new }
{
    run.reads.clear();
    run.writes.clear();
}

// Inlined: it has too many arguments to be worth a call.
/// Keeps what is due of a claim's wait at the next moment: the wait begins if its upgrade rises, and else it goes on.
#[inline(always)]
pub fn keep_by(
    run: &mut Run,
    event: &Event,
    taken: &mut FoundRead,
    lengths: &[Lengths],
    lost: &Head,
    section: &CoverSection,
    moved: ResourceSet,
    risen: ResourceSet,
    heads: &[Head],
    x: &Claimed,
    last: &[Claimed],
    next: &[Claimed],
)
    requires low { x.now.claim.seat < SEATS }
    requires head { x.now.claim.seat < length heads.now }
    requires last_rises { EachPair Rises last.now }
    requires next_rises { EachPair Rises next.now }
    requires heads { HeadsTell heads.now lost.now moved risen last.now next.now x.now }
    requires section { section.now ≡ section_of lengths.now lost.now.claim }
    requires taken { IsTaken lengths.now last.now taken.old }
    requires room { HasRoom run.old }
    requires few { AreAtMost SEATS (if rises_at event.now x.now.claim.seat then no_sections else gone_on x.now.claim (kept_in run.old) last.now next.now) }
    ensures taken { IsTaken lengths.now last.now taken.new }
    ensures kept { kept_in run.new ≡ (if rises_at event.now x.now.claim.seat then no_sections else gone_on x.now.claim (kept_in run.old) last.now next.now) }
    ensures room { HasRoom run.new }
    ensures lengths { (len : Claim → ℕ) → AreOf (length_by lengths.now) len last.now → length_by lengths.now x.now.claim ≡ len x.now.claim → AreLong len run.old → AreLong len run.new }
{
    if !has_stood(event, x.claim.seat) {
        clear(run);
        return;
    }
    go_on(
        run, taken, lengths, lost, section, moved, risen, heads, x, last, next,
    );
}
