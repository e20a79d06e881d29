// The tables that answer all bounds, made once from the needed claims.
ghost use Rattle.std.specs.Prelude.{◌≡◌, ◌≤◌, ◌<◌, IfOk, IfSome, IsTrue, length, map, slice_get, slice_index_or};
ghost use Rattle.std.specs.List.{range_with_len};
ghost use Rattle.std.specs.FinSet as finset;
ghost use Rattle.rset.specs.Sets.{rising, all_below};
ghost use Rattle.rset.specs.declared.TheConstants.{RESOURCES};
ghost use Rattle.rbound.specs.Bounds.{numbers_in, no_wait};
ghost use Rattle.rbound.specs.TaskNeeds.{needed_in};
ghost use Rattle.rbound.specs.ZoneRows.{numbers_of};
ghost use Rattle.rbound_table.specs.Answers.{StandsAt, AreWriteBounds, AreAnswers, bound_at, write_answer, read_answer, ask_answer, first_answer, rise_answer, asked_answer, bound_in_zone};

use crate::lengths::longest_over;
use crate::other_lengths::{OtherLengths, other_lengths_of};
use crate::rows::rows_of;
use crate::tables::{Tables, tables_of};
use crate::totals::{bound_by, totals_of};
use crate::zones::zones_of;
use rbound::{Bound, Needed, Needs, ZoneRows};
use rclaim::Claim;
use rset::{RESOURCES, ResourceSet};
use std::alloc::{AllocError, Global};

/// The tables that answer all bounds under a cap.
#[derive(Drop)]
pub(crate) struct Answers {
    pub(crate) cap: u8,
    pub(crate) lengths: OtherLengths,
    // The zone of each place.
    pub(crate) zones: Vec<ResourceSet>,
    // At the least place of each zone, the bounds of the write waits of all tasks.
    pub(crate) writes: Vec<Vec<Bound>>,
}

/// The bounds of the write waits of all tasks in the zone of these rows.
fn write_bounds(
    alloc: Global,
    rows: &ZoneRows,
    tasks: u8,
    cap: u8,
) -> Result<Vec<Bound>, AllocError>
    requires { 1 ≤ cap }
    ensures { IfOk result (λ bounds. map numbers_in bounds.items ≡ map (numbers_of rows.now tasks cap) (range_with_len 0 tasks)) }
{
    let totals = totals_of(alloc, rows, tasks, cap)?;
    let mut bounds = Vec::new(alloc);
    for task in 0..tasks {
        bounds.push(bound_by(rows, &totals, tasks, cap, task))?;
    }
    Ok(bounds)
}

/// The bounds of the write waits of all tasks in a zone, at its least place; no bounds at other places.
fn place_bounds(
    alloc: Global,
    tables: &Tables,
    tasks: u8,
    cap: u8,
    l: u8,
    zone: ResourceSet,
) -> Result<Vec<Bound>, AllocError>
    requires { 1 ≤ cap }
    ensures { IfOk result (λ bounds. StandsAt tables.now tasks cap zone l bounds.items) }
{
    // This shows the proof that the places of the zone are below the number of resources.
    let _ = zone.len();
    match zone.first() {
        Some(first) if first == l => {
            let rows = rows_of(alloc, tables, tasks, zone)?;
            write_bounds(alloc, &rows, tasks, cap)
        }
        _ => Ok(Vec::new(alloc)),
    }
}

/// The bounds of the write waits in all zones, each at its least place.
fn all_write_bounds(
    alloc: Global,
    tables: &Tables,
    tasks: u8,
    cap: u8,
    zones: &[ResourceSet],
) -> Result<Vec<Vec<Bound>>, AllocError>
    requires cap { 1 ≤ cap }
    ensures { IfOk result (λ writes. AreWriteBounds tables.now tasks cap zones.now writes.items) }
{
    let mut writes = Vec::new(alloc);
    for l in 0..RESOURCES {
        let zone = zone_in(zones, l as u8);
        writes.push(place_bounds(alloc, tables, tasks, cap, l as u8, zone)?)?;
    }
    Ok(writes)
}

/// The zone of a place; empty where there is no such place.
fn zone_in(zones: &[ResourceSet], l: u8) -> ResourceSet
    ensures { result ≡ slice_index_or zones.now l finset.empty }
{
    match zones.get(usize::from(l)) {
        Some(zone) => *zone,
        None => ResourceSet::empty(),
    }
}

/// The tables that answer the bounds of these needs.
pub(crate) fn answers_of(alloc: Global, needs: &Needs, cap: u8) -> Result<Answers, AllocError>
    requires { 1 ≤ cap }
    ensures answers { IfOk result (AreAnswers (needed_in needs.now) (length needs.now.tasks)) }
    ensures cap { IfOk result (λ answers. answers.cap ≡ cap) }
{
    let tasks = needs.tasks();
    let tables = tables_of(alloc, needs.claims(), tasks)?;
    let zones = zones_of(alloc, needs)?;
    let lengths = other_lengths_of(alloc, &tables, tasks)?;
    let writes = all_write_bounds(alloc, &tables, tasks, cap, &zones)?;
    Ok(Answers {
        cap,
        lengths,
        zones,
        writes,
    })
}

/// The bound of a task's write waits in the zone whose least place this is.
fn bound_at(writes: &[Vec<Bound>], task: u8, l: u8) -> Bound
    ensures { numbers_in result ≡ bound_at (slice_get writes.now l) task }
{
    let (at, t) = (usize::from(l), usize::from(task));
    if at < writes.len() {
        nth_bound(&writes[at], t)
    } else {
        Bound::no_wait()
    }
}

/// One of these bounds.
fn nth_bound(bounds: &[Bound], at: usize) -> Bound
    ensures { numbers_in result ≡ slice_index_or (map numbers_in bounds.now) at no_wait }
{
    if at < bounds.len() {
        bounds[at]
    } else {
        Bound::no_wait()
    }
}

/// The bound of a task's write waits in a zone.
fn bound_in_zone(writes: &[Vec<Bound>], task: u8, zone: ResourceSet) -> Bound
    ensures { numbers_in result ≡ bound_in_zone writes.now task (slice_get (rising zone) 0) }
{
    match zone.first() {
        None => Bound::no_wait(),
        Some(l) => bound_at(writes, task, l),
    }
}

/// The bound of the wait of a write claim of a task with these places.
fn write_answer(answers: &Answers, task: u8, places: ResourceSet) -> Bound
    ensures { numbers_in result ≡ write_answer answers.now task places }
{
    match places.first() {
        None => Bound::no_wait(),
        Some(l) => bound_in_zone(&answers.writes, task, zone_in(&answers.zones, l)),
    }
}

/// The bound of the wait of a read claim.
fn read_answer(answers: &Answers, claim: &Claim) -> Bound
    ensures value { numbers_in result ≡ read_answer answers.now claim.now }
    ensures below { IsTrue (all_below RESOURCES claim.now.reads) }
{
    let keeping = longest_over(&answers.lengths.keeps, claim.seat, claim.reads);
    let delaying = longest_over(&answers.lengths.delays, claim.seat, claim.reads);
    Bound::one_of_each(keeping, delaying)
}

/// The bound of an ask of a claim for this part.
fn ask_answer(answers: &Answers, claim: &Claim, part: ResourceSet) -> Bound
    ensures value { numbers_in result ≡ ask_answer answers.now claim.now part }
    ensures below { IsTrue (all_below RESOURCES (finset.intersection part claim.now.writes)) }
{
    let barring = longest_over(&answers.lengths.bars, claim.seat, part.meet(claim.writes));
    Bound::one_of_each(None, barring)
}

/// The bound of the first wait of a claim.
pub(crate) fn first_answer(answers: &Answers, claim: &Claim) -> Bound
    ensures value { numbers_in result ≡ first_answer answers.now claim.now }
    ensures below { IsTrue (all_below RESOURCES claim.now.reads) }
{
    // This shows the proof that what it reads is below the number of resources.
    let _ = claim.reads.len();
    if claim.write_half {
        claim_answer(answers, claim)
    } else {
        read_answer(answers, claim)
    }
}

/// The bound of the wait of a write claim.
fn claim_answer(answers: &Answers, claim: &Claim) -> Bound
    ensures { numbers_in result ≡ write_answer answers.now claim.now.seat claim.now.places }
{
    write_answer(answers, claim.seat, claim.places)
}

/// The bound of the wait of an upgrade that rises, where there is such a claim.
pub(crate) fn rise_answer(answers: &Answers, write: Option<Needed>) -> Bound
    ensures { numbers_in result ≡ rise_answer answers.now write }
{
    match write {
        None => Bound::no_wait(),
        Some(need) => claim_answer(answers, &need.claim),
    }
}

/// The bound of an ask for this part, where there is such a claim.
pub(crate) fn asked_answer(answers: &Answers, write: Option<Needed>, part: ResourceSet) -> Bound
    ensures value { numbers_in result ≡ asked_answer answers.now part write }
    ensures below { IfSome write (λ n. IsTrue (all_below RESOURCES (finset.intersection part n.claim.writes))) }
{
    match write {
        None => Bound::no_wait(),
        Some(need) => ask_answer(answers, &need.claim, part),
    }
}
