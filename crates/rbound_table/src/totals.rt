// Totals of the claims in a zone for all tasks at once, and the bound of each task from them.
ghost use Rattle.std.specs.Prelude.{◌≡◌, ◌≤◌, ◌<◌, IfOk};
ghost use Rattle.rbound.specs.Bounds.{numbers_in};
ghost use Rattle.rbound.specs.ZoneRows.{all_may_write_in, none_beside_in, numbers_of, reads_in, writes_in};
ghost use Rattle.rbound_table.specs.Sums.{AreSums};
ghost use Rattle.rbound_table.specs.Totals.{AreTotals, two_in, only_reads, only_readers};

use crate::lengths::nth_length;
use crate::sums::{GreatestSums, sums_of, writers_there, written_beside};
use crate::two::{TwoLongest, no_length, only, two_at, two_of_both};
use rbound::{Bound, ZoneRows};
use std::alloc::{AllocError, Global};

/// Totals of the rows of a zone for all tasks at once.
#[derive(Clone, Copy)]
pub(crate) struct ZoneTotals {
    // The number of tasks with a write claim there.
    writers: usize,
    sums: GreatestSums,
    // The number of tasks that read there and have no write claim.
    only_readers: usize,
    reads: TwoLongest,
    upgrades: TwoLongest,
}

/// Whether a task reads there and has no write claim.
fn only_reads(rows: &ZoneRows, task: u8) -> bool
    ensures { result ≡ only_reads rows.now task }
{
    nth_length(&rows.reads, task).is_some() && nth_length(&rows.writes, task).is_none()
}

/// The number of these tasks.
fn only_readers(rows: &ZoneRows, tasks: u8) -> usize
    ensures { result ≡ only_readers rows.now tasks }
{
    (0..tasks).filter(|task| only_reads(rows, *task)).count()
}

/// The two longest of a row.
fn two_in(row: &[Option<u32>], tasks: u8) -> TwoLongest
    ensures { result ≡ two_in row.now tasks }
{
    (0..tasks).fold(
        no_length(),
        |two, task| two_of_both(two, only(task, nth_length(row, task))),
    )
}

/// The totals of these rows under a cap.
///
/// # Errors
///
/// Out of memory.
pub(crate) fn totals_of(
    alloc: Global,
    rows: &ZoneRows,
    tasks: u8,
    cap: u8,
) -> Result<ZoneTotals, AllocError>
    requires { 1 ≤ cap }
    ensures totals { IfOk result (AreTotals rows.now tasks) }
    ensures sums { IfOk result (λ totals. AreSums rows.now.writes.items tasks cap totals.sums) }
{
    Ok(ZoneTotals {
        writers: writers_there(&rows.writes, tasks),
        sums: sums_of(alloc, &rows.writes, tasks, cap)?,
        only_readers: only_readers(rows, tasks),
        reads: two_in(&rows.reads, tasks),
        upgrades: two_in(&rows.upgrades, tasks),
    })
}

/// The writes: one for each other task with a write claim there, but no more than may be incomplete beside the request itself.
fn writes_beside(rows: &ZoneRows, totals: &ZoneTotals, tasks: u8, cap: u8, task: u8) -> usize
    requires cap { 1 ≤ cap }
    requires task { task < tasks }
    requires totals { AreTotals rows.now tasks totals.now }
    ensures value { result ≡ writes_in rows.now.writes.items tasks cap task }
    ensures few { result < 255 }
{
    let others = totals.writers - usize::from(nth_length(&rows.writes, task).is_some());
    others.min(usize::from(cap - 1))
}

/// Whether each other task that may read there may also write there.
fn all_may_write(rows: &ZoneRows, totals: &ZoneTotals, tasks: u8, task: u8) -> bool
    requires task { task < tasks }
    requires totals { AreTotals rows.now tasks totals.now }
    ensures { result ≡ all_may_write_in rows.now tasks task }
{
    totals.only_readers == usize::from(only_reads(rows, task))
}

/// Whether no other reader can be incomplete beside all other writers, of which there are `writes`, and no writer is an upgrade.
#[tactic(auto, using(crate::proofs::TotalFacts::upgrade_is))]
fn none_beside(
    rows: &ZoneRows,
    totals: &ZoneTotals,
    tasks: u8,
    cap: u8,
    task: u8,
    writes: usize,
) -> bool
    requires cap { 1 ≤ cap }
    requires task { task < tasks }
    requires totals { AreTotals rows.now tasks totals.now }
    requires writes { writes ≡ writes_in rows.now.writes.items tasks cap task }
    ensures { result ≡ none_beside_in rows.now tasks cap task }
{
    two_at(totals.upgrades, task).is_none()
        && (writes == usize::from(cap - 1) || all_may_write(rows, totals, tasks, task))
}

/// The reads beside this many writes.
#[tactic(auto, using(crate::proofs::TotalFacts::read_is))]
fn reads_beside(
    rows: &ZoneRows,
    totals: &ZoneTotals,
    tasks: u8,
    cap: u8,
    task: u8,
    writes: usize,
) -> usize
    requires cap { 1 ≤ cap }
    requires task { task < tasks }
    requires totals { AreTotals rows.now tasks totals.now }
    requires writes { writes ≡ writes_in rows.now.writes.items tasks cap task }
    requires few { writes < 255 }
    ensures value { result ≡ reads_in rows.now tasks cap task }
    ensures few { result ≤ 255 }
{
    if two_at(totals.reads, task).is_none() {
        0
    } else if none_beside(rows, totals, tasks, cap, task, writes) {
        writes
    } else {
        writes + 1
    }
}

/// The bound of the write waits of a task.
pub(crate) fn bound_by(rows: &ZoneRows, totals: &ZoneTotals, tasks: u8, cap: u8, task: u8) -> Bound
    requires cap { 1 ≤ cap }
    requires task { task < tasks }
    requires totals { AreTotals rows.now tasks totals.now }
    requires sums { AreSums rows.now.writes.items tasks cap totals.now.sums }
    ensures { numbers_in result ≡ numbers_of rows.now tasks cap task }
{
    let writes = writes_beside(rows, totals, tasks, cap, task);
    let reads = reads_beside(rows, totals, tasks, cap, task, writes) as u64;
    let read = two_at(totals.reads, task).unwrap_or(0);
    let written = written_beside(&totals.sums, &rows.writes, tasks, cap, task);
    Bound {
        reads,
        writes: writes as u64,
        units: written + reads * u64::from(read),
    }
}
