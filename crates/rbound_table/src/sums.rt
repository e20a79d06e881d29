// The greatest sums of the write lengths of all tasks but any one, from sums that are found once for a zone.
ghost use Rattle.std.specs.Prelude.{◌≡◌, ◌≤◌, ◌<◌, ◌-◌, ◌*◌, ◌^◌, ℕ, IfOk, length, map, slice_index, sum};
ghost use Rattle.rbound.specs.Bounds.{largest, tasks_of};
ghost use Rattle.rbound.specs.Rows.{with_length, IsSmallRow};
ghost use Rattle.rbound.specs.ZoneRows.{write_length_in};
ghost use Rattle.rbound_table.specs.Sums.{AreSums, AreGreatest, length_in, writers_there};

use crate::lengths::nth_length;
use std::alloc::{AllocError, Global};

/// The greatest sums of the lengths in a row: of at most one fewer than the cap, and of at most the cap. Where no task has as many
/// others with a length as the cap, both are the sum of all.
#[derive(Clone, Copy)]
pub(crate) struct GreatestSums {
    pub(crate) fewer: u64,
    pub(crate) most: u64,
}

/// The number of tasks that have a length in a row.
pub(crate) fn writers_there(writes: &[Option<u32>], tasks: u8) -> usize
    ensures { result ≡ writers_there writes.now tasks }
{
    (0..tasks)
        .filter(|task| nth_length(writes, *task).is_some())
        .count()
}

/// The length that a row has for a task, 0 where it has none.
pub(crate) fn length_in(row: &[Option<u32>], task: u8) -> u32
    ensures { result ≡ length_in row.now task }
{
    nth_length(row, task).unwrap_or(0)
}

/// The sum of the lengths of a row.
fn sum_of(row: &[Option<u32>], tasks: u8) -> u64
    ensures sum { result ≡ sum (map (length_in row.now) (tasks_of tasks)) }
    ensures small { result ≤ 255 * 2 ^ 32 }
{
    let mut all = 0;
    for task in 0..tasks {
        all += u64::from(length_in(row, task));
    }
    all
}

/// Takes one more length into the greatest sums of at most 0, 1, 2 .. lengths, from the last place down, so that each place still
/// sees the old sum before it.
fn take_length(sums: &mut [u64], len: u32)
    requires some { 0 < length sums.old }
    requires short { length sums.old ≤ 256 }
    requires small { IsSmallRow sums.old }
    ensures sums { (j : ℕ) → j < length sums.old → slice_index sums.new j ≡ with_length len sums.old j }
    ensures small { IsSmallRow sums.new }
{
    let mut at = sums.len();
    while at > 1 {
        at -= 1;
        let sum = u64::from(len) + sums[at - 1];
        sums[at] = sums[at].max(sum);
    }
}

/// The greatest sums of the lengths in a row.
fn greatest_of(
    alloc: Global,
    row: &[Option<u32>],
    tasks: u8,
    cap: u8,
) -> Result<GreatestSums, AllocError>
    requires { 1 ≤ cap }
    ensures { IfOk result (AreGreatest row.now tasks cap) }
{
    let count = usize::from(cap);
    let mut sums = vec![in alloc; 0u64; count + 1]?;
    let sums = sums.as_mut_slice();
    let mut left = tasks;
    while left > 0 {
        left -= 1;
        let len = length_in(row, left);
        take_length(sums, len);
    }
    Ok(GreatestSums {
        fewer: sums[count - 1],
        most: sums[count],
    })
}

/// The sums of a row of write lengths. Only where some of them do not count under the cap, the greatest are looked for.
///
/// # Errors
///
/// Out of memory.
pub(crate) fn sums_of(
    alloc: Global,
    writes: &[Option<u32>],
    tasks: u8,
    cap: u8,
) -> Result<GreatestSums, AllocError>
    requires { 1 ≤ cap }
    ensures { IfOk result (AreSums writes.now tasks cap) }
{
    if tasks <= cap || writers_there(writes, tasks) < usize::from(cap) {
        let all = sum_of(writes, tasks);
        Ok(GreatestSums {
            fewer: all,
            most: all,
        })
    } else {
        greatest_of(alloc, writes, tasks, cap)
    }
}

/// The greatest sum of the write lengths of other tasks, of at most one fewer than the cap: that of all tasks, or with one more
/// length and without that of the task itself, whichever is less.
pub(crate) fn written_beside(
    sums: &GreatestSums,
    writes: &[Option<u32>],
    tasks: u8,
    cap: u8,
    task: u8,
) -> u64
    requires task { task < tasks }
    requires sums { AreSums writes.now tasks cap sums.now }
    ensures sum { result ≡ largest (cap - 1) (map (write_length_in writes.now task) (tasks_of tasks)) }
    ensures small { result ≤ 255 * 2 ^ 32 }
{
    let own = u64::from(length_in(writes, task));
    sums.fewer.min(sums.most - own)
}
