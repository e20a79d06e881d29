// The greatest sum of at most a given number of the write lengths of tasks, from a row of the greatest sums of fewer.
ghost use Rattle.std.specs.Prelude.{◌≡◌, ◌≤◌, ◌<◌, ◌*◌, ◌^◌, ℕ, IfOk, length, map, slice_index};
ghost use Rattle.rbound.specs.Bounds.{largest, tasks_of};
ghost use Rattle.rbound.specs.ZoneRows.{write_length_in};
ghost use Rattle.rbound.specs.Rows.{with_length, IsSmallRow};

use crate::write_wait::write_length;
use std::alloc::{AllocError, Global};

/// Takes one more length into a row, from its last place down, so that each place still sees the old value before it.
fn take_length(row: &mut [u64], len: u32)
    requires some { 0 < length row.old }
    requires short { length row.old ≤ 256 }
    requires small { IsSmallRow row.old }
    ensures sums { (j : ℕ) → j < length row.old → slice_index row.new j ≡ with_length len row.old j }
    ensures small { IsSmallRow row.new }
{
    let mut at = row.len();
    while at > 1 {
        at -= 1;
        let sum = u64::from(len) + row[at - 1];
        row[at] = row[at].max(sum);
    }
}

/// The greatest sum of at most this many of the write lengths of all tasks.
pub(crate) fn largest_writes(
    alloc: Global,
    writes: &[Option<u32>],
    tasks: u8,
    task: u8,
    count: usize,
) -> Result<u64, AllocError>
    requires { count < 255 }
    ensures sum { IfOk result (λ sum. sum ≡ largest count (map (write_length_in writes.now task) (tasks_of tasks))) }
    ensures small { IfOk result (λ sum. sum ≤ 255 * 2 ^ 32) }
{
    let mut sums = vec![in alloc; 0u64; count + 1]?;
    let row = sums.as_mut_slice();
    let mut left = tasks;
    while left > 0 {
        left -= 1;
        let len = write_length(writes, task, left);
        take_length(row, len);
    }
    Ok(row[count])
}
