// The numbers that bound the wait of a write claim of a task, from the longest claims of each task in its zone.
ghost use Rattle.std.specs.Prelude.{◌≡◌, ◌≤◌, ◌<◌, unwrap_or};
ghost use Rattle.rbound.specs.ZoneRows.{beside, row_at, other_at, writers_in, writes_in, all_may_write_in, none_beside_in, reads_in, write_length_in};

use crate::rows::{ZoneRows, row_at, row_beside};

/// The length of the task `other` in a row, unless it is this task.
fn other_at(row: &[Option<u32>], task: u8, other: u8) -> Option<u32>
    ensures { result ≡ other_at row.now task other }
{
    if other == task {
        None
    } else {
        row_at(row, other)
    }
}

/// The number of other tasks with a write claim there.
fn writers(writes: &[Option<u32>], tasks: u8, task: u8) -> usize
    ensures { result ≡ writers_in writes.now tasks task }
{
    (0..tasks)
        .filter(|other| other_at(writes, task, *other).is_some())
        .count()
}

/// The writes: one for each other writer, but no more than may be incomplete beside the request itself.
pub(crate) fn writes_of(rows: &ZoneRows, tasks: u8, cap: u8, task: u8) -> usize
    requires { 1 ≤ cap }
    ensures value { result ≡ writes_in rows.now.writes.items tasks cap task }
    ensures few { result < 255 }
{
    writers(&rows.writes, tasks, task).min(usize::from(cap - 1))
}

/// Whether each other task that may read there may also write there.
fn all_may_write(rows: &ZoneRows, tasks: u8, task: u8) -> bool
    ensures { result ≡ all_may_write_in rows.now tasks task }
{
    (0..tasks).all(|t| {
        t == task || !row_at(&rows.reads, t).is_some() || row_at(&rows.writes, t).is_some()
    })
}

/// Whether no other reader can be incomplete beside all writers that count, of which there are `writes`, and no writer is an
/// upgrade.
fn none_beside(rows: &ZoneRows, tasks: u8, cap: u8, task: u8, writes: usize) -> bool
    requires cap { 1 ≤ cap }
    requires writes { writes ≡ writes_in rows.now.writes.items tasks cap task }
    ensures { result ≡ none_beside_in rows.now tasks cap task }
{
    row_beside(&rows.upgrades, tasks, task).is_none()
        && (writes == usize::from(cap - 1) || all_may_write(rows, tasks, task))
}

/// The reads beside this many writes: none where no other task reads there; otherwise one for each write, and one more unless no
/// reader can be beside them.
pub(crate) fn reads_of(rows: &ZoneRows, tasks: u8, cap: u8, task: u8, writes: usize) -> usize
    requires cap { 1 ≤ cap }
    requires writes { writes ≡ writes_in rows.now.writes.items tasks cap task }
    requires few { writes < 255 }
    ensures value { result ≡ reads_in rows.now tasks cap task }
    ensures few { result ≤ 255 }
{
    if row_beside(&rows.reads, tasks, task).is_none() {
        0
    } else if none_beside(rows, tasks, cap, task, writes) {
        writes
    } else {
        writes + 1
    }
}

/// The longest length of another task's read claim there, 0 if there is none.
pub(crate) fn read_length(rows: &ZoneRows, tasks: u8, task: u8) -> u32
    ensures { result ≡ unwrap_or (beside tasks task (row_at rows.now.reads.items)) 0 }
{
    row_beside(&rows.reads, tasks, task).unwrap_or(0)
}

/// The write length of the task `other`, 0 where it is this task or does not write there.
pub(crate) fn write_length(writes: &[Option<u32>], task: u8, other: u8) -> u32
    ensures { result ≡ write_length_in writes.now task other }
{
    other_at(writes, task, other).unwrap_or(0)
}
