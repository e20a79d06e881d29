// For each resource and task, a length: that of the longest claim of other tasks that reads it, or that writes it.
ghost use Rattle.std.specs.Prelude.{◌≡◌, IfOk, IsTrue, map};
ghost use Rattle.std.specs.List.{range_with_len};
ghost use Rattle.rset.specs.Sets.{all_below};
ghost use Rattle.rset.specs.declared.TheConstants.{RESOURCES};
ghost use Rattle.rbound.specs.ZoneRows.{row_at};
ghost use Rattle.rbound_table.specs.Tables.{cell_at};
ghost use Rattle.rbound_table.specs.Lengths.{rows_in, two_longest_at, others_at, others_in, length_at, longest_over};

use crate::table::{Cell, cell_at};
use crate::two::{TwoLongest, no_length, only, two_at, two_of_both};
use rbound::longer;
use rset::{RESOURCES, ResourceSet};
use std::alloc::{AllocError, Global};

/// The two longest that a table has at a resource.
pub(crate) fn two_longest_at(cells: &[Cell], tasks: u8, l: u8) -> TwoLongest
    ensures { result ≡ two_longest_at cells.now tasks l }
{
    (0..tasks).fold(no_length(), |two, task| {
        two_of_both(two, only(task, cell_at(cells, task, l).longest))
    })
}

/// The longest that a table has at a resource for all tasks but one, from the two longest there.
#[tactic(auto, using(crate::proofs::TwoFacts::two_of_at))]
fn others_at(cells: &[Cell], tasks: u8, l: u8, me: u8, two: TwoLongest) -> Option<u32>
    requires { two ≡ two_longest_at cells.now tasks l }
    ensures { result ≡ others_at cells.now tasks l me }
{
    two_at(two, me)
}

/// The same for each task.
fn others_row(
    alloc: Global,
    cells: &[Cell],
    tasks: u8,
    l: u8,
) -> Result<Vec<Option<u32>>, AllocError>
    ensures { IfOk result (λ row. row.items ≡ map (others_at cells.now tasks l) (range_with_len 0 tasks)) }
{
    let two = two_longest_at(cells, tasks, l);
    (0..tasks)
        .map(|me| others_at(cells, tasks, l, me, two))
        .collect(alloc)
}

/// The same for each resource.
pub(crate) fn others_of(
    alloc: Global,
    cells: &[Cell],
    tasks: u8,
) -> Result<Vec<Vec<Option<u32>>>, AllocError>
    ensures { IfOk result (λ rows. rows_in rows.items ≡ others_in cells.now tasks) }
{
    let mut rows = Vec::new(alloc);
    for l in 0..RESOURCES {
        rows.push(others_row(alloc, cells, tasks, l as u8)?)?;
    }
    Ok(rows)
}

/// The length at a resource for a task.
fn length_at(rows: &[Vec<Option<u32>>], l: u8, me: u8) -> Option<u32>
    ensures { result ≡ length_at (rows_in rows.now) l me }
{
    let at = usize::from(l);
    if at < rows.len() {
        nth_length(&rows[at], me)
    } else {
        None
    }
}

/// The length that a row has for a task; None where the row is shorter.
pub fn nth_length(row: &[Option<u32>], me: u8) -> Option<u32>
    ensures { result ≡ row_at row.now me }
{
    match row.get(usize::from(me)) {
        Some(length) => *length,
        None => None,
    }
}

/// The longest over some resources for a task, in rows, one for each resource.
pub fn longest_over(rows: &[Vec<Option<u32>>], me: u8, set: ResourceSet) -> Option<u32>
    ensures value { result ≡ longest_over (rows_in rows.now) me set }
    ensures below { IsTrue (all_below RESOURCES set) }
{
    set.iter()
        .fold(None, |most, l| longer(most, length_at(rows, l, me)))
}
