// For each resource and task, the longest claim of another task that can hold up a write of the resource by a third task.
ghost use Rattle.std.specs.Prelude.{◌≡◌, ◌<◌, IfOk, IfSome, map, slice_index_or};
ghost use Rattle.std.specs.List.{range_with_len};
ghost use Rattle.rset.specs.declared.TheConstants.{RESOURCES};
ghost use Rattle.rbound_table.specs.Two.{no_length};
ghost use Rattle.rbound_table.specs.Lengths.{rows_in};
ghost use Rattle.rbound_table.specs.Delays.{all_leaders, readers_of, delayed_by, delayed, delayers_in, delayers_at, delay_at, top_at, writer_delayed, delays_in};

use crate::leaders::{Leaders, leaders_at, led_beside};
use crate::table::{Cell, cell_at};
use crate::tables::Tables;
use crate::two::{TwoLongest, no_length, only, two_at, two_of_both};
use rbound::longer;
use rset::RESOURCES;
use std::alloc::{AllocError, Global};

/// For each resource, the tasks that read it longest.
fn all_leaders(alloc: Global, cells: &[Cell], tasks: u8) -> Result<Vec<Leaders>, AllocError>
    ensures { IfOk result (λ all. all.items ≡ all_leaders cells.now tasks) }
{
    (0..RESOURCES)
        .map(|m| leaders_at(cells, tasks, m as u8))
        .collect(alloc)
}

/// For each resource, the two longest claims by which tasks other than the writer read it.
fn readers_of(alloc: Global, leaders: &[Leaders], writer: u8) -> Result<Vec<TwoLongest>, AllocError>
    ensures { IfOk result (λ row. row.items ≡ readers_of leaders.now writer) }
{
    leaders
        .iter()
        .map(|all| led_beside(*all, writer))
        .collect(alloc)
}

/// One element of a row.
fn nth_two(row: &[TwoLongest], at: u8) -> TwoLongest
    ensures { result ≡ slice_index_or row.now at no_length }
{
    match row.get(usize::from(at)) {
        Some(two) => *two,
        None => no_length(),
    }
}

/// The two longest claims that can hold up what the writer writes together with a resource: what other tasks read of that,
/// and the read halves of the writer's own upgrades.
fn delayed(tables: &Tables, readers: &[TwoLongest], writer: u8, l: u8) -> TwoLongest
    ensures { result ≡ delayed_by tables.now readers.now writer l }
{
    let half = cell_at(&tables.halves, writer, l).longest;
    let written = cell_at(&tables.writes, writer, l).beside;
    written.iter().fold(
        only(writer, half),
        |two, m| two_of_both(two, nth_two(readers, m)),
    )
}

/// The same for each resource.
fn delayed_row(
    alloc: Global,
    tables: &Tables,
    readers: &[TwoLongest],
    writer: u8,
) -> Result<Vec<TwoLongest>, AllocError>
    ensures { IfOk result (λ row. row.items ≡ map (delayed_by tables.now readers.now writer) (range_with_len 0 RESOURCES)) }
{
    (0..RESOURCES)
        .map(|l| delayed(tables, readers, writer, l as u8))
        .collect(alloc)
}

/// The same for each writer.
fn delayers_of(
    alloc: Global,
    tables: &Tables,
    tasks: u8,
) -> Result<Vec<Vec<TwoLongest>>, AllocError>
    ensures { IfOk result (λ rows. rows_in rows.items ≡ delayers_in tables.now tasks) }
{
    let leaders = all_leaders(alloc, &tables.reads, tasks)?;
    let mut rows = Vec::new(alloc);
    for writer in 0..tasks {
        let readers = readers_of(alloc, &leaders, writer)?;
        rows.push(delayed_row(alloc, tables, &readers, writer)?)?;
    }
    Ok(rows)
}

/// Those of a writer at a resource.
fn delayers_at(rows: &[Vec<TwoLongest>], writer: u8, l: u8) -> TwoLongest
    ensures { result ≡ delayers_at (rows_in rows.now) writer l }
{
    let at = usize::from(writer);
    if at < rows.len() {
        nth_two(&rows[at], l)
    } else {
        no_length()
    }
}

/// The longest claim of another task that can hold up a write of the resource by another task.
fn delay_at(rows: &[Vec<TwoLongest>], tasks: u8, l: u8, me: u8) -> Option<u32>
    ensures { result ≡ delay_at (rows_in rows.now) tasks l me }
{
    (0..tasks).fold(None, |most, writer| {
        if writer == me {
            most
        } else {
            longer(most, two_at(delayers_at(rows, writer, l), me))
        }
    })
}

/// The longest of all claims that can hold up a write of the resource.
fn top_at(rows: &[Vec<TwoLongest>], tasks: u8, l: u8) -> Option<u32>
    ensures { result ≡ top_at (rows_in rows.now) tasks l }
{
    (0..tasks).fold(None, |most, writer| {
        let two = delayers_at(rows, writer, l);
        longer(most, longer(two.longest, two.next))
    })
}

/// The first writer whose writes of the resource a claim of this length can hold up, where there is one.
fn writer_delayed(rows: &[Vec<TwoLongest>], tasks: u8, l: u8, top: Option<u32>) -> Option<u8>
    ensures within { IfSome result (λ writer. writer < tasks) }
    ensures value { result ≡ writer_delayed (rows_in rows.now) tasks l top }
{
    (0..tasks).find(|writer| delayers_at(rows, *writer, l).longest == top)
}

/// What `delay_at` finds: the longest of all, where it is of another task and holds up a third one.
fn delay_by(
    rows: &[Vec<TwoLongest>],
    tasks: u8,
    l: u8,
    me: u8,
    top: Option<u32>,
    writer: Option<u8>,
) -> Option<u32>
    requires top { top ≡ top_at (rows_in rows.now) tasks l }
    requires writer { IfSome writer (λ w. w < tasks) }
    ensures { result ≡ delay_at (rows_in rows.now) tasks l me }
{
    match writer {
        Some(w) if w != me && two_at(delayers_at(rows, w, l), me) == top => top,
        _ => delay_at(rows, tasks, l, me),
    }
}

/// The same for each task.
fn delay_row(
    alloc: Global,
    rows: &[Vec<TwoLongest>],
    tasks: u8,
    l: u8,
) -> Result<Vec<Option<u32>>, AllocError>
    ensures { IfOk result (λ row. row.items ≡ map (delay_at (rows_in rows.now) tasks l) (range_with_len 0 tasks)) }
{
    let top = top_at(rows, tasks, l);
    let writer = writer_delayed(rows, tasks, l, top);
    (0..tasks)
        .map(|me| delay_by(rows, tasks, l, me, top, writer))
        .collect(alloc)
}

/// The same for each resource.
pub(crate) fn delays_of(
    alloc: Global,
    tables: &Tables,
    tasks: u8,
) -> Result<Vec<Vec<Option<u32>>>, AllocError>
    ensures { IfOk result (λ rows. rows_in rows.items ≡ delays_in tables.now tasks) }
{
    let delayers = delayers_of(alloc, tables, tasks)?;
    let mut rows = Vec::new(alloc);
    for l in 0..RESOURCES {
        rows.push(delay_row(alloc, &delayers, tasks, l as u8)?)?;
    }
    Ok(rows)
}
