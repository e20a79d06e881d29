// The longest claims of each task in a zone.
ghost use Rattle.std.specs.Prelude.{◌≡◌, IfOk, None, fold, map, if◌then◌else◌};
ghost use Rattle.std.specs.List.{range_with_len};
ghost use Rattle.rbound.specs.Longest.{longer, longest};
ghost use Rattle.rbound.specs.ZoneRows.{is_sort, is_there_of, beside, row_at, AreRows};

use crate::Needed;
use crate::longest::longer;
use rmodel::is_upgrade;
use rset::ResourceSet;
use std::alloc::{AllocError, Global};

/// For each task, the longest of its claims in a zone.
#[derive(Drop)]
pub struct ZoneRows {
    /// The longest of its write claims.
    pub writes: Vec<Option<u32>>,
    /// The longest of its read claims.
    pub reads: Vec<Option<u32>>,
    /// The longest of the claims of its upgrades.
    pub upgrades: Vec<Option<u32>>,
}

/// Which claims are meant.
#[derive(Clone, Copy)]
pub(crate) enum Sort {
    /// Write claims.
    Writes,
    /// Read claims.
    Reads,
    /// Claims of upgrades.
    Upgrades,
}

/// Whether a claim is of this sort.
fn is_sort(sort: Sort, need: &Needed) -> bool
    ensures { result ≡ is_sort sort need.now }
{
    match sort {
        Sort::Writes => need.claim.write_half,
        Sort::Reads => !need.claim.write_half,
        Sort::Upgrades => is_upgrade(need.claim.kind),
    }
}

/// Whether it is a claim of the task, of this sort, in the zone.
fn is_there_of(sort: Sort, zone: ResourceSet, task: u8, need: &Needed) -> bool
    ensures { result ≡ is_there_of sort zone task need.now }
{
    need.claim.seat == task && (is_sort(sort, need) && need.claim.places.within(zone))
}

/// The longest of the task's claims of this sort in the zone.
fn longest_there(needs: &[Needed], sort: Sort, zone: ResourceSet, task: u8) -> Option<u32>
    ensures { result ≡ longest (is_there_of sort zone task) needs.now }
{
    needs.iter().fold(None, |most, n| {
        if is_there_of(sort, zone, task, n) {
            longer(most, Some(n.len))
        } else {
            most
        }
    })
}

/// The same for each task.
fn row_of(
    alloc: Global,
    needs: &[Needed],
    sort: Sort,
    zone: ResourceSet,
    tasks: u8,
) -> Result<Vec<Option<u32>>, AllocError>
    ensures { IfOk result (λ row. row.items ≡ map (λ t. longest (is_there_of sort zone t) needs.now) (range_with_len 0 tasks)) }
{
    (0..tasks)
        .map(|task| longest_there(needs, sort, zone, task))
        .collect(alloc)
}

/// The rows of a zone.
pub(crate) fn rows_of(
    alloc: Global,
    needs: &[Needed],
    tasks: u8,
    zone: ResourceSet,
) -> Result<ZoneRows, AllocError>
    ensures { IfOk result (AreRows needs.now tasks zone) }
{
    Ok(ZoneRows {
        writes: row_of(alloc, needs, Sort::Writes, zone, tasks)?,
        reads: row_of(alloc, needs, Sort::Reads, zone, tasks)?,
        upgrades: row_of(alloc, needs, Sort::Upgrades, zone, tasks)?,
    })
}

/// The length that a row has for a task.
pub(crate) fn row_at(row: &[Option<u32>], task: u8) -> Option<u32>
    ensures { result ≡ row_at row.now task }
{
    match row.get(usize::from(task)) {
        Some(len) => *len,
        None => None,
    }
}

/// The longest of a row, leaving one task out.
pub(crate) fn row_beside(row: &[Option<u32>], tasks: u8, me: u8) -> Option<u32>
    ensures { result ≡ beside tasks me (row_at row.now) }
{
    (0..tasks).fold(None, |most, task| {
        if task == me {
            most
        } else {
            longer(most, row_at(row, task))
        }
    })
}
