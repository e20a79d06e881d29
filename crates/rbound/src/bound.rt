// The greatest length of a wait, by the claims that are needed.
ghost use Rattle.std.specs.Prelude.{◌≡◌, ◌≤◌, ◌<◌, ◌*◌, ◌^◌, IfOk};
ghost use Rattle.std.specs.List.{AllByRecursion};
ghost use Rattle.rbound.specs.Bounds.{numbers_in, no_wait, write_bound, read_bound, ask_bound, bound_by, bound_of_rise, bound_of_ask};
ghost use Rattle.rbound.specs.Longest.{one_of_each};
ghost use Rattle.rbound.specs.ZoneRows.{numbers_of};

use crate::Needed;
use crate::read_wait::{longest_bar, longest_delay, longest_keeper};
use crate::row::largest_writes;
use crate::rows::{ZoneRows, rows_of};
use crate::write_wait::{read_length, reads_of, writes_of};
use crate::zone::zone_among;
use rclaim::Claim;
use rset::ResourceSet;
use std::alloc::{AllocError, Global};

/// The most that covers a wait. At each moment of the wait one of the covering sections goes on; there are no more of them
/// than this, and their lengths add up to no more. Other sections may hold the claim up too, but never on their own.
#[derive(Clone, Copy, Debug, PartialEq, Eq)]
pub struct Bound {
    /// The number of sections that count as reads.
    pub reads: u64,
    /// The number of sections that count as writes.
    pub writes: u64,
    /// The sum of their lengths, in the units of the requests.
    pub units: u64,
}

impl Bound {
    /// The bound of a claim that does not wait.
    pub fn no_wait() -> Bound
        ensures { numbers_in result ≡ no_wait }
    {
        Bound {
            reads: 0,
            writes: 0,
            units: 0,
        }
    }

    /// The bound of a claim that waits for at most one write and one read, the longest of which have these lengths; None means
    /// that there is no such write or read.
    pub fn one_of_each(write: Option<u32>, read: Option<u32>) -> Bound
        ensures { numbers_in result ≡ one_of_each write read }
    {
        Bound {
            reads: u64::from(read.is_some()),
            writes: u64::from(write.is_some()),
            units: u64::from(write.unwrap_or(0)) + u64::from(read.unwrap_or(0)),
        }
    }
}

/// The bound of the write waits of a task in the zone that has these rows.
///
/// # Errors
///
/// Out of memory.
pub fn write_bound(
    alloc: Global,
    rows: &ZoneRows,
    tasks: u8,
    cap: u8,
    task: u8,
) -> Result<Bound, AllocError>
    requires { 1 ≤ cap }
    ensures { IfOk result (λ b. numbers_in b ≡ numbers_of rows.now tasks cap task) }
{
    let writes = writes_of(rows, tasks, cap, task);
    let reads = reads_of(rows, tasks, cap, task, writes);
    let written = largest_writes(alloc, &rows.writes, tasks, task, writes)?;
    let read = u64::from(read_length(rows, tasks, task));
    Ok(Bound {
        reads: reads as u64,
        writes: writes as u64,
        units: written + reads as u64 * read,
    })
}

/// The bound of the wait of a write claim.
fn claim_bound(
    alloc: Global,
    needs: &[Needed],
    tasks: u8,
    cap: u8,
    claim: &Claim,
) -> Result<Bound, AllocError>
    requires cap { 1 ≤ cap }
    requires seats { AllByRecursion (λ n. n.claim.seat < tasks) needs.now }
    ensures { IfOk result (λ b. numbers_in b ≡ write_bound needs.now tasks cap claim.now) }
{
    let zone = zone_among(needs, claim.places);
    let rows = rows_of(alloc, needs, tasks, zone)?;
    write_bound(alloc, &rows, tasks, cap, claim.seat)
}

/// The bound of the wait of a read claim.
fn read_bound(needs: &[Needed], claim: &Claim) -> Bound
    ensures { numbers_in result ≡ read_bound needs.now claim.now }
{
    Bound::one_of_each(longest_keeper(needs, claim), longest_delay(needs, claim))
}

/// The bound of the wait of an ask for this part.
fn ask_bound(needs: &[Needed], claim: &Claim, part: ResourceSet) -> Bound
    ensures { numbers_in result ≡ ask_bound needs.now claim.now part }
{
    Bound::one_of_each(None, longest_bar(needs, claim, part))
}

/// The bound of the first wait of a claim.
pub(crate) fn first_bound(
    alloc: Global,
    needs: &[Needed],
    tasks: u8,
    cap: u8,
    claim: &Claim,
) -> Result<Bound, AllocError>
    requires cap { 1 ≤ cap }
    requires seats { AllByRecursion (λ n. n.claim.seat < tasks) needs.now }
    ensures { IfOk result (λ b. numbers_in b ≡ bound_by needs.now tasks cap claim.now) }
{
    if claim.write_half {
        claim_bound(alloc, needs, tasks, cap, claim)
    } else {
        Ok(read_bound(needs, claim))
    }
}

/// The bound of the wait of an upgrade that rises, where there is such a claim.
pub(crate) fn rise_bound(
    alloc: Global,
    needs: &[Needed],
    tasks: u8,
    cap: u8,
    write: Option<Needed>,
) -> Result<Bound, AllocError>
    requires cap { 1 ≤ cap }
    requires seats { AllByRecursion (λ n. n.claim.seat < tasks) needs.now }
    ensures { IfOk result (λ b. numbers_in b ≡ bound_of_rise needs.now tasks cap write) }
{
    match write {
        None => Ok(Bound::no_wait()),
        Some(need) => claim_bound(alloc, needs, tasks, cap, &need.claim),
    }
}

/// The bound of an ask for this part, where there is such a claim.
pub(crate) fn asked_bound(needs: &[Needed], write: Option<Needed>, part: ResourceSet) -> Bound
    ensures { numbers_in result ≡ bound_of_ask needs.now part write }
{
    match write {
        None => Bound::no_wait(),
        Some(need) => ask_bound(needs, &need.claim, part),
    }
}
