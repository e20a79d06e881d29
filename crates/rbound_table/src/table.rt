// Tables of claims by task and resource.
ghost use Rattle.std.specs.Prelude.{◌≡◌, ◌≤◌, ◌<◌, ◌+◌, ◌*◌, IfOk, IsTrue, length, if◌then◌else◌};
ghost use Rattle.std.specs.List.{AllByRecursion};
ghost use Rattle.std.specs.FinSet as finset;
ghost use Rattle.rset.specs.Sets.{all_below};
ghost use Rattle.rset.specs.declared.TheConstants.{RESOURCES};
ghost use Rattle.rbound_table.specs.Tables.{key_of, no_claims, raised, cell_at, with_claim, with_claims, longest_in, IsTable};

use rbound::{Needed, longer};
use rmodel::{is_read_half, is_upgrade};
use rset::{RESOURCES, ResourceSet};
use std::alloc::{AllocError, Global};

// The number of cells of a task.
const WIDTH: usize = RESOURCES as usize;

/// Under which of its resources a claim is entered.
#[derive(Clone, Copy)]
pub enum Key {
    /// What it reads.
    Reads,
    /// What it writes.
    Writes,
    /// What the read half of an upgrade reads.
    Halves,
    /// The places of a read claim.
    ReadPlaces,
    /// The places of a write claim.
    WritePlaces,
    /// The places of a claim of an upgrade.
    UpgradePlaces,
}

/// A summary of the claims at one task and resource.
#[derive(Clone, Copy)]
pub struct Cell {
    /// The length of the longest; None where there is no claim.
    pub longest: Option<u32>,
    /// All resources under which they are entered.
    pub beside: ResourceSet,
}

/// The resources under which a claim is entered.
fn key_of(key: Key, need: &Needed) -> ResourceSet
    ensures { result ≡ key_of key need.now }
{
    let claim = &need.claim;
    match key {
        Key::Reads => claim.reads,
        Key::Writes => claim.writes,
        Key::Halves => set_if(is_read_half(claim), claim.reads),
        Key::ReadPlaces => set_if(!claim.write_half, claim.places),
        Key::WritePlaces => set_if(claim.write_half, claim.places),
        Key::UpgradePlaces => set_if(is_upgrade(claim.kind), claim.places),
    }
}

/// The set where this holds, otherwise nothing.
fn set_if(is: bool, set: ResourceSet) -> ResourceSet
    ensures { result ≡ (if is then set else finset.empty) }
{
    if is { set } else { ResourceSet::empty() }
}

/// The summary of no claims.
fn no_claims() -> Cell
    ensures { result ≡ no_claims }
{
    Cell {
        longest: None,
        beside: ResourceSet::empty(),
    }
}

/// The same with one more claim, of this key and length.
fn raised(key: ResourceSet, len: u32, cell: Cell) -> Cell
    ensures { result ≡ raised key len cell }
{
    Cell {
        longest: longer(Some(len), cell.longest),
        beside: key.union(cell.beside),
    }
}

/// Takes a claim of a task, of this key and length, into a table.
fn take_claim(cells: &mut [Cell], task: u8, key: ResourceSet, len: u32)
    requires { task * RESOURCES + RESOURCES ≤ length cells.old }
    ensures cells { cells.new ≡ with_claim cells.old task key len }
    ensures below { IsTrue (all_below RESOURCES key) }
{
    let first = usize::from(task) * WIDTH;
    for l in key.iter() {
        let at = first + usize::from(l);
        cells[at] = raised(key, len, cells[at]);
    }
}

/// Takes all claims into a table, from the last one on.
fn take_claims(cells: &mut [Cell], needs: &[Needed], key: Key, tasks: u8)
    requires long { length cells.old ≡ tasks * RESOURCES }
    requires seats { AllByRecursion (λ n. n.claim.seat < tasks) needs.now }
    ensures cells { cells.new ≡ with_claims (key_of key) needs.now cells.old }
    ensures below { AllByRecursion (λ n. IsTrue (all_below RESOURCES (key_of key n))) needs.now }
{
    let mut at = needs.len();
    while at > 0 {
        at -= 1;
        let need = &needs[at];
        take_claim(cells, need.claim.seat, key_of(key, need), need.len);
    }
}

/// The table of these claims.
pub(crate) fn table_of(
    alloc: Global,
    needs: &[Needed],
    key: Key,
    tasks: u8,
) -> Result<Vec<Cell>, AllocError>
    requires { AllByRecursion (λ n. n.claim.seat < tasks) needs.now }
    ensures { IfOk result (λ cells. IsTable (key_of key) needs.now tasks cells.items) }
{
    let mut cells = vec![in alloc; no_claims(); usize::from(tasks) * WIDTH]?;
    take_claims(cells.as_mut_slice(), needs, key, tasks);
    Ok(cells)
}

/// What a table has for a task and a resource; the empty cell where it has no such place.
pub(crate) fn cell_at(cells: &[Cell], task: u8, l: u8) -> Cell
    ensures { result ≡ cell_at cells.now task l }
{
    match cells.get(usize::from(task) * WIDTH + usize::from(l)) {
        Some(cell) => *cell,
        None => no_claims(),
    }
}

/// The longest of a task's claims whose key meets a set, if there is one.
pub fn longest_in(cells: &[Cell], task: u8, set: ResourceSet) -> Option<u32>
    ensures { result ≡ longest_in cells.now task set }
{
    set.iter().fold(
        None,
        |most, l| longer(most, cell_at(cells, task, l).longest),
    )
}
