// The tables of all needed claims.
ghost use Rattle.std.specs.Prelude.{◌<◌, IfOk};
ghost use Rattle.std.specs.List.{AllByRecursion};
ghost use Rattle.rbound_table.specs.AllTables.{AreTables};

use crate::table::{Cell, Key, table_of};
use rbound::Needed;
use std::alloc::{AllocError, Global};

/// The tables of all needed claims.
#[derive(Drop)]
pub struct Tables {
    /// By what they read.
    pub reads: Vec<Cell>,
    /// By what they write.
    pub writes: Vec<Cell>,
    /// The read halves of upgrades, by what they read.
    pub halves: Vec<Cell>,
    /// The read claims, by their places.
    pub read_places: Vec<Cell>,
    /// The write claims, by their places.
    pub write_places: Vec<Cell>,
    /// The claims of upgrades, by their places.
    pub upgrade_places: Vec<Cell>,
}

/// The tables of these claims, for this many tasks. Each table takes one pass over all claims.
///
/// # Errors
///
/// Out of memory.
pub fn tables_of(alloc: Global, needs: &[Needed], tasks: u8) -> Result<Tables, AllocError>
    requires { AllByRecursion (λ n. n.claim.seat < tasks) needs.now }
    ensures { IfOk result (AreTables needs.now tasks) }
{
    Ok(Tables {
        reads: table_of(alloc, needs, Key::Reads, tasks)?,
        writes: table_of(alloc, needs, Key::Writes, tasks)?,
        halves: table_of(alloc, needs, Key::Halves, tasks)?,
        read_places: table_of(alloc, needs, Key::ReadPlaces, tasks)?,
        write_places: table_of(alloc, needs, Key::WritePlaces, tasks)?,
        upgrade_places: table_of(alloc, needs, Key::UpgradePlaces, tasks)?,
    })
}
