// The longest claims of each task in a zone, from the tables.
ghost use Rattle.std.specs.Prelude.{◌≡◌, IfOk, IsTrue, map};
ghost use Rattle.std.specs.List.{range_with_len};
ghost use Rattle.rset.specs.Sets.{all_below};
ghost use Rattle.rset.specs.declared.TheConstants.{RESOURCES};
ghost use Rattle.rbound_table.specs.Tables.{longest_in};
ghost use Rattle.rbound_table.specs.TableRows.{AreTableRows};

use crate::table::{Cell, longest_in};
use crate::tables::Tables;
use rbound::ZoneRows;
use rset::ResourceSet;
use std::alloc::{AllocError, Global};

/// For each task, the longest of its claims that a table has in a zone.
fn row_of(
    alloc: Global,
    cells: &[Cell],
    tasks: u8,
    zone: ResourceSet,
) -> Result<Vec<Option<u32>>, AllocError>
    ensures { IfOk result (λ row. row.items ≡ map (λ t. longest_in cells.now t zone) (range_with_len 0 tasks)) }
{
    (0..tasks)
        .map(|task| longest_in(cells, task, zone))
        .collect(alloc)
}

/// The rows of a zone.
pub(crate) fn rows_of(
    alloc: Global,
    tables: &Tables,
    tasks: u8,
    zone: ResourceSet,
) -> Result<ZoneRows, AllocError>
    ensures rows { IfOk result (AreTableRows tables.now tasks zone) }
    ensures below { IsTrue (all_below RESOURCES zone) }
{
    // This shows the proof that the places of the zone are below the number of resources.
    let _ = zone.len();
    Ok(ZoneRows {
        writes: row_of(alloc, &tables.write_places, tasks, zone)?,
        reads: row_of(alloc, &tables.read_places, tasks, zone)?,
        upgrades: row_of(alloc, &tables.upgrade_places, tasks, zone)?,
    })
}
