// The lengths of other tasks' claims that bound the waits of reads and asks.
ghost use Rattle.std.specs.Prelude.{IfOk};
ghost use Rattle.rbound_table.specs.OtherLengths.{AreOtherLengths};

use crate::delays::delays_of;
use crate::lengths::others_of;
use crate::tables::Tables;
use std::alloc::{AllocError, Global};

/// For each resource, a length for each task.
#[derive(Drop)]
pub struct OtherLengths {
    /// The longest claim of others that writes the resource.
    pub keeps: Vec<Vec<Option<u32>>>,
    /// The longest claim of others that can hold up such a write.
    pub delays: Vec<Vec<Option<u32>>>,
    /// The longest claim of others that reads the resource.
    pub bars: Vec<Vec<Option<u32>>>,
}

/// The lengths from these tables, for this many tasks.
///
/// # Errors
///
/// Out of memory.
pub fn other_lengths_of(
    alloc: Global,
    tables: &Tables,
    tasks: u8,
) -> Result<OtherLengths, AllocError>
    ensures { IfOk result (AreOtherLengths tables.now tasks) }
{
    Ok(OtherLengths {
        keeps: others_of(alloc, &tables.writes, tasks)?,
        delays: delays_of(alloc, tables, tasks)?,
        bars: others_of(alloc, &tables.reads, tasks)?,
    })
}
