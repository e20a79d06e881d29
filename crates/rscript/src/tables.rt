// What records declare: names in their tables, and read groups.
ghost use Rattle.std.specs.Prelude.{◌≡◌, ◌≢◌, ◌≤◌, ◌++◌, ◌∷◌, [], ◌==◌, length, None, Some, IsTrue, OnOk, OnErr, IfErr, IfSome};
ghost use Rattle.std.specs.FinSet.{empty};
ghost use Rattle.rset.specs.Sets.{all_below};
ghost use Rattle.rset.specs.declared.TheConstants.{RESOURCES};
ghost use Rattle.rexpand.specs.declared.TheConstants.{GROUPS};
ghost use Rattle.rtrace_form.specs.Walks.{first_of};
ghost use Rattle.rscript.specs.Causes.{groups_in, name_causes};

use crate::code::ScriptCode;
use rexpand::{GROUPS, GroupErr, Groups};
use rset::{NameErr, NameTable, ResourceSet};
use rtrace_form::RowErr;
use std::alloc::Global;

// A table of names holds as many as there are resources, which must also be the limit of tasks: one function declares
// both.
const _: () = prove!(rset::SEATS as u16 == rset::RESOURCES);

/// Adds a name that a record declares, of a resource or of a task, to its table, after the others.
///
/// # Errors
///
/// The first thing wrong with it: `BadName`, `Repeated`, or `TooMany` if the table already has `RESOURCES` names (tasks
/// have the same limit); or out of memory. The table is then as it was.
pub fn declare(table: &mut NameTable, name: &[u8]) -> Result<(), RowErr<ScriptCode>>
    ensures ok { OnOk result ((first_of (name_causes RESOURCES table.old name.now) ≡ None) × (table.new ≡ table.old ++ name.now ∷ [])) }
    ensures bad { (cause : ScriptCode) → result ≡ Err (RowErr.Bad cause) → first_of (name_causes RESOURCES table.old name.now) ≡ Some cause }
    ensures still { OnErr result (table.new ≡ table.old) }
{
    match table.add(name) {
        Ok(_) => Ok(()),
        Err(NameErr::BadName) => Err(RowErr::Bad(ScriptCode::BadName)),
        Err(NameErr::Repeated) => Err(RowErr::Bad(ScriptCode::Repeated)),
        Err(NameErr::TooMany) => Err(RowErr::Bad(ScriptCode::TooMany)),
        Err(NameErr::Memory) => Err(RowErr::Memory),
    }
}

/// Whether there are as many read groups as there may be. Until they are made there are none.
pub fn has_all_groups(groups: &Option<Groups>) -> bool
    ensures { result ≡ (length (groups_in groups.now) == GROUPS) }
{
    match groups {
        Some(groups) => groups.len() == GROUPS,
        None => false,
    }
}

/// Makes the read groups over `q` resources, with no group yet, unless they are there already. By then all resources
/// are declared.
///
/// # Errors
///
/// Out of memory.
pub fn make_groups(
    alloc: Global,
    groups: &mut Option<Groups>,
    q: u8,
) -> Result<(), RowErr<ScriptCode>>
    requires some { 1 ≤ q }
    requires few { q ≤ RESOURCES }
    requires over { IfSome groups.old (λ g. g.q ≡ q) }
    ensures made { OnOk result (groups.new ≡ Some (record { q = q; groups = groups_in groups.old })) }
    ensures memory { IfErr result (λ e. e ≡ RowErr.Memory) }
{
    if groups.is_none() {
        let Ok(made) = Groups::new(alloc, q) else {
            return Err(RowErr::Memory);
        };
        *groups = Some(made);
    }
    Ok(())
}

/// Adds a read group after the others; makes the groups over `q` resources first if they are not there.
///
/// # Errors
///
/// Out of memory.
pub fn add_group(
    alloc: Global,
    groups: &mut Option<Groups>,
    q: u8,
    set: ResourceSet,
) -> Result<(), RowErr<ScriptCode>>
    requires some { 1 ≤ q }
    requires few { q ≤ RESOURCES }
    requires over { IfSome groups.old (λ g. g.q ≡ q) }
    requires below { IsTrue (all_below q set) }
    requires member { set ≢ empty }
    requires room { length (groups_in groups.old) ≢ GROUPS }
    ensures added { OnOk result (groups.new ≡ Some (record { q = q; groups = groups_in groups.old ++ set ∷ [] })) }
    ensures memory { IfErr result (λ e. e ≡ RowErr.Memory) }
{
    make_groups(alloc, groups, q)?;
    let Some(groups) = groups else {
        return Err(RowErr::Memory);
    };
    match groups.declare(set) {
        Ok(()) => Ok(()),
        // The set has a member, and there is room.
        Err(GroupErr::Memory | GroupErr::EmptyGroup | GroupErr::TooMany) => Err(RowErr::Memory),
    }
}
