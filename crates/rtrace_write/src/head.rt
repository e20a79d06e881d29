// The beginning of a report: what its head declares.
ghost use Rattle.std.specs.Prelude.{◌≡◌, ◌++◌, map, OnOk, IfOk, Some};
ghost use Rattle.rtrace_form.specs.Lines.{HasResource, HasGroup, HasTask};
ghost use Rattle.rtrace_form.specs.Reports.{declared_lines};
ghost use Rattle.rtrace_write.specs.Told.{told};

use crate::names::NameRows;
use crate::page::Page;
use rexpand::Groups;
use std::alloc::{AllocError, Global};

/// The text of a head: its version, its resources, groups and tasks in order, and its cap.
///
/// # Errors
///
/// Out of memory.
pub fn head_of(
    alloc: Global,
    names: &NameRows,
    groups: &Groups,
    cap: u8,
) -> Result<Page, AllocError>
    ensures { IfOk result (λ page. page ≡ told names.now (declared_lines names.now.resources groups.now.groups names.now.tasks (Some cap))) }
{
    let mut page = Page::new(alloc);
    page.push(b"rnlp,1\n")?;
    push_resources(&mut page, names)?;
    push_groups(&mut page, names, groups)?;
    push_tasks(&mut page, names)?;
    page.push_cap(cap)?;
    Ok(page)
}

// Appends a line for each resource.
fn push_resources(page: &mut Page, names: &NameRows) -> Result<(), AllocError>
    ensures { OnOk result (page.new ≡ page.old ++ told names.now (map HasResource names.now.resources)) }
{
    for place in 0..names.resources() {
        page.push_resource(names, place)?;
    }
    Ok(())
}

// Appends a line for each read group.
fn push_groups(page: &mut Page, names: &NameRows, groups: &Groups) -> Result<(), AllocError>
    ensures { OnOk result (page.new ≡ page.old ++ told names.now (map HasGroup groups.now.groups)) }
{
    for i in 0..groups.len() {
        page.push_group(names, groups.at(i))?;
    }
    Ok(())
}

// Appends a line for each task.
fn push_tasks(page: &mut Page, names: &NameRows) -> Result<(), AllocError>
    ensures { OnOk result (page.new ≡ page.old ++ told names.now (map HasTask names.now.tasks)) }
{
    for seat in 0..names.tasks() {
        page.push_task(names, seat)?;
    }
    Ok(())
}
