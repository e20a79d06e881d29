// The text of an event list.
ghost use Rattle.std.specs.Prelude.{◌≡◌, ◌≤◌, ◌++◌, length, map, false, IfOk, OnOk};
ghost use Rattle.rset.specs.declared.TheConstants.{SEATS};
ghost use Rattle.rtrace_form.specs.Lines.{Happens};
ghost use Rattle.rtrace_form.specs.Texts.{IsTextOf};
ghost use Rattle.rtrace_write.specs.Told.{told};
ghost use Rattle.rvalue.specs.Entries.{EntryFields};
ghost use Rattle.rlist_text.specs.Lists.{AreAccepted, head_with, list_of};

use rexpand::Groups;
use rset::NameTable;
use rtrace_write::{NameRows, Page, head_of};
use rvalue::Entry;
use std::alloc::{AllocError, Global};

/// The text of an event list: its head, the event of each entry in order, and its end. What the sections did is left out.
/// `rnlp replay` reads the list back from it, and writes its report.
///
/// The resources and the tasks have these names, by their numbers; a task is the seat of its number. The cap is how many
/// requests may be incomplete at once.
///
/// # Errors
///
/// Out of memory.
pub fn list_text<E>(
    alloc: Global,
    resources: &NameTable,
    groups: &Groups,
    tasks: &NameTable,
    cap: u8,
    entries: &[Entry<E>],
) -> Result<Page, AllocError>
    requires over { groups.now.q ≡ length resources.now }
    requires some_task { 1 ≤ length tasks.now }
    requires some_cap { 1 ≤ cap }
    requires cap { cap ≤ SEATS }
    requires accepted { AreAccepted (head_with resources.now groups.now tasks.now cap) entries.now }
    ensures { IfOk result (λ page. IsTextOf false page (list_of (head_with resources.now groups.now tasks.now cap) entries.now)) }
{
    let _ = (resources.len(), groups.len(), tasks.len());
    let names = NameRows::new(alloc, resources, tasks)?;
    let mut page = head_of(alloc, &names, groups, cap)?;
    push_events(&mut page, &names, entries)?;
    page.push(b"end\n")?;
    Ok(page)
}

// Appends the line of each event.
fn push_events<E>(page: &mut Page, names: &NameRows, entries: &[Entry<E>]) -> Result<(), AllocError>
    ensures { OnOk result (page.new ≡ page.old ++ told names.now (map (λ (entry : EntryFields E). Happens entry.event) entries.now)) }
{
    for entry in entries {
        page.push_event(names, &entry.event)?;
    }
    Ok(())
}
