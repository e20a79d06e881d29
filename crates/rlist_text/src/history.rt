// The text of a history with what its sections did.
ghost use Rattle.std.specs.Prelude.{◌≡◌, ◌++◌, codes, flat_map, option_map, IfOk, OnOk, Some};
ghost use Rattle.rtrace_form.specs.Reports.{declared_lines};
ghost use Rattle.rtrace_form.specs.SetFields.{name_at};
ghost use Rattle.rtrace_write.specs.Told.{told, told_line};
ghost use Rattle.rtrace_form.specs.Lines.{Happens};
ghost use Rattle.rlist_text.specs.Histories.{act_text, answer_text, entry_text, history_text};

use crate::worded::Worded;
use itoa::Buffer;
use rexpand::Groups;
use rset::NameTable;
use rtrace_write::{NameRows, Page, head_of};
use rvalue::{Act, Entry};
use std::alloc::{AllocError, Global};

/// The text of a history, to be read by people: its head, and for each entry the line of its event and a line for each of its
/// acts, in order. It is no event list, since that has no acts.
///
/// The resources and the tasks have these names, by their numbers; a task is the seat of its number. The cap is how many
/// requests may be incomplete at once.
///
/// # Errors
///
/// Out of memory.
pub fn history_text<T: Worded>(
    alloc: Global,
    resources: &NameTable,
    groups: &Groups,
    tasks: &NameTable,
    cap: u8,
    entries: &[Entry<T::Edit>],
) -> Result<Page, AllocError>
    ensures { IfOk result (λ page. page ≡ history_text T.words resources.now groups.now.groups tasks.now cap entries.now) }
{
    let names = NameRows::new(alloc, resources, tasks)?;
    let mut page = head_of(alloc, &names, groups, cap)?;
    push_entries::<T>(&mut page, &names, resources, entries)?;
    page.push(b"end\n")?;
    Ok(page)
}

// Appends the lines of each entry.
fn push_entries<T: Worded>(
    page: &mut Page,
    names: &NameRows,
    resources: &NameTable,
    entries: &[Entry<T::Edit>],
) -> Result<(), AllocError>
    ensures { OnOk result (page.new ≡ page.old ++ flat_map (entry_text T.words names.now resources.now) entries.now) }
{
    for entry in entries {
        page.push_event(names, &entry.event)?;
        push_acts::<T>(page, resources, &entry.acts)?;
    }
    Ok(())
}

// Appends the line of each act.
fn push_acts<T: Worded>(
    page: &mut Page,
    resources: &NameTable,
    acts: &[Act<T::Edit>],
) -> Result<(), AllocError>
    ensures { OnOk result (page.new ≡ page.old ++ flat_map (act_text T.words resources.now) acts.now) }
{
    for act in acts {
        push_act::<T>(page, resources, act)?;
    }
    Ok(())
}

// Appends the line of an act.
fn push_act<T: Worded>(
    page: &mut Page,
    resources: &NameTable,
    act: &Act<T::Edit>,
) -> Result<(), AllocError>
    ensures { OnOk result (page.new ≡ page.old ++ act_text T.words resources.now act.now) }
{
    match act {
        Act::Edited { place, edit, done } => {
            page.push(b"edit,")?;
            push_name(page, resources, *place)?;
            page.push(b",")?;
            T::push_words(page, edit)?;
            page.push_slice(answer(*done))
        }
        Act::Shown { place, number } => {
            page.push(b"show,")?;
            push_name(page, resources, *place)?;
            page.push(b",")?;
            let mut digits = Buffer::new();
            page.push_slice(digits.format(*number).as_bytes())?;
            page.push(b"\n")
        }
    }
}

// Appends the name of a resource; nothing where there is none.
fn push_name(page: &mut Page, resources: &NameTable, place: u8) -> Result<(), AllocError>
    ensures { OnOk result (page.new ≡ page.old ++ name_at resources.now place) }
{
    if place < resources.len() {
        page.push_slice(resources.name_of(place))
    } else {
        Ok(())
    }
}

// Whether an edit was taken, as the end of its line.
fn answer(done: bool) -> &'static [u8]
    ensures { result.now ≡ answer_text done }
{
    if done { b",taken\n" } else { b",untaken\n" }
}
