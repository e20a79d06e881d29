// The lines of a step: an event, what its section did, and what it changes.
ghost use Rattle.std.specs.Prelude.{◌≡◌, ◌++◌, ◌∷◌, [], map, OnOk, OnErr, IsTrue, flat_map};
ghost use Rattle.rclaim.specs.declared.changes.StatusChange.{StatusChange};
ghost use Rattle.rtrace_form.specs.Lines.{Happens, Does};
ghost use Rattle.rtrace_form.specs.Reports.{status_lines, grant_line, wait_line};
ghost use Rattle.rtrace_form.specs.Waits.{no_bounds};
ghost use Rattle.rtrace_write.specs.Open.{open_told, GrewBySome};
ghost use Rattle.rtrace_write.specs.Told.{entry_told, step_told};

use crate::names::NameRows;
use crate::open_text::OpenText;
use rclaim::{Changes, Event, GrantChange, StatusChange};
use rcover_laws::WaitEnd;
use rvalue::{Act, Edit, Entry};
use std::alloc::AllocError;

/// Appends the line of an event, and those of what it changed and of the waits that it ended, whose bounds stay open. A
/// claim that waits has no line.
///
/// # Errors
///
/// Out of memory. The text may then have grown by the first of these lines (`GrewBySome`).
pub fn push_step(
    text: &mut OpenText,
    names: &NameRows,
    event: &Event,
    changes: &Changes,
    ended: &[WaitEnd],
) -> Result<(), AllocError>
    ensures ok { OnOk result (text.new ≡ text.old ++ open_told names.now (Happens event.now ∷ step_told changes.now ended.now)) }
    ensures err { OnErr result (GrewBySome names.now text.old text.new (Happens event.now ∷ step_told changes.now ended.now)) }
{
    text.push_event(names, event)?;
    if is_untold(changes, ended) {
        return Ok(());
    }
    push_told(text, names, changes, ended)
}

/// Appends the lines of an entry whose event made these changes and ended these waits: the event, the acts, the
/// changes, and the waits, whose bounds stay open.
///
/// # Errors
///
/// Out of memory. The text may then have grown by the first of these lines (`GrewBySome`).
pub fn push_entry(
    text: &mut OpenText,
    names: &NameRows,
    entry: &Entry<Edit>,
    changes: &Changes,
    ended: &[WaitEnd],
) -> Result<(), AllocError>
    ensures ok { OnOk result (text.new ≡ text.old ++ open_told names.now (entry_told entry.now changes.now ended.now)) }
    ensures err { OnErr result (GrewBySome names.now text.old text.new (entry_told entry.now changes.now ended.now)) }
{
    text.push_event(names, &entry.event)?;
    push_acts(text, names, &entry.acts)?;
    push_told(text, names, changes, ended)
}

// Whether a step has no line but that of its event.
#[inline]
fn is_untold(changes: &Changes, ended: &[WaitEnd]) -> bool
    ensures { IsTrue result → step_told changes.now ended.now ≡ [] }
{
    changes.statuses.is_empty() && changes.grants.is_empty() && ended.is_empty()
}

// Appends the lines of what a step changed, and then those of the waits that it ended.
fn push_told(
    text: &mut OpenText,
    names: &NameRows,
    changes: &Changes,
    ended: &[WaitEnd],
) -> Result<(), AllocError>
    ensures ok { OnOk result (text.new ≡ text.old ++ open_told names.now (step_told changes.now ended.now)) }
    ensures err { OnErr result (GrewBySome names.now text.old text.new (step_told changes.now ended.now)) }
{
    push_statuses(text, names, &changes.statuses)?;
    push_grants(text, names, &changes.grants)?;
    push_waits(text, names, ended)
}

// Appends the lines of what a section did.
fn push_acts(text: &mut OpenText, names: &NameRows, acts: &[Act<Edit>]) -> Result<(), AllocError>
    ensures ok { OnOk result (text.new ≡ text.old ++ open_told names.now (map Does acts.now)) }
    ensures err { OnErr result (GrewBySome names.now text.old text.new (map Does acts.now)) }
{
    for act in acts {
        text.push_act(names, act)?;
    }
    Ok(())
}

// Appends the lines of new statuses.
fn push_statuses(
    text: &mut OpenText,
    names: &NameRows,
    changes: &[StatusChange],
) -> Result<(), AllocError>
    ensures ok { OnOk result (text.new ≡ text.old
        ++ open_told names.now (flat_map (λ (c : StatusChange). status_lines c.seat c.write_half c.status) changes.now)) }
    ensures err { OnErr result (GrewBySome names.now text.old text.new (flat_map (λ (c : StatusChange). status_lines c.seat c.write_half c.status) changes.now)) }
{
    for change in changes {
        text.push_status(names, change)?;
    }
    Ok(())
}

// Appends the lines of grants.
fn push_grants(
    text: &mut OpenText,
    names: &NameRows,
    changes: &[GrantChange],
) -> Result<(), AllocError>
    ensures ok { OnOk result (text.new ≡ text.old ++ open_told names.now (map grant_line changes.now)) }
    ensures err { OnErr result (GrewBySome names.now text.old text.new (map grant_line changes.now)) }
{
    for change in changes {
        text.push_grant(names, change)?;
    }
    Ok(())
}

// Appends the lines of waits, with a gap for the bound of each.
fn push_waits(text: &mut OpenText, names: &NameRows, ended: &[WaitEnd]) -> Result<(), AllocError>
    ensures ok { OnOk result (text.new ≡ text.old ++ open_told names.now (map (wait_line no_bounds) ended.now)) }
    ensures err { OnErr result (GrewBySome names.now text.old text.new (map (wait_line no_bounds) ended.now)) }
{
    for wait in ended {
        text.push_wait(names, wait)?;
    }
    Ok(())
}
