// The text of a whole history: a machine of its own steps through it for the changes of each event, and a follower
// beside it for the waits that each event ends.
ghost use Rattle.std.specs.Prelude.{◌≡◌, ◌<◌, ◌^◌, ◌++◌, [], true, List, length, OnOk, IfOk};
ghost use Rattle.rcover_laws.specs.Ended.{ended_by};
ghost use Rattle.rcover_laws.specs.declared.wait_end.WaitEnd.{WaitEnd};
ghost use Rattle.rmodel.specs.Changes.{changes_between};
ghost use Rattle.rmodel.specs.Steps.{Comes, next};
ghost use Rattle.rtrace_write.specs.Follows.{Follows};
ghost use Rattle.rtrace_write.specs.Past.{Past, start_of, state_of, with_event};
ghost use Rattle.rtrace_form.specs.Reports.{history_lines, IsLawful};
ghost use Rattle.rtrace_form.specs.Waits.{bound_in, no_bounds, all_ended};
ghost use Rattle.rtrace_form.specs.Written.{MayBeWritten};
ghost use Rattle.rtrace_write.specs.Told.{told, entry_told};
ghost use Rattle.rtrace_write.specs.Behind.{past_in};
ghost use Rattle.rtrace_write.specs.Gathered.{KnowsGathered};
ghost use Rattle.rtrace_write.specs.Open.{open_told};
ghost use Rattle.rtrace_write.specs.Report.{told_by, IsOverResources};
ghost use Rattle.rtrace_write.specs.Stepped.{AreBehind, TookNext};

use crate::closed::close_history;
use crate::gathered::Gathered;
use crate::names::NameRows;
use crate::open_text::OpenText;
use crate::page::Page;
use crate::report::Report;
use crate::step::push_entry;
use rclaim::Event;
use rcover::Following;
use rmodel::Machine;
use rplain::Plain;
use rvalue::{Edit, Entry};
use std::alloc::{AllocError, Global};

/// The text of the history of a report: each event, what its section did, what it changes, and the waits that it ends.
///
/// # Errors
///
/// Out of memory.
pub fn history_of(alloc: Global, names: &NameRows, report: &Report) -> Result<Page, AllocError>
    requires may { MayBeWritten (told_by report.now) }
    requires over { IsOverResources report.now }
    ensures { IfOk result (λ page. page ≡ told names.now (history_lines true (bound_in (told_by report.now).head report.now.entries) (told_by report.now).head [] report.now.entries)) }
{
    let mut gathered = Gathered::new(alloc, report.tasks.len())?;
    history_with(alloc, names, &mut gathered, report)
}

// The same, from a `Gathered` that was given no event. Each function here lends what it owns to the next, so that each
// has one exit on which it is dropped.
fn history_with(
    alloc: Global,
    names: &NameRows,
    gathered: &mut Gathered,
    report: &Report,
) -> Result<Page, AllocError>
    requires may { MayBeWritten (told_by report.now) }
    requires over { IsOverResources report.now }
    requires untold { KnowsGathered gathered.old (past_in (told_by report.now).head []) [] }
    ensures { IfOk result (λ page. page ≡ told names.now (history_lines true (bound_in (told_by report.now).head report.now.entries) (told_by report.now).head [] report.now.entries)) }
{
    let mut text = OpenText::new(alloc);
    push_history(alloc, &mut text, names, gathered, report)?;
    close_history(alloc, text, gathered, &report.groups, report.cap)
}

// Appends the lines of the history, which a follower of its own follows.
fn push_history(
    alloc: Global,
    text: &mut OpenText,
    names: &NameRows,
    gathered: &mut Gathered,
    report: &Report,
) -> Result<(), AllocError>
    requires may { MayBeWritten (told_by report.now) }
    requires over { IsOverResources report.now }
    requires untold { KnowsGathered gathered.old (past_in (told_by report.now).head []) [] }
    ensures text { OnOk result (text.new ≡ text.old ++ open_told names.now (history_lines true no_bounds (told_by report.now).head [] report.now.entries)) }
    ensures gathered { OnOk result (KnowsGathered gathered.new (past_in (told_by report.now).head report.now.entries) (all_ended (told_by report.now).head report.now.entries)) }
{
    let mut following = Following::new(alloc)?;
    push_followed(alloc, text, names, &mut following, gathered, report)
}

// The same, with a follower that followed no event and a machine of its own.
fn push_followed(
    alloc: Global,
    text: &mut OpenText,
    names: &NameRows,
    following: &mut Following,
    gathered: &mut Gathered,
    report: &Report,
) -> Result<(), AllocError>
    requires may { MayBeWritten (told_by report.now) }
    requires over { IsOverResources report.now }
    requires followed { Follows following.old (past_in (told_by report.now).head []) }
    requires untold { KnowsGathered gathered.old (past_in (told_by report.now).head []) [] }
    ensures text { OnOk result (text.new ≡ text.old ++ open_told names.now (history_lines true no_bounds (told_by report.now).head [] report.now.entries)) }
    ensures gathered { OnOk result (KnowsGathered gathered.new (past_in (told_by report.now).head report.now.entries) (all_ended (told_by report.now).head report.now.entries)) }
{
    let groups = report.groups.copy(alloc)?;
    let mut machine = Plain::new(alloc, groups, report.tasks.len(), report.cap)?;
    push_entries(text, names, &mut machine, following, gathered, report)
}

// Appends the lines of all entries, through which the machine steps.
fn push_entries(
    text: &mut OpenText,
    names: &NameRows,
    machine: &mut Plain,
    following: &mut Following,
    gathered: &mut Gathered,
    report: &Report,
) -> Result<(), AllocError>
    requires behind { AreBehind machine.old.state following.old (past_in (told_by report.now).head []) }
    requires untold { KnowsGathered gathered.old (past_in (told_by report.now).head []) [] }
    requires lawful { IsLawful (told_by report.now).head report.now.entries }
    ensures text { OnOk result (text.new ≡ text.old ++ open_told names.now (history_lines true no_bounds (told_by report.now).head [] report.now.entries)) }
    ensures gathered { OnOk result (KnowsGathered gathered.new (past_in (told_by report.now).head report.now.entries) (all_ended (told_by report.now).head report.now.entries)) }
{
    let entries = report.history.entries();
    for entry in entries {
        push_next(text, names, machine, following, gathered, entry)?;
    }
    Ok(())
}

// Steps by the event of an entry, and appends the lines of the entry.
fn push_next(
    text: &mut OpenText,
    names: &NameRows,
    machine: &mut Plain,
    following: &mut Following,
    gathered: &mut Gathered,
    entry: &Entry<Edit>,
) -> Result<(), AllocError>
    requires { (p : Past) × (ws : List WaitEnd) × AreBehind machine.old.state following.old p × KnowsGathered gathered.old p ws
        × Comes (state_of p) entry.now.event × (length p.events < 2 ^ 63) }
    ensures behind { OnOk result ((p : Past) → AreBehind machine.old.state following.old p → Comes (state_of p) entry.now.event
        → AreBehind machine.new.state following.new (with_event p entry.now.event)) }
    ensures text { OnOk result ((p : Past) → AreBehind machine.old.state following.old p → Comes (state_of p) entry.now.event
        → text.new ≡ text.old ++ open_told names.now (entry_told entry.now (changes_between (state_of p) (next (state_of p) entry.now.event)) (ended_by (start_of p) p.events entry.now.event))) }
    ensures gathered { OnOk result ((p : Past) (ws : List WaitEnd) → AreBehind machine.old.state following.old p → KnowsGathered gathered.old p ws
        → Comes (state_of p) entry.now.event
        → KnowsGathered gathered.new (with_event p entry.now.event) (ws ++ ended_by (start_of p) p.events entry.now.event)) }
{
    advance(machine, following, &entry.event);
    push_entry(text, names, entry, machine.changes(), following.ended())?;
    gathered.tell(&entry.event, following.ended())
}

// The machine takes an event that it accepts, and the follower follows it.
fn advance(machine: &mut Plain, following: &mut Following, event: &Event)
    requires { (p : Past) × AreBehind machine.old.state following.old p × Comes (state_of p) event.now × (length p.events < 2 ^ 63) }
    ensures { (p : Past) → AreBehind machine.old.state following.old p → Comes (state_of p) event.now → TookNext machine.new following.new p event.now }
{
    let _accepted = following.step(machine, event);
}
