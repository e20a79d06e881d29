// One step of the machine, which the history records.
ghost use Rattle.std.specs.Prelude.{◌≡◌, ◌-◌, ◌≤◌, ◌++◌, ◌∷◌, []};
ghost use Rattle.rclaim.specs.Events.{IsNormalEvent};
ghost use Rattle.rmodel.specs.Holds.{nothing};
ghost use Rattle.rmodel.specs.Changes.{changes_between};
ghost use Rattle.rmodel.specs.Steps.{Fits, Accepts, next};
ghost use Rattle.rwatch.specs.Seen.{watched_next};

use rclaim::Event;
use rmodel::{Granted, Machine};
use rset::ResourceSet;
use rvalue::{Act, Entry, History};

/// Nothing is taken.
pub(crate) fn nothing() -> Granted
    ensures { result ≡ nothing }
{
    Granted {
        reads: ResourceSet::empty(),
        writes: ResourceSet::empty(),
    }
}

/// The machine takes the event, and the history records it with the acts, in room that was made.
pub(crate) fn keep<E: Drop, M: Machine>(
    machine: &mut M,
    history: &mut History<E>,
    event: &Event,
    acts: Vec<Act<E>>,
)
    requires fits { Fits (M.state machine.old) event.now }
    requires accepted { Accepts (M.state machine.old) event.now }
    requires room { 1 ≤ history.old.spare }
    ensures machine { M.state machine.new ≡ next (M.state machine.old) event.now }
    ensures watched { M.watched machine.new ≡ watched_next event.now (changes_between (M.state machine.old) (next (M.state machine.old) event.now)) (M.watched machine.old) }
    ensures normal { IsNormalEvent event.now }
    ensures entries { history.new.entries ≡ history.old.entries ++ record { event = event.now; acts = acts.items } ∷ [] }
    ensures spare { history.new.spare ≡ history.old.spare - 1 }
{
    let Ok(()) = machine.step(*event) else {
        unreachable!()
    };
    history.push_reserved(Entry {
        event: *event,
        acts,
    });
}
