// The steps of a list, for those who watch.
ghost use Rattle.std.specs.Prelude.{◌≡◌, map};
ghost use Rattle.rmodel.specs.Changes.{changes_between};
ghost use Rattle.rmodel.specs.Steps.{AreAccepted, Comes, next};
ghost use Rattle.rwatch.specs.Seen.{told_all};
ghost use Rattle.rmodel.specs.Watching.{steps_of};

use rclaim::Event;
use rmodel::Machine;
use rplain::Plain;
use rwatch::Audience;

/// The events of a list, each accepted after those before it, and a machine in the state before them.
#[derive(Drop)]
pub struct Steps {
    /// The machine.
    pub machine: Plain,
    /// The events, in order.
    pub events: Vec<Event>,
}

impl Steps {
    /// Gives the audience each step, in order. No memory is taken.
    pub fn tell<A: Audience>(self, audience: &mut A)
        requires { AreAccepted self.machine.state self.events.items }
        ensures { A.all audience.new ≡ map (told_all (steps_of self.machine.state self.events.items)) (A.all audience.old) }
    {
        let mut steps = self;
        tell_each(&mut steps.machine, &steps.events, audience);
    }
}

// Steps the machine with each event, and gives the audience the step.
fn tell_each<A: Audience>(machine: &mut Plain, events: &[Event], audience: &mut A)
    requires { AreAccepted machine.old.state events.now }
    ensures { A.all audience.new ≡ map (told_all (steps_of machine.old.state events.now)) (A.all audience.old) }
{
    for event in events {
        apply(machine, *event);
        audience.tell(event, machine.changes());
    }
}

// The machine takes an event that it accepts.
fn apply(machine: &mut Plain, event: Event)
    requires { Comes machine.old.state event }
    ensures state { machine.new.state ≡ next machine.old.state event }
    ensures last { machine.new.last ≡ changes_between machine.old.state machine.new.state }
{
    let _ = machine.step(event);
}
