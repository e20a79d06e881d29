// What tasks would need if they issued each shape once.
ghost use Rattle.std.specs.Prelude.{◌≡◌, ◌<◌, [], ◌∷◌, true, IfOk, OnOk, IsTrue, length, map};
ghost use Rattle.std.specs.List.{AllByRecursion};
ghost use Rattle.rset.specs.Sets.{all_below};
ghost use Rattle.rbound.specs.TaskNeeds.{none_needed, requests_of, last_is_nested};
ghost use Rattle.rbound_history.specs.ShapeNeeds.{requests_of_shapes, needs_of_shapes, with_requests, with_asks, AreBelow};
ghost use Rattle.rbound_history.specs.Kept.{shape_in, shapes_in, may_ask};
ghost use Rattle.rbound_history.specs.Places.{places_of, ArePlaces};

use crate::places::places_of;
use crate::shape_key::AskedSet;
use crate::table::Entry;
use rbound::Needs;
use rexpand::Groups;
use rmodel::is_nested;
use std::alloc::{AllocError, Global};

/// The needs over these groups: for each task its shapes in order, each as one request with its asks.
pub(crate) fn needs_of(
    alloc: Global,
    groups: Groups,
    entries: &[Entry],
    tasks: u8,
) -> Result<Needs, AllocError>
    requires tasks { AllByRecursion (λ s. s.task < tasks) (shapes_in entries.now) }
    requires below { AreBelow groups.q (shapes_in entries.now) }
    requires asks { AllByRecursion (λ s. IsTrue (may_ask s)) (shapes_in entries.now) }
    ensures { IfOk result (λ needs. needs ≡ record { groups = groups; tasks = needs_of_shapes tasks (shapes_in entries.now) }) }
{
    let places = places_of(alloc, entries, tasks)?;
    let mut needs = Needs::new(alloc, groups, tasks)?;
    push_tasks(&mut needs, entries, &places, tasks)?;
    Ok(needs)
}

/// Adds the shapes of all tasks, which need nothing yet. The places of each task are gone through on their own, because
/// needs that come in the order of the tasks go after all others.
fn push_tasks(
    needs: &mut Needs,
    entries: &[Entry],
    places: &[Vec<usize>],
    tasks: u8,
) -> Result<(), AllocError>
    requires none { needs.old.tasks ≡ none_needed tasks }
    requires places { ArePlaces (shapes_in entries.now) tasks places.now }
    requires below { AreBelow needs.old.groups.q (shapes_in entries.now) }
    requires asks { AllByRecursion (λ s. IsTrue (may_ask s)) (shapes_in entries.now) }
    ensures { OnOk result (needs.new ≡ record needs.old { tasks = needs_of_shapes tasks (shapes_in entries.now) }) }
{
    for task in 0..tasks {
        push_task(needs, task, entries, &places[usize::from(task)])?;
    }
    Ok(())
}

/// Adds the shapes of a task, which are at these places, to what it needs.
fn push_task(
    needs: &mut Needs,
    task: u8,
    entries: &[Entry],
    places: &[usize],
) -> Result<(), AllocError>
    requires task { task < length needs.old.tasks }
    requires places { places.now ≡ places_of (shapes_in entries.now) task }
    requires below { AreBelow needs.old.groups.q (shapes_in entries.now) }
    requires asks { AllByRecursion (λ s. IsTrue (may_ask s)) (shapes_in entries.now) }
    ensures { OnOk result (needs.new
        ≡ record needs.old { tasks = with_requests needs.old.tasks task (requests_of_shapes (shapes_in entries.now) task) }) }
{
    for place in places {
        push_shape(needs, &entries[*place])?;
    }
    Ok(())
}

/// Adds a shape to what its task needs, as one request with its asks.
fn push_shape(needs: &mut Needs, entry: &Entry) -> Result<(), AllocError>
    requires task { entry.now.task < length needs.old.tasks }
    requires reads { IsTrue (all_below needs.old.groups.q entry.now.request.reads) }
    requires writes { IsTrue (all_below needs.old.groups.q entry.now.request.writes) }
    requires asks { IsTrue (may_ask (shape_in entry.now)) }
    ensures { OnOk result (needs.new
        ≡ record needs.old { tasks = with_requests needs.old.tasks entry.now.task (requests_of_shapes (shape_in entry.now ∷ []) entry.now.task) }) }
{
    needs.push(entry.task, entry.request)?;
    if is_nested(entry.request.kind()) {
        push_asks(needs, entry.task, entry.asks.as_slice())
    } else {
        Ok(())
    }
}

/// The last request of a task, which is nested, asks for these sets in turn.
fn push_asks(needs: &mut Needs, task: u8, asks: &[AskedSet]) -> Result<(), AllocError>
    requires task { task < length needs.old.tasks }
    requires nested { last_is_nested (requests_of needs.old.tasks task) ≡ true }
    ensures { OnOk result (needs.new ≡ record needs.old { tasks = with_asks needs.old.tasks task (map (λ a. a.set) asks.now) }) }
{
    for asked in asks {
        needs.push_ask(task, asked.set)?;
    }
    Ok(())
}
