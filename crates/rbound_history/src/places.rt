// The places of the shapes of each task.
ghost use Rattle.std.specs.Prelude.{◌≡◌, ◌<◌, ◌∷◌, ◌++◌, [], IfOk, OnOk, length, replicate, slice_set};
ghost use Rattle.std.specs.List.{AllByRecursion};
ghost use Rattle.rbound_history.specs.Kept.{shapes_in};
ghost use Rattle.rbound_history.specs.Places.{lists_in, list_at, ArePlaces};

use crate::table::Entry;
use std::alloc::{AllocError, Global};

/// For each task, the places of its shapes in order.
pub(crate) fn places_of(
    alloc: Global,
    entries: &[Entry],
    tasks: u8,
) -> Result<Vec<Vec<usize>>, AllocError>
    requires { AllByRecursion (λ s. s.task < tasks) (shapes_in entries.now) }
    ensures { IfOk result (λ places. ArePlaces (shapes_in entries.now) tasks places.items) }
{
    let mut places = no_places(alloc, tasks)?;
    note_all(&mut places, entries, tasks)?;
    Ok(places)
}

/// No places yet, for this many tasks.
fn no_places(alloc: Global, tasks: u8) -> Result<Vec<Vec<usize>>, AllocError>
    ensures none { IfOk result (λ places. lists_in places.items ≡ replicate tasks []) }
    ensures len { IfOk result (λ places. length places.items ≡ tasks) }
{
    let mut places = Vec::new(alloc);
    for _ in 0..tasks {
        places.push(Vec::new(alloc))?;
    }
    Ok(places)
}

/// Adds the places of all shapes, each to those of its task.
fn note_all(places: &mut Vec<Vec<usize>>, entries: &[Entry], tasks: u8) -> Result<(), AllocError>
    requires none { ArePlaces [] tasks places.old.items }
    requires tasks { AllByRecursion (λ s. s.task < tasks) (shapes_in entries.now) }
    ensures { OnOk result (ArePlaces (shapes_in entries.now) tasks places.new.items) }
{
    for place in 0..entries.len() {
        note(places, entries[place].task, place)?;
    }
    Ok(())
}

/// Adds a place after the others of a task.
fn note(places: &mut Vec<Vec<usize>>, task: u8, place: usize) -> Result<(), AllocError>
    requires { task < length places.old.items }
    ensures { OnOk result (lists_in places.new.items
        ≡ slice_set (lists_in places.old.items) task (list_at places.old.items task ++ place ∷ [])) }
{
    places[usize::from(task)].push(place)?;
    Ok(())
}
