// The shapes of the requests of tasks, as a history grows.
ghost use Rattle.std.specs.Prelude.{◌≡◌, ◌<◌, [], true, IfOk, OnOk, OnErr, length, slice_index_or, slice_set};
ghost use Rattle.rbound.specs.TaskNeeds.{requests_of};
ghost use Rattle.rbound_history.specs.Shapes.{with_shape, shape_index, with_shape_ask, ask_index, task_at, is_nested_at};
ghost use Rattle.rbound_history.specs.ShapeNeeds.{needs_of_shapes, number_before, AreBelow};

use crate::needed::needs_of;
use crate::shape_key::key_of;
use crate::shape_numbers::ShapeNumbers;
use crate::shelf::{SHELVES, shelf_of};
use crate::table::{Table, enter, is_shape_at, push_ask, take_over};
use rbound::Needs;
use rclaim::Request;
use rexpand::Groups;
use rset::ResourceSet;
use std::alloc::{AllocError, Global};
use std::marker::Model;

/// The shapes of the requests of some tasks, in the order in which they first came. Requests of one task that differ in
/// nothing but their lengths and asks have one shape, with the greatest of their lengths and their different asks.
#[derive(Drop)]
pub struct Shapes {
    table: Table,
    /// For each shelf, the place of the last shape on it. It is tried first, and is only a hint.
    last: Vec<usize>,
}

impl Model for Shapes {
    ghost use Rattle.std.specs.Prelude.{length};
    ghost use Rattle.rbound_history.specs.TaskShapes.{TaskShapes, task_shapes_code};
    ghost use Rattle.rbound_history.specs.Kept.{shapes_in, IsKept};

    ghost Value = { TaskShapes };

    ghost coded = { task_shapes_code };

    ghost view = { λ a. record { tasks = length a.table.counts.items; shapes = shapes_in a.table.entries.items } };

    ghost invariant = { λ a. IsKept a.table };
}

impl Shapes {
    /// No shapes yet, for this many tasks.
    ///
    /// # Errors
    ///
    /// Out of memory.
    pub fn new(alloc: Global, tasks: u8) -> Result<Shapes, AllocError>
        ensures { IfOk result (λ shapes. shapes ≡ record { tasks = tasks; shapes = [] }) }
    {
        let counts = vec![in alloc; 0usize; usize::from(tasks)]?;
        let last = vec![in alloc; 0usize; SHELVES]?;
        Ok(Shapes {
            table: Table {
                keys: ShapeNumbers::new(alloc)?,
                entries: Vec::new(alloc),
                numbers: Vec::new(alloc),
                counts,
            },
            last,
        })
    }

    /// Takes a request of a task, and answers the place of its shape, from 0: a new shape goes after the others, a known one
    /// keeps its place and gets the greater length and the greater later length.
    ///
    /// # Errors
    ///
    /// Out of memory. Then nothing changes.
    pub fn add(&mut self, task: u8, request: Request) -> Result<usize, AllocError>
        requires { task < self.old.tasks }
        ensures ok { OnOk result (self.new ≡ record self.old { shapes = with_shape self.old.shapes task request }) }
        ensures place { IfOk result (λ place. place ≡ shape_index self.old.shapes task request) }
        ensures err { OnErr result (self.new ≡ self.old) }
    {
        let shelf = shelf_of(&key_of(task, &request));
        let last = place_in(&self.last, shelf);
        if is_shape_at(&self.table.entries, last, task, &request) {
            take_over(&mut self.table.entries, last, task, &request);
            return Ok(last);
        }
        let place = enter(&mut self.table, task, &request)?;
        note(&mut self.last, shelf, place);
        Ok(place)
    }

    /// Takes a set that a request of a shape asks for, and answers its number among the different sets that the shape asks
    /// for, from 0: a new set goes after the others.
    ///
    /// # Errors
    ///
    /// Out of memory. Then nothing changes.
    pub fn add_ask(&mut self, shape: usize, set: ResourceSet) -> Result<usize, AllocError>
        requires { is_nested_at self.old.shapes shape ≡ true }
        ensures ok { OnOk result (self.new ≡ record self.old { shapes = with_shape_ask self.old.shapes shape set }) }
        ensures number { IfOk result (λ number. number ≡ ask_index self.old.shapes shape set) }
        ensures err { OnErr result (self.new ≡ self.old) }
    {
        push_ask(&mut self.table.entries, shape, set)
    }

    /// The number of tasks.
    pub fn tasks(&self) -> u8
        ensures { result ≡ self.now.tasks }
    {
        self.table.counts.len() as u8
    }

    /// The number of different shapes.
    pub fn len(&self) -> usize
        ensures { result ≡ length self.now.shapes }
    {
        self.table.entries.len()
    }

    /// The task of a shape, and its number among the shapes of that task, from 0. With these the needs and the bounds of all
    /// shapes can be asked about the shape's waits.
    pub fn place(&self, shape: usize) -> (u8, usize)
        requires { shape < length self.now.shapes }
        ensures task { result.0 ≡ task_at self.now.shapes shape }
        ensures number { result.1 ≡ number_before self.now.shapes (task_at self.now.shapes shape) shape }
        ensures task_there { result.0 < length (needs_of_shapes self.now.tasks self.now.shapes) }
        ensures number_there { result.1 < length (requests_of (needs_of_shapes self.now.tasks self.now.shapes) result.0) }
    {
        (self.table.entries[shape].task, self.table.numbers[shape])
    }

    /// What tasks would need over these groups if they issued each shape once, in the order of the shapes.
    ///
    /// # Errors
    ///
    /// Out of memory.
    pub fn needs(&self, alloc: Global, groups: Groups) -> Result<Needs, AllocError>
        requires { AreBelow groups.q self.now.shapes }
        ensures { IfOk result (λ needs. needs ≡ record { groups = groups; tasks = needs_of_shapes self.now.tasks self.now.shapes }) }
    {
        needs_of(alloc, groups, &self.table.entries, self.tasks())
    }
}

/// The place that was last recorded for a shelf; 0 where there was none.
fn place_in(last: &[usize], shelf: usize) -> usize
    ensures { result ≡ slice_index_or last.now shelf 0 }
{
    match last.get(shelf) {
        Some(place) => *place,
        None => 0,
    }
}

/// Records a place for a shelf. Where there is no such shelf, nothing is recorded.
fn note(last: &mut [usize], shelf: usize, place: usize)
    ensures { last.new ≡ slice_set last.old shelf place }
{
    if shelf < last.len() {
        last[shelf] = place;
    }
}
