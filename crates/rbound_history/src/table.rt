// Shapes as they are kept: each with its key, and its number among those of its task.
ghost use Rattle.std.specs.Prelude.{◌≡◌, ◌<◌, ◌≤◌, ◌+◌, ◌++◌, ◌∷◌, [], true, IfOk, OnOk, OnErr, length, slice_get, slice_set, slice_index, vec_capacity};
ghost use Rattle.rbound_history.specs.Shapes.{is_shape_of, taken_over, with_shape, shape_index, with_shape_ask, ask_index};
ghost use Rattle.rbound_history.specs.Kept.{shapes_in, IsTable};

use crate::lengths::{is_as_long, lengthened, same_shape};
use crate::numbered::Numbered;
use crate::shape_key::{AskedSet, key_of};
use crate::shape_numbers::ShapeNumbers;
use rclaim::Request;
use rset::ResourceSet;
use std::alloc::AllocError;

/// A shape, with the different sets that it asks for.
#[derive(Drop)]
pub(crate) struct Entry {
    pub(crate) task: u8,
    pub(crate) request: Request,
    pub(crate) asks: Numbered<AskedSet>,
}

/// The shapes in the order in which they first came, by their keys; the number of each among those of its task, and how many
/// there are of each task.
#[derive(Drop)]
pub(crate) struct Table {
    pub(crate) keys: ShapeNumbers,
    pub(crate) entries: Vec<Entry>,
    pub(crate) numbers: Vec<usize>,
    pub(crate) counts: Vec<usize>,
}

/// Whether a request of a task has the shape at this place.
pub(crate) fn is_shape_at(entries: &[Entry], place: usize, task: u8, request: &Request) -> bool
    ensures { result ≡ is_shape_of (slice_get (shapes_in entries.now) place) task request.now }
{
    match entries.get(place) {
        None => false,
        Some(entry) => task == entry.task && same_shape(request, &entry.request),
    }
}

/// The shape at a place takes over the lengths of a request that has it.
pub(crate) fn take_over(entries: &mut Vec<Entry>, place: usize, task: u8, request: &Request)
    requires { is_shape_of (slice_get (shapes_in entries.old.items) place) task request.now ≡ true }
    ensures { shapes_in entries.new.items ≡ taken_over (shapes_in entries.old.items) place request.now }
{
    let entry = &mut entries[place];
    if !is_as_long(&entry.request, request) {
        entry.request = lengthened(&entry.request, request);
    }
}

/// Adds an ask to the shape at a place, and answers its number among the different asks of the shape.
pub(crate) fn push_ask(
    entries: &mut Vec<Entry>,
    place: usize,
    set: ResourceSet,
) -> Result<usize, AllocError>
    requires { place < length entries.old.items }
    ensures ok { OnOk result (shapes_in entries.new.items ≡ with_shape_ask (shapes_in entries.old.items) place set) }
    ensures number { IfOk result (λ i. i ≡ ask_index (shapes_in entries.old.items) place set) }
    ensures err { OnErr result (shapes_in entries.new.items ≡ shapes_in entries.old.items) }
{
    let entry = &mut entries[place];
    let (number, _) = entry.asks.insert_full(AskedSet { set })?;
    Ok(number)
}

/// Adds a new shape after the others, where there is room.
fn push_new(table: &mut Table, task: u8, request: &Request)
    requires entries { length table.old.entries.items < vec_capacity table.old.entries }
    requires numbers { length table.old.numbers.items < vec_capacity table.old.numbers }
    requires task { task < length table.old.counts.items }
    requires few { slice_index table.old.counts.items task ≤ length table.old.entries.items }
    ensures keys { table.new.keys ≡ table.old.keys }
    ensures shapes { shapes_in table.new.entries.items
        ≡ shapes_in table.old.entries.items ++ record { task = task; request = request.now; asks = [] } ∷ [] }
    ensures numbers { table.new.numbers.items ≡ table.old.numbers.items ++ slice_index table.old.counts.items task ∷ [] }
    ensures counts { table.new.counts.items
        ≡ slice_set table.old.counts.items task (slice_index table.old.counts.items task + 1) }
{
    let alloc = *table.entries.allocator();
    let number = table.counts[usize::from(task)];
    table.counts[usize::from(task)] = number + 1;
    table.numbers.push_reserved(number);
    table.entries.push_reserved(Entry {
        task,
        request: *request,
        asks: Numbered::new(alloc),
    });
}

/// The place of the shape of a request of a task, which takes its lengths over; a new shape goes after the others.
pub(crate) fn enter(table: &mut Table, task: u8, request: &Request) -> Result<usize, AllocError>
    requires task { task < length table.old.counts.items }
    requires table { IsTable table.old }
    ensures table { IsTable table.new }
    ensures ok { OnOk result (shapes_in table.new.entries.items ≡ with_shape (shapes_in table.old.entries.items) task request.now) }
    ensures place { IfOk result (λ place. place ≡ shape_index (shapes_in table.old.entries.items) task request.now) }
    ensures err { OnErr result (shapes_in table.new.entries.items ≡ shapes_in table.old.entries.items) }
    ensures tasks { length table.new.counts.items ≡ length table.old.counts.items }
{
    table.entries.reserve(1)?;
    table.numbers.reserve(1)?;
    let (place, is_new) = table.keys.insert_full(key_of(task, request))?;
    if is_new {
        push_new(table, task, request);
    } else {
        take_over(&mut table.entries, place, task, request);
    }
    Ok(place)
}
