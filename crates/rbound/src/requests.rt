// The requests of tasks with their asks, as they are kept.
ghost use Rattle.std.specs.Prelude.{◌≡◌, ◌<◌, Some, IfOk, OnOk, OnErr, length, map};
ghost use Rattle.rbound.specs.TaskNeeds.{none_needed, with_request, with_ask, with_last_ask, requests_of, request_at, kind_at, asks_at};
ghost use Rattle.rbound.specs.Kept.{tasks_in, needs_in};

use rclaim::{Kind, Request};
use rset::ResourceSet;
use std::alloc::{AllocError, Global};

/// A request with the sets that it asks for, in order.
#[derive(Drop)]
pub(crate) struct RequestAsks {
    pub(crate) request: Request,
    pub(crate) asks: Vec<ResourceSet>,
}

/// This many tasks without requests.
pub(crate) fn no_requests(alloc: Global, tasks: u8) -> Result<Vec<Vec<RequestAsks>>, AllocError>
    ensures made { IfOk result (λ made. tasks_in made.items ≡ none_needed tasks) }
    ensures len { IfOk result (λ made. length made.items ≡ tasks) }
{
    let mut made = Vec::new(alloc);
    for _ in 0..tasks {
        made.push(Vec::new(alloc))?;
    }
    Ok(made)
}

/// Adds a request without asks after the others of a task.
pub(crate) fn push_request(
    alloc: Global,
    tasks: &mut Vec<Vec<RequestAsks>>,
    task: usize,
    request: Request,
) -> Result<(), AllocError>
    requires { task < length tasks.old.items }
    ensures ok { OnOk result (tasks_in tasks.new.items ≡ with_request (tasks_in tasks.old.items) task request) }
    ensures err { OnErr result (tasks_in tasks.new.items ≡ tasks_in tasks.old.items) }
    ensures len { length tasks.new.items ≡ length tasks.old.items }
{
    tasks[task].push(RequestAsks {
        request,
        asks: Vec::new(alloc),
    })?;
    Ok(())
}

/// Adds a set that the last of these requests asks for, after its other asks.
fn push_last(requests: &mut Vec<RequestAsks>, part: ResourceSet) -> Result<(), AllocError>
    requires { 0 < length requests.old.items }
    ensures ok { OnOk result (map needs_in requests.new.items ≡ with_last_ask (map needs_in requests.old.items) part) }
    ensures err { OnErr result (map needs_in requests.new.items ≡ map needs_in requests.old.items) }
{
    let last = requests.len() - 1;
    let entry = &mut requests[last];
    entry.asks.push(part)?;
    Ok(())
}

/// Adds a set that the last request of a task asks for, after its other asks.
pub(crate) fn push_ask(
    tasks: &mut Vec<Vec<RequestAsks>>,
    task: usize,
    part: ResourceSet,
) -> Result<(), AllocError>
    requires within { task < length tasks.old.items }
    requires some { 0 < length (requests_of (tasks_in tasks.old.items) task) }
    ensures ok { OnOk result (tasks_in tasks.new.items ≡ with_ask (tasks_in tasks.old.items) task part) }
    ensures err { OnErr result (tasks_in tasks.new.items ≡ tasks_in tasks.old.items) }
    ensures len { length tasks.new.items ≡ length tasks.old.items }
{
    push_last(&mut tasks[task], part)
}

/// The number of requests of a task.
pub(crate) fn len_of(tasks: &[Vec<RequestAsks>], task: usize) -> usize
    requires { task < length tasks.now }
    ensures { result ≡ length (requests_of (tasks_in tasks.now) task) }
{
    tasks[task].len()
}

/// A request.
pub(crate) fn request_at(tasks: &[Vec<RequestAsks>], task: usize, number: usize) -> Request
    requires task { task < length tasks.now }
    requires number { number < length (requests_of (tasks_in tasks.now) task) }
    ensures { request_at (tasks_in tasks.now) task number ≡ Some result }
{
    tasks[task][number].request
}

/// The kind of a request.
pub(crate) fn kind_at(tasks: &[Vec<RequestAsks>], task: usize, number: usize) -> Kind
    requires task { task < length tasks.now }
    requires number { number < length (requests_of (tasks_in tasks.now) task) }
    ensures { kind_at (tasks_in tasks.now) task number ≡ Some result }
{
    tasks[task][number].request.kind()
}

/// The sets that a request asks for.
pub(crate) fn asks_at(tasks: &[Vec<RequestAsks>], task: usize, number: usize) -> &[ResourceSet]
    requires task { task < length tasks.now }
    requires number { number < length (requests_of (tasks_in tasks.now) task) }
    ensures { result.now ≡ asks_at (tasks_in tasks.now) task number }
{
    tasks[task][number].asks.as_slice()
}
