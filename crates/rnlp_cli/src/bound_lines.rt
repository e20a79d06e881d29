// The lines of all waits, task by task and request by request.
ghost use Rattle.std.specs.Prelude.{◌≡◌, ◌≤◌, ◌<◌, ◌+◌, ◌^◌, ◌++◌, IfOk, IfSome, OnOk, length};
ghost use Rattle.rtrace_form.specs.Texts.{line_text, text_of};
ghost use Rattle.rbound.specs.TaskNeeds.{requests_of};
ghost use Rattle.rnlp_cli.specs.BoundText.{bounds_text, tasks_rows, task_rows, request_rows, wait_row, asks_rows};

use crate::bound_line::push_line;
use rbound::Which;
use rbound_table::Bounds;
use rclaim::Kind;
use rscript::Script;
use rset::NameTable;
use std::alloc::{AllocError, Global};

/// The bounds of a script's waits, with at most `cap` incomplete requests, or as many as there are tasks if no cap is
/// given. For each task by number, and each of its requests in order: the line of its first wait, then for an upgrade
/// the line of its rise, and for a nested request the line of each ask. Last comes the line `end`. All memory that is
/// needed is taken here.
///
/// # Errors
///
/// Out of memory.
pub fn bound_text(alloc: Global, script: &Script, cap: Option<u8>) -> Result<Vec<u8>, AllocError>
    requires { IfSome cap (λ m. 1 ≤ m) }
    ensures { IfOk result (λ text. text.items ≡ bounds_text script.now cap) }
{
    let tasks = script.tasks();
    let cap = cap.unwrap_or(tasks.len());
    let bounds = Bounds::of(alloc, script.needs(alloc)?, cap)?;
    let mut text = Vec::new(alloc);
    push_tasks(&mut text, &bounds, tasks)?;
    text.extend_from_slice(b"end\n")?;
    Ok(text)
}

// Appends the lines of all tasks.
fn push_tasks(text: &mut Vec<u8>, bounds: &Bounds, tasks: &NameTable) -> Result<(), AllocError>
    requires { length tasks.now ≡ length bounds.now.needs.tasks }
    ensures { OnOk result (text.new.items ≡ text.old.items ++ text_of (tasks_rows bounds.now.needs bounds.now.cap tasks.now)) }
{
    for task in 0..tasks.len() {
        push_task(text, bounds, tasks.name_of(task), task)?;
    }
    Ok(())
}

// Appends the lines of a task.
fn push_task(text: &mut Vec<u8>, bounds: &Bounds, name: &[u8], task: u8) -> Result<(), AllocError>
    requires { task < length bounds.now.needs.tasks }
    ensures { OnOk result (text.new.items ≡ text.old.items ++ text_of (task_rows bounds.now.needs bounds.now.cap name.now task)) }
{
    for number in 0..bounds.needs().len(task) {
        push_request(text, bounds, name, task, number)?;
    }
    Ok(())
}

// Appends the lines of a request.
fn push_request(
    text: &mut Vec<u8>,
    bounds: &Bounds,
    name: &[u8],
    task: u8,
    number: usize,
) -> Result<(), AllocError>
    requires task { task < length bounds.now.needs.tasks }
    requires number { number < length (requests_of bounds.now.needs.tasks task) }
    requires small { number + 1 < 2 ^ 64 }
    ensures { OnOk result (text.new.items ≡ text.old.items ++ text_of (request_rows bounds.now.needs bounds.now.cap name.now task number)) }
{
    push_wait(text, bounds, name, task, number, Which::First)?;
    match bounds.needs().kind(task, number) {
        Kind::Read | Kind::Write | Kind::Mixed => Ok(()),
        Kind::Upgrade => push_wait(text, bounds, name, task, number, Which::Rise),
        Kind::Nested => push_asks(text, bounds, name, task, number),
    }
}

// Appends the lines of the asks of a request.
fn push_asks(
    text: &mut Vec<u8>,
    bounds: &Bounds,
    name: &[u8],
    task: u8,
    number: usize,
) -> Result<(), AllocError>
    requires task { task < length bounds.now.needs.tasks }
    requires number { number < length (requests_of bounds.now.needs.tasks task) }
    requires small { number + 1 < 2 ^ 64 }
    ensures { OnOk result (text.new.items ≡ text.old.items ++ text_of (asks_rows bounds.now.needs bounds.now.cap name.now task number)) }
{
    for i in 0..bounds.needs().asks(task, number) {
        push_wait(text, bounds, name, task, number, Which::Ask(i))?;
    }
    Ok(())
}

// Appends the line of a wait of a request.
fn push_wait(
    text: &mut Vec<u8>,
    bounds: &Bounds,
    name: &[u8],
    task: u8,
    number: usize,
    which: Which,
) -> Result<(), AllocError>
    requires task { task < length bounds.now.needs.tasks }
    requires number { number < length (requests_of bounds.now.needs.tasks task) }
    requires small { number + 1 < 2 ^ 64 }
    ensures { OnOk result (text.new.items ≡ text.old.items ++ line_text (wait_row bounds.now.needs bounds.now.cap name.now task number which)) }
{
    let bound = bounds.bound(task, number, which);
    push_line(text, name, number + 1, which, &bound)
}
