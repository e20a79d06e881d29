// The lines of a head, and the ledgers.
ghost use Rattle.std.specs.Prelude.{◌≡◌, ◌++◌, ◌+◌, ◌≤◌, length, take};
ghost use Rattle.rtrace_form.specs.Fields.{Names};
ghost use Rattle.rtrace_form.specs.Lines.{HasResource, HasGroup, HasTask, HasCap, Leaves};
ghost use Rattle.rtrace_form.specs.SetFields.{name_at};
ghost use Rattle.rtrace_write.specs.Told.{told_line};
ghost use Rattle.rtrace_write.specs.declared.TheConstants.{LINE_ROOM};

use crate::names::NameRows;
use crate::pieces::{put, put_number, put_set};
use rset::ResourceSet;
use rvalue::Ledger;

/// Puts the line of a resource.
pub fn put_resource_line(page: &mut [u8], at: usize, names: &NameRows, place: u8) -> usize
    requires { at + LINE_ROOM ≤ length page.old }
    ensures text { take result page.new ≡ take at page.old ++ told_line names.now (HasResource (name_at names.now.resources place)) }
    ensures end { result ≤ at + LINE_ROOM }
{
    let at = put(page, at, *b"resource,");
    let at = names.put_resource(page, at, place);
    put(page, at, *b"\n")
}

/// Puts the line of a read group.
pub fn put_group_line(page: &mut [u8], at: usize, names: &NameRows, group: ResourceSet) -> usize
    requires { at + LINE_ROOM ≤ length page.old }
    ensures text { take result page.new ≡ take at page.old ++ told_line names.now (HasGroup group) }
    ensures end { result ≤ at + LINE_ROOM }
{
    let at = put(page, at, *b"group");
    let at = put_set(page, at, names, group);
    put(page, at, *b"\n")
}

/// Puts the line of a task.
pub fn put_task_line(page: &mut [u8], at: usize, names: &NameRows, seat: u8) -> usize
    requires { at + LINE_ROOM ≤ length page.old }
    ensures text { take result page.new ≡ take at page.old ++ told_line names.now (HasTask (name_at names.now.tasks seat)) }
    ensures end { result ≤ at + LINE_ROOM }
{
    let at = put(page, at, *b"task,");
    let at = names.put_task(page, at, seat);
    put(page, at, *b"\n")
}

/// Puts the line of the cap.
pub fn put_cap_line(page: &mut [u8], at: usize, cap: u8) -> usize
    requires { at + LINE_ROOM ≤ length page.old }
    ensures text { (names : Names) → take result page.new ≡ take at page.old ++ told_line names (HasCap cap) }
    ensures end { result ≤ at + LINE_ROOM }
{
    let at = put(page, at, *b"cap");
    let at = put_number(page, at, u64::from(cap));
    put(page, at, *b"\n")
}

/// Puts the line of what is left in a resource.
pub fn put_ledger_line(
    page: &mut [u8],
    at: usize,
    names: &NameRows,
    place: u8,
    ledger: &Ledger,
) -> usize
    requires { at + LINE_ROOM ≤ length page.old }
    ensures text { take result page.new ≡ take at page.old ++ told_line names.now (Leaves place ledger.now) }
    ensures end { result ≤ at + LINE_ROOM }
{
    let at = put(page, at, *b"ledger,");
    let at = names.put_resource(page, at, place);
    let at = put_number(page, at, ledger.balance);
    let at = put_number(page, at, ledger.edits);
    put(page, at, *b"\n")
}
