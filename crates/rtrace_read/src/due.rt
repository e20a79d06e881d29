// What is due after an event, and whether a line is the one due.
ghost use Rattle.std.specs.Prelude.{◌≡◌, ◌<◌, ◌≤◌, ◌^◌, ◌+◌, ◌-◌, ◌&&◌, ◌==◌, not, drop, length, slice_get, is_some, Some, IfSome, IsTrue};
ghost use Rattle.std.specs.FinSet.{union};
ghost use Rattle.rset.specs.Sets.{equals};
ghost use Rattle.rtrace_form.specs.Heads.{is_nil};
ghost use Rattle.rtrace_form.specs.Lines.{Grants};
ghost use Rattle.rtrace_form.specs.Reports.{status_line, grant_line, wait_line};
ghost use Rattle.rtrace_form.specs.Waits.{stage_of, cover_of, no_bounds};
ghost use Rattle.rtrace_form.specs.Faults.{is_first, is_same_line, same_stage, same_numbers};
ghost use Rattle.rtrace_form.specs.WaitRecords.{cover_in, line_told};
ghost use Rattle.rtrace_read.specs.Due.{change_list, due_list};

use rbound::Which;
use rclaim::{Changes, GrantChange, Status, StatusChange};
use rcover_laws::WaitEnd;
use rset::ResourceSet;
use rtrace_form::{CoverTold, Stage, WaitTold};

/// Whether there are more changes and waits than this many.
pub fn has_more(changes: &Changes, ends: &[WaitEnd], told: usize) -> bool
    ensures { result ≡ not (is_nil (drop told (due_list changes.now ends.now))) }
{
    let many = count_of(changes);
    told < many || told - many < ends.len()
}

// How many changes there are.
fn count_of(changes: &Changes) -> usize
    ensures count { result ≡ length (change_list changes.now) }
    ensures few { result < 2 ^ 63 }
{
    changes.statuses.len() + changes.grants.len()
}

/// The wait at a place, counted from the first change, if this is its line, whatever bound it reports.
pub fn wait_at(changes: &Changes, ends: &[WaitEnd], told: usize, wait: &WaitTold) -> Option<WaitEnd>
    ensures due { is_some result ≡ is_first (drop told (due_list changes.now ends.now)) (line_told wait.now) }
    ensures first { IfSome result (λ due. (length (change_list changes.now) ≤ told) × (slice_get ends.now (told - length (change_list changes.now)) ≡ Some due)) }
    ensures room { IfSome result (λ due. told + 1 < 2 ^ 64) }
{
    let before = count_of(changes);
    if told < before {
        return None;
    }
    match ends.get(told - before) {
        Some(due) => {
            if is_same_wait(due, wait) {
                Some(*due)
            } else {
                None
            }
        }
        None => None,
    }
}

/// Whether the change at a place is this change of a status. Statuses come before grants.
pub fn is_status_at(changes: &Changes, told: usize, change: StatusChange) -> bool
    ensures due { result ≡ is_first (drop told (change_list changes.now)) (status_line change) }
    ensures room { IsTrue result → told + 1 < 2 ^ 64 }
{
    told < changes.statuses.len() && is_same(changes.statuses[told], change)
}

/// Whether the change at a place is this grant: all that the seat holds.
pub fn is_grant_at(changes: &Changes, told: usize, seat: u8, set: ResourceSet) -> bool
    ensures due { result ≡ is_first (drop told (change_list changes.now)) (Grants seat set) }
    ensures room { IsTrue result → told + 1 < 2 ^ 64 }
{
    let statuses = changes.statuses.len();
    if told < statuses {
        return false;
    }
    let place = told - statuses;
    place < changes.grants.len() && is_same_grant(changes.grants[place], seat, set)
}

// Whether the line of this seat and set is that of a grant.
fn is_same_grant(due: GrantChange, seat: u8, set: ResourceSet) -> bool
    ensures { result ≡ is_same_line (grant_line due) (Grants seat set) }
{
    due.seat == seat && due.reads.union(due.writes) == set
}

// Whether two changes of a status have the same line.
fn is_same(due: StatusChange, change: StatusChange) -> bool
    ensures { result ≡ is_same_line (status_line due) (status_line change) }
{
    let satisfied = matches!(due.status, Status::Satisfied);
    due.seat == change.seat
        && due.write_half == change.write_half
        && satisfied == matches!(change.status, Status::Satisfied)
}

// Whether this is the line of a wait that is over, whatever bound it reports.
fn is_same_wait(due: &WaitEnd, wait: &WaitTold) -> bool
    ensures { result ≡ is_same_line (wait_line no_bounds due.now) (line_told wait.now) }
{
    due.seat == wait.seat && (is_stage(due.which, wait.stage) && is_cover(due, &wait.cover))
}

// Whether a record of this stage is of this wait of a request.
fn is_stage(which: Which, stage: Stage) -> bool
    ensures { result ≡ same_stage (stage_of which) stage }
{
    match which {
        Which::First => matches!(stage, Stage::First),
        Which::Rise => matches!(stage, Stage::Rise),
        Which::Ask(_) => matches!(stage, Stage::Ask),
    }
}

// Whether the numbers of its cover are these.
fn is_cover(due: &WaitEnd, cover: &CoverTold) -> bool
    ensures { result ≡ same_numbers (cover_of due.now) (cover_in cover.now) }
{
    due.reads == cover.reads && (due.writes == cover.writes && due.units == cover.units)
}
