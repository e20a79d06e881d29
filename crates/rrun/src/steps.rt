//! The statements of a task, one after another.
ghost use Rattle.std.specs.Prelude.{◌≡◌, ◌<◌, ◌+◌, ◌^◌, ◌-◌, length, IfOk, IfErr, if◌then◌else◌};
ghost use Rattle.rguard.specs.Seats.{IsOf, IsIdle};
ghost use Rattle.rrun.specs.Working.{FitsAt, AreWholeAt};
ghost use Rattle.rrun.specs.Desks.{IsAt, seat_in, section_in, HasStepped, HasLeft};
ghost use Rattle.rrun.specs.Runs.{HasRun, HasBrokenOff};
ghost use Rattle.rrun.specs.Sections.{ends_section};

use crate::acts::{ask, begin, edit, finish, rise, show};
use crate::desk::{At, Desk};
use crate::pace::Pace;
use rguard::{Rnlp, Seat};
use rmodel::Machine;
use rscript::Statement;
use rvalue::Ledger;
use std::alloc::{AllocError, Global};
use std::sync::Wait;

/// Statements that were broken off, because memory ran out.
#[derive(Drop)]
pub(crate) struct Broken<M: Machine> {
    /// The seat, which is idle.
    pub(crate) seat: Seat<Ledger, M>,
    /// How many whole sections were carried out before that one.
    pub(crate) sections: u64,
}

/// Carries out whole sections with an idle seat.
///
/// # Errors
///
/// Out of memory. The section it happened in is broken off, and the seat is idle.
pub(crate) fn run_steps<R: Wait, M: Machine, G: Pace>(
    rt: &R,
    alloc: Global,
    rnlp: &Rnlp<Ledger, M>,
    seat: Seat<Ledger, M>,
    steps: &[Statement],
    first: At,
    pace: &G,
) -> Result<Seat<Ledger, M>, Broken<M>>
    requires of { IsOf rnlp.now seat }
    requires idle { IsIdle seat }
    requires whole { AreWholeAt seat steps.now }
    ensures ran { IfOk result (HasRun steps.entry.now seat) }
    ensures idle { IfOk result IsIdle }
    ensures broken { IfErr result (λ e. HasBrokenOff e.sections steps.entry.now seat e.seat) }
    ensures left { IfErr result (λ e. IsIdle e.seat) }
{
    let _ = count_of(steps);
    let mut desk = Desk::Idle(seat);
    let mut sections = 0;
    for statement in steps {
        let at = first.after(sections);
        desk = match step(rt, alloc, rnlp, desk, statement, at, pace) {
            Ok(next) => next,
            Err((seat, _)) => return Err(Broken { seat, sections }),
        };
        sections = with(sections, statement);
    }
    match desk {
        Desk::Idle(seat) => Ok(seat),
        Desk::Busy(_guard) => unreachable!(),
    }
}

// How many statements there are.
fn count_of(steps: &[Statement]) -> usize
    ensures value { result ≡ length steps.now }
    ensures small { length steps.now < 2 ^ 64 }
{
    steps.len()
}

// How many whole sections were carried out, with one more statement.
fn with(sections: u64, statement: &Statement) -> u64
    requires { sections < 2 ^ 64 - 1 }
    ensures { result ≡ sections + (if ends_section statement.now then 1 else 0) }
{
    if statement.ends_section() {
        sections + 1
    } else {
        sections
    }
}

/// Carries out a statement.
///
/// # Errors
///
/// Out of memory. The section is broken off.
fn step<'a, R: Wait, M: Machine, G: Pace>(
    rt: &R,
    alloc: Global,
    rnlp: &'a Rnlp<Ledger, M>,
    desk: Desk<'a, M>,
    statement: &Statement,
    at: At,
    pace: &G,
) -> Result<Desk<'a, M>, (Seat<Ledger, M>, AllocError)>
    requires of { IsOf rnlp.now (seat_in desk) }
    requires at { IsAt desk }
    requires fits { FitsAt (seat_in desk) (section_in desk) statement.now }
    ensures ok { IfOk result (HasStepped desk.entry statement.entry.now) }
    ensures err { IfErr result (λ e. HasLeft (seat_in desk.entry) e.0) }
{
    match desk {
        Desk::Idle(seat) => match statement {
            Statement::Begin(request) => begin(rt, alloc, rnlp, seat, *request, at, pace),
            _ => unreachable!(),
        },
        Desk::Busy(guard) => match statement {
            Statement::Begin(_) => unreachable!(),
            Statement::Edit {
                place,
                edit: change,
            } => edit(rt, alloc, guard, *place, *change),
            Statement::Show { place } => show(rt, alloc, guard, *place),
            Statement::Ask { set } => ask(rt, alloc, guard, *set, pace),
            Statement::Rise => Ok(rise(rt, guard, pace)),
            Statement::Finish => finish(rt, alloc, guard),
        },
    }
}
