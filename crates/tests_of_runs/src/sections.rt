//! One section of a task, run alone.
ghost use Rattle.std.specs.Prelude.{◌≡◌, ◌<◌, None, IfOk, length};
ghost use Rattle.rrun.specs.Reporting.{HasOpened};
ghost use Rattle.rrun.specs.Seats.{IsSeatFor};

use crate::stopping::opened_for;
use rclaim::{Event, Kind};
use rguard::{Rnlp, Seat};
use rplain::Plain;
use rrun::{NoPace, run_section};
use rscript::{Script, read_script};
use rset::ResourceSet;
use rvalue::{Act, Edit, Entry, History, Ledger};
use std::alloc::{AllocError, Global};
use std::sync::{Arc, Wait};
use std::test::Fail;

// One task of two sections; the first adds, takes too much and shows.
const SCRIPT: &[u8] =
    b"rnlp,1\nresource,a\ntask,t1\nwrite,a,1\nadd,a,5\ntake,a,9\nshow,a\nfinish\nwrite,a,1\nset,a,7\nfinish\nend\n";

// Runs the first section of the first task, and the third, which the task does not have.
fn run_first<R: Wait>(
    rt: &R,
    alloc: Global,
    rnlp: &Rnlp<Ledger, Plain>,
    seat: Seat<Ledger, Plain>,
    script: &Script,
) -> Result<Seat<Ledger, Plain>, (Seat<Ledger, Plain>, AllocError)>
    requires task { 0 < length script.now.tasks }
    requires seat { IsSeatFor rnlp.now script.now 0 seat }
    ensures { IfOk result (IsSeatFor rnlp.entry.now script.entry.now 0) }
{
    let seat = run_section(rt, alloc, rnlp, seat, script, 0, 0, &NoPace)?;
    run_section(rt, alloc, rnlp, seat, script, 0, 2, &NoPace)
}

// Whether the entry begins the first section.
fn begins(entry: &Entry<Edit>) -> bool {
    match &entry.event {
        Event::Issue { seat, request } => {
            *seat == 0
                && request.kind() == Kind::Write
                && request.writes() == ResourceSet::one(0)
                && request.len() == 1
                && entry.acts.is_empty()
        }
        _ => false,
    }
}

// Whether the act is this edit of resource 0, with this answer.
fn is_edit(act: &Act<Edit>, made: Edit, taken: bool) -> bool {
    match act {
        Act::Edited { place, edit, done } => *place == 0 && *edit == made && *done == taken,
        Act::Shown { .. } => false,
    }
}

// Whether the act shows this number for resource 0.
fn is_show(act: &Act<Edit>, shown: u64) -> bool {
    match act {
        Act::Edited { .. } => false,
        Act::Shown { place, number } => *place == 0 && *number == shown,
    }
}

// Whether the entry ends the first section, with all that it did.
fn ends(entry: &Entry<Edit>) -> bool {
    let acts = entry.acts.as_slice();
    match entry.event {
        Event::Finish { seat } => {
            seat == 0
                && acts.len() == 3
                && is_edit(&acts[0], Edit::Add(5), true)
                && is_edit(&acts[1], Edit::Take(9), false)
                && is_show(&acts[2], 5)
        }
        _ => false,
    }
}

// Whether this is what the first section alone leaves.
fn is_left(history: &History<Edit>, ledgers: &[Arc<Ledger, Global>]) -> bool {
    let made = Ledger {
        balance: 5,
        edits: 1,
    };
    let entries = history.entries();
    entries.len() == 2
        && begins(&entries[0])
        && ends(&entries[1])
        && ledgers.len() == 1
        && *ledgers[0] == made
}

// Whether the first section alone, at a runtime with one seat, leaves what it should.
fn leaves_its_own<R: Wait>(
    rt: &R,
    alloc: Global,
    rnlp: Rnlp<Ledger, Plain>,
    mut seats: Vec<Seat<Ledger, Plain>>,
    script: &Script,
) -> bool
    requires opened { HasOpened script.now None rnlp seats.items }
    requires passes { rnlp.passes ≡ length script.now.tasks }
{
    if seats.len() != 1 {
        return false;
    }
    let seat = seats.pop().unwrap();
    let Ok(seat) = run_first(rt, alloc, &rnlp, seat, script) else {
        return false;
    };
    let Ok(()) = seats.push(seat) else {
        return false;
    };
    let (history, ledgers, _) = rnlp.close(seats);
    is_left(&history, ledgers.as_slice())
}

// The same at a runtime over what a script declares.
fn runs_alone<R: Wait>(rt: &R, alloc: Global, text: &[u8]) -> bool {
    let Ok(script) = read_script(alloc, text) else {
        return false;
    };
    match opened_for(alloc, &script) {
        Ok((rnlp, seats)) => leaves_its_own(rt, alloc, rnlp, seats, &script),
        Err(_) => false,
    }
}

#[test]
fn a_section_runs_alone(rt: HostRuntime) -> Result<(), Fail> {
    let alone = runs_alone(&rt, rt.alloc(), SCRIPT);
    assert!(rt; alone);
    Ok(())
}
