//! Tasks of scripts that are stopped because memory runs out, and tasks that are not. The gate refuses no growth, so no
//! task is stopped in it: `rt try --test --fail-alloc N` refuses one, by hand.
ghost use Rattle.std.specs.Prelude.{◌≡◌, None, IfOk, length};
ghost use Rattle.rrun.specs.Reporting.{HasOpened};
ghost use Rattle.rrun.specs.Tasks.{AreSeatsFor};

use crate::runs::{has_added, report_of};
use crate::tools::run_with;
use rclaim::Event;
use rguard::{Rnlp, Seat};
use rmodel::Machine;
use rnlp_cli::ToolStatus;
use rplain::Plain;
use rrun::{Ended, NoPace, Run, run_all, run_tasks};
use rscript::{Script, read_script};
use rvalue::Ledger;
use std::alloc::{AllocError, Global};
use std::sync::Wait;
use std::test::Fail;
use std::thread::Threads;

// Two tasks, one of which reads, rises and adds, and the other asks for what it adds to.
const SCRIPT: &str = "rnlp,1\nresource,a\nresource,b\n\
    task,u\nupgrade,a,1,1\nshow,a\nrise\nadd,a,1\nfinish\n\
    task,n\nnested,-,a+b,b,1\nadd,b,1\nask,a\nadd,a,1\nfinish\nend\n";

/// A runtime over what the script declares, with a seat for each task.
pub fn opened_for(
    alloc: Global,
    script: &Script,
) -> Result<(Rnlp<Ledger, Plain>, Vec<Seat<Ledger, Plain>>), AllocError>
    ensures opened { IfOk result (λ r. HasOpened script.now None r.0 r.1.items) }
    ensures passes { IfOk result (λ r. r.0.passes ≡ length script.now.tasks) }
{
    let groups = script.groups().copy(alloc)?;
    let resources = script.resources().len();
    let seats = script.tasks().len();
    let machine = Plain::new(alloc, groups, seats, seats)?;
    let values = vec![in alloc; Ledger::new(); usize::from(resources)]?;
    let (rnlp, all) = Rnlp::<Ledger, Plain>::new(alloc, machine, values, seats)?;
    Ok((rnlp, all))
}

// How many of these tasks were stopped.
fn count_stopped<M: Machine>(all: &[Ended<M>]) -> usize {
    all.iter().filter(|ended| ended.stopped.is_some()).count()
}

// How many tasks of a run at this runtime were stopped; None if there was no memory for the run itself.
fn stopped_at<R: Threads + Wait + Sync>(
    rt: &R,
    alloc: Global,
    rnlp: &Rnlp<Ledger, Plain>,
    seats: Vec<Seat<Ledger, Plain>>,
    script: &Script,
) -> Option<usize>
    requires { AreSeatsFor rnlp.now script.now seats.items }
{
    match run_tasks(rt, alloc, rnlp, seats, script, &NoPace) {
        Ok(all) => Some(count_stopped(all.as_slice())),
        Err(_) => None,
    }
}

// The same at a runtime of its own.
fn stopped_by<R: Threads + Wait + Sync>(rt: &R, alloc: Global, script: &Script) -> Option<usize> {
    match opened_for(alloc, script) {
        Ok((rnlp, seats)) => stopped_at(rt, alloc, &rnlp, seats, script),
        Err(_) => None,
    }
}

// The same for the script in a text.
fn stopped_of<R: Threads + Wait + Sync>(rt: &R, alloc: Global, text: &[u8]) -> Option<usize> {
    match read_script(alloc, text) {
        Ok(script) => stopped_by(rt, alloc, &script),
        Err(_) => None,
    }
}

#[test]
fn no_task_is_stopped_that_finds_memory(rt: HostRuntime) -> Result<(), Fail> {
    let stopped = stopped_of(&rt, rt.alloc(), SCRIPT.as_bytes());
    assert!(rt; stopped == Some(0));
    Ok(())
}

#[test]
fn a_growth_that_is_refused_stops_one_task(rt: HostRuntime) -> Result<(), Fail> {
    let stopped = stopped_of(&rt, rt.alloc(), SCRIPT.as_bytes());
    assert!(rt; stopped.unwrap_or(0) <= 1);
    Ok(())
}

// Two tasks of three sections each.
const SECTIONS: &str = "rnlp,1\nresource,a\n\
    task,t\nwrite,a,1\nadd,a,1\nfinish\nread,a,1\nshow,a\nfinish\nwrite,a,1\nadd,a,2\nfinish\n\
    task,u\nread,a,1\nshow,a\nfinish\nwrite,a,1\nadd,a,4\nfinish\nread,a,1\nshow,a\nfinish\nend\n";

// How many sections of a task have ended in a run.
fn ended_in(run: &Run, task: u8) -> u64 {
    let mut ended = 0u64;
    for entry in run.report.history.entries() {
        if matches!(entry.event, Event::Finish { seat } if seat == task) {
            ended = ended.wrapping_add(1);
        }
    }
    ended
}

// Whether a run says of a task of three sections that it is complete, and all have ended; or after how many of them it was
// stopped, and just these have ended, or one more, which was broken off.
fn is_section_right(run: &Run, task: u8) -> bool {
    let ended = ended_in(run, task);
    match run.stopped.get(usize::from(task)) {
        Some(None) => ended == 3,
        Some(Some(whole)) => *whole < 3 && (ended == *whole || ended == *whole + 1),
        None => false,
    }
}

// Whether a run of both tasks says that of each; None if there was no memory for the run itself.
fn are_sections_right<R: Threads + Wait + Sync>(rt: &R, alloc: Global) -> Option<bool> {
    let Ok(script) = read_script(alloc, SECTIONS.as_bytes()) else {
        return None;
    };
    match run_all(rt, alloc, &script, &NoPace) {
        Ok(run) => Some(is_section_right(&run, 0) && is_section_right(&run, 1)),
        Err(_) => None,
    }
}

#[test]
fn a_run_says_after_which_section_a_task_was_stopped(rt: HostRuntime) -> Result<(), Fail> {
    let right = are_sections_right(&rt, rt.alloc());
    assert!(rt; right != Some(false));
    Ok(())
}

// Whether the tool has written the report of the run and handed out its receipt; or ran out of memory and did neither.
fn is_all_or_nothing<R: Threads + Wait + Sync>(rt: &R, alloc: Global, text: &[u8]) -> bool {
    let Ok(ran) = run_with(rt, alloc, text, &[], &[], &NoPace) else {
        return true;
    };
    match ran.status {
        ToolStatus::Done => ran.written.ends_with(b"\nend\n") && ran.receipts == 1,
        ToolStatus::NoMemory => ran.written.is_empty() && ran.receipts == 0,
        _ => false,
    }
}

#[test]
fn a_run_that_found_no_memory_has_written_nothing(rt: HostRuntime) -> Result<(), Fail> {
    let alloc = rt.alloc();
    let first = is_all_or_nothing(&rt, alloc, SCRIPT.as_bytes());
    let second = is_all_or_nothing(&rt, alloc, SCRIPT.as_bytes());
    assert!(rt; first && second);
    Ok(())
}

#[test]
fn a_run_is_made_again_that_found_no_memory(rt: HostRuntime) -> Result<(), Fail> {
    let alloc = rt.alloc();
    let report = match report_of(&rt, alloc, SCRIPT.as_bytes()) {
        Some(report) => Some(report),
        None => report_of(&rt, alloc, SCRIPT.as_bytes()),
    };
    assert!(rt; report.is_some_and(|report| has_added(&report, 6, &[2, 1])));
    Ok(())
}
