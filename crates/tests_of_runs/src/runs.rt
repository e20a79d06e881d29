//! Runs of scripts, in which every kind of request meets others.
ghost use Rattle.std.specs.Prelude.{IfSome};
ghost use Rattle.rtrace_form.specs.Written.{MayBeWritten};
ghost use Rattle.rtrace_write.specs.Report.{told_by, IsOverResources, HasItsLedgers};

use io_ends::{MemSink, MemSource};
use rrun::{NoPace, run_all, run_script};
use rscript::read_script;
use rtrace::audit_stream;
use rtrace_write::{Report, write_report};
use rvalue::Ledger;
use std::alloc::{AllocError, Global};
use std::sync::Wait;
use std::test::Fail;
use std::thread::Threads;

// A task with the same section this many times.
fn push_task(text: &mut Vec<u8>, name: &str, section: &str, times: u32) -> Result<(), AllocError> {
    text.extend_from_slice(b"task,")?;
    text.extend_from_slice(name.as_bytes())?;
    text.extend_from_slice(b"\n")?;
    for _ in 0..times {
        text.extend_from_slice(section.as_bytes())?;
    }
    Ok(())
}

/// The report of a script's run, with a thread for each task; None if the text is not a script, or there was no memory.
pub fn report_of<R: Threads + Wait + Sync>(rt: &R, alloc: Global, text: &[u8]) -> Option<Report>
    ensures may { IfSome result (λ r. MayBeWritten (told_by r)) }
    ensures over { IfSome result IsOverResources }
    ensures ledgers { IfSome result HasItsLedgers }
{
    let Ok(script) = read_script(alloc, text) else {
        return None;
    };
    match run_script(rt, alloc, &script, &NoPace) {
        Ok((report, _)) => Some(report),
        Err(_) => None,
    }
}

/// Whether the report has this many entries, and each resource this many edits, each of which added 1; and whether its
/// history makes just these ledgers.
pub fn has_added(report: &Report, entries: usize, edits: &[u64]) -> bool {
    if report.history.len() != entries || report.ledgers.len() != edits.len() {
        return false;
    }
    for (l, ledger) in (0..report.resources.len()).zip(report.ledgers.iter()) {
        let made = report.history.value_of(Ledger::new(), l);
        let due = edits.get(usize::from(l));
        if *ledger != made || due != Some(&ledger.edits) || ledger.balance != ledger.edits {
            return false;
        }
    }
    true
}

// Whether the run of a script has this many entries, and each resource this many edits, as in `has_added`.
fn adds<R: Threads + Wait + Sync>(
    rt: &R,
    alloc: Global,
    text: &[u8],
    entries: usize,
    edits: &[u64],
) -> bool {
    match report_of(rt, alloc, text) {
        Some(report) => has_added(&report, entries, edits),
        None => false,
    }
}

// A script of two tasks that rise, and two that read.
fn push_rising(text: &mut Vec<u8>) -> Result<(), AllocError> {
    text.extend_from_slice(b"rnlp,1\nresource,a\n")?;
    let rising = "upgrade,a,1,1\nshow,a\nrise\nadd,a,1\nshow,a\nfinish\n";
    push_task(text, "u1", rising, 50)?;
    push_task(text, "u2", rising, 50)?;
    let reading = "read,a,1\nshow,a\nfinish\n";
    push_task(text, "r1", reading, 50)?;
    push_task(text, "r2", reading, 50)?;
    text.extend_from_slice(b"end\n")
}

#[test]
fn upgrades_rise_among_readers(rt: HostRuntime) -> Result<(), Fail> {
    let mut text = Vec::new(rt.alloc());
    push_rising(&mut text)?;
    let added = adds(&rt, rt.alloc(), text.as_slice(), 500, &[100]);
    assert!(rt; added);
    Ok(())
}

// A script of eight tasks that each add 1 to one resource in 50 sections.
fn push_adders(text: &mut Vec<u8>) -> Result<(), AllocError> {
    text.extend_from_slice(b"rnlp,1\nresource,a\n")?;
    for name in ["t1", "t2", "t3", "t4", "t5", "t6", "t7", "t8"] {
        push_task(text, name, "write,a,1\nadd,a,1\nfinish\n", 50)?;
    }
    text.extend_from_slice(b"end\n")
}

#[test]
fn eight_tasks_wait_for_one_resource(rt: HostRuntime) -> Result<(), Fail> {
    let mut text = Vec::new(rt.alloc());
    push_adders(&mut text)?;
    let added = adds(&rt, rt.alloc(), text.as_slice(), 800, &[400]);
    assert!(rt; added);
    Ok(())
}

// A script of two tasks that ask, and two that hold what they ask for.
fn push_asking(text: &mut Vec<u8>) -> Result<(), AllocError> {
    text.extend_from_slice(b"rnlp,1\nresource,a\nresource,b\n")?;
    let from_a = "nested,-,a+b,a,1\nadd,a,1\nask,b\nadd,b,1\nshow,a\nfinish\n";
    push_task(text, "n1", from_a, 50)?;
    let from_b = "nested,-,a+b,b,1\nadd,b,1\nask,a\nadd,a,1\nshow,b\nfinish\n";
    push_task(text, "n2", from_b, 50)?;
    push_task(text, "w", "write,b,1\nadd,b,1\nfinish\n", 50)?;
    push_task(text, "m", "mixed,b,a,1\nshow,b\nadd,a,1\nfinish\n", 50)?;
    text.extend_from_slice(b"end\n")
}

#[test]
fn nested_requests_ask_while_others_hold(rt: HostRuntime) -> Result<(), Fail> {
    let mut text = Vec::new(rt.alloc());
    push_asking(&mut text)?;
    let added = adds(&rt, rt.alloc(), text.as_slice(), 500, &[150, 150]);
    assert!(rt; added);
    Ok(())
}

// How many events an audit finds in the report once it is written; None if the audit does not accept it, or there was
// no memory.
fn audited(alloc: Global, report: &Report) -> Option<u64>
    requires may { MayBeWritten (told_by report.now) }
    requires over { IsOverResources report.now }
    requires ledgers { HasItsLedgers report.now }
{
    let Ok(mut sink) = MemSink::new(alloc, 1 << 20, Vec::new(alloc)) else {
        return None;
    };
    match write_report(alloc, report, &mut sink) {
        Ok(()) => events_told(alloc, sink.written()),
        Err(_) => None,
    }
}

// The same for what was written.
fn events_told(alloc: Global, written: &[u8]) -> Option<u64> {
    let Ok(bytes) = Vec::from_slice(alloc, written) else {
        return None;
    };
    let mut source = MemSource::new(bytes, Vec::new(alloc));
    match audit_stream(alloc, &mut source, 1 << 20) {
        Ok(counts) => Some(counts.events),
        Err(_) => None,
    }
}

// A letter and a number of two digits.
fn push_name(text: &mut Vec<u8>, letter: u8, number: u8) -> Result<(), AllocError> {
    text.extend_from_slice(&[letter, b'0' + number / 10 % 10, b'0' + number % 10])
}

// A line of these pieces, each followed by the name of a resource, and an end.
fn push_line(text: &mut Vec<u8>, pieces: &[(&str, u8)], end: &str) -> Result<(), AllocError> {
    for (piece, number) in pieces {
        text.extend_from_slice(piece.as_bytes())?;
        push_name(text, b'r', *number)?;
    }
    text.extend_from_slice(end.as_bytes())
}

// Sections of every kind over three resources, with one edit of the first, three of the second and one of the third.
fn push_sections(text: &mut Vec<u8>, a: u8, b: u8, c: u8) -> Result<(), AllocError> {
    push_line(text, &[("read,", a)], ",1\n")?;
    push_line(text, &[("show,", a)], "\nfinish\n")?;
    push_line(text, &[("upgrade,", a)], ",1,1\n")?;
    push_line(text, &[("show,", a), ("\nrise\nadd,", a)], ",1\nfinish\n")?;
    push_line(text, &[("write,", b), ("+", c)], ",1\n")?;
    push_line(text, &[("add,", b)], ",1\nfinish\n")?;
    push_line(text, &[("mixed,", a), (",", b)], ",1\n")?;
    push_line(text, &[("show,", a), ("\nadd,", b)], ",1\nfinish\n")?;
    push_line(
        text,
        &[("nested,", a), (",", b), ("+", c), (",", b)],
        ",1\n",
    )?;
    push_line(
        text,
        &[("add,", b), (",1\nask,", c), ("\nadd,", c)],
        ",1\nfinish\n",
    )
}

// A script of 64 tasks over as many resources in a ring, each with 50 sections.
fn push_ring(text: &mut Vec<u8>) -> Result<(), AllocError> {
    text.extend_from_slice(b"rnlp,1\n")?;
    for l in 0..64 {
        push_line(text, &[("resource,", l)], "\n")?;
    }
    for k in 0..64 {
        push_line(text, &[("task,", k)], "\n")?;
        for _ in 0..10 {
            push_sections(text, k, (k + 1) % 64, (k + 2) % 64)?;
        }
    }
    text.extend_from_slice(b"end\n")
}

// Whether an audit accepts the report of the ring's run, and each task has added what it should.
fn runs_right<R: Threads + Wait + Sync>(rt: &R, alloc: Global, text: &[u8]) -> bool {
    match report_of(rt, alloc, text) {
        Some(report) => {
            audited(alloc, &report) == Some(7680) && has_added(&report, 7680, &[50; 64])
        }
        None => false,
    }
}

#[test]
fn an_audit_accepts_the_run_of_a_ring(rt: HostRuntime) -> Result<(), Fail> {
    let mut text = Vec::new(rt.alloc());
    push_ring(&mut text)?;
    let right = runs_right(&rt, rt.alloc(), text.as_slice());
    assert!(rt; right);
    Ok(())
}

// A script of two tasks that each add to the same resource, one hundred times.
fn push_adding(text: &mut Vec<u8>) -> Result<(), AllocError> {
    text.extend_from_slice(b"rnlp,1\nresource,a\n")?;
    let adding = "write,a,1\nadd,a,1\nfinish\n";
    push_task(text, "t1", adding, 100)?;
    push_task(text, "t2", adding, 100)?;
    text.extend_from_slice(b"end\n")
}

// Whether a run stops neither of two tasks, its report has this many entries and edits, and an audit accepts it; None
// if there was no memory.
fn runs_all<R: Threads + Wait + Sync>(
    rt: &R,
    alloc: Global,
    text: &[u8],
    entries: u64,
    edits: &[u64],
) -> Option<bool> {
    let Ok(script) = read_script(alloc, text) else {
        return None;
    };
    let Ok(run) = run_all(rt, alloc, &script, &NoPace) else {
        return None;
    };
    let none = run.stopped.len() == 2 && run.stopped.iter().all(|stopped| stopped.is_none());
    let added = has_added(&run.report, entries as usize, edits);
    Some(none && added && audited(alloc, &run.report) == Some(entries))
}

#[test]
fn a_run_that_finds_memory_stops_no_task(rt: HostRuntime) -> Result<(), Fail> {
    let mut text = Vec::new(rt.alloc());
    push_adding(&mut text)?;
    let all = runs_all(&rt, rt.alloc(), text.as_slice(), 400, &[200]);
    assert!(rt; all == Some(true));
    Ok(())
}
