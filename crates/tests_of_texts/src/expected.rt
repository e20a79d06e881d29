// Which line is reported as due where a report has another line.
use crate::runs::one_word;
use io_ends::{MemSink, MemSource};
use rnlp_cli::{Told, ToolStatus, told_tool};
use rwatch::Watchers;
use std::alloc::Global;
use std::test::Fail;

// Two tasks over two resources, and the issue of the first of them.
const ISSUED: &[u8] =
    b"rnlp,1\nresource,a\nresource,b\ntask,t\ntask,u\ncap,2\nissue,t,write,a+b,2\n";

// The second task waits for the first, which edits a resource and finishes.
const FINISHED: &[u8] =
    b"now,t,write,satisfied\ngrant,t,a+b\nissue,u,read,b,1\nnow,u,read,entitled\nfinish,t\nadd,a,5,yes\nnow,u,read,satisfied\ngrant,u,b\n";

// The line of the second task's wait, and the end of its section.
const OVER: &[u8] = b"wait,u,first,0,1,2,0,1,2\nfinish,u\nledger,a,5,1\n";

// Whether an audit of these parts, one after another, reports this line as due.
fn expects(alloc: Global, parts: &[&[u8]], line: &str) -> Result<bool, Fail> {
    let mut source = MemSource::new(joined(alloc, parts)?, Vec::new(alloc));
    let mut sink = MemSink::new(alloc, 64, Vec::new(alloc))?;
    is_told_due(alloc, &mut source, &mut sink, line)
}

// The parts one after another.
fn joined(alloc: Global, parts: &[&[u8]]) -> Result<Vec<u8>, Fail> {
    let mut report = Vec::new(alloc);
    for part in parts {
        report.extend_from_slice(part)?;
    }
    Ok(report)
}

// Whether an audit between these devices reports this line as due.
fn is_told_due(
    alloc: Global,
    source: &mut MemSource,
    sink: &mut MemSink,
    line: &str,
) -> Result<bool, Fail> {
    let words = one_word(alloc, "audit")?;
    let mut nobody = Watchers::new(Vec::new(alloc));
    let mut told = None;
    let status = told_tool(alloc, &words, source, sink, &mut nobody, &mut told);
    Ok(status == ToolStatus::Trace && is_due(&told, line))
}

// Whether this line is reported as due.
fn is_due(told: &Option<Told>, line: &str) -> bool {
    match told {
        Some(
            Told::List {
                fault: _,
                expected: Some(due),
            },
        ) => due.as_str() == line,
        _ => false,
    }
}

// Whether a change of a status and a grant are reported as due.
fn expects_changes(alloc: Global) -> Result<bool, Fail> {
    let status: &[u8] = b"now,t,write,entitled\n";
    let grant: &[u8] = b"now,t,write,satisfied\ngrant,t,a\n";
    Ok(
        expects(alloc, &[ISSUED, status], "now,t,write,satisfied")?
            && expects(alloc, &[ISSUED, grant], "grant,t,a+b")?,
    )
}

#[test]
fn the_change_that_is_due_is_told(rt: HostRuntime) -> Result<(), Fail> {
    let changes = expects_changes(rt.alloc())?;
    assert!(rt; changes);
    Ok(())
}

#[test]
fn the_wait_that_is_due_is_told(rt: HostRuntime) -> Result<(), Fail> {
    let wait = expects(
        rt.alloc(),
        &[ISSUED, FINISHED, b"end\n"],
        "wait,u,first,0,1,2 and its bound",
    )?;
    assert!(rt; wait);
    Ok(())
}

#[test]
fn the_ledger_that_is_due_is_told(rt: HostRuntime) -> Result<(), Fail> {
    let ledger = expects(
        rt.alloc(),
        &[ISSUED, FINISHED, OVER, b"ledger,b,1,0\n"],
        "ledger,b,0,0",
    )?;
    assert!(rt; ledger);
    Ok(())
}
