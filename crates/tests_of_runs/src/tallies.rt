//! Runs with watchers: who is given the steps of which run.
use io_ends::{MemSink, MemSource};
use rnlp_cli::{ToolStatus, run_tool};
use rrun::NoPace;
use rwatch::{Audience, Counter, Recorder, WatchKind, Watcher, Watchers};
use std::alloc::{AllocError, Global};
use std::sync::Wait;
use std::test::Fail;
use std::thread::Threads;

// More bytes than any output here has.
const ROOM: usize = 1_000;

// A task with one write section, whose run has two events.
const SCRIPT: &str = "rnlp,1\nresource,a\ntask,t1\nwrite,a,1\nadd,a,5\nfinish\nend\n";

// The report of its run.
const REPORT: &str =
    "rnlp,1\nresource,a\ntask,t1\ncap,1\nissue,t1,write,a,1\nnow,t1,write,satisfied\ngrant,t1,a\n\
    finish,t1\nadd,a,5,yes\nledger,a,5,1\nend\n";

// How a run ended: its status, what it wrote, how many receipts it handed out, and what the two watchers counted.
#[derive(Drop)]
struct Outcome {
    status: ToolStatus,
    written: Vec<u8>,
    receipts: usize,
    counts: [u64; 2],
}

// A recorder of issues, and a counter of grants.
fn watching(alloc: Global) -> Result<Watchers, AllocError> {
    let mut list = Vec::new(alloc);
    let issues: Box<dyn Watcher + Send> = Box::new(
        alloc,
        Recorder::new(alloc, WatchKind::Issues, 2)?,
    )?;
    list.push(issues)?;
    let grants: Box<dyn Watcher + Send> = Box::new(alloc, Counter::new(WatchKind::Grants))?;
    list.push(grants)?;
    Ok(Watchers::new(list))
}

// A run by these words, where these reads and writes fail.
fn heard<R: Threads + Wait + Sync>(
    rt: &R,
    alloc: Global,
    words: &[&str],
    reads: &[u64],
    writes: &[u64],
) -> Result<Outcome, AllocError> {
    let mut source = MemSource::new(SCRIPT.as_bytes().to_vec(alloc)?, reads.to_vec(alloc)?);
    let mut sink = MemSink::new(alloc, ROOM, writes.to_vec(alloc)?)?;
    let mut watchers = watching(alloc)?;
    let (status, receipts) = run_by(rt, alloc, words, &mut source, &mut sink, &mut watchers)?;
    Ok(Outcome {
        status,
        written: sink.written().to_vec(alloc)?,
        receipts,
        counts: [count(&watchers, 0), count(&watchers, 1)],
    })
}

// How a run by these words ended, and how many receipts it handed out.
fn run_by<R: Threads + Wait + Sync, A: Audience>(
    rt: &R,
    alloc: Global,
    words: &[&str],
    source: &mut MemSource,
    sink: &mut MemSink,
    audience: &mut A,
) -> Result<(ToolStatus, usize), AllocError> {
    let mut given = Vec::new(alloc);
    for word in words {
        given.push(String::from_str(alloc, word)?)?;
    }
    let mut receipts = Vec::new(alloc);
    let status = run_tool(
        rt,
        alloc,
        &given,
        source,
        sink,
        &NoPace,
        &mut receipts,
        audience,
    );
    Ok((status, receipts.len()))
}

// What a watcher has counted; more than any run here has where there is no such watcher.
fn count<A: Audience>(audience: &A, i: usize) -> u64 {
    if i < audience.count() {
        audience.count_of(i)
    } else {
        u64::MAX
    }
}

#[test]
fn a_tally_is_written_after_the_report(rt: HostRuntime) -> Result<(), Fail> {
    let ran = heard(&rt, rt.alloc(), &["run", "tally"], &[], &[])?;
    let due = format!(in rt.alloc(); "{REPORT}tally,2\nissues,1\ngrants,1\nend\n")?;
    assert!(rt; ran.status == ToolStatus::Done && ran.receipts == 1);
    assert!(rt; ran.written.as_slice() == due.as_bytes());
    assert!(rt; ran.counts == [1, 1]);
    Ok(())
}

#[test]
fn a_plain_run_shows_nothing(rt: HostRuntime) -> Result<(), Fail> {
    let ran = heard(&rt, rt.alloc(), &["run"], &[], &[])?;
    assert!(rt; ran.status == ToolStatus::Done && ran.receipts == 1);
    assert!(rt; ran.written.as_slice() == REPORT.as_bytes());
    assert!(rt; ran.counts == [0, 0]);
    Ok(())
}

#[test]
fn wrong_words_show_nothing(rt: HostRuntime) -> Result<(), Fail> {
    let ran = heard(&rt, rt.alloc(), &["run", "tally", "all"], &[], &[])?;
    assert!(rt; ran.status == ToolStatus::Words && ran.receipts == 0);
    assert!(rt; ran.written.is_empty() && ran.counts == [0, 0]);
    Ok(())
}

#[test]
fn a_script_that_is_not_read_shows_nothing(rt: HostRuntime) -> Result<(), Fail> {
    let ran = heard(&rt, rt.alloc(), &["run", "tally"], &[1], &[])?;
    assert!(rt; ran.status == ToolStatus::ReadFault && ran.receipts == 0);
    assert!(rt; ran.written.is_empty() && ran.counts == [0, 0]);
    Ok(())
}

#[test]
fn a_tally_that_is_not_written_was_shown(rt: HostRuntime) -> Result<(), Fail> {
    let none = heard(&rt, rt.alloc(), &["run", "tally"], &[], &[1])?;
    assert!(rt; none.status == ToolStatus::WriteFault && none.receipts == 1);
    assert!(rt; none.written.is_empty() && none.counts == [1, 1]);
    let part = heard(&rt, rt.alloc(), &["run", "tally"], &[], &[4])?;
    assert!(rt; part.status == ToolStatus::WriteFault && part.receipts == 1);
    assert!(rt; part.written.as_slice() == REPORT.as_bytes() && part.counts == [1, 1]);
    Ok(())
}
