//! The tool that runs scripts, with a worker for each task.
use io_ends::{MemSink, MemSource};
use rnlp_cli::{ToolStatus, plain_tool, run_tool};
use rrun::{NoPace, Pace};
use rwatch::Watchers;
use std::alloc::{AllocError, Global};
use std::sync::Wait;
use std::sync::atomic::{AtomicU64, Ordering};
use std::test::Fail;
use std::thread::Threads;

// More bytes than any report here has.
const ROOM: usize = 100_000;

// How often a section looks whether the other has begun.
const LOOKS: u64 = 1_000_000_000;

/// Lets one of two sections go on once both have begun, and counts those that saw the other.
#[derive(Drop)]
struct Meeting {
    begun: AtomicU64,
    met: AtomicU64,
}

impl Pace for Meeting {
    fn section(&self, _task: u8, _k: u64) {
        self.begun.fetch_add(1, Ordering::SeqCst);
        for _ in 0..LOOKS {
            if self.begun.load(Ordering::SeqCst) >= 2 {
                self.met.fetch_add(1, Ordering::SeqCst);
                return;
            }
        }
    }

    fn turn(&self) {}
}

// One word.
fn words_of(alloc: Global, word: &str) -> Result<Vec<String>, AllocError> {
    let mut words = Vec::new(alloc);
    words.push(String::from_str(alloc, word)?)?;
    Ok(words)
}

/// How a run ended: its status, what it wrote, and how many receipts it handed out.
#[derive(Drop)]
pub struct Ran {
    pub status: ToolStatus,
    pub written: Vec<u8>,
    pub receipts: usize,
}

/// Runs a script over memory, where these reads and writes fail.
pub fn run_with<R: Threads + Wait + Sync, G: Pace>(
    rt: &R,
    alloc: Global,
    script: &[u8],
    reads: &[u64],
    writes: &[u64],
    pace: &G,
) -> Result<Ran, AllocError> {
    let mut source = MemSource::new(script.to_vec(alloc)?, reads.to_vec(alloc)?);
    let mut sink = MemSink::new(alloc, ROOM, writes.to_vec(alloc)?)?;
    let (status, receipts) = run_between(rt, alloc, &mut source, &mut sink, pace)?;
    Ok(Ran {
        status,
        written: sink.written().to_vec(alloc)?,
        receipts,
    })
}

// How a run between these devices ended, and how many receipts it handed out.
fn run_between<R: Threads + Wait + Sync, G: Pace>(
    rt: &R,
    alloc: Global,
    source: &mut MemSource,
    sink: &mut MemSink,
    pace: &G,
) -> Result<(ToolStatus, usize), AllocError> {
    let words = words_of(alloc, "run")?;
    let mut receipts = Vec::new(alloc);
    let mut nobody = Watchers::new(Vec::new(alloc));
    let status = run_tool(
        rt,
        alloc,
        &words,
        source,
        sink,
        pace,
        &mut receipts,
        &mut nobody,
    );
    Ok((status, receipts.len()))
}

// Whether the two sections of a script are seen at the same time, and the run is done.
fn meet<R: Threads + Wait + Sync>(
    rt: &R,
    alloc: Global,
    script: &[u8],
) -> Result<bool, AllocError> {
    let meeting = Meeting {
        begun: AtomicU64::new(0),
        met: AtomicU64::new(0),
    };
    let ran = run_with(rt, alloc, script, &[], &[], &meeting)?;
    let met = meeting.met.load(Ordering::SeqCst);
    Ok(ran.status == ToolStatus::Done && ran.receipts == 1 && met == 2)
}

#[test]
fn two_reads_of_one_resource_are_held_at_once(rt: HostRuntime) -> Result<(), Fail> {
    let script = b"rnlp,1\nresource,a\ntask,t1\nread,a,1\nfinish\ntask,t2\nread,a,1\nfinish\nend\n";
    let met = meet(&rt, rt.alloc(), script)?;
    assert!(rt; met);
    Ok(())
}

#[test]
fn writes_whose_places_alone_meet_are_held_at_once(rt: HostRuntime) -> Result<(), Fail> {
    let script =
        b"rnlp,1\nresource,a\nresource,b\nresource,c\ngroup,a+b\ngroup,b+c\ntask,t1\nwrite,a,1\nfinish\ntask,t2\nwrite,c,1\nfinish\nend\n";
    let met = meet(&rt, rt.alloc(), script)?;
    assert!(rt; met);
    Ok(())
}

// What an audit of a report writes.
fn audited(alloc: Global, report: &[u8]) -> Result<Vec<u8>, AllocError> {
    let mut source = MemSource::new(report.to_vec(alloc)?, Vec::new(alloc));
    let mut sink = MemSink::new(alloc, 100, Vec::new(alloc))?;
    audit_between(alloc, &mut source, &mut sink)?;
    sink.written().to_vec(alloc)
}

// An audit between these devices.
fn audit_between(
    alloc: Global,
    source: &mut MemSource,
    sink: &mut MemSink,
) -> Result<(), AllocError> {
    let words = words_of(alloc, "audit")?;
    let mut nobody = Watchers::new(Vec::new(alloc));
    plain_tool(alloc, &words, source, sink, &mut nobody);
    Ok(())
}

// A task that adds 1 to resource a in this many sections.
fn push_adder(text: &mut Vec<u8>, name: &[u8], sections: u32) -> Result<(), AllocError> {
    text.extend_from_slice(b"task,")?;
    text.extend_from_slice(name)?;
    text.extend_from_slice(b"\n")?;
    for _ in 0..sections {
        text.extend_from_slice(b"write,a,1\nadd,a,1\nfinish\n")?;
    }
    Ok(())
}

// How many lines of a report are waits.
fn waits_told(report: &[u8]) -> usize {
    report
        .split(|byte| *byte == b'\n')
        .filter(|line| line.starts_with(b"wait,"))
        .count()
}

// Whether two tasks that add to one resource leave its ledger with all that they added, and an audit accepts the report
// and counts its waits.
fn adders_add<R: Threads + Wait + Sync>(rt: &R, alloc: Global) -> Result<bool, AllocError> {
    let mut script = Vec::new(alloc);
    push_adders(&mut script)?;
    let ran = run_with(rt, alloc, &script, &[], &[], &NoPace)?;
    let counted = is_counted(alloc, &ran.written)?;
    let added = ran.written.ends_with(b"\nledger,a,200,200\nend\n");
    Ok(ran.status == ToolStatus::Done && ran.receipts == 1 && added && counted)
}

// The script of these two tasks.
fn push_adders(script: &mut Vec<u8>) -> Result<(), AllocError> {
    script.extend_from_slice(b"rnlp,1\nresource,a\n")?;
    push_adder(script, b"t1", 100)?;
    push_adder(script, b"t2", 100)?;
    script.extend_from_slice(b"end\n")
}

// Whether an audit of their report counts its events and waits.
fn is_counted(alloc: Global, report: &[u8]) -> Result<bool, AllocError> {
    let told = audited(alloc, report)?;
    let waits = waits_told(report);
    let due = format!(in alloc; "audit,400,{waits}\nend\n")?;
    Ok(told.as_slice() == due.as_bytes())
}

#[test]
fn two_tasks_add_to_one_resource(rt: HostRuntime) -> Result<(), Fail> {
    let added = adders_add(&rt, rt.alloc())?;
    assert!(rt; added);
    Ok(())
}

// Whether a run ends with this status, has written this, and has handed out this many receipts.
fn ends<R: Threads + Wait + Sync>(
    rt: &R,
    alloc: Global,
    script: &[u8],
    reads: &[u64],
    writes: &[u64],
    status: ToolStatus,
    written: &[u8],
    receipts: usize,
) -> Result<bool, AllocError> {
    let ran = run_with(rt, alloc, script, reads, writes, &NoPace)?;
    Ok(ran.status == status && ran.written.as_slice() == written && ran.receipts == receipts)
}

// Whether runs end as they should where a device fails.
fn faults_are_told<R: Threads + Wait + Sync>(rt: &R, alloc: Global) -> Result<bool, AllocError> {
    let one = b"rnlp,1\nresource,a\ntask,t1\nend\n";
    let head = b"rnlp,1\nresource,a\ntask,t1\ncap,1\n";
    Ok(
        ends(rt, alloc, one, &[2], &[], ToolStatus::ReadFault, b"", 0)?
            && ends(rt, alloc, one, &[], &[1], ToolStatus::WriteFault, b"", 1)?
            && ends(rt, alloc, one, &[], &[2], ToolStatus::WriteFault, head, 1)?
            && ends(
                rt,
                alloc,
                b"rnlp,2\n",
                &[],
                &[1],
                ToolStatus::Script,
                b"",
                0,
            )?,
    )
}

#[test]
fn faults_of_devices_are_told(rt: HostRuntime) -> Result<(), Fail> {
    let told = faults_are_told(&rt, rt.alloc())?;
    assert!(rt; told);
    Ok(())
}

// Whether a script that is one byte too long is refused as too long, and one byte less is read.
fn limit_is_met<R: Threads + Wait + Sync>(rt: &R, alloc: Global) -> Result<bool, AllocError> {
    let mut script = vec![in alloc; b'x'; 1_048_577]?;
    let long = ends(rt, alloc, &script, &[], &[], ToolStatus::TooLong, b"", 0)?;
    script.truncate(1_048_576);
    let line = b"error,1,10\n";
    Ok(long && ends(rt, alloc, &script, &[], &[], ToolStatus::Script, line, 0)?)
}

#[test]
fn scripts_have_a_limit(rt: HostRuntime) -> Result<(), Fail> {
    let met = limit_is_met(&rt, rt.alloc())?;
    assert!(rt; met);
    Ok(())
}
