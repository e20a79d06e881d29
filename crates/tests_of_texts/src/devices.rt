// Sources and sinks that fail.
use crate::runs::{Given, SMALLEST, SMALLEST_REPORT, ends, trickles};
use rnlp_cli::ToolStatus;
use std::alloc::Global;
use std::test::Fail;

// A replay of an input where the reads and writes with these numbers fail.
fn replay<'a>(input: &'a [u8], reads: &'a [u64], writes: &'a [u64]) -> Given<'a> {
    Given {
        word: "replay",
        input,
        reads,
        writes,
    }
}

#[test]
fn a_read_that_fails_is_told(rt: HostRuntime) -> Result<(), Fail> {
    let told = ends(
        rt.alloc(),
        replay(SMALLEST, &[2], &[]),
        ToolStatus::ReadFault,
        b"",
    )?;
    assert!(rt; told);
    Ok(())
}

#[test]
fn a_write_that_fails_is_told(rt: HostRuntime) -> Result<(), Fail> {
    let told = ends(
        rt.alloc(),
        replay(SMALLEST, &[], &[1]),
        ToolStatus::WriteFault,
        b"",
    )?;
    assert!(rt; told);
    Ok(())
}

#[test]
fn a_fault_of_the_input_comes_before_one_of_the_sink(rt: HostRuntime) -> Result<(), Fail> {
    let told = ends(rt.alloc(), replay(b"", &[], &[1]), ToolStatus::Trace, b"")?;
    assert!(rt; told);
    Ok(())
}

// Whether a replay of the smallest list, one byte per read and per write, where these reads and writes fail, ends with
// this status and has written this.
fn trickling(
    alloc: Global,
    reads: &[u64],
    writes: &[u64],
    status: ToolStatus,
    output: &[u8],
) -> Result<bool, Fail> {
    trickles(alloc, replay(SMALLEST, reads, writes), 1, status, output)
}

// Whether a failing read is reported and nothing is written, for each read: those that give a byte, and the last one,
// which finds the end. There is no read after that one.
fn each_read_may_fail(alloc: Global) -> Result<bool, Fail> {
    let past = SMALLEST.len() as u64 + 2;
    for k in 1..past {
        if !trickling(alloc, &[k], &[], ToolStatus::ReadFault, b"")? {
            return Ok(false);
        }
    }
    trickling(alloc, &[past], &[], ToolStatus::Done, SMALLEST_REPORT)
}

#[test]
fn each_read_that_fails_is_told(rt: HostRuntime) -> Result<(), Fail> {
    let told = each_read_may_fail(rt.alloc())?;
    assert!(rt; told);
    Ok(())
}

// Whether a failing write is reported and just the bytes before it are written, for each write. There is no write after
// the last one.
fn each_write_may_fail(alloc: Global) -> Result<bool, Fail> {
    for before in 0..SMALLEST_REPORT.len() {
        let fails = before as u64 + 1;
        let written = &SMALLEST_REPORT[..before];
        if !trickling(alloc, &[], &[fails], ToolStatus::WriteFault, written)? {
            return Ok(false);
        }
    }
    let past = SMALLEST_REPORT.len() as u64 + 1;
    trickling(alloc, &[], &[past], ToolStatus::Done, SMALLEST_REPORT)
}

#[test]
fn each_write_that_fails_is_told(rt: HostRuntime) -> Result<(), Fail> {
    let told = each_write_may_fail(rt.alloc())?;
    assert!(rt; told);
    Ok(())
}

#[test]
fn a_fault_of_a_report_comes_before_one_of_the_sink(rt: HostRuntime) -> Result<(), Fail> {
    let audit = Given {
        word: "audit",
        input: b"",
        reads: &[],
        writes: &[1],
    };
    let told = ends(rt.alloc(), audit, ToolStatus::Trace, b"")?;
    assert!(rt; told);
    Ok(())
}

#[test]
fn where_nothing_fails_the_report_is_written(rt: HostRuntime) -> Result<(), Fail> {
    let done = ends(
        rt.alloc(),
        replay(SMALLEST, &[], &[]),
        ToolStatus::Done,
        SMALLEST_REPORT,
    )?;
    assert!(rt; done);
    Ok(())
}

// The tools themselves take the program's own words for wrong words.
fn is_no_tool(alloc: Global, word: &str) -> Result<bool, Fail> {
    let given = Given {
        word,
        input: SMALLEST,
        reads: &[],
        writes: &[],
    };
    ends(alloc, given, ToolStatus::Words, b"")
}

#[test]
fn help_is_no_tool(rt: HostRuntime) -> Result<(), Fail> {
    let wrong = is_no_tool(rt.alloc(), "--help")?;
    assert!(rt; wrong);
    Ok(())
}
