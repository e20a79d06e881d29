// Audits of reports that come in small pieces.
use crate::reports::REPORT;
use crate::runs::{Given, SMALLEST_REPORT, trickles};
use io_ends::MemSource;
use rnlp_cli::ToolStatus;
use rtrace::{AuditErr, audit_stream};
use std::alloc::Global;
use std::test::Fail;

// The report of a write section that adds 5 to a resource, fails to take 9, and shows what is left.
const SECTION: &[u8] =
    b"rnlp,1\nresource,a\ntask,t1\ncap,1\nissue,t1,write,a,1\nnow,t1,write,satisfied\ngrant,t1,a\nfinish,t1\nadd,a,5,yes\ntake,a,9,no\nshow,a,5\nledger,a,5,1\nend\n";

// The same, which shows 6.
const WRONG: &[u8] =
    b"rnlp,1\nresource,a\ntask,t1\ncap,1\nissue,t1,write,a,1\nnow,t1,write,satisfied\ngrant,t1,a\nfinish,t1\nadd,a,5,yes\ntake,a,9,no\nshow,a,6\nledger,a,5,1\nend\n";

// The first, with another number of edits in its ledger.
const WRONG_EDITS: &[u8] =
    b"rnlp,1\nresource,a\ntask,t1\ncap,1\nissue,t1,write,a,1\nnow,t1,write,satisfied\ngrant,t1,a\nfinish,t1\nadd,a,5,yes\ntake,a,9,no\nshow,a,5\nledger,a,5,2\nend\n";

// The smallest, with its fields in quotes, and a line end of two bytes.
const QUOTED: &[u8] =
    b"\"rnlp\",1\r\nresource,a\r\ntask,\"t1\"\r\ncap,1\r\nledger,a,0,0\r\nend\r\n";

// The report of two waits that end with one finish.
const WAITS: &[u8] =
    b"rnlp,1\nresource,a\nresource,b\ntask,t1\ntask,t2\ntask,t3\ncap,3\nissue,t1,write,a+b,2\nnow,t1,write,satisfied\ngrant,t1,a+b\nissue,t2,read,a,1\nnow,t2,read,entitled\nissue,t3,write,b,1\nfinish,t1\nnow,t2,read,satisfied\nnow,t3,write,satisfied\ngrant,t2,a\ngrant,t3,b\nwait,t2,first,0,1,2,0,1,2\nwait,t3,first,0,1,2,2,1,4\nledger,a,0,0\nledger,b,0,0\nend\n";

// The same, where the first wait has a bound that is too high.
const WRONG_BOUND: &[u8] =
    b"rnlp,1\nresource,a\nresource,b\ntask,t1\ntask,t2\ntask,t3\ncap,3\nissue,t1,write,a+b,2\nnow,t1,write,satisfied\ngrant,t1,a+b\nissue,t2,read,a,1\nnow,t2,read,entitled\nissue,t3,write,b,1\nfinish,t1\nnow,t2,read,satisfied\nnow,t3,write,satisfied\ngrant,t2,a\ngrant,t3,b\nwait,t2,first,0,1,2,0,1,3\nwait,t3,first,0,1,2,2,1,4\nledger,a,0,0\nledger,b,0,0\nend\n";

// The same, followed by a wrong ledger.
const WRONG_LEDGER: &[u8] =
    b"rnlp,1\nresource,a\nresource,b\ntask,t1\ntask,t2\ntask,t3\ncap,3\nissue,t1,write,a+b,2\nnow,t1,write,satisfied\ngrant,t1,a+b\nissue,t2,read,a,1\nnow,t2,read,entitled\nissue,t3,write,b,1\nfinish,t1\nnow,t2,read,satisfied\nnow,t3,write,satisfied\ngrant,t2,a\ngrant,t3,b\nwait,t2,first,0,1,2,0,1,3\nwait,t3,first,0,1,2,2,1,4\nledger,a,0,0\nledger,b,0,1\nend\n";

// The beginning of three reports over two read groups: a write is satisfied.
const TWO_GROUPS: &[u8] =
    b"rnlp,1\nresource,a\nresource,b\nresource,c\nresource,e\ngroup,a+b\ngroup,b+c\ntask,t1\ntask,t2\ntask,t3\ntask,t4\ncap,4\nissue,t1,write,a,2\nnow,t1,write,satisfied\ngrant,t1,a\n";

// A read that is satisfied is said to be entitled.
const WRONG_CHANGE: &[u8] =
    b"issue,t2,read,b,1\nnow,t2,read,entitled\ngrant,t2,b\nledger,a,0,0\nledger,b,0,0\nledger,c,0,0\nledger,e,0,0\nend\n";

// The end is missing.
const NO_END: &[u8] =
    b"issue,t2,read,b,1\nnow,t2,read,satisfied\ngrant,t2,b\nledger,a,0,0\nledger,b,0,0\nledger,c,0,0\nledger,e,0,0\n";

// The bound of a wait is too high.
const WRONG_WAIT: &[u8] =
    b"issue,t2,write,b,5\nfinish,t1\nnow,t2,write,satisfied\ngrant,t2,b\nwait,t2,first,0,1,2,0,1,3\nledger,a,0,0\nledger,b,0,0\nledger,c,0,0\nledger,e,0,0\nend\n";

// Whether an audit of a report that comes one byte per read, where the reads with these numbers fail, ends with this
// status and writes this, two bytes per write.
fn audits(
    alloc: Global,
    report: &[u8],
    reads: &[u64],
    status: ToolStatus,
    output: &[u8],
) -> Result<bool, Fail> {
    let given = Given {
        word: "audit",
        input: report,
        reads,
        writes: &[],
    };
    trickles(alloc, given, 2, status, output)
}

// Whether an audit of each of these reports, with no read failing, ends with the status and the output beside it.
fn all_audit(alloc: Global, table: &[(&[u8], ToolStatus, &[u8])]) -> Result<bool, Fail> {
    for (report, status, output) in table {
        if !audits(alloc, report, &[], *status, output)? {
            return Ok(false);
        }
    }
    Ok(true)
}

// Whether an audit of such a report with this rest refuses it with this line.
fn refuses(alloc: Global, rest: &[u8], line: &[u8]) -> Result<bool, Fail> {
    let mut report = TWO_GROUPS.to_vec(alloc)?;
    report.extend_from_slice(rest)?;
    audits(alloc, &report, &[], ToolStatus::Trace, line)
}

// What an audit of a report with this limit answers: its events and waits, or its error.
fn counts(alloc: Global, report: &[u8], limit: u64) -> Result<Result<(u64, u64), AuditErr>, Fail> {
    let mut source = MemSource::new(report.to_vec(alloc)?, Vec::new(alloc));
    Ok(match audit_stream(alloc, &mut source, limit) {
        Ok(counts) => Ok((counts.events, counts.waits)),
        Err(e) => Err(e),
    })
}

#[test]
fn a_report_may_come_byte_by_byte(rt: HostRuntime) -> Result<(), Fail> {
    let all = all_audit(
        rt.alloc(),
        &[
            (SECTION, ToolStatus::Done, b"audit,2,0\nend\n"),
            (WRONG, ToolStatus::Trace, b"error,11,6\n"),
            (WRONG_EDITS, ToolStatus::Trace, b"error,12,7\n"),
            (QUOTED, ToolStatus::Done, b"audit,0,0\nend\n"),
            (SMALLEST_REPORT, ToolStatus::Done, b"audit,0,0\nend\n"),
        ],
    )?;
    assert!(rt; all);
    Ok(())
}

#[test]
fn waits_may_come_byte_by_byte(rt: HostRuntime) -> Result<(), Fail> {
    let all = all_audit(
        rt.alloc(),
        &[
            (WAITS, ToolStatus::Done, b"audit,4,2\nend\n"),
            (WRONG_BOUND, ToolStatus::Trace, b"error,19,9\n"),
            (WRONG_LEDGER, ToolStatus::Trace, b"error,22,7\n"),
        ],
    )?;
    assert!(rt; all);
    Ok(())
}

#[test]
fn asks_and_a_rise_may_come_byte_by_byte(rt: HostRuntime) -> Result<(), Fail> {
    let report = REPORT.as_bytes();
    let done = audits(
        rt.alloc(),
        report,
        &[],
        ToolStatus::Done,
        b"audit,6,0\nend\n",
    )?;
    assert!(rt; done);
    Ok(())
}

// Whether a fault of each of three kinds is reported.
fn refuses_three(alloc: Global) -> Result<bool, Fail> {
    Ok(
        refuses(alloc, WRONG_CHANGE, b"error,17,5\n")?
            && refuses(alloc, NO_END, b"error,23,8\n")?
            && refuses(alloc, WRONG_WAIT, b"error,20,9\n")?,
    )
}

#[test]
fn faults_of_three_sorts_may_come_byte_by_byte(rt: HostRuntime) -> Result<(), Fail> {
    let all = refuses_three(rt.alloc())?;
    assert!(rt; all);
    Ok(())
}

#[test]
fn a_read_that_fails_behind_a_fault_is_told(rt: HostRuntime) -> Result<(), Fail> {
    let behind = WRONG.len() as u64 + 1;
    let told = audits(rt.alloc(), WRONG, &[behind], ToolStatus::ReadFault, b"")?;
    assert!(rt; told);
    Ok(())
}

// Whether a report may be as long as the limit, and no longer.
fn has_limit(alloc: Global) -> Result<bool, Fail> {
    let len = SECTION.len() as u64;
    let whole = counts(alloc, SECTION, len)? == Ok((2, 0));
    Ok(whole && counts(alloc, SECTION, len - 1)? == Err(AuditErr::TooLong))
}

#[test]
fn a_report_may_be_as_long_as_the_limit(rt: HostRuntime) -> Result<(), Fail> {
    let right = has_limit(rt.alloc())?;
    assert!(rt; right);
    Ok(())
}
