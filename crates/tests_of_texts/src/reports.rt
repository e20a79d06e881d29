// Reports, read and written again with ample memory.
ghost use Rattle.std.specs.Prelude.{IfOk};
ghost use Rattle.rtrace_form.specs.Written.{MayBeWritten};
ghost use Rattle.rtrace_write.specs.Report.{told_by, IsOverResources, HasItsLedgers};

use io_ends::MemSink;
use rtrace::{TextErr, read_events, read_report};
use rtrace_write::{Report, WriteErr, write_report};
use std::alloc::Global;
use std::test::Fail;

/// A report whose sections edit, show, ask and rise, as it is written.
pub const REPORT: &str = "rnlp,1
resource,a
resource,e
task,t1
cap,1
issue,t1,nested,-,a+e,a,4
now,t1,write,satisfied
grant,t1,a
ask,t1,e
grant,t1,a+e
finish,t1
add,a,1,yes
set,e,7,yes
issue,t1,upgrade,a,1,1
now,t1,read,satisfied
now,t1,write,entitled
grant,t1,a
rise,t1
show,a,1
now,t1,write,satisfied
grant,t1,a
finish,t1
take,a,1,yes
ledger,a,0,2
ledger,e,7,1
end
";

// An event list, and the report of it.
const LIST: &str = "rnlp,1
resource,a
task,t1
issue,t1,write,a,1
finish,t1
end
";

const REPORT_OF_LIST: &str = "rnlp,1
resource,a
task,t1
cap,1
issue,t1,write,a,1
now,t1,write,satisfied
grant,t1,a
finish,t1
ledger,a,0,0
end
";

// Reads a report, or else an event list.
fn read_as(alloc: Global, whole: bool, text: &str) -> Result<Report, TextErr>
    ensures written { IfOk result (λ r. MayBeWritten (told_by r)) }
    ensures over { IfOk result IsOverResources }
    ensures ledgers { IfOk result HasItsLedgers }
{
    if whole {
        read_report(alloc, text.as_bytes())
    } else {
        read_events(alloc, text.as_bytes())
    }
}

// Whether this text is written of what was read from a text, into a sink whose writes with these numbers fail.
fn is_written(
    alloc: Global,
    whole: bool,
    text: &str,
    fails: &[u64],
    due: &str,
) -> Result<bool, Fail> {
    match read_as(alloc, whole, text) {
        Ok(report) => is_report_written(alloc, &report, fails, due),
        Err(_) => Ok(false),
    }
}

// Whether this text is written of a report, into such a sink.
fn is_report_written(alloc: Global, report: &Report, fails: &[u64], due: &str) -> Result<bool, Fail>
    requires may { MayBeWritten (told_by report.now) }
    requires over { IsOverResources report.now }
    requires ledgers { HasItsLedgers report.now }
{
    let mut sink = MemSink::new(alloc, 4096, fails.to_vec(alloc)?)?;
    let written = write_report(alloc, report, &mut sink);
    Ok(written.is_ok() == fails.is_empty() && sink.written() == due.as_bytes())
}

// The words of an error.
fn is_worded(alloc: Global) -> Result<bool, Fail> {
    let fault = format!(in alloc; "{}", WriteErr::WriteFault)?;
    let memory = format!(in alloc; "{}", WriteErr::Memory)?;
    Ok(fault.as_str() == "writing failed" && memory.as_str() == "out of memory")
}

#[test]
fn a_report_is_written_as_it_was_read(rt: HostRuntime) -> Result<(), Fail> {
    let written = is_written(rt.alloc(), true, REPORT, &[], REPORT)?;
    assert!(rt; written);
    Ok(())
}

#[test]
fn an_event_list_is_written_as_its_report(rt: HostRuntime) -> Result<(), Fail> {
    let written = is_written(rt.alloc(), false, LIST, &[], REPORT_OF_LIST)?;
    assert!(rt; written);
    Ok(())
}

#[test]
fn a_sink_that_fails_at_once_has_nothing(rt: HostRuntime) -> Result<(), Fail> {
    let written = is_written(rt.alloc(), true, REPORT, &[1], "")?;
    assert!(rt; written);
    Ok(())
}

#[test]
fn errors_of_writing_are_told_in_their_words(rt: HostRuntime) -> Result<(), Fail> {
    let worded = is_worded(rt.alloc())?;
    assert!(rt; worded);
    Ok(())
}
