// Runs in which tasks were stopped.
ghost use Rattle.std.specs.Prelude.{◌≡◌, false, is_some, IsNone, Some, IfSome};
ghost use Rattle.std.specs.List.{list_any};
ghost use Rattle.rtrace_form.specs.Written.{MayBeWritten};
ghost use Rattle.rrun.specs.Report.{told_by};
ghost use Rattle.rrun.specs.Reporting.{IsReportOf, IsReportOfRun};
ghost use Rattle.rnlp_cli.specs.Stopping.{WasStopped, told_aside};

use crate::explained::Told;
use rguard::Receipt;
use rrun::{Report, Run, whole_run};
use rscript::Script;
use rvalue::Edit;

/// The report of a run of a script and the receipt of its history, if no task was stopped. If one was, the run is put aside.
pub fn whole_or_aside(
    script: &Script,
    run: Run,
    aside: &mut Option<Run>,
) -> Option<(Report, Receipt<Edit>)>
    requires report { IsReportOfRun script.now run.stopped.items run.report }
    requires written { MayBeWritten (told_by run.report) }
    requires receipt { run.receipt ≡ run.report.entries }
    ensures none { IfSome result (λ _. list_any is_some run.stopped.items ≡ false) }
    ensures same { IfSome result (λ r. r.0 ≡ run.report) }
    ensures report { IfSome result (λ r. IsReportOf script.now r.0) }
    ensures written { IfSome result (λ r. MayBeWritten (told_by r.0)) }
    ensures receipt { IfSome result (λ r. r.1 ≡ r.0.entries) }
    ensures kept { IfSome result (λ _. aside.new ≡ aside.old) }
    ensures stopped { IsNone result → WasStopped script.now run }
    ensures aside { IsNone result → aside.new ≡ Some run }
{
    let _ = script.tasks();
    match whole_run(run) {
        Ok((report, receipt)) => Some((report, receipt)),
        Err(run) => {
            *aside = Some(run);
            None
        }
    }
}

/// Notes for the user which tasks of the script were stopped, if a run of it was put aside.
pub fn tell_aside(script: Script, aside: Option<Run>, told: &mut Option<Told>)
    ensures { told.new ≡ told_aside script aside told.old }
{
    if let Some(run) = aside {
        let Run {
            report: _,
            receipt,
            stopped,
        } = run;
        *told = Some(Told::Stopped {
            script,
            sections: stopped,
            receipt,
        });
    }
}
