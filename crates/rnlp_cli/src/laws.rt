//! What holds for every report, and for the report of every run. Each function is a theorem: it does nothing, and its
//! contract is the law.
ghost use Rattle.std.specs.Prelude.{◌≡◌, ℕ, List, Some, slice_get, length};
ghost use Rattle.rclaim.specs.Events.{seat_of};
ghost use Rattle.rlock.specs.Known.{entries_by};
ghost use Rattle.rtrace_form.specs.Reports.{Entry, Report};
ghost use Rattle.rtrace_form.specs.Written.{MayBeWritten};
ghost use Rattle.rscript.specs.declared.statement.Statement.{Statement};
ghost use Rattle.rrun.specs.Scripts.{ScriptFields, IsScript};
ghost use Rattle.rrun.specs.Runs.{IsRunOf};
ghost use Rattle.rnlp_cli.specs.Headline.{IsKept, IsHeadline, AreCountedBeforehand};

/// *What is promised of a report*: its history is kept under the protocol lock; after every event just what the rules
/// grant is held, without conflict, and something while any request is incomplete; every wait is covered within its
/// printed bound; and each ledger is what its write sections made of it. This holds for every report that may be
/// written.
pub fn a_report_is_kept()
    ensures { (report : Report) → MayBeWritten report → IsKept report }
{}

/// *The headline*: if a report may be written, says what a script declares, with a cap of one request for each task,
/// and has for each task the run of its statements, then all that the headline says holds.
pub fn a_run_keeps_the_headline()
    ensures { (script : ScriptFields) (report : Report) → IsScript script → MayBeWritten report
        → report.head.resources ≡ script.resources → report.head.groups ≡ script.groups → report.head.tasks ≡ script.tasks → report.head.cap ≡ length script.tasks
        → ((task : ℕ) (statements : List Statement) → slice_get script.steps task ≡ Some statements
        → IsRunOf task statements (entries_by (λ (entry : Entry). seat_of entry.event) task report.entries))
        → IsHeadline script report }
{}

/// *Bounds are counted beforehand*: in a report that keeps the headline, each wait that ends is one that the script's
/// request may have; the bound beside it is the one counted for it from what the script needs, under a cap of one
/// request for each task; and its record is among those written of the script's bounds.
pub fn bounds_are_counted_beforehand()
    ensures { (script : ScriptFields) (report : Report) → IsHeadline script report → AreCountedBeforehand script report }
{}
