// The tool that runs scripts, and waits for its workers.
ghost use Rattle.std.specs.Prelude.{◌≡◌, ◌<◌, ◌++◌, ◌∷◌, Some, List, [], map, length, string_bytes, vec_capacity};
ghost use Rattle.io_ends.specs.Faults.{Rose};
ghost use Rattle.rtrace_form.specs.Texts.{report_text};
ghost use Rattle.rtrace_form.specs.Written.{MayBeWritten};
ghost use Rattle.rrun.specs.Report.{told_by, IsOverResources, HasItsLedgers};
ghost use Rattle.rscript.specs.Scripts.{ScriptFields};
ghost use Rattle.rwatch.specs.Seen.{Seen};
ghost use Rattle.rnlp_cli.specs.Words.{run_in};
ghost use Rattle.rnlp_cli.specs.Answer.{ToolAnswer};
ghost use Rattle.rnlp_cli.specs.Forms.{HasRun, IsReported};
ghost use Rattle.rnlp_cli.specs.Leaving.{RunLeaves};
ghost use Rattle.rnlp_cli.specs.Promise.{KeepsItsPromise};
ghost use Rattle.rnlp_cli.specs.Running.{IsRun};
ghost use Rattle.rnlp_cli.specs.Stopping.{MayBeAside};
ghost use Rattle.rnlp_cli.specs.Told.{Tells};
ghost use Rattle.rnlp_cli.specs.Watched.{Leaves};
ghost use Rattle.rnlp_cli.specs.Writing.{IsAnswer, IsWritten};

use crate::command::{Command, RunForm, form_of};
use crate::explained::Told;
use crate::input::read_input;
use crate::looking::run_looked_at;
use crate::output::write_output;
use crate::script_fault::refuse_script;
use crate::status::ToolStatus;
use crate::stopping::{tell_aside, whole_or_aside};
use crate::tallying::run_tallied;
use io_ends::{Sink, Source};
use rguard::Receipt;
use rrun::{Pace, Report, Run, WriteErr, run_all, write_report};
use rscript::{Script, ScriptErr, read_script};
use rvalue::Edit;
use rwatch::Audience;
use std::alloc::Global;
use std::sync::Wait;
use std::thread::Threads;

/// Runs the script that the source holds, where the words ask for a run, and writes what their form writes of it: the
/// report of what happened, and then for a tally what the watchers counted, for a watched run what its monitors saw.
///
/// The words are those after the program's name. Each task has a worker of its own, and this waits for all of them. If
/// the output was written, whole or a front part, `receipts` gets one more: the receipt of just the history in that
/// report. With any other status `receipts` is as it was. Memory may run out wherever it is taken, and all of it is
/// taken before the first byte is written.
///
/// The watchers of a tally are under the lock of the run, and are given each step of that history. They come back with
/// every status; only if memory runs out they may be gone, or may have been given some steps. In every other form, and
/// where nothing was run, they see nothing.
///
/// *The headline*: whatever script comes, a run that ends Done has written the text of the one history kept under the protocol
/// lock: each task's requests in script order, each once; after every event just what the rules grant is held, without
/// conflict, and something while any request is incomplete; every wait covered within its printed bound; each ledger what its
/// write sections made of it (`promise`).
pub fn run_tool<R: Threads + Wait + Sync, S: Source, K: Sink, G: Pace, A: Audience>(
    rt: &R,
    alloc: Global,
    words: &[String],
    source: &mut S,
    sink: &mut K,
    pace: &G,
    receipts: &mut Vec<Receipt<Edit>>,
    audience: &mut A,
) -> ToolStatus
    ensures answer { ToolAnswer S.left S.faults K.written K.faults (A.all audience.old) (run_in (map string_bytes words.now)) source.old source.new sink.old sink.new result }
    ensures leaves { Leaves (run_in (map string_bytes words.now)) (S.left source.old) (K.written sink.old) (K.written sink.new) receipts.old.items receipts.new.items (A.all audience.old) (A.all audience.new) result }
    ensures promise { (form : RunForm) → run_in (map string_bytes words.now) ≡ Some (Command.Run form) → result ≡ ToolStatus.Done
        → KeepsItsPromise form (S.left source.old) (K.written sink.old) (K.written sink.new) receipts.old.items receipts.new.items (A.all audience.old) (A.all audience.new) }
{
    told_run(
        rt, alloc, words, source, sink, pace, receipts, audience, &mut None,
    )
}

/// The same; and if the input is not a script, its first fault is put into `told` too, for the user; if tasks of the run were
/// stopped because memory ran out, which of them were.
pub fn told_run<R: Threads + Wait + Sync, S: Source, K: Sink, G: Pace, A: Audience>(
    rt: &R,
    alloc: Global,
    words: &[String],
    source: &mut S,
    sink: &mut K,
    pace: &G,
    receipts: &mut Vec<Receipt<Edit>>,
    audience: &mut A,
    told: &mut Option<Told>,
) -> ToolStatus
    ensures answer { ToolAnswer S.left S.faults K.written K.faults (A.all audience.old) (run_in (map string_bytes words.now)) source.old source.new sink.old sink.new result }
    ensures leaves { Leaves (run_in (map string_bytes words.now)) (S.left source.old) (K.written sink.old) (K.written sink.new) receipts.old.items receipts.new.items (A.all audience.old) (A.all audience.new) result }
    ensures promise { (form : RunForm) → run_in (map string_bytes words.now) ≡ Some (Command.Run form) → result ≡ ToolStatus.Done
        → KeepsItsPromise form (S.left source.old) (K.written sink.old) (K.written sink.new) receipts.old.items receipts.new.items (A.all audience.old) (A.all audience.new) }
    ensures told { (watchers : List Seen) → Tells watchers (run_in (map string_bytes words.now)) (S.left source.old) told.old told.new result }
{
    let Some(form) = form_of(words) else {
        return ToolStatus::Words;
    };
    match read_input(alloc, Command::Run(form), source) {
        Ok(bytes) => run_text(
            rt, alloc, form, &bytes, sink, pace, receipts, audience, told,
        ),
        Err(status) => status,
    }
}

// Runs the script that an input spells.
fn run_text<R: Threads + Wait + Sync, K: Sink, G: Pace, A: Audience>(
    rt: &R,
    alloc: Global,
    form: RunForm,
    bytes: &[u8],
    sink: &mut K,
    pace: &G,
    receipts: &mut Vec<Receipt<Edit>>,
    audience: &mut A,
    told: &mut Option<Told>,
) -> ToolStatus
    ensures answer { IsAnswer (A.all audience.old) (Some (Command.Run form)) bytes.now (K.written sink.old) (K.written sink.new) (K.faults sink.new ≡ K.faults sink.old) (Rose (K.faults sink.old) (K.faults sink.new)) (sink.new ≡ sink.old) result }
    ensures leaves { RunLeaves form (Some bytes.now) (K.written sink.old) (K.written sink.new) receipts.old.items receipts.new.items (A.all audience.old) (A.all audience.new) result }
    ensures told { (watchers : List Seen) → Tells watchers (Some (Command.Run form)) (Some bytes.now) told.old told.new result }
{
    match read_script(alloc, bytes) {
        Ok(script) => {
            let mut aside = None;
            let status = run_read(
                rt, alloc, form, &script, sink, pace, receipts, audience, &mut aside,
            );
            tell_aside(script, aside, told);
            status
        }
        Err(ScriptErr::Bad { line, code }) => refuse_script(alloc, line, code, sink, told),
        Err(ScriptErr::Memory) => ToolStatus::NoMemory,
    }
}

// Runs a script in this form.
fn run_read<R: Threads + Wait + Sync, K: Sink, G: Pace, A: Audience>(
    rt: &R,
    alloc: Global,
    form: RunForm,
    script: &Script,
    sink: &mut K,
    pace: &G,
    receipts: &mut Vec<Receipt<Edit>>,
    audience: &mut A,
    aside: &mut Option<Run>,
) -> ToolStatus
    ensures run { IsRun form script.now (K.written sink.old) (K.written sink.new) (K.faults sink.new ≡ K.faults sink.old) (Rose (K.faults sink.old) (K.faults sink.new)) (sink.new ≡ sink.old) receipts.old.items receipts.new.items (A.all audience.old) (A.all audience.new) result }
    ensures aside { MayBeAside script.now aside.old aside.new result }
{
    match form {
        RunForm::Report => run_reported(rt, alloc, script, sink, pace, receipts, aside),
        RunForm::Tally => { run_tallied(rt, alloc, script, sink, pace, receipts, audience, aside) }
        RunForm::Watch => run_looked_at(rt, alloc, script, sink, pace, receipts, aside),
    }
}

// Runs a script, writes the report, and hands out its receipt. The room for the receipt is made before the run. A run in which
// tasks were stopped is put aside, and nothing is written.
fn run_reported<R: Threads + Wait + Sync, K: Sink, G: Pace>(
    rt: &R,
    alloc: Global,
    script: &Script,
    sink: &mut K,
    pace: &G,
    receipts: &mut Vec<Receipt<Edit>>,
    aside: &mut Option<Run>,
) -> ToolStatus
    ensures run { (watchers : List Seen) → IsRun RunForm.Report script.now (K.written sink.old) (K.written sink.new) (K.faults sink.new ≡ K.faults sink.old) (Rose (K.faults sink.old) (K.faults sink.new)) (sink.new ≡ sink.old) receipts.old.items receipts.new.items watchers watchers result }
    ensures aside { MayBeAside script.now aside.old aside.new result }
{
    let Ok(()) = receipts.reserve(1) else {
        return ToolStatus::NoMemory;
    };
    let Ok(run) = run_all(rt, alloc, script, pace) else {
        return ToolStatus::NoMemory;
    };
    match whole_or_aside(script, run, aside) {
        Some((report, receipt)) => hand_out(alloc, &report, b"", receipt, sink, receipts),
        None => ToolStatus::NoMemory,
    }
}

/// Writes the report of a run and what its form writes after it, and hands out the receipt into room that was made
/// before.
pub fn hand_out<K: Sink>(
    alloc: Global,
    report: &Report,
    rest: &[u8],
    receipt: Receipt<Edit>,
    sink: &mut K,
    receipts: &mut Vec<Receipt<Edit>>,
) -> ToolStatus
    requires may { MayBeWritten (told_by report.now) }
    requires over { IsOverResources report.now }
    requires ledgers { HasItsLedgers report.now }
    requires its { receipt ≡ report.now.entries }
    requires room { length receipts.old.items < vec_capacity receipts.old }
    ensures { (form : RunForm) (script : ScriptFields) (before after : List Seen) → HasRun IsReported form script before (report_text (told_by report.now) ++ rest.now) (report.now.entries ∷ []) after
        → IsRun form script (K.written sink.old) (K.written sink.new) (K.faults sink.new ≡ K.faults sink.old) (Rose (K.faults sink.old) (K.faults sink.new)) (sink.new ≡ sink.old) receipts.old.items receipts.new.items before after result }
{
    match write_both(alloc, report, rest, sink) {
        ToolStatus::NoMemory => ToolStatus::NoMemory,
        status => {
            receipts.push_reserved(receipt);
            status
        }
    }
}

// Writes the report of a run and what its form writes after it.
fn write_both<K: Sink>(alloc: Global, report: &Report, rest: &[u8], sink: &mut K) -> ToolStatus
    requires may { MayBeWritten (told_by report.now) }
    requires over { IsOverResources report.now }
    requires ledgers { HasItsLedgers report.now }
    ensures { IsWritten (report_text (told_by report.now) ++ rest.now) (K.written sink.old) (K.written sink.new) (K.faults sink.new ≡ K.faults sink.old) (Rose (K.faults sink.old) (K.faults sink.new)) (sink.new ≡ sink.old) result }
{
    match write_report(alloc, report, sink) {
        Ok(()) => write_output(sink, rest),
        Err(WriteErr::WriteFault) => ToolStatus::WriteFault,
        Err(WriteErr::Memory) => ToolStatus::NoMemory,
    }
}
