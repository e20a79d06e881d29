//! The program `rnlp`: only its handles. What it does is in `rnlp_edge`.
#![tactic(auto)]

ghost use Rattle.std.specs.Prelude.{◌≡◌, [], List, IfOk, OnErr, map, string_bytes};
ghost use Rattle.std.specs.Process.{exit_status};
ghost use Rattle.rtrace_form.specs.Reports.{Entry};
ghost use Rattle.rwatch.specs.Seen.{Seen};
ghost use Rattle.rnlp_cli.specs.Status.{status_number};
ghost use Rattle.rnlp_edge.specs.Program.{RunAnswer};
ghost use Rattle.rnlp.specs.Counters.{counters};

use io_ends::{Sink, Source, StdinSource, StdoutSink};
use rnlp_cli::ToolStatus;
use rnlp_edge::{Progress, Screen, explain, given_words, words_of};
use rwatch::{Counter, WatchKind, Watcher, Watchers};
use std::alloc::AllocError;
use std::io::IsTerminal;
use std::process::ExitCode;
use std::sync::Wait;
use std::thread::Threads;
use std::time::Clock;

// What is counted of the steps of a list, of a drill or of a run.
const KINDS: [WatchKind; 7] = [
    WatchKind::Issues,
    WatchKind::Finishes,
    WatchKind::Rises,
    WatchKind::Asks,
    WatchKind::Entitled,
    WatchKind::Satisfied,
    WatchKind::Grants,
];

fn main(rt: HostRuntime) -> ExitCode {
    let on_terminal = rt.stderr().is_terminal();
    let mut source = Progress::new(&rt, StdinSource::new(rt.stdin()), on_terminal);
    let mut sink = StdoutSink::new(rt.stdout());
    let words = words_of(given_words(&rt));
    code_of(
        &rt,
        run_watched(&rt, &words, &mut source, &mut sink, on_terminal),
    )
}

// The exit status of a run; if it did not begin, the status for out of memory, which is reported to the user.
fn code_of(rt: &impl Eprint, ran: Result<ExitCode, AllocError>) -> ExitCode
    ensures ran { IfOk ran (λ code. result ≡ code) }
    ensures not_run { OnErr ran (exit_status result ≡ status_number ToolStatus.NoMemory) }
{
    match ran {
        Ok(code) => code,
        Err(e) => ExitCode::from(explain(rt, ToolStatus::NoMemory, Err(e)).number()),
    }
}

// Runs the program with a counter of each kind as watchers. If memory runs out for them, nothing is touched.
fn run_watched<R: AllocGlobal + Clock + Eprint + Threads + Wait + Sync, S: Source, K: Sink>(
    rt: &R,
    words: &Result<Vec<String>, ToolStatus>,
    source: &mut S,
    sink: &mut K,
    on_terminal: bool,
) -> Result<ExitCode, AllocError>
    ensures ran { IfOk result (λ code. (status : ToolStatus) × (receipts : List (List Entry)) × (watched : List Seen) × (exit_status code ≡ status_number status)
        × RunAnswer S.left S.faults K.written K.faults (λ had. map string_bytes had.items) words.now on_terminal source.old source.new sink.old sink.new [] receipts counters watched status) }
    ensures not_run { OnErr result ((source.new ≡ source.old) × (sink.new ≡ sink.old)) }
{
    let mut list = Vec::new(rt.alloc());
    for kind in KINDS {
        let counter: Box<dyn Watcher + Send> = Box::new(rt.alloc(), Counter::new(kind))?;
        list.push(counter)?;
    }
    let mut watchers = Watchers::new(list);
    let mut receipts = Vec::new(rt.alloc());
    Ok(rnlp_edge::run(
        rt,
        words,
        source,
        sink,
        &Screen::new(rt, on_terminal),
        &mut receipts,
        &mut watchers,
        on_terminal,
    ))
}
