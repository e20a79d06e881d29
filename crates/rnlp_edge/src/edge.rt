// The edge of the program: all of `main` but its handles.
ghost use Rattle.std.specs.Prelude.{◌≡◌, Option, None, map, string_bytes, IfOk};
ghost use Rattle.std.specs.Process.{exit_status};
ghost use Rattle.rnlp_cli.specs.Status.{status_number};
ghost use Rattle.rnlp_cli.specs.Words.{command_in};
ghost use Rattle.rnlp_cli.specs.declared.explained.Told.{Told};
ghost use Rattle.rnlp_edge.specs.Lines.{told_lines};
ghost use Rattle.rnlp_edge.specs.Program.{KeepsTheHeadline, ProgramAnswer, ProgramTells, RunAnswer, RunTells, ShownAnswer, ShownTells, is_replay, is_unwatched};

use crate::help::own_text;
use crate::lines::lines_of;
use crate::telling::explain;
use io_ends::{Sink, Source};
use rguard::Receipt;
use rnlp_cli::{
    Command, Pace, Told, ToolStatus, are_for_run, plain_of, told_run, told_tool, write_output,
};
use rvalue::Edit;
use rwatch::{Audience, Watchers};
use std::alloc::{AllocError, Global};
use std::process::ExitCode;
use std::sync::Wait;
use std::thread::Threads;

/// Runs the program: answers the words it was started with, reports on standard error what went wrong, and gives the
/// exit status. If standard error is a terminal, a replay also reports there what the watchers have counted; if not, a
/// replay has no watchers.
///
/// If there are no words, the exit status is that of `words`, and nothing is touched.
pub fn run<
    R: AllocGlobal + Eprint + Threads + Wait + Sync,
    S: Source,
    K: Sink,
    G: Pace,
    A: Audience,
>(
    rt: &R,
    words: &Result<Vec<String>, ToolStatus>,
    source: &mut S,
    sink: &mut K,
    pace: &G,
    receipts: &mut Vec<Receipt<Edit>>,
    audience: &mut A,
    on_terminal: bool,
) -> ExitCode
    ensures answer { (status : ToolStatus) × (exit_status result ≡ status_number status)
        × RunAnswer S.left S.faults K.written K.faults (λ had. map string_bytes had.items) words.now on_terminal source.old source.new sink.old sink.new receipts.old.items receipts.new.items (A.all audience.old) (A.all audience.new) status }
    ensures promise { IfOk words.now (λ had. KeepsTheHeadline (map string_bytes had.items) (S.left source.old) (K.written sink.old) (K.written sink.new) receipts.old.items receipts.new.items (A.all audience.old) (A.all audience.new) (exit_status result)) }
{
    let (status, lines) = answered_in_lines(
        rt,
        words,
        source,
        sink,
        pace,
        receipts,
        audience,
        on_terminal,
    );
    let status = explain(rt, status, lines);
    ExitCode::from(status.number())
}

// Answers the words the program was started with, and makes the lines that are reported to the user.
fn answered_in_lines<
    R: AllocGlobal + Threads + Wait + Sync,
    S: Source,
    K: Sink,
    G: Pace,
    A: Audience,
>(
    rt: &R,
    words: &Result<Vec<String>, ToolStatus>,
    source: &mut S,
    sink: &mut K,
    pace: &G,
    receipts: &mut Vec<Receipt<Edit>>,
    audience: &mut A,
    on_terminal: bool,
) -> (ToolStatus, Result<String, AllocError>)
    ensures answer { RunAnswer S.left S.faults K.written K.faults (λ had. map string_bytes had.items) words.now on_terminal source.old source.new sink.old sink.new receipts.old.items receipts.new.items (A.all audience.old) (A.all audience.new) result.0 }
    ensures lines { (told : Option Told) × RunTells (λ had. map string_bytes had.items) words.now on_terminal (A.all audience.old) (S.left source.old) None told result.0
        × IfOk result.1 (λ lines. string_bytes lines ≡ told_lines (A.all audience.new) on_terminal result.0 told) }
{
    let mut told = None;
    let status = had_answer(
        rt,
        words,
        source,
        sink,
        pace,
        receipts,
        audience,
        on_terminal,
        &mut told,
    );
    let lines = lines_of(rt.alloc(), status, &told, audience, on_terminal);
    (status, lines)
}

// Answers the words, if there are any; if not, gives the status that says why, and nothing is touched.
fn had_answer<R: AllocGlobal + Threads + Wait + Sync, S: Source, K: Sink, G: Pace, A: Audience>(
    rt: &R,
    words: &Result<Vec<String>, ToolStatus>,
    source: &mut S,
    sink: &mut K,
    pace: &G,
    receipts: &mut Vec<Receipt<Edit>>,
    audience: &mut A,
    on_terminal: bool,
    told: &mut Option<Told>,
) -> ToolStatus
    ensures answer { RunAnswer S.left S.faults K.written K.faults (λ had. map string_bytes had.items) words.now on_terminal source.old source.new sink.old sink.new receipts.old.items receipts.new.items (A.all audience.old) (A.all audience.new) result }
    ensures told { RunTells (λ had. map string_bytes had.items) words.now on_terminal (A.all audience.old) (S.left source.old) told.old told.new result }
{
    match words {
        Ok(words) => shown_answer(
            rt,
            words,
            source,
            sink,
            pace,
            receipts,
            audience,
            on_terminal,
            told,
        ),
        Err(status) => *status,
    }
}

// Answers the words; a replay has no watchers if no terminal shows what they count.
fn shown_answer<R: AllocGlobal + Threads + Wait + Sync, S: Source, K: Sink, G: Pace, A: Audience>(
    rt: &R,
    words: &[String],
    source: &mut S,
    sink: &mut K,
    pace: &G,
    receipts: &mut Vec<Receipt<Edit>>,
    audience: &mut A,
    on_terminal: bool,
    told: &mut Option<Told>,
) -> ToolStatus
    ensures answer { ShownAnswer S.left S.faults K.written K.faults on_terminal (map string_bytes words.now) source.old source.new sink.old sink.new receipts.old.items receipts.new.items (A.all audience.old) (A.all audience.new) result }
    ensures told { ShownTells on_terminal (map string_bytes words.now) (A.all audience.old) (S.left source.old) told.old told.new result }
{
    let alloc = rt.alloc();
    if is_unwatched(on_terminal, words) {
        let nobody = &mut Watchers::new(Vec::new(alloc));
        told_answer(rt, alloc, words, source, sink, pace, receipts, nobody, told)
    } else {
        told_answer(
            rt, alloc, words, source, sink, pace, receipts, audience, told,
        )
    }
}

// Whether the words ask for a replay that no terminal shows.
fn is_unwatched(on_terminal: bool, words: &[String]) -> bool
    ensures { result ≡ is_unwatched on_terminal (command_in (map string_bytes words.now)) }
{
    !on_terminal && ask_for_replay(words)
}

// Whether the words ask for a replay.
fn ask_for_replay(words: &[String]) -> bool
    ensures { result ≡ is_replay (command_in (map string_bytes words.now)) }
{
    !are_for_run(words) && matches!(plain_of(words), Some(Command::Replay))
}

/// Answers the words that ask about the program itself, and else runs the tool that they are for.
pub fn answer<R: Threads + Wait + Sync, S: Source, K: Sink, G: Pace, A: Audience>(
    rt: &R,
    alloc: Global,
    words: &[String],
    source: &mut S,
    sink: &mut K,
    pace: &G,
    receipts: &mut Vec<Receipt<Edit>>,
    audience: &mut A,
) -> ToolStatus
    ensures answer { ProgramAnswer S.left S.faults K.written K.faults (map string_bytes words.now) source.old source.new sink.old sink.new receipts.old.items receipts.new.items (A.all audience.old) (A.all audience.new) result }
    ensures promise { KeepsTheHeadline (map string_bytes words.now) (S.left source.old) (K.written sink.old) (K.written sink.new) receipts.old.items receipts.new.items (A.all audience.old) (A.all audience.new) (status_number result) }
{
    told_answer(
        rt, alloc, words, source, sink, pace, receipts, audience, &mut None,
    )
}

// The same; and what may be reported to the user beyond the status is put into `told` too.
fn told_answer<R: Threads + Wait + Sync, S: Source, K: Sink, G: Pace, A: Audience>(
    rt: &R,
    alloc: Global,
    words: &[String],
    source: &mut S,
    sink: &mut K,
    pace: &G,
    receipts: &mut Vec<Receipt<Edit>>,
    audience: &mut A,
    told: &mut Option<Told>,
) -> ToolStatus
    ensures answer { ProgramAnswer S.left S.faults K.written K.faults (map string_bytes words.now) source.old source.new sink.old sink.new receipts.old.items receipts.new.items (A.all audience.old) (A.all audience.new) result }
    ensures told { ProgramTells (map string_bytes words.now) (A.all audience.old) (S.left source.old) told.old told.new result }
{
    if let Some(text) = own_text(words) {
        return write_output(sink, text);
    }
    if are_for_run(words) {
        told_run(
            rt, alloc, words, source, sink, pace, receipts, audience, told,
        )
    } else {
        told_tool(alloc, words, source, sink, audience, told)
    }
}
