// The tools that wait for nobody.
ghost use Rattle.std.specs.Prelude.{◌≡◌, false, Some, map, string_bytes};
ghost use Rattle.io_ends.specs.Faults.{Rose};
ghost use Rattle.rnlp_cli.specs.Words.{plain_in, IsPlain};
ghost use Rattle.rnlp_cli.specs.Answer.{ToolAnswer};
ghost use Rattle.rnlp_cli.specs.Outputs.{is_streamed};
ghost use Rattle.rnlp_cli.specs.Told.{Tells};
ghost use Rattle.rnlp_cli.specs.Writing.{IsAnswer};
ghost use Rattle.rnlp_cli.specs.Watched.{Watched};

use crate::auditing::audit;
use crate::bounding::bound;
use crate::command::{Command, plain_of};
use crate::drilling::drill_tool;
use crate::explained::Told;
use crate::input::read_input;
use crate::replaying::replay;
use crate::status::ToolStatus;
use io_ends::{Sink, Source};
use rwatch::Audience;
use std::alloc::Global;

/// Runs the tool that the words name, and answers how it ended. It always returns.
///
/// The words are those after the program's name. Memory may run out wherever it is taken, and all of it is taken before
/// the first byte is written. The watchers see each step of a replay or a drill whose output was written, whole or a
/// front part; otherwise they see nothing.
pub fn plain_tool<S: Source, K: Sink, A: Audience>(
    alloc: Global,
    words: &[String],
    source: &mut S,
    sink: &mut K,
    watchers: &mut A,
) -> ToolStatus
    ensures answer { ToolAnswer S.left S.faults K.written K.faults (A.all watchers.old) (plain_in (map string_bytes words.now)) source.old source.new sink.old sink.new result }
    ensures watched { Watched (plain_in (map string_bytes words.now)) (S.left source.old) (K.written sink.old) (K.written sink.new) (A.all watchers.old) (A.all watchers.new) result }
{
    told_tool(alloc, words, source, sink, watchers, &mut None)
}

/// The same; and what may be reported to the user beyond the status is put into `told` too: the first fault of an input
/// that is refused, or that the steps of a list were shown to the watchers.
pub fn told_tool<S: Source, K: Sink, A: Audience>(
    alloc: Global,
    words: &[String],
    source: &mut S,
    sink: &mut K,
    audience: &mut A,
    told: &mut Option<Told>,
) -> ToolStatus
    ensures answer { ToolAnswer S.left S.faults K.written K.faults (A.all audience.old) (plain_in (map string_bytes words.now)) source.old source.new sink.old sink.new result }
    ensures watched { Watched (plain_in (map string_bytes words.now)) (S.left source.old) (K.written sink.old) (K.written sink.new) (A.all audience.old) (A.all audience.new) result }
    ensures told { Tells (A.all audience.old) (plain_in (map string_bytes words.now)) (S.left source.old) told.old told.new result }
{
    let Some(command) = plain_of(words) else {
        return ToolStatus::Words;
    };
    if command.is_streamed() {
        return audit(alloc, source, sink, told);
    }
    match read_input(alloc, command, source) {
        Ok(bytes) => run_command(alloc, command, &bytes, sink, audience, told),
        Err(status) => status,
    }
}

// Answers a command for its input, which was read whole.
fn run_command<K: Sink, A: Audience>(
    alloc: Global,
    command: Command,
    bytes: &[u8],
    sink: &mut K,
    audience: &mut A,
    told: &mut Option<Told>,
) -> ToolStatus
    requires plain { IsPlain command }
    requires whole { is_streamed command ≡ false }
    ensures answer { IsAnswer (A.all audience.old) (Some command) bytes.now (K.written sink.old) (K.written sink.new) (K.faults sink.new ≡ K.faults sink.old) (Rose (K.faults sink.old) (K.faults sink.new)) (sink.new ≡ sink.old) result }
    ensures watched { Watched (Some command) (Some bytes.now) (K.written sink.old) (K.written sink.new) (A.all audience.old) (A.all audience.new) result }
    ensures told { Tells (A.all audience.old) (Some command) (Some bytes.now) told.old told.new result }
{
    match command {
        Command::Replay => replay(alloc, bytes, sink, audience, told),
        Command::Bound(cap) => bound(alloc, cap, bytes, sink, told),
        Command::Drill(count) => drill_tool(alloc, count, sink, audience),
        Command::Run(_) | Command::Audit => unreachable!(),
    }
}
