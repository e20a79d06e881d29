// Replays, and what the watchers see of them.
ghost use Rattle.std.specs.Prelude.{◌≡◌, ◌++◌, Some, List, [], map};
ghost use Rattle.io_ends.specs.Faults.{Rose};
ghost use Rattle.rmodel.specs.Steps.{AreAccepted};
ghost use Rattle.rwatch.specs.Seen.{Seen, told_all};
ghost use Rattle.rmodel.specs.Watching.{steps_of};
ghost use Rattle.rnlp_cli.specs.Writing.{IsAnswer, IsWritten};
ghost use Rattle.rnlp_cli.specs.Told.{TellsBehind, Tells};
ghost use Rattle.rnlp_cli.specs.Watched.{ReplayWatched};
ghost use Rattle.rnlp_cli.specs.declared.command.Command.TheVariants.{Replay};

use crate::explained::Told;
use crate::list_fault::refuse;
use crate::status::ToolStatus;
use io_ends::Sink;
use rtrace::write_parts;
use rtrace_form::TextErr;
use rtrace_replay::{Recorded, Replayed, recorded_replay_of, replay_of};
use rwatch::Audience;
use std::alloc::Global;

/// Writes the report of an event list, and shows its steps to the watchers. If nobody watches, no step is kept. What
/// may be reported to the user beyond the status is put into `told`: the first fault of an input that is not a list, or
/// that steps were shown.
pub fn replay<K: Sink, A: Audience>(
    alloc: Global,
    bytes: &[u8],
    sink: &mut K,
    audience: &mut A,
    told: &mut Option<Told>,
) -> ToolStatus
    ensures answer { IsAnswer (A.all audience.old) (Some Replay) bytes.now (K.written sink.old) (K.written sink.new) (K.faults sink.new ≡ K.faults sink.old) (Rose (K.faults sink.old) (K.faults sink.new)) (sink.new ≡ sink.old) result }
    ensures watched { ReplayWatched (Some bytes.now) (K.written sink.old) (K.written sink.new) (A.all audience.old) (A.all audience.new) result }
    ensures told { Tells (A.all audience.old) (Some Replay) (Some bytes.now) told.old told.new result }
{
    if audience.count() == 0 {
        replay_unwatched(alloc, bytes, sink, told)
    } else {
        replay_watched(alloc, bytes, sink, audience, told)
    }
}

// The same where nobody watches.
fn replay_unwatched<K: Sink>(
    alloc: Global,
    bytes: &[u8],
    sink: &mut K,
    told: &mut Option<Told>,
) -> ToolStatus
    ensures answer { (watchers : List Seen) → IsAnswer watchers (Some Replay) bytes.now (K.written sink.old) (K.written sink.new) (K.faults sink.new ≡ K.faults sink.old) (Rose (K.faults sink.old) (K.faults sink.new)) (sink.new ≡ sink.old) result }
    ensures watched { ReplayWatched (Some bytes.now) (K.written sink.old) (K.written sink.new) [] [] result }
    ensures told { TellsBehind told.old (Some Replay) (Some bytes.now) told.old told.new result }
{
    match replay_of(alloc, bytes) {
        Ok(made) => write_made(&made, sink),
        Err(TextErr::Bad(fault)) => refuse(alloc, fault, None, sink, told),
        Err(TextErr::Memory) => ToolStatus::NoMemory,
    }
}

// The same where somebody watches: the steps are kept until the report is written.
fn replay_watched<K: Sink, A: Audience>(
    alloc: Global,
    bytes: &[u8],
    sink: &mut K,
    audience: &mut A,
    told: &mut Option<Told>,
) -> ToolStatus
    ensures answer { IsAnswer (A.all audience.old) (Some Replay) bytes.now (K.written sink.old) (K.written sink.new) (K.faults sink.new ≡ K.faults sink.old) (Rose (K.faults sink.old) (K.faults sink.new)) (sink.new ≡ sink.old) result }
    ensures watched { ReplayWatched (Some bytes.now) (K.written sink.old) (K.written sink.new) (A.all audience.old) (A.all audience.new) result }
    ensures told { TellsBehind (Some Told.Steps) (Some Replay) (Some bytes.now) told.old told.new result }
{
    match recorded_replay_of(alloc, bytes) {
        Ok(made) => {
            *told = Some(Told::Steps);
            report(made, sink, audience)
        }
        Err(TextErr::Bad(fault)) => refuse(alloc, fault, None, sink, told),
        Err(TextErr::Memory) => ToolStatus::NoMemory,
    }
}

// Writes a report that was made, and then shows its steps, when no more memory is needed.
fn report<K: Sink, A: Audience>(made: Recorded, sink: &mut K, audience: &mut A) -> ToolStatus
    requires { AreAccepted made.steps.machine.state made.steps.events.items }
    ensures written { IsWritten (made.replayed.head ++ (made.replayed.history ++ made.replayed.ending)) (K.written sink.old) (K.written sink.new) (K.faults sink.new ≡ K.faults sink.old) (Rose (K.faults sink.old) (K.faults sink.new)) ⊥ result }
    ensures told { A.all audience.new ≡ map (told_all (steps_of made.steps.machine.state made.steps.events.items)) (A.all audience.old) }
{
    let status = write_made(&made.replayed, sink);
    let Recorded { replayed: _, steps } = made;
    steps.tell(audience);
    status
}

// Writes a report that was made.
fn write_made<K: Sink>(made: &Replayed, sink: &mut K) -> ToolStatus
    ensures { IsWritten (made.now.head ++ (made.now.history ++ made.now.ending)) (K.written sink.old) (K.written sink.new) (K.faults sink.new ≡ K.faults sink.old) (Rose (K.faults sink.old) (K.faults sink.new)) ⊥ result }
{
    match write_parts(
        sink,
        made.head.as_slice(),
        made.history.as_slice(),
        made.ending.as_slice(),
    ) {
        Ok(()) => ToolStatus::Done,
        Err(_) => ToolStatus::WriteFault,
    }
}
