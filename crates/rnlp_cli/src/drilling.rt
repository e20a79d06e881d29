// Drills.
ghost use Rattle.std.specs.Prelude.{◌≡◌, ◌≤◌};
ghost use Rattle.io_ends.specs.Faults.{Rose};
ghost use Rattle.rnlp_cli.specs.Words.{most_events};
ghost use Rattle.rnlp_cli.specs.Outputs.{drill_text};
ghost use Rattle.rnlp_cli.specs.Watched.{DrillWatched};
ghost use Rattle.rnlp_cli.specs.Writing.{IsWritten};

use crate::output::write_output;
use crate::status::ToolStatus;
use io_ends::Sink;
use rdrill::{drill, drill_machine, push_summary, summary_room};
use rplain::Plain;
use rwatch::Audience;
use std::alloc::Global;

/// Draws this many events, shows their steps to the watchers, and writes their summary. All memory is taken first.
pub fn drill_tool<K: Sink, A: Audience>(
    alloc: Global,
    count: u32,
    sink: &mut K,
    audience: &mut A,
) -> ToolStatus
    requires { count ≤ most_events }
    ensures written { IsWritten (drill_text count (A.all audience.old)) (K.written sink.old) (K.written sink.new) (K.faults sink.new ≡ K.faults sink.old) (Rose (K.faults sink.old) (K.faults sink.new)) (sink.new ≡ sink.old) result }
    ensures watched { DrillWatched count (A.all audience.old) (A.all audience.new) result }
{
    let Ok(mut machine) = drill_machine::<Plain>(alloc) else {
        return ToolStatus::NoMemory;
    };
    let Ok(mut text) = summary_room(alloc, audience.count()) else {
        return ToolStatus::NoMemory;
    };
    drill(&mut machine, audience, count);
    push_summary(&mut text, count, audience, &machine);
    write_output(sink, &text)
}
