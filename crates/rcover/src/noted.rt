// What is noted of the last request of each seat.
ghost use Rattle.std.specs.Prelude.{◌≡◌, ◌<◌, ◌^◌, ℕ, length, slice_index};
ghost use Rattle.rclaim.specs.Events.{seat_of};
ghost use Rattle.rclaim.specs.declared.claim.Claim.{Claim};
ghost use Rattle.rcover_laws.specs.History.{count_ask};
ghost use Rattle.rcover.specs.Kept.{length_by};
ghost use Rattle.rcover.specs.Past.{is_issue, noted};

use crate::section::Lengths;
use rclaim::Event;

/// Whether an event is an issue.
pub(crate) fn is_issue(event: &Event) -> bool
    ensures { result ≡ is_issue event.now }
{
    matches!(event, Event::Issue { .. })
}

/// Notes the lengths of a request that an event issues.
pub(crate) fn note_lengths(lengths: &mut [Lengths], event: &Event)
    requires { seat_of event.now < length lengths.old }
    ensures value { (c : Claim) → length_by lengths.new c ≡ noted event.now (length_by lengths.old) c }
    ensures len { length lengths.new ≡ length lengths.old }
{
    if let Event::Issue { seat, request } = event {
        lengths[*seat as usize] = Lengths {
            len: request.len(),
            later: request.later(),
        };
    }
}

/// Counts an ask that an event brings; an issue sets the count to 0.
pub(crate) fn note_ask(asks: &mut [usize], event: &Event)
    requires seat { seat_of event.now < length asks.old }
    requires few { slice_index asks.old (seat_of event.now) < 2 ^ 63 }
    ensures value { (seat : ℕ) → seat < length asks.old → slice_index asks.new seat ≡ count_ask seat (slice_index asks.old seat) event.now }
    ensures len { length asks.new ≡ length asks.old }
{
    match event {
        Event::Issue { seat, .. } => {
            asks[*seat as usize] = 0;
        }
        Event::Ask { seat, .. } => {
            asks[*seat as usize] += 1;
        }
        _ => {}
    }
}
