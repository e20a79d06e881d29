// What is written of a drill.
ghost use Rattle.std.specs.Prelude.{not, ◌≡◌, ◌≤◌, ◌+◌, ◌*◌, ◌++◌, [], IfOk, length, vec_capacity, flat_map};
ghost use Rattle.rmodel.specs.Holds.{is_nothing, holds_of};
ghost use Rattle.rdrill.specs.Summary.{count_line, kind_word, watcher_line, holding_of, summary_text};

use crate::drawing::DRILL_SEATS;
use itoa::Buffer;
use rmodel::Machine;
use rwatch::{Audience, WatchKind};
use std::alloc::{AllocError, Global};

/// The most bytes of a line: a word of ten letters, a comma, twenty digits, and the end of the line.
pub const LINE_ROOM: usize = 32;

/// Room for a line for each of so many watchers, and for `more` other lines.
///
/// # Errors
///
/// Out of memory.
pub fn lines_room(alloc: Global, watchers: usize, more: usize) -> Result<Vec<u8>, AllocError>
    requires { more ≤ 4 }
    ensures { IfOk result (λ text. (text.items ≡ []) × (LINE_ROOM * (watchers + more) ≤ vec_capacity text)) }
{
    if watchers > usize::MAX / LINE_ROOM - 4 {
        return Err(AllocError);
    }
    Vec::with_capacity(alloc, LINE_ROOM * (watchers + more))
}

/// Room for the summary of a drill with this many watchers.
///
/// # Errors
///
/// Out of memory.
pub fn summary_room(alloc: Global, watchers: usize) -> Result<Vec<u8>, AllocError>
    ensures { IfOk result (λ text. (text.items ≡ []) × (LINE_ROOM * (watchers + 4) ≤ vec_capacity text)) }
{
    lines_room(alloc, watchers, 4)
}

/// Writes the summary of a drill of `count` events, after which the machine is in this state, into the room that was made
/// for it. Takes no memory.
pub fn push_summary<M: Machine, A: Audience>(
    text: &mut Vec<u8>,
    count: u32,
    audience: &A,
    machine: &M,
)
    requires empty { text.old.items ≡ [] }
    requires room { LINE_ROOM * (length (A.all audience.now) + 4) ≤ vec_capacity text.old }
    ensures { text.new.items ≡ summary_text count (A.all audience.now) (M.state machine.now) }
{
    push_count(text, b"drill", u64::from(count));
    push_watchers(text, audience);
    push_count(text, b"incomplete", u64::from(machine.incomplete()));
    push_count(text, b"holding", holding(machine));
    push_piece(text, b"end\n");
}

/// Appends a piece, for which there is room. Takes no memory.
pub fn push_piece(text: &mut Vec<u8>, piece: &[u8])
    requires { length text.old.items + length piece.now ≤ vec_capacity text.old }
    ensures items { text.new.items ≡ text.old.items ++ piece.now }
    ensures room { vec_capacity text.old ≤ vec_capacity text.new }
{
    let Ok(()) = text.extend_from_slice(piece) else {
        unreachable!()
    };
}

/// Appends the line of a count, for which there is room. Takes no memory.
#[tactic(auto, unfolding(crate::specs::Summary::count_line))]
pub fn push_count(text: &mut Vec<u8>, word: &[u8], count: u64)
    requires word { length word.now ≤ 10 }
    requires room { length text.old.items + LINE_ROOM ≤ vec_capacity text.old }
    ensures items { text.new.items ≡ text.old.items ++ count_line word.now count }
    ensures room { vec_capacity text.old ≤ vec_capacity text.new }
    ensures long { length text.new.items ≤ length text.old.items + LINE_ROOM }
{
    let mut buffer = Buffer::new();
    let digits = buffer.format(count).as_bytes();
    push_piece(text, word);
    push_piece(text, b",");
    push_piece(text, digits);
    push_piece(text, b"\n");
}

/// Appends the line of each watcher, for which there is room. Takes no memory.
pub fn push_watchers<A: Audience>(text: &mut Vec<u8>, audience: &A)
    requires room { length text.old.items + LINE_ROOM * length (A.all audience.now) ≤ vec_capacity text.old }
    ensures items { text.new.items ≡ text.old.items ++ flat_map watcher_line (A.all audience.now) }
    ensures room { vec_capacity text.old ≤ vec_capacity text.new }
    ensures long { length text.new.items ≤ length text.old.items + LINE_ROOM * length (A.all audience.now) }
{
    for i in 0..audience.count() {
        push_count(text, kind_word(audience.kind_of(i)), audience.count_of(i));
    }
}

// The name of a kind.
fn kind_word(kind: WatchKind) -> &'static [u8]
    ensures word { result.now ≡ kind_word kind }
    ensures short { length result.now ≤ 10 }
{
    match kind {
        WatchKind::Issues => b"issues",
        WatchKind::Finishes => b"finishes",
        WatchKind::Rises => b"rises",
        WatchKind::Asks => b"asks",
        WatchKind::Entitled => b"entitled",
        WatchKind::Satisfied => b"satisfied",
        WatchKind::Grants => b"grants",
    }
}

// How many seats hold something.
fn holding<M: Machine>(machine: &M) -> u64
    ensures { result ≡ holding_of (M.state machine.now) }
{
    (0u8..DRILL_SEATS)
        .filter(|seat| holds(machine, *seat))
        .count() as u64
}

// Whether a seat holds something.
fn holds<M: Machine>(machine: &M, seat: u8) -> bool
    ensures { result ≡ not (is_nothing (holds_of (M.state machine.now).claims seat)) }
{
    let granted = machine.granted(seat);
    granted.reads.len() > 0 || granted.writes.len() > 0
}
