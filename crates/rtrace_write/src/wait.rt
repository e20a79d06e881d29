// The lines of waits, each in two pieces: the bound follows the rest of its line once it is known.
ghost use Rattle.std.specs.Prelude.{◌≡◌, ◌++◌, ◌+◌, ◌≤◌, length, take, OnOk, OnErr};
ghost use Rattle.rbound.specs.Bounds.{numbers_in};
ghost use Rattle.rtrace_form.specs.Texts.{behind_comma};
ghost use Rattle.rtrace_form.specs.Waits.{stage_of, cover_of};
ghost use Rattle.rtrace_form.specs.Words.{stage_text};
ghost use Rattle.rtrace_write.specs.Waits.{bound_text, cover_text};
ghost use Rattle.rtrace_write.specs.declared.TheConstants.{LINE_ROOM};

use crate::names::NameRows;
use crate::pieces::{NUMBER_ROOM, put, put_number};
use rbound::{Bound, Which};
use rcover_laws::WaitEnd;
use std::alloc::AllocError;

/// Room for a bound and the end of its line.
const BOUND_ROOM: usize = 3 * NUMBER_ROOM + 1;

/// Puts the beginning of the line of a wait: whose it was, which, and its cover.
pub fn put_cover(page: &mut [u8], at: usize, names: &NameRows, wait: &WaitEnd) -> usize
    requires { at + LINE_ROOM ≤ length page.old }
    ensures text { take result page.new ≡ take at page.old ++ cover_text names.now wait.now.seat (stage_of wait.now.which) (cover_of wait.now) }
    ensures end { result ≤ at + LINE_ROOM }
{
    let at = put(page, at, *b"wait,");
    let at = names.put_task(page, at, wait.seat);
    let at = put_stage(page, at, wait.which);
    let at = put_number(page, at, wait.reads);
    let at = put_number(page, at, wait.writes);
    put_number(page, at, wait.units)
}

// Puts which wait of its request it was, as another field.
fn put_stage(page: &mut [u8], at: usize, which: Which) -> usize
    requires { at + 6 ≤ length page.old }
    ensures text { take result page.new ≡ take at page.old ++ behind_comma (stage_text (stage_of which)) }
    ensures end { result ≤ at + 6 }
{
    match which {
        Which::First => put(page, at, *b",first"),
        Which::Rise => put(page, at, *b",rise"),
        Which::Ask(_) => put(page, at, *b",ask"),
    }
}

/// Appends the end of the line of a wait: its bound.
///
/// # Errors
///
/// Out of memory. The text is then as it was.
pub fn push_bound(text: &mut Vec<u8>, bound: Bound) -> Result<(), AllocError>
    ensures ok { OnOk result (text.new.items ≡ text.old.items ++ bound_text (numbers_in bound)) }
    ensures err { OnErr result (text.new.items ≡ text.old.items) }
{
    let mut piece = [0; BOUND_ROOM];
    let at = put_number(&mut piece, 0, bound.reads);
    let at = put_number(&mut piece, at, bound.writes);
    let at = put_number(&mut piece, at, bound.units);
    let at = put(&mut piece, at, *b"\n");
    text.extend_from_slice(&piece[..at])
}
