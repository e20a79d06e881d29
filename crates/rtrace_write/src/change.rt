// The lines of what a step changes.
ghost use Rattle.std.specs.Prelude.{◌≡◌, ◌++◌, ◌+◌, ◌≤◌, length, take, map, codes};
ghost use Rattle.rtrace_form.specs.Texts.{text_of, line_text};
ghost use Rattle.rtrace_form.specs.Lines.{spelled};
ghost use Rattle.rtrace_form.specs.SetFields.{name_at};
ghost use Rattle.rtrace_form.specs.Reports.{status_lines, grant_line};
ghost use Rattle.rtrace_write.specs.declared.TheConstants.{LINE_ROOM};

use crate::names::NameRows;
use crate::pieces::{put, put_set};
use rclaim::{GrantChange, Status, StatusChange};

/// Puts the line of a claim's new status. A claim that waits has none.
pub fn put_status(page: &mut [u8], at: usize, names: &NameRows, change: &StatusChange) -> usize
    requires { at + LINE_ROOM ≤ length page.old }
    ensures text { take result page.new ≡ take at page.old
        ++ text_of (map (spelled names.now) (status_lines change.now.seat change.now.write_half change.now.status)) }
    ensures end { result ≤ at + LINE_ROOM }
{
    match change.status {
        Status::Waiting => at,
        Status::Entitled => {
            let at = put_now(page, at, names, change.seat);
            if change.write_half {
                put(page, at, *b",write,entitled\n")
            } else {
                put(page, at, *b",read,entitled\n")
            }
        }
        Status::Satisfied => {
            let at = put_now(page, at, names, change.seat);
            if change.write_half {
                put(page, at, *b",write,satisfied\n")
            } else {
                put(page, at, *b",read,satisfied\n")
            }
        }
    }
}

// Puts the beginning of the line of a new status.
#[inline]
fn put_now(page: &mut [u8], at: usize, names: &NameRows, seat: u8) -> usize
    requires { at + 20 ≤ length page.old }
    ensures text { take result page.new ≡ take at page.old ++ (codes "now," ++ name_at names.now.tasks seat) }
    ensures end { result ≤ at + 20 }
{
    let at = put(page, at, *b"now,");
    names.put_task(page, at, seat)
}

/// Puts the line of what a request holds now.
pub fn put_grant(page: &mut [u8], at: usize, names: &NameRows, change: &GrantChange) -> usize
    requires { at + LINE_ROOM ≤ length page.old }
    ensures text { take result page.new ≡ take at page.old ++ line_text (spelled names.now (grant_line change.now)) }
    ensures end { result ≤ at + LINE_ROOM }
{
    let at = put(page, at, *b"grant,");
    let at = names.put_task(page, at, change.seat);
    let at = put_set(page, at, names, change.reads.union(change.writes));
    put(page, at, *b"\n")
}
