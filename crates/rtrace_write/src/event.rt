// The line of an event.
ghost use Rattle.std.specs.Prelude.{◌≡◌, ◌++◌, ◌∷◌, [], ◌+◌, ◌≤◌, length, take, decimal};
ghost use Rattle.rtrace_form.specs.Texts.{line_text, behind_comma};
ghost use Rattle.rtrace_form.specs.Lines.{spelled, Happens};
ghost use Rattle.rtrace_write.specs.declared.TheConstants.{LINE_ROOM};

use crate::names::NameRows;
use crate::pieces::{put, put_number, put_set};
use rclaim::{Event, Kind, Request};

/// Puts the line of an event.
pub fn put_event(page: &mut [u8], at: usize, names: &NameRows, event: &Event) -> usize
    requires { at + LINE_ROOM ≤ length page.old }
    ensures text { take result page.new ≡ take at page.old ++ line_text (spelled names.now (Happens event.now)) }
    ensures end { result ≤ at + LINE_ROOM }
{
    match event {
        Event::Issue { seat, request } => put_issue(page, at, names, *seat, request),
        Event::Finish { seat } => {
            let at = put(page, at, *b"finish,");
            let at = names.put_task(page, at, *seat);
            put(page, at, *b"\n")
        }
        Event::Rise { seat } => {
            let at = put(page, at, *b"rise,");
            let at = names.put_task(page, at, *seat);
            put(page, at, *b"\n")
        }
        Event::Ask { seat, set } => {
            let at = put(page, at, *b"ask,");
            let at = names.put_task(page, at, *seat);
            let at = put_set(page, at, names, *set);
            put(page, at, *b"\n")
        }
    }
}

// Puts the line of an issue.
fn put_issue(page: &mut [u8], at: usize, names: &NameRows, seat: u8, request: &Request) -> usize
    requires { at + LINE_ROOM ≤ length page.old }
    ensures text { take result page.new ≡ take at page.old ++ line_text (spelled names.now (Happens (Event.Issue seat request.now))) }
    ensures end { result ≤ at + LINE_ROOM }
{
    let at = put(page, at, *b"issue,");
    let at = names.put_task(page, at, seat);
    match request.kind() {
        Kind::Read => {
            let at = put(page, at, *b",read");
            let at = put_set(page, at, names, request.reads());
            put_length(page, at, request.len())
        }
        Kind::Write => {
            let at = put(page, at, *b",write");
            let at = put_set(page, at, names, request.writes());
            put_length(page, at, request.len())
        }
        Kind::Mixed => {
            let at = put(page, at, *b",mixed");
            let at = put_set(page, at, names, request.reads());
            let at = put_set(page, at, names, request.writes());
            put_length(page, at, request.len())
        }
        Kind::Upgrade => {
            let at = put(page, at, *b",upgrade");
            let at = put_set(page, at, names, request.reads());
            let at = put_number(page, at, u64::from(request.len()));
            put_length(page, at, request.later())
        }
        Kind::Nested => {
            let at = put(page, at, *b",nested");
            let at = put_set(page, at, names, request.reads());
            let at = put_set(page, at, names, request.writes());
            let at = put_set(page, at, names, request.first());
            put_length(page, at, request.len())
        }
    }
}

// Puts the length that ends the line of an issue.
#[inline]
fn put_length(page: &mut [u8], at: usize, len: u32) -> usize
    requires { at + 42 ≤ length page.old }
    ensures text { take result page.new ≡ take at page.old ++ (behind_comma (decimal len) ++ 10 ∷ []) }
    ensures end { result ≤ at + 42 }
{
    if len < 10 {
        return put(page, at, [b',', b'0' + len as u8, b'\n']);
    }
    let at = put_number(page, at, u64::from(len));
    put(page, at, *b"\n")
}
