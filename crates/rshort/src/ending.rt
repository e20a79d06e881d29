//! Where a text may be cut.
ghost use Rattle.std.specs.Prelude.{◌≡◌, ◌≤◌, ◌<◌, IfSome, Some, length, slice_get, if◌then◌else◌};
ghost use Rattle.csv.specs.Machine.{is_end};
ghost use Rattle.csv.specs.Reading.{is_bom};
ghost use Rattle.rshort.specs.Closed.{IsEnd, mark_in};
ghost use Rattle.rshort.specs.Cut.{MayBeCut};
ghost use Rattle.rshort.specs.Steps.{action_of};

use crate::step::{Does, Stand, step};

/// Where the beginning of a text may be cut in two: before the last end of a line that ends a record. None where none is
/// found.
pub fn cut_place(bytes: &[u8]) -> Option<usize>
    ensures within { IfSome result (λ at. at ≤ length bytes.now) }
    ensures cut { IfSome result (MayBeCut bytes.now) }
{
    // Without quotation marks each end of a line ends a record, and the last is soon found from the end.
    if bytes.contains(&b'"') {
        return end_after_mark(bytes);
    }
    match last_line_end(bytes) {
        Some(at) => Some(at),
        None => end_after_mark(bytes),
    }
}

// The place of the last end of a line but at the first byte: a cut there takes nothing off.
fn last_line_end(bytes: &[u8]) -> Option<usize>
    ensures { IfSome result (λ at. (at < length bytes.now) × (slice_get bytes.now at ≡ Some 10)) }
{
    for at in (1..bytes.len()).rev() {
        if bytes[at] == b'\n' {
            return Some(at);
        }
    }
    None
}

// The last end of a record of a text that may have a byte order mark.
fn end_after_mark(bytes: &[u8]) -> Option<usize>
    ensures within { IfSome result (λ at. at ≤ length bytes.now) }
    ensures cut { IfSome result (MayBeCut bytes.now) }
{
    let mark = mark_len(bytes);
    match last_end(&bytes[mark..]) {
        Some(at) => Some(mark + at),
        None => None,
    }
}

/// The length of the byte order mark of a text, in bytes.
pub(crate) fn mark_len(bytes: &[u8]) -> usize
    ensures mark { result ≡ mark_in bytes.now }
    ensures within { result ≤ length bytes.now }
{
    if bytes.len() < 3 {
        return 0;
    }
    if is_mark(bytes[0], bytes[1], bytes[2]) {
        3
    } else {
        0
    }
}

// Whether three bytes are a byte order mark.
fn is_mark(a: u8, b: u8, c: u8) -> bool
    ensures { result ≡ is_bom a b c }
{
    a == 0xef && b == 0xbb && c == 0xbf
}

/// The place of the last end of a line that ends a record; None where no record ends.
pub fn last_end(bytes: &[u8]) -> Option<usize>
    ensures end { IfSome result (IsEnd bytes.now) }
    ensures within { IfSome result (λ at. at < length bytes.now) }
{
    let mut stand = Stand::RecordStart;
    let mut last = None;
    for (at, c) in bytes.iter().enumerate() {
        let (next, does) = step(stand, *c);
        last = latest(last, at, does);
        stand = next;
    }
    last
}

// This place where a record ends there, otherwise the one before.
fn latest(last: Option<usize>, at: usize, does: Does) -> Option<usize>
    ensures { result ≡ (if is_end (action_of does) then Some at else last) }
{
    match does {
        Does::EndsRecord => Some(at),
        _ => last,
    }
}
