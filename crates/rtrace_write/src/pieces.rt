// Pieces of lines, put at a place of a page. Each answers the place after it.
//
// A place goes by value from piece to piece, and the room was made ahead, so a piece of known length takes a store or
// two.
ghost use Rattle.std.specs.Prelude.{◌≡◌, ◌++◌, ◌+◌, ◌≤◌, length, take, decimal};
ghost use Rattle.rtrace_form.specs.Texts.{behind_comma};
ghost use Rattle.rtrace_form.specs.SetFields.{set_text};

use crate::names::NameRows;
use itoa::Buffer;
use rset::ResourceSet;

/// More than a number takes as another field.
pub const NUMBER_ROOM: usize = 41;

/// The most that a set takes as another field: the names of all resources, each after its separator.
pub const SET_ROOM: usize = 64 * 17;

/// Puts bytes of known length.
#[inline]
pub fn put<const N: usize>(page: &mut [u8], at: usize, piece: [u8; N]) -> usize
    requires { at + N ≤ length page.old }
    ensures text { take result page.new ≡ take at page.old ++ piece.entry }
    ensures end { result ≡ at + N }
{
    page[at..at + N].copy_from_slice(&piece);
    at + N
}

/// Puts bytes.
pub fn put_bytes(page: &mut [u8], at: usize, bytes: &[u8]) -> usize
    requires { at + length bytes.now ≤ length page.old }
    ensures text { take result page.new ≡ take at page.old ++ bytes.now }
    ensures end { result ≡ at + length bytes.now }
{
    page[at..at + bytes.len()].copy_from_slice(bytes);
    at + bytes.len()
}

/// Puts a number as another field.
#[inline]
pub fn put_number(page: &mut [u8], at: usize, number: u64) -> usize
    requires { at + NUMBER_ROOM ≤ length page.old }
    ensures text { take result page.new ≡ take at page.old ++ behind_comma (decimal number) }
    ensures end { result ≤ at + NUMBER_ROOM }
{
    if number < 10 {
        return put(page, at, [b',', b'0' + number as u8]);
    }
    put_digits(page, at, number)
}

// Puts a number of several digits as another field.
fn put_digits(page: &mut [u8], at: usize, number: u64) -> usize
    requires { at + NUMBER_ROOM ≤ length page.old }
    ensures text { take result page.new ≡ take at page.old ++ behind_comma (decimal number) }
    ensures end { result ≤ at + NUMBER_ROOM }
{
    let mut digits = Buffer::new();
    let at = put(page, at, *b",");
    put_bytes(page, at, digits.format(number).as_bytes())
}

/// Puts a set as another field.
pub fn put_set(page: &mut [u8], at: usize, names: &NameRows, set: ResourceSet) -> usize
    requires { at + SET_ROOM ≤ length page.old }
    ensures text { take result page.new ≡ take at page.old ++ behind_comma (set_text names.now.resources set) }
    ensures end { result ≤ at + SET_ROOM }
{
    if set.is_empty() {
        return put(page, at, *b",-");
    }
    let mut at = at;
    let mut separator = b',';
    for member in set.iter() {
        at = put(page, at, [separator]);
        at = names.put_resource(page, at, member);
        separator = b'+';
    }
    at
}
