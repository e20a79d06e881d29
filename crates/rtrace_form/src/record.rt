// What a record is, by the number of its fields and the words in them.
ghost use Rattle.std.specs.Prelude.{◌≡◌};
ghost use Rattle.std.specs.Str.{bytes_eq};
ghost use Rattle.csv.specs.Records.{fields_of};
ghost use Rattle.rtrace_form.specs.Words.{word_in};
ghost use Rattle.rtrace_form.specs.Decided.{word_of_one, word_of_two, word_of_three, word_of_four, word_of_five, word_of_six, word_of_seven, word_of_nine, field_of};

use crate::word::{Stage, Word};
use csv::ByteRecord;
use rclaim::Kind;

/// What a record of a report is, or of an event list where it is not `whole`; None where it is no record of it.
pub fn word_in(whole: bool, fields: &ByteRecord) -> Option<Word>
    ensures { result ≡ word_in whole (fields_of fields.now) }
{
    match fields.len() {
        1 => word_of_one(field_of(fields, 0)),
        2 => word_of_two(field_of(fields, 0), field_of(fields, 1)),
        3 => word_of_three(whole, field_of(fields, 0)),
        4 => word_of_four(
            whole,
            field_of(fields, 0),
            field_of(fields, 2),
            field_of(fields, 3),
        ),
        5 => word_of_five(field_of(fields, 0), field_of(fields, 2)),
        6 => word_of_six(field_of(fields, 0), field_of(fields, 2)),
        7 => word_of_seven(field_of(fields, 0), field_of(fields, 2)),
        9 => word_of_nine(whole, field_of(fields, 0), field_of(fields, 2)),
        _ => None,
    }
}

// What a record of one field is.
fn word_of_one(first: &[u8]) -> Option<Word>
    ensures { result ≡ word_of_one first.now }
{
    if is(first, b"end") {
        Some(Word::End)
    } else {
        None
    }
}

// What a record of two fields is.
fn word_of_two(first: &[u8], second: &[u8]) -> Option<Word>
    ensures { result ≡ word_of_two first.now second.now }
{
    if is(first, b"rnlp") && is(second, b"1") {
        Some(Word::Version)
    } else if is(first, b"resource") {
        Some(Word::Resource)
    } else if is(first, b"group") {
        Some(Word::Group)
    } else if is(first, b"task") {
        Some(Word::Task)
    } else if is(first, b"cap") {
        Some(Word::Cap)
    } else if is(first, b"finish") {
        Some(Word::Finish)
    } else if is(first, b"rise") {
        Some(Word::Rise)
    } else {
        None
    }
}

// What a record of three fields is.
fn word_of_three(whole: bool, first: &[u8]) -> Option<Word>
    ensures { result ≡ word_of_three whole first.now }
{
    if is(first, b"ask") {
        Some(Word::Ask)
    } else if whole && is(first, b"show") {
        Some(Word::Show)
    } else if whole && is(first, b"grant") {
        Some(Word::Grant)
    } else {
        None
    }
}

// What a record of four fields is. Each test is a value and not a branch: with `&&` there would be too many paths to
// the last case.
fn word_of_four(whole: bool, first: &[u8], third: &[u8], fourth: &[u8]) -> Option<Word>
    ensures { result ≡ word_of_four whole first.now third.now fourth.now }
{
    if whole & is(first, b"add") & is(fourth, b"yes") {
        Some(Word::Add { done: true })
    } else if whole & is(first, b"add") & is(fourth, b"no") {
        Some(Word::Add { done: false })
    } else if whole & is(first, b"take") & is(fourth, b"yes") {
        Some(Word::Take { done: true })
    } else if whole & is(first, b"take") & is(fourth, b"no") {
        Some(Word::Take { done: false })
    } else if whole & is(first, b"set") & is(fourth, b"yes") {
        Some(Word::Put { done: true })
    } else if whole & is(first, b"set") & is(fourth, b"no") {
        Some(Word::Put { done: false })
    } else if whole & is(first, b"now") & is(third, b"write") & is(fourth, b"entitled") {
        Some(Word::Entitled { write_half: true })
    } else if whole & is(first, b"now") & is(third, b"read") & is(fourth, b"entitled") {
        Some(Word::Entitled { write_half: false })
    } else if whole & is(first, b"now") & is(third, b"write") & is(fourth, b"satisfied") {
        Some(Word::Satisfied { write_half: true })
    } else if whole & is(first, b"now") & is(third, b"read") & is(fourth, b"satisfied") {
        Some(Word::Satisfied { write_half: false })
    } else if whole & is(first, b"ledger") {
        Some(Word::Ledger)
    } else {
        None
    }
}

// What a record of five fields is.
fn word_of_five(first: &[u8], third: &[u8]) -> Option<Word>
    ensures { result ≡ word_of_five first.now third.now }
{
    if is(first, b"issue") && is(third, b"read") {
        Some(Word::Issue(Kind::Read))
    } else if is(first, b"issue") && is(third, b"write") {
        Some(Word::Issue(Kind::Write))
    } else {
        None
    }
}

// What a record of six fields is.
fn word_of_six(first: &[u8], third: &[u8]) -> Option<Word>
    ensures { result ≡ word_of_six first.now third.now }
{
    if is(first, b"issue") && is(third, b"mixed") {
        Some(Word::Issue(Kind::Mixed))
    } else if is(first, b"issue") && is(third, b"upgrade") {
        Some(Word::Issue(Kind::Upgrade))
    } else {
        None
    }
}

// What a record of seven fields is.
fn word_of_seven(first: &[u8], third: &[u8]) -> Option<Word>
    ensures { result ≡ word_of_seven first.now third.now }
{
    if is(first, b"issue") && is(third, b"nested") {
        Some(Word::Issue(Kind::Nested))
    } else {
        None
    }
}

// What a record of nine fields is.
fn word_of_nine(whole: bool, first: &[u8], third: &[u8]) -> Option<Word>
    ensures { result ≡ word_of_nine whole first.now third.now }
{
    if whole & is(first, b"wait") & is(third, b"first") {
        Some(Word::Wait(Stage::First))
    } else if whole & is(first, b"wait") & is(third, b"rise") {
        Some(Word::Wait(Stage::Rise))
    } else if whole & is(first, b"wait") & is(third, b"ask") {
        Some(Word::Wait(Stage::Ask))
    } else {
        None
    }
}

// Whether a field is this word. Its length is known, so a few bytes are compared at a time, without a call.
fn is<const N: usize>(field: &[u8], word: &[u8; N]) -> bool
    ensures { result ≡ bytes_eq field.now word.now }
{
    field.len() == N && field.starts_with(word)
}

/// The field at a place, counted from 0; empty where there is none.
pub fn field_of(fields: &ByteRecord, place: usize) -> &[u8]
    ensures { result.now ≡ field_of (fields_of fields.now) place }
{
    match fields.get(place) {
        Some(field) => field,
        None => &[],
    }
}
