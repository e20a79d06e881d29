// What a record is, by the number of its fields and the words in them.
ghost use Rattle.std.specs.Prelude.{◌≡◌};
ghost use Rattle.std.specs.Str.{bytes_eq};
ghost use Rattle.csv.specs.Records.{fields_of};
ghost use Rattle.rscript.specs.Words.{word_in};
ghost use Rattle.rscript.specs.Decided.{word_of_one, word_of_two, word_of_three, word_of_four, word_of_five};

use crate::word::ScriptWord;
use csv::ByteRecord;
use rclaim::Kind;
use rtrace_form::field_of;

/// What a record of a script is; None if it is not a record of one.
pub fn word_in(fields: &ByteRecord) -> Option<ScriptWord>
    ensures { result ≡ word_in (fields_of fields.now) }
{
    match fields.len() {
        1 => word_of_one(field_of(fields, 0)),
        2 => word_of_two(field_of(fields, 0), field_of(fields, 1)),
        3 => word_of_three(field_of(fields, 0)),
        4 => word_of_four(field_of(fields, 0)),
        5 => word_of_five(field_of(fields, 0)),
        _ => None,
    }
}

// What a record of one field is.
fn word_of_one(first: &[u8]) -> Option<ScriptWord>
    ensures { result ≡ word_of_one first.now }
{
    if is(first, b"rise") {
        Some(ScriptWord::Rise)
    } else if is(first, b"finish") {
        Some(ScriptWord::Finish)
    } else if is(first, b"end") {
        Some(ScriptWord::End)
    } else {
        None
    }
}

// What a record of two fields is.
fn word_of_two(first: &[u8], second: &[u8]) -> Option<ScriptWord>
    ensures { result ≡ word_of_two first.now second.now }
{
    if is(first, b"rnlp") && is(second, b"1") {
        Some(ScriptWord::Version)
    } else if is(first, b"resource") {
        Some(ScriptWord::Resource)
    } else if is(first, b"group") {
        Some(ScriptWord::Group)
    } else if is(first, b"task") {
        Some(ScriptWord::Task)
    } else if is(first, b"show") {
        Some(ScriptWord::Show)
    } else if is(first, b"ask") {
        Some(ScriptWord::Ask)
    } else {
        None
    }
}

// What a record of three fields is.
fn word_of_three(first: &[u8]) -> Option<ScriptWord>
    ensures { result ≡ word_of_three first.now }
{
    if is(first, b"read") {
        Some(ScriptWord::Begin(Kind::Read))
    } else if is(first, b"write") {
        Some(ScriptWord::Begin(Kind::Write))
    } else if is(first, b"add") {
        Some(ScriptWord::Add)
    } else if is(first, b"take") {
        Some(ScriptWord::Take)
    } else if is(first, b"set") {
        Some(ScriptWord::Put)
    } else {
        None
    }
}

// What a record of four fields is.
fn word_of_four(first: &[u8]) -> Option<ScriptWord>
    ensures { result ≡ word_of_four first.now }
{
    if is(first, b"mixed") {
        Some(ScriptWord::Begin(Kind::Mixed))
    } else if is(first, b"upgrade") {
        Some(ScriptWord::Begin(Kind::Upgrade))
    } else {
        None
    }
}

// What a record of five fields is.
fn word_of_five(first: &[u8]) -> Option<ScriptWord>
    ensures { result ≡ word_of_five first.now }
{
    if is(first, b"nested") {
        Some(ScriptWord::Begin(Kind::Nested))
    } else {
        None
    }
}

// Whether a field is this word.
fn is(field: &[u8], word: &[u8]) -> bool
    ensures { result ≡ bytes_eq field.now word.now }
{
    field == word
}
