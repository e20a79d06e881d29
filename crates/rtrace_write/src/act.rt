// The lines of what a section did.
ghost use Rattle.std.specs.Prelude.{◌≡◌, ◌++◌, ◌∷◌, [], ◌+◌, ◌≤◌, length, take, decimal};
ghost use Rattle.rtrace_form.specs.Texts.{line_text, behind_comma};
ghost use Rattle.rtrace_form.specs.Lines.{spelled, Does};
ghost use Rattle.rtrace_form.specs.SetFields.{name_at};
ghost use Rattle.rtrace_form.specs.Words.{yes_or_no};
ghost use Rattle.rtrace_write.specs.declared.TheConstants.{LINE_ROOM};

use crate::names::NameRows;
use crate::pieces::{put, put_number};
use rvalue::{Act, Edit};

/// Puts the line of an act.
pub fn put_act(page: &mut [u8], at: usize, names: &NameRows, act: &Act<Edit>) -> usize
    requires { at + LINE_ROOM ≤ length page.old }
    ensures text { take result page.new ≡ take at page.old ++ line_text (spelled names.now (Does act.now)) }
    ensures end { result ≤ at + LINE_ROOM }
{
    match act {
        Act::Shown { place, number } => {
            let at = put(page, at, *b"show,");
            let at = names.put_resource(page, at, *place);
            let at = put_number(page, at, *number);
            put(page, at, *b"\n")
        }
        Act::Edited { place, edit, done } => put_edit(page, at, names, *place, *edit, *done),
    }
}

// Puts the line of an edit.
fn put_edit(
    page: &mut [u8],
    at: usize,
    names: &NameRows,
    place: u8,
    edit: Edit,
    done: bool,
) -> usize
    requires { at + LINE_ROOM ≤ length page.old }
    ensures text { take result page.new ≡ take at page.old ++ line_text (spelled names.now (Does (Act.Edited place edit done))) }
    ensures end { result ≤ at + LINE_ROOM }
{
    match edit {
        Edit::Add(amount) => {
            let at = put(page, at, *b"add,");
            put_edited(page, at, names, place, amount, done)
        }
        Edit::Take(amount) => {
            let at = put(page, at, *b"take,");
            put_edited(page, at, names, place, amount, done)
        }
        Edit::Set(number) => {
            let at = put(page, at, *b"set,");
            put_edited(page, at, names, place, number, done)
        }
    }
}

// Puts the end of an edit's line: the resource, the amount, and whether the edit was taken.
fn put_edited(
    page: &mut [u8],
    at: usize,
    names: &NameRows,
    place: u8,
    amount: u64,
    done: bool,
) -> usize
    requires { at + 100 ≤ length page.old }
    ensures text { take result page.new ≡ take at page.old
        ++ (name_at names.now.resources place ++ (behind_comma (decimal amount) ++ (behind_comma (yes_or_no done) ++ 10 ∷ []))) }
    ensures end { result ≤ at + 100 }
{
    let at = names.put_resource(page, at, place);
    let at = put_number(page, at, amount);
    if done {
        put(page, at, *b",yes\n")
    } else {
        put(page, at, *b",no\n")
    }
}
