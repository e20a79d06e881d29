//! The beginning of a text, of which only what can mean something is kept.
ghost use Rattle.std.specs.Prelude.{◌≡◌, ◌≤◌, ◌<◌, ◌==◌, ◌++◌, ◌∷◌, [], true, false, ℕ, List, length, IfOk, IfSome};
ghost use Rattle.csv.specs.Machine.{fields_after, field_after, is_end};
ghost use Rattle.csv.specs.declared.parser.Action.TheVariants as act;
ghost use Rattle.rtrace_form.specs.Records.{Row};
ghost use Rattle.rshort.specs.Cut.{IsCutText, IsShortened, piece_in};
ghost use Rattle.rshort.specs.Cutters.{HasRead};
ghost use Rattle.rshort.specs.Steps.{action_of};

use crate::ending::mark_len;
use crate::joint::{Joint, is_joint_left_out, joint_after, keep_in_field, no_joint};
use crate::step::{Does, Stand, step};
use std::alloc::{AllocError, Global};

/// No word, name or number has more bytes.
const LONGEST: u8 = 20;

/// No record has more fields.
const MOST: u8 = 9;

/// What is kept of the beginning of a text, in which no record ends.
#[derive(Drop)]
pub(crate) struct Cutter {
    pub(crate) kept: Vec<u8>,
    pub(crate) stand: Stand,
    /// The length of the last piece that is kept, in bytes; counted up to one above [`LONGEST`].
    pub(crate) piece: u8,
    /// How many whole fields are kept. After [`MOST`] nothing more is kept.
    pub(crate) fields: u8,
    /// What is kept of the last field, as a reader gives it.
    pub(crate) field: Vec<u8>,
    pub(crate) joint: Joint,
}

impl Cutter {
    /// Before the first byte.
    pub(crate) fn new(alloc: Global) -> Cutter
        ensures { HasRead result [] }
    {
        Cutter {
            kept: Vec::new(alloc),
            stand: Stand::RecordStart,
            piece: 0,
            fields: 0,
            field: Vec::new(alloc),
            joint: no_joint(),
        }
    }

    /// Takes one more byte, and answers whether the record goes on. It must not be used again after an end of a record or an error.
    ///
    /// # Errors
    ///
    /// Out of memory.
    pub(crate) fn take(&mut self, c: u8) -> Result<bool, AllocError>
        requires { (bytes : List ℕ) × HasRead self.old bytes }
        ensures { (bytes : List ℕ) → HasRead self.old bytes → IfOk result (λ goes. goes ≡ true → HasRead self.new (bytes ++ c ∷ [])) }
    {
        let (stand, does) = step(self.stand, c);
        if ends_record(does) {
            return Ok(false);
        }
        if is_blank(self.stand, stand) {
            return Ok(true);
        }
        if self.fields >= MOST {
            self.stand = stand;
            return Ok(true);
        }
        if is_left_out(self.stand, stand, does, self.piece, c) {
            return Ok(true);
        }
        if is_pair_left_out(self.stand, stand, does, self.piece, c) {
            let Some(_) = self.kept.pop() else {
                return Ok(false);
            };
            self.stand = stand;
            return Ok(true);
        }
        if is_joint_left_out(self.joint, &self.field, self.stand, does, c) {
            self.kept.truncate(self.joint.kept + 1);
            self.field.truncate(self.joint.field + 1);
            self.stand = stand;
            self.piece = 0;
            return Ok(true);
        }
        self.joint = joint_after(self.joint, &self.kept, &self.field, self.stand, does, c);
        keep_in_field(&mut self.field, does, c)?;
        self.kept.push(c)?;
        self.stand = stand;
        self.piece = count_piece(self.piece, does, c);
        self.fields = count_fields(self.fields, does);
        Ok(true)
    }
}

impl Cutter {
    // What is kept, with the bytes that lead to the same place. None never comes: a record of many fields has begun.
    fn finish(self) -> Result<Option<Vec<u8>>, AllocError>
        ensures { (bytes : List ℕ) → HasRead self bytes → IfOk result (λ kept. IfSome kept (λ short. IsCutText bytes short.items)) }
    {
        let Cutter {
            mut kept,
            stand,
            piece: _,
            fields,
            field: _,
            joint: _,
        } = self;
        if fields < MOST {
            return Ok(Some(kept));
        }
        match stand {
            Stand::FieldStart => Ok(Some(kept)),
            Stand::Bare => {
                kept.push(b'0')?;
                Ok(Some(kept))
            }
            Stand::Quoted => {
                kept.push(b'"')?;
                Ok(Some(kept))
            }
            Stand::QuoteRead => {
                kept.push(b'"')?;
                kept.push(b'"')?;
                Ok(Some(kept))
            }
            Stand::RecordStart | Stand::ReturnRead => Ok(None),
        }
    }
}

// The number of whole fields after one more byte.
fn count_fields(fields: u8, does: Does) -> u8
    requires { fields < 9 }
    ensures many { (row : Row) (field : List ℕ) → fields ≤ length row → result ≤ length (fields_after (action_of does) row field) }
    ensures full { 9 ≤ result → does ≡ Does.EndsField }
{
    match does {
        Does::EndsField => fields + 1,
        _ => fields,
    }
}

// Whether a record ends.
fn ends_record(does: Does) -> bool
    ensures { result ≡ is_end (action_of does) }
{
    match does {
        Does::EndsRecord => true,
        _ => false,
    }
}

// Whether a byte ends a blank line.
fn is_blank(from: Stand, to: Stand) -> bool
    ensures from { result ≡ true → from ≡ Stand.RecordStart }
    ensures to { result ≡ true → to ≡ Stand.RecordStart }
{
    match (from, to) {
        (Stand::RecordStart, Stand::RecordStart) => true,
        _ => false,
    }
}

// Whether a byte can be left out: it joins a piece that is too long, and changes no state.
fn is_left_out(from: Stand, to: Stand, does: Does, piece: u8, c: u8) -> bool
    ensures joins { result ≡ true → action_of does ≡ act.Copy }
    ensures stays { result ≡ true → to ≡ from }
    ensures long { result ≡ true → 20 < piece }
    ensures plain { result ≡ true → (c == 43) ≡ false }
{
    match (from, to, does) {
        (Stand::Bare, Stand::Bare, Does::Joins) => piece > LONGEST && c != b'+',
        (Stand::Quoted, Stand::Quoted, Does::Joins) => piece > LONGEST && c != b'+',
        _ => false,
    }
}

// The counted length of the last piece after one more byte.
#[tactic(auto, using(crate::proofs::Cutting::few_joined, crate::proofs::Cutting::few_zero))]
fn count_piece(piece: u8, does: Does, c: u8) -> u8
    ensures { (left : List ℕ) → piece ≤ piece_in 0 left → result ≤ piece_in 0 (field_after (action_of does) c left) }
{
    match does {
        Does::Nothing => piece,
        Does::Joins => {
            if c == b'+' {
                0
            } else if piece > LONGEST {
                piece
            } else {
                piece + 1
            }
        }
        Does::EndsField | Does::EndsRecord => 0,
    }
}

// Whether a byte is the second of two quotation marks that can be left out: they mean one that joins a piece which is too long.
fn is_pair_left_out(from: Stand, to: Stand, does: Does, piece: u8, c: u8) -> bool
    ensures joins { result ≡ true → action_of does ≡ act.Copy }
    ensures from { result ≡ true → from ≡ Stand.QuoteRead }
    ensures to { result ≡ true → to ≡ Stand.Quoted }
    ensures long { result ≡ true → 20 < piece }
    ensures quote { result ≡ true → c ≡ 34 }
{
    match (from, to, does) {
        (Stand::QuoteRead, Stand::Quoted, Does::Joins) => piece > LONGEST && c == b'"',
        _ => false,
    }
}

/// A shorter text in place of the beginning of a text in which no record ends; None where one ends. A byte order mark is not
/// looked at.
///
/// # Errors
///
/// Out of memory.
pub fn cut_text(alloc: Global, bytes: &[u8]) -> Result<Option<Vec<u8>>, AllocError>
    ensures { IfOk result (λ kept. IfSome kept (λ short. IsCutText bytes.now short.items)) }
{
    let mut cutter = Cutter::new(alloc);
    for c in bytes {
        if !cutter.take(*c)? {
            return Ok(None);
        }
    }
    cutter.finish()
}

/// A shorter text in place of the beginning of a text in which no record ends, with its byte order mark. None where a record
/// ends, or where there are fewer bytes than a byte order mark has.
///
/// # Errors
///
/// Out of memory.
pub fn shorten(alloc: Global, bytes: &[u8]) -> Result<Option<Vec<u8>>, AllocError>
    ensures { IfOk result (λ kept. IfSome kept (λ short. IsShortened bytes.now short.items)) }
{
    if bytes.len() < 3 {
        return Ok(None);
    }
    let mark = mark_len(bytes);
    let Some(mut short) = cut_text(alloc, &bytes[mark..])? else {
        return Ok(None);
    };
    // A blank line means nothing, and what follows it is no byte order mark.
    short.insert(0, b'\n')?;
    Ok(Some(short))
}
