//! The pieces of a field, which are joined by `+`.
ghost use Rattle.std.specs.Prelude.{◌≡◌, ◌≤◌, ◌<◌, ◌+◌, true, false, ℕ, List, length, take, drop, ◌⊎◌, OnOk};
ghost use Rattle.csv.specs.Machine.{field_after};
ghost use Rattle.csv.specs.declared.parser.Action.TheVariants as act;
ghost use Rattle.rset.specs.declared.TheConstants.{RESOURCES};
ghost use Rattle.rtrace_form.specs.Records.{Row};
ghost use Rattle.rshort.specs.Cut.{has_joint, pieces_of, is_among, Differ};
ghost use Rattle.rshort.specs.Joints.{KnowsJoint, BecomesLast};
ghost use Rattle.rshort.specs.Steps.{action_of};

use crate::step::{Does, Stand};
use rset::RESOURCES;
use std::alloc::AllocError;

/// The last joint of a field.
#[derive(Clone, Copy)]
pub(crate) struct Joint {
    /// How many bytes of the text come before it.
    pub(crate) kept: usize,
    /// How many bytes of the field come before it.
    pub(crate) field: usize,
    /// Where a reader stands before it.
    pub(crate) stand: Stand,
    /// So many pieces before it differ, counted up to one above [`RESOURCES`]; 0 where there is no joint.
    pub(crate) different: u8,
}

/// A field has no joint.
pub(crate) fn no_joint() -> Joint
    ensures { result.different ≡ 0 }
{
    Joint {
        kept: 0,
        field: 0,
        stand: Stand::RecordStart,
        different: 0,
    }
}

/// The last joint after one more byte that is kept.
pub(crate) fn joint_after(
    joint: Joint,
    kept: &[u8],
    field: &[u8],
    stand: Stand,
    does: Does,
    c: u8,
) -> Joint
    requires { 0 < joint.different → joint.field < length field.now }
    ensures { BecomesLast joint result stand c does field.now (length kept.now) }
{
    match does {
        Does::Nothing => joint,
        Does::Joins => {
            if c == b'+' {
                Joint {
                    kept: kept.len(),
                    field: field.len(),
                    stand,
                    different: count_different(joint, field),
                }
            } else {
                joint
            }
        }
        Does::EndsField | Does::EndsRecord => no_joint(),
    }
}

// How many pieces of a field differ.
fn count_different(joint: Joint, field: &[u8]) -> u8
    requires { 0 < joint.different → joint.field < length field.now }
    ensures some { 0 < result }
    ensures differ { (bytes : List ℕ) (cut : Row) → KnowsJoint joint bytes cut field.now → Differ result (pieces_of field.now) }
{
    if joint.different == 0 {
        return 1;
    }
    if is_known(joint, field) {
        joint.different
    } else {
        joint.different + 1
    }
}

/// Whether a byte is a joint that can be left out with the piece before it, which says nothing new and is not one of the first
/// two.
pub(crate) fn is_joint_left_out(joint: Joint, field: &[u8], stand: Stand, does: Does, c: u8) -> bool
    requires { 0 < joint.different → joint.field < length field.now }
    ensures there { result ≡ true → 0 < joint.different }
    ensures joint { result ≡ true → c ≡ 43 }
    ensures joins { result ≡ true → action_of does ≡ act.Copy }
    ensures stand { result ≡ true → joint.stand ≡ stand }
    ensures two { result ≡ true → has_joint (take joint.field field.now) ≡ true }
    ensures nothing { result ≡ true → (is_among (pieces_of (take joint.field field.now)) (drop (joint.field + 1) field.now) ≡ true) ⊎ (RESOURCES < joint.different) }
{
    if joint.different == 0 || !is_joint(does, c) || !is_same(joint.stand, stand) {
        return false;
    }
    has_two(joint, field) && is_known(joint, field)
}

// Whether a byte joins two pieces.
fn is_joint(does: Does, c: u8) -> bool
    ensures joint { result ≡ true → c ≡ 43 }
    ensures joins { result ≡ true → action_of does ≡ act.Copy }
{
    match does {
        Does::Joins => c == b'+',
        _ => false,
    }
}

// Whether both are inside a field, in quotation marks both or neither.
fn is_same(a: Stand, b: Stand) -> bool
    ensures { result ≡ true → a ≡ b }
{
    match (a, b) {
        (Stand::Bare, Stand::Bare) | (Stand::Quoted, Stand::Quoted) => true,
        _ => false,
    }
}

// Whether two pieces come before the last joint.
fn has_two(joint: Joint, field: &[u8]) -> bool
    requires { joint.field < length field.now }
    ensures { result ≡ has_joint (take joint.field field.now) }
{
    field[..joint.field].contains(&b'+')
}

// Whether the last piece says nothing new: it is one of those before, or too many of these differ.
fn is_known(joint: Joint, field: &[u8]) -> bool
    requires { joint.field < length field.now }
    ensures known { result ≡ true → (is_among (pieces_of (take joint.field field.now)) (drop (joint.field + 1) field.now) ≡ true) ⊎ (RESOURCES < joint.different) }
    ensures new { result ≡ false → is_among (pieces_of (take joint.field field.now)) (drop (joint.field + 1) field.now) ≡ false }
    ensures few { result ≡ false → joint.different ≤ RESOURCES }
{
    if u16::from(joint.different) > RESOURCES {
        return true;
    }
    is_piece(&field[..joint.field], &field[joint.field + 1..])
}

// Whether a field has this piece.
fn is_piece(field: &[u8], piece: &[u8]) -> bool
    ensures { result ≡ is_among (pieces_of field.now) piece.now }
{
    field
        .split(|byte| *byte == b'+')
        .any(|other| other == piece)
}

/// Keeps what one more byte adds to a field.
///
/// # Errors
///
/// Out of memory.
pub(crate) fn keep_in_field(field: &mut Vec<u8>, does: Does, c: u8) -> Result<(), AllocError>
    ensures { OnOk result (field.new.items ≡ field_after (action_of does) c field.old.items) }
{
    match does {
        Does::Nothing => Ok(()),
        Does::Joins => {
            field.push(c)?;
            Ok(())
        }
        Does::EndsField | Does::EndsRecord => {
            field.clear();
            Ok(())
        }
    }
}
