// The line of one bound.
ghost use Rattle.std.specs.Prelude.{◌≡◌, ◌<◌, ◌^◌, ◌++◌, ◌∷◌, [], OnOk, decimal};
ghost use Rattle.rtrace_form.specs.Texts.{line_text, behind_comma};
ghost use Rattle.rbound.specs.Bounds.{numbers_in};
ghost use Rattle.rnlp_cli.specs.BoundText.{bound_row, which_word};

use itoa::Buffer;
use rbound::{Bound, Which};
use std::alloc::AllocError;

/// Appends the line of a bound: for which task, which of its requests, and which wait.
pub(crate) fn push_line(
    text: &mut Vec<u8>,
    name: &[u8],
    number: usize,
    which: Which,
    bound: &Bound,
) -> Result<(), AllocError>
    ensures { OnOk result (text.new.items ≡ text.old.items ++ line_text (bound_row name.now number which (numbers_in bound.now))) }
{
    text.extend_from_slice(b"bound")?;
    push_field(text, name)?;
    push_number(text, number as u64)?;
    push_field(text, which_word(which))?;
    push_number(text, bound.reads)?;
    push_number(text, bound.writes)?;
    push_number(text, bound.units)?;
    text.push(b'\n')?;
    Ok(())
}

// Appends a field with the comma before it.
fn push_field(text: &mut Vec<u8>, field: &[u8]) -> Result<(), AllocError>
    ensures { OnOk result (text.new.items ≡ text.old.items ++ behind_comma field.now) }
{
    text.push(b',')?;
    text.extend_from_slice(field)
}

/// Appends a number as one more field.
pub(crate) fn push_number(text: &mut Vec<u8>, number: u64) -> Result<(), AllocError>
    ensures { OnOk result (text.new.items ≡ text.old.items ++ behind_comma (decimal number)) }
{
    let mut digits = Buffer::new();
    push_field(text, digits.format(number).as_bytes())
}

// The name of a wait.
fn which_word(which: Which) -> &'static [u8]
    ensures { result.now ≡ which_word which }
{
    match which {
        Which::First => b"first",
        Which::Rise => b"rise",
        Which::Ask(_) => b"ask",
    }
}
