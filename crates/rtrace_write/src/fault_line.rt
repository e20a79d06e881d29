// The line of a fault.
ghost use Rattle.std.specs.Prelude.{◌≡◌, ◌++◌, OnOk, IfOk, decimal};
ghost use Rattle.std.specs.List.{flat_map};
ghost use Rattle.rtrace_form.specs.Texts.{behind_comma};
ghost use Rattle.rtrace_write.specs.ErrorLine.{error_line, code_number, refusal_number, refusal_fields};

use itoa::Buffer;
use rtrace_form::{Code, Fault, Refusal};
use std::alloc::{AllocError, Global};

/// The line of a fault: the record's number, the code, and for a refused event the number of its refusal.
///
/// # Errors
///
/// Out of memory.
pub fn error_line(alloc: Global, fault: Fault) -> Result<Vec<u8>, AllocError>
    ensures { IfOk result (λ text. text.items ≡ error_line fault) }
{
    let mut text = Vec::from_slice(alloc, b"error")?;
    push_number(&mut text, fault.line)?;
    push_number(&mut text, code_number(fault.code))?;
    push_refusal(&mut text, fault.code)?;
    text.push(b'\n')?;
    Ok(text)
}

// Appends the number of the refusal, where the code has one.
fn push_refusal(text: &mut Vec<u8>, code: Code) -> Result<(), AllocError>
    ensures { OnOk result (text.new.items ≡ text.old.items ++ flat_map behind_comma (refusal_fields code)) }
{
    match code {
        Code::Refused(refusal) => push_number(text, refusal_number(refusal)),
        Code::BadField
        | Code::UnknownName
        | Code::BadOrder
        | Code::WrongChange
        | Code::WrongShow
        | Code::WrongLedger
        | Code::NoEnd
        | Code::WrongBound => Ok(()),
    }
}

// Appends a number as another field.
fn push_number(text: &mut Vec<u8>, number: u64) -> Result<(), AllocError>
    ensures { OnOk result (text.new.items ≡ text.old.items ++ behind_comma (decimal number)) }
{
    let mut digits = Buffer::new();
    text.push(b',')?;
    text.extend_from_slice(digits.format(number).as_bytes())
}

/// The number of a code.
pub fn code_number(code: Code) -> u64
    ensures { result ≡ code_number code }
{
    match code {
        Code::BadField => 1,
        Code::UnknownName => 2,
        Code::BadOrder => 3,
        Code::Refused(_) => 4,
        Code::WrongChange => 5,
        Code::WrongShow => 6,
        Code::WrongLedger => 7,
        Code::NoEnd => 8,
        Code::WrongBound => 9,
    }
}

/// The number of a refusal: those of the lock come first, then those of a request.
pub fn refusal_number(refusal: Refusal) -> u64
    ensures { result ≡ refusal_number refusal }
{
    match refusal {
        Refusal::Step(cause) => u64::from(cause.number()),
        Refusal::Request(cause) => 6 + u64::from(cause.number()),
    }
}
