// Reading a source to its end.
ghost use Rattle.std.specs.Prelude.{◌≡◌, ◌<◌, ◌≤◌, ◌+◌, [], Some, length, take, drop, IfOk, IfSome, OnOk, OnErr, IsErrOf, IsOkUnless, vec_len};
ghost use Rattle.io_ends.specs.Faults.{Rose};
ghost use Rattle.io_ends.specs.Ends.{Gives, Took, TookAtMost};
ghost use Rattle.io_ends.specs.declared.reading.ReadErr.TheVariants.{Memory, ReadFault};

use crate::{Failed, Source};
use std::alloc::{AllocError, Global};
use thiserror::Error;

/// The length of the first buffer. Each later one is longer by as much, or by an eighth of what is filled if that is more.
const FIRST_LENGTH: usize = 65_536;

/// Why a source was not read to its end.
#[derive(Clone, Copy, Debug, PartialEq, Eq, Error)]
pub enum ReadErr {
    /// The source failed.
    #[error("reading failed")]
    ReadFault,
    /// The source had more bytes than the limit allows.
    #[error("the input is too long")]
    TooLong,
    /// There was no memory for the bytes.
    #[error("out of memory")]
    Memory,
}

impl From<Failed> for ReadErr {
    ghost from_gives = { λ _ e. e ≡ ReadFault };

    fn from(_: Failed) -> ReadErr {
        ReadErr::ReadFault
    }
}

impl From<AllocError> for ReadErr {
    ghost from_gives = { λ _ e. e ≡ Memory };

    fn from(_: AllocError) -> ReadErr {
        ReadErr::Memory
    }
}

/// Reads `source` to its end, and answers all its bytes, which may be up to `limit`. It
/// takes at most one byte more than that.
///
/// # Errors
///
/// `ReadFault` where the source fails, `TooLong` where it has more than `limit` bytes, and
/// `Memory` where there is no memory for them. The bytes that were taken are then lost.
pub fn read_all<S: Source>(alloc: Global, source: &mut S, limit: usize) -> Result<Vec<u8>, ReadErr>
    ensures whole { IfOk result (λ all. IfSome (S.left source.old) (λ bytes. all.items ≡ bytes)) }
    ensures ended { OnOk result (IfSome (S.left source.old) (λ _. S.left source.new ≡ Some [])) }
    ensures within { IfOk result (λ all. vec_len all ≤ limit) }

    // `ReadFault` is answered only where the source failed, and no fault is hidden. `TooLong` is answered exactly where one byte above the limit was taken.
    ensures fault { IsErrOf result ReadErr.ReadFault → Rose (S.faults source.old) (S.faults source.new) }
    ensures quiet { ¬ IsErrOf result ReadErr.ReadFault → S.faults source.new ≡ S.faults source.old }
    ensures too_long { IsErrOf result ReadErr.TooLong → Took (S.left source.old) (S.left source.new) (limit + 1) }
    ensures fault_within { IsErrOf result ReadErr.ReadFault → TookAtMost (S.left source.old) (S.left source.new) limit }
    ensures memory_within { IsErrOf result ReadErr.Memory → TookAtMost (S.left source.old) (S.left source.new) limit }

    ensures counted { S.faults source.old ≤ S.faults source.new }

    // Where the source does not fail, an input within the limit is read, unless memory runs out.
    ensures complete { ¬ Rose (S.faults source.old) (S.faults source.new)
        → IfSome (S.left source.old) (λ bytes. length bytes ≤ limit → IsOkUnless result ReadErr.Memory) }
{
    let mut bytes = Vec::new(alloc);
    let mut filled = 0;
    while filled <= limit {
        make_room(&mut bytes, filled, limit)?;
        let given = read_behind(source, &mut bytes, filled)?;
        if given == 0 {
            bytes.truncate(filled);
            return Ok(bytes);
        }
        filled += given;
    }
    Err(ReadErr::TooLong)
}

// Makes the buffer longer than what is filled, if it is not, and at most one byte longer than the limit.
fn make_room(bytes: &mut Vec<u8>, filled: usize, limit: usize) -> Result<(), AllocError>
    requires filled { filled ≤ vec_len bytes.old }
    requires within { filled ≤ limit }
    requires short { vec_len bytes.old ≤ limit + 1 }
    ensures front { take filled bytes.new.items ≡ take filled bytes.old.items }
    ensures room { OnOk result (filled < vec_len bytes.new) }
    ensures short { vec_len bytes.new ≤ limit + 1 }
    ensures longer { vec_len bytes.old ≤ vec_len bytes.new }
{
    if filled < bytes.len() {
        return Ok(());
    }
    let longer = filled
        .checked_add((filled / 8).max(FIRST_LENGTH))
        .ok_or(AllocError)?;
    bytes.resize(limit.min(longer - 1) + 1, 0)
}

// One read into the buffer, after what is filled.
fn read_behind<S: Source>(source: &mut S, buffer: &mut [u8], filled: usize) -> Result<usize, Failed>
    requires { filled < length buffer.old }
    ensures front { take filled buffer.new ≡ take filled buffer.old }
    ensures given { IfOk result (Gives (S.left source.old) (S.left source.new) (drop filled buffer.old) (drop filled buffer.new)) }
    ensures quiet { OnOk result (S.faults source.new ≡ S.faults source.old) }
    ensures failed { OnErr result (Rose (S.faults source.old) (S.faults source.new)) }
    ensures kept { OnErr result (S.left source.new ≡ S.left source.old) }
    ensures counted { S.faults source.old ≤ S.faults source.new }
{
    source.read(&mut buffer[filled..])
}
