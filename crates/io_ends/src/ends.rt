// The traits `Source` and `Sink`.
ghost use Rattle.std.specs.Prelude.{◌≡◌, ◌≤◌, ℕ, List, Option, IfOk, OnOk, OnErr};
ghost use Rattle.io_ends.specs.Faults.{Rose};
ghost use Rattle.io_ends.specs.Ends.{Gives, Takes};

use thiserror::Error;

/// A read or a write did not happen because the device failed.
#[derive(Clone, Copy, Debug, PartialEq, Eq, Error)]
#[error("the device failed")]
pub struct Failed;

/// Gives bytes, in order, until there are no more.
pub trait Source {
    /// The bytes that are left, where the source knows them.
    ghost left: { Self → Option (List ℕ) };

    /// How often the source has failed; the count stops at 2^64 - 1.
    ghost faults: { Self → ℕ };

    /// Puts the next bytes at the front of `buf`, and answers how many. For a `buf` that
    /// is not empty, 0 is the end of the input. After `Failed` nothing was taken, and the
    /// content of `buf` is unspecified. The count of faults rises with `Failed`, and otherwise
    /// it stays as it was.
    fn read(&mut self, buf: &mut [u8]) -> Result<usize, Failed>
        ensures given { IfOk result (Gives (left self.old) (left self.new) buf.old buf.new) }
        ensures quiet { OnOk result (faults self.new ≡ faults self.old) }
        ensures failed { OnErr result (Rose (faults self.old) (faults self.new)) }
        ensures kept { OnErr result (left self.new ≡ left self.old) }
        ensures counted { faults self.old ≤ faults self.new };
}

/// Takes bytes, in order.
pub trait Sink {
    /// The bytes that were written, where the sink knows them.
    ghost written: { Self → Option (List ℕ) };

    /// How often the sink has failed; the count stops at 2^64 - 1.
    ghost faults: { Self → ℕ };

    /// Appends the first bytes of `piece`, and answers how many: at least one where `piece`
    /// is not empty. After `Failed` nothing was appended. The count of faults rises with
    /// `Failed`, and otherwise it stays as it was.
    fn write(&mut self, piece: &[u8]) -> Result<usize, Failed>
        ensures taken { IfOk result (Takes (written self.old) (written self.new) piece.now) }
        ensures quiet { OnOk result (faults self.new ≡ faults self.old) }
        ensures failed { OnErr result (Rose (faults self.old) (faults self.new)) }
        ensures kept { OnErr result (written self.new ≡ written self.old) }
        ensures counted { faults self.old ≤ faults self.new };
}
