// Values that sections edit and show.
ghost use Rattle.std.specs.Prelude.{◌≡◌, ℕ, Bool, false, IfOk};

use std::alloc::{AllocError, Global};

/// A value that sections edit, show and copy. Values and edits may be dropped.
pub trait Editable: Drop {
    /// A change of the value.
    type Edit: Drop;

    /// The value after an edit.
    ghost after: { Self → Self.Edit → Self };

    /// Whether the value takes the edit.
    ghost taken: { Self → Self.Edit → Bool };

    /// The number that a show of the value gives.
    ghost number: { Self → ℕ };

    /// Edits the value, and answers whether the edit was taken. An edit that is not taken changes nothing. Takes no memory.
    fn apply(&mut self, edit: &Self::Edit) -> bool
        ensures after { self.new ≡ after self.old edit.now }
        ensures taken { result ≡ taken self.old edit.now };

    /// An equal value.
    ///
    /// # Errors
    ///
    /// Out of memory.
    fn copy(&self, alloc: Global) -> Result<Self, AllocError>
        ensures { IfOk result (λ copy. copy ≡ self.now) };

    /// The number that a show of the value gives. Takes no memory.
    fn shown(&self) -> u64
        ensures { result ≡ number self.now };

    /// An edit that is not taken changes nothing.
    ghost untaken: { (value : Self) (edit : Self.Edit) → taken value edit ≡ false → after value edit ≡ value };
}
