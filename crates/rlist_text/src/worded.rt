// Values whose edits can be written.
ghost use Rattle.std.specs.Prelude.{◌≡◌, ◌++◌, ℕ, List, OnOk};

use rtrace_write::Page;
use rvalue::Editable;
use std::alloc::AllocError;

/// A value whose edits have words.
pub trait Worded: Editable {
    /// The words of an edit, as they stand on a line.
    ghost words: { Self.Edit → List ℕ };

    /// Appends the words of an edit.
    ///
    /// # Errors
    ///
    /// Out of memory.
    fn push_words(page: &mut Page, edit: &Self::Edit) -> Result<(), AllocError>
        ensures { OnOk result (page.new ≡ page.old ++ words edit.now) };
}
