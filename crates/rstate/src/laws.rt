//! What holds of every lawful history of a lock. The function is a theorem: it does nothing, and its contract is the law.
ghost use Rattle.rstate.specs.Laws.{HeldStaysAsItWas};

use rvalue::Editable;

/// *What is held stays as it was*: a resource that a seat holds after the first entries of a lawful history it still holds in the
/// same way after more of them, with the same value, until the seat's finish or rise.
pub fn l8<T: Editable>()
    ensures { HeldStaysAsItWas T.after T.taken T.number }
{}
