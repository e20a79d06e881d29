// What a section did to a resource, with the answer that it got.
ghost use Rattle.std.specs.Prelude.{◌≡◌, ◌↔◌, IsTrue};
ghost use Rattle.rvalue.specs.Acts.{IsAnsweredAt, value_after_act};

use crate::Editable;

/// An edit or a show that a section made, with its answer.
#[derive(Debug, Drop)]
pub enum Act<E> {
    /// It edited the resource `place`; `done` says whether the edit was taken.
    Edited { place: u8, edit: E, done: bool },
    /// It was shown this number of the resource `place`.
    Shown { place: u8, number: u64 },
}

impl<E> Act<E> {
    /// Does the act again, on a value of its resource: edits the value where the act is an edit.
    /// Answers whether the act has the answer that this value gives. Takes no memory.
    pub fn redo<T: Editable<Edit = E>>(&self, value: &mut T) -> bool
        ensures right { IsTrue result ↔ IsAnsweredAt T.taken T.number value.old self.now }
        ensures value { value.new ≡ value_after_act T.after value.old self.now }
    {
        match self {
            Act::Edited { edit, done, .. } => value.apply(edit) == *done,
            Act::Shown { number, .. } => value.shown() == *number,
        }
    }
}
