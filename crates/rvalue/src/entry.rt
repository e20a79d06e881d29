// An event of the lock, with the acts that come with it.
ghost use Rattle.std.specs.Prelude.{◌≡◌};
ghost use Rattle.rvalue.specs.Acts.{value_within};
ghost use Rattle.rvalue.specs.Entries.{value_after_entry};

use crate::{Act, Edit, Editable};
use rclaim::Event;
use std::marker::Model;

/// An event, and the acts of its section that are recorded with it, in the order in which the section made them.
#[derive(Debug, Drop)]
pub struct Entry<E> {
    /// What the seat did at the lock.
    pub event: Event,
    /// What its section did to resources before.
    pub acts: Vec<Act<E>>,
}

impl<E> Model for Entry<E> {
    ghost use Rattle.rvalue.specs.Entries.{EntryFields, entry_code};

    ghost Value = { EntryFields E };

    ghost coded = { entry_code E.code };

    ghost view = { λ a. record { event = a.event; acts = a.acts.items } };
}

// The longest event list has fewer than nine million entries, which have to fit in 1.44 GB.
const _: () = prove!(size_of::<Entry<Edit>>() <= 160);

impl<E> Entry<E> {
    /// Makes the edits of the entry on the resource `place` again, in order, on a value of it.
    /// Only the end of a section edits. Takes no memory.
    pub fn apply_to<T: Editable<Edit = E>>(&self, place: u8, value: &mut T)
        ensures { value.new ≡ value_after_entry T.after value.old self.now place }
    {
        if let Event::Finish { .. } = self.event {
            apply_edits(&self.acts, place, value);
        }
    }
}

// Makes the edits on the resource, in order.
fn apply_edits<T: Editable>(acts: &[Act<T::Edit>], place: u8, value: &mut T)
    ensures { value.new ≡ value_within T.after value.old acts.now place }
{
    for act in acts {
        if let Act::Edited {
            place: on,
            edit,
            ..
        } = act
            && *on == place
        {
            value.apply(edit);
        }
    }
}
