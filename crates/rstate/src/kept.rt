// What a gate keeps of a locked state.
use crate::{Opening, State};
use rlock::Kept;
use rmodel::Machine;
use rvalue::{Editable, Entry};

impl<T: Editable, M: Machine> Kept for State<T, M> {
    ghost use Rattle.std.proofs.Common.{◌≡◌, refl, ◌∙◌, slice_get};
    ghost use Rattle.rclaim.specs.Events.{seat_of};

    type Opening = Opening<T, M>;

    type Entry = Entry<T::Edit>;

    ghost opening = { λ state. state.beginning };

    ghost entries = { λ state. state.entries };

    ghost number = { λ entry. seat_of entry.event };

    // what a seat has taken, it still has
    ghost stays = { λ n before after. slice_get after.taken n ≡ slice_get before.taken n };

    ghost stays_refl = { λ n state. refl };

    ghost stays_trans = { λ n before between after p q. q ∙ p };
}
