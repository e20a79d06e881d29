//! Which histories may be listed: a law, as the contract of a function that does nothing.
ghost use Rattle.std.specs.Prelude.{◌≡◌, ℕ, List, length};
ghost use Rattle.rstate.specs.Histories.{Beginning, IsLawfulFrom};
ghost use Rattle.rvalue.specs.Entries.{EntryFields};
ghost use Rattle.rlist_text.specs.Lists.{AreAccepted, head_with};

use rvalue::Editable;

/// Each event of what a lock leaves is accepted in turn by a lock with its groups, its cap, and a task for each of its seats.
pub fn what_a_lock_leaves_may_be_listed<T: Editable>()
    ensures { (b : Beginning T) (entries : List (EntryFields T.Edit)) (resources tasks : List (List ℕ))
        → b.groups.q ≡ length resources → b.seats ≡ length tasks → IsLawfulFrom T.after T.taken T.number b entries → AreAccepted (head_with resources b.groups tasks b.cap) entries }
{}
