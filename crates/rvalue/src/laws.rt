//! Laws of histories: how values and answers go on. Each function is a theorem: it does nothing, and its contract is the law.
ghost use Rattle.std.specs.Prelude.{◌≡◌, ◌↔◌, ℕ, List, [], ◌∷◌, ◌++◌};
ghost use Rattle.rvalue.specs.declared.act.Act.{Act};
ghost use Rattle.rvalue.specs.Acts.{AnswersAreRight, IsAnsweredAfter};
ghost use Rattle.rvalue.specs.Entries.{EntryFields, value_after_entry};
ghost use Rattle.rvalue.specs.Histories.{value_of, HistoryAnswersRightly, EntryAnswersRightly};
ghost use Rattle.rvalue.specs.Lawful.{IsLawful, IsRightEntry, AreOpenings};

use crate::{Editable, Rules};

/// After one more entry a resource has the value from before, with the edits of the entry made on it.
pub fn values_go_on<T: Editable>()
    ensures { (opening : T) (entries : List (EntryFields T.Edit)) (entry : EntryFields T.Edit) (l : ℕ) →
        value_of T.after opening (entries ++ entry ∷ []) l ≡ value_after_entry T.after (value_of T.after opening entries l) entry l }
{}

/// The answers in an entry with one more act are right exactly where those before are, and the act's answer is right after them.
pub fn acts_go_on<T: Editable>()
    ensures { (values : ℕ → T) (acts : List (Act T.Edit)) (act : Act T.Edit) →
        AnswersAreRight T.after T.taken T.number values (acts ++ act ∷ [])
        ↔ (AnswersAreRight T.after T.taken T.number values acts × IsAnsweredAfter T.after T.taken T.number values acts act) }
{}

/// The answers in a history with one more entry are right exactly where those before are, and the entry's answers are right after them.
pub fn entries_go_on<T: Editable>()
    ensures { (openings : ℕ → T) (entries : List (EntryFields T.Edit)) (entry : EntryFields T.Edit) →
        HistoryAnswersRightly T.after T.taken T.number openings (entries ++ entry ∷ [])
        ↔ (HistoryAnswersRightly T.after T.taken T.number openings entries × EntryAnswersRightly T.after T.taken T.number openings entries entry) }
{}

/// A history with one more entry is lawful exactly where the history before is, and the entry may come after it.
pub fn lawful_goes_on<T: Editable, R: Rules<T>>()
    ensures { (entries : List (EntryFields T.Edit)) (entry : EntryFields T.Edit) →
        IsLawful R.comes R.next R.reads R.writes T.after T.taken T.number R.first R.opens_at (entries ++ entry ∷ [])
        ↔ (IsLawful R.comes R.next R.reads R.writes T.after T.taken T.number R.first R.opens_at entries
        × IsRightEntry R.comes R.next R.reads R.writes T.after T.taken T.number R.first R.opens_at entries entry) }
{}

/// All answers of a lawful history are right, with any opening values that it may have.
pub fn lawful_answers<T: Editable, R: Rules<T>>()
    ensures { (openings : ℕ → T) (entries : List (EntryFields T.Edit)) → AreOpenings R.opens_at openings
        → IsLawful R.comes R.next R.reads R.writes T.after T.taken T.number R.first R.opens_at entries
        → HistoryAnswersRightly T.after T.taken T.number openings entries }
{}
