//! How a gate is closed.
ghost use Rattle.std.specs.Prelude.{◌≡◌, ℕ, ◌<◌, ◌⊎◌, All, Any};
ghost use Rattle.rlock.specs.Known.{Known, IsTrueOf};
ghost use Rattle.rlock.specs.Steps.{IsSized, Holds};
ghost use Rattle.rlock.specs.Views.{times, numbers_of};
ghost use Rattle.rlock.specs.Covering.{Covers, IsIdleAt};

use crate::board::{Board, Place};
use crate::gate::Gate;
use crate::kept::Kept;
use crate::pass::Pass;
use crate::plays::TakeIn;

impl<S: Kept> Gate<S> {
    /// Takes all passes of the gate, and gives back the state. The number of each pass has to be among theirs.
    ///
    /// What each pass knows is true of the state, and each entry was made by one of them.
    pub fn close(self, mut passes: Vec<Pass<S>>) -> S
        requires gate { All (λ p. p.gate ≡ self.gate) passes.items }
        requires all { (n : ℕ) → n < self.passes → Any (λ p. p.number ≡ n) passes.items }
        ensures passes { All (λ p. IsTrueOf S.number S.stays p (S.opening result) (S.entries result) result) passes.items }
        ensures entries { All (λ e. S.number e < self.passes) (S.entries result) }
    {
        // The gate's invariant: it has a pass.
        let _ = &self.board;
        let last = passes.pop().unwrap();
        self.close_and(passes, last)
    }

    /// The same for these passes and the last one together.
    pub fn close_and(self, passes: Vec<Pass<S>>, last: Pass<S>) -> S
        requires gate { All (λ p. p.gate ≡ self.gate) passes.items × (last.gate ≡ self.gate) }
        requires all { (n : ℕ) → n < self.passes → Any (λ p. p.number ≡ n) passes.items ⊎ (last.number ≡ n) }
        ensures passes { All (λ p. IsTrueOf S.number S.stays p (S.opening result) (S.entries result) result) passes.items }
        ensures last { IsTrueOf S.number S.stays last (S.opening result) (S.entries result) result }
        ensures entries { All (λ e. S.number e < self.passes) (S.entries result) }
    {
        let Gate { board } = self;
        let Pass { place, .. } = last;
        let place = taken_in(&board, passes, place);
        last_state(board, place)
    }
}

// The seat takes in these passes.
fn taken_in<S: Kept>(board: &Board<S>, passes: Vec<Pass<S>>, mut place: Place<S>) -> Place<S>
    requires table { IsSized board.now.shared.table_id × IsIdleAt board.now.shared.table_id place }
    requires passes { All (λ p. p.gate ≡ board.now.shared.table_id) passes.items }
    ensures idle { IsIdleAt board.now.shared.table_id result }
    ensures passes { All (Covers S.number S.stays result.me.0) passes.items }
    ensures before { (k : Known S S.Opening S.Entry) → Covers S.number S.stays place.me.0 k → Covers S.number S.stays result.me.0 k }
{
    for pass in passes {
        let Pass { place: other, .. } = pass;
        board.shared.join_seat::<TakeIn>(&mut place, other);
    }
    place
}

// The state of a table, once one seat has all numbers.
fn last_state<S: Kept>(board: Board<S>, place: Place<S>) -> S
    requires table { IsSized board.shared.table_id × IsIdleAt board.shared.table_id place }
    requires all { (n : ℕ) → n < board.shared.key.passes → 0 < times n (numbers_of place.me.0) }
    ensures knows { Holds S.number S.stays place.me.0 (S.opening result) (S.entries result) result }
    ensures entries { All (λ e. S.number e < board.shared.key.passes) (S.entries result) }
{
    let mut closed = board.close_with(place);
    let state = closed.take(0);
    closed.free();
    state.unwrap()
}
