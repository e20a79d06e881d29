//! How a gate is made.
ghost use Rattle.std.specs.Prelude.{◌≡◌, ℕ, ◌+◌, ◌<◌, ◌≤◌, [], Some, length, slice_get, All, IfOk};
ghost use Rattle.rlock.specs.Known.{newcomer, newcomers};
ghost use Rattle.rlock.specs.Views.{first_view};

use crate::board::{Board, Place, Setup};
use crate::gate::Gate;
use crate::kept::Kept;
use crate::pass::Pass;
use crate::plays::GiveOut;
use rset::SEATS;
use std::alloc::{AllocError, Global};
use std::snapshot::Snapshot;

impl<S: Kept + Drop> Gate<S> {
    /// A gate over this state, and its passes, numbered from 0 in order. No pass has seen or made anything, and each knows the
    /// state as it is now.
    ///
    /// `Err` means out of memory, and the state is dropped.
    pub fn new(alloc: Global, state: S, passes: u8) -> Result<(Gate<S>, Vec<Pass<S>>), AllocError>
        requires count { (1 ≤ passes) × (passes ≤ SEATS + 1) }
        requires no_entries { S.entries state ≡ [] }
        ensures count { IfOk result (λ r. (r.0.passes ≡ passes) × (length r.1.items ≡ passes)) }
        ensures gate { IfOk result (λ r. All (λ p. p.gate ≡ r.0.gate) r.1.items) }
        ensures each { IfOk result (λ r. (k : ℕ) → k < passes → slice_get r.1.items k ≡ Some (newcomer r.0.gate k (S.opening state) state)) }
    {
        let setup = Setup {
            passes: u64::from(passes),
            first: Snapshot::of(&state),
        };
        let (gate, place) = laid(alloc, state, &setup)?;
        let all = gate.first_passes(alloc, place, &setup, passes)?;
        Ok((gate, all))
    }
}

// The gate, and the seat that has all numbers.
fn laid<S: Kept + Drop>(
    alloc: Global,
    state: S,
    setup: &Setup<S>,
) -> Result<(Gate<S>, Place<S>), AllocError>
    requires count { (0 < setup.now.passes) × (setup.now.passes < 256) }
    requires state { (setup.now.first.value ≡ state) × (S.entries state ≡ []) }
    ensures gate { IfOk result (λ r. (r.0.passes ≡ setup.now.passes) × (r.1.table_id ≡ r.0.gate)) }
    ensures seat { IfOk result (λ r. r.1.me ≡ (first_view setup.now.passes (S.opening state) state, [])) }
{
    let mut slots = Vec::new(alloc);
    slots.push(Some(state))?;
    let Ok((board, place)) = Board::<S>::new(alloc, &[0, 0], slots, setup) else {
        return Err(AllocError);
    };
    Ok((Gate { board }, place))
}

impl<S: Kept> Gate<S> {
    // Gives out the numbers of the seat, each as a pass.
    fn first_passes(
        &self,
        alloc: Global,
        mut place: Place<S>,
        setup: &Setup<S>,
        count: u8,
    ) -> Result<Vec<Pass<S>>, AllocError>
        requires gate { place.table_id ≡ self.now.gate }
        requires count { (0 < count) × (setup.now.passes ≡ count) }
        requires seat { place.me ≡ (first_view count (S.opening setup.now.first.value) setup.now.first.value, []) }
        ensures { IfOk result (λ v. v.items ≡ newcomers place.table_id (S.opening setup.now.first.value) setup.now.first.value 0 count) }
    {
        let mut all = Vec::new(alloc);
        for number in 1..count {
            let given = self.board.shared.split_seat::<GiveOut>(&mut place);
            all.push(Pass::of(given, number))?;
        }
        all.insert(0, Pass::of(place, 0))?;
        Ok(all)
    }
}
