//! A gate, and turns at it.
ghost use Rattle.std.specs.Prelude.{◌≡◌, ◌≢◌, ℕ, ◌+◌, ◌%◌, ◌^◌, [], ◌∷◌, Some, None};
ghost use Rattle.rlock.specs.declared.view.Mode.TheVariants.{Waiting, Served, Putting};
ghost use Rattle.rlock.specs.Known.{Known, Appends, KeepsOthers, IsTrueOf, entered, left};
ghost use Rattle.rlock.specs.Steps.{Rests, Waits, Serves, Puts};

use crate::board::{Board, Place};
use crate::kept::Kept;
use crate::pass::Pass;
use crate::plays::{Draw, Look, Note, Return, Telling};
use crate::turn::{Holder, Turn};
use std::marker::{Brand, Model};
use std::sync::Wait;
use std::{hint, thread};

// How often a pass looks for its ticket before it lets another thread run.
const LOOKS: u32 = 100;

// How often it looks whether few tickets are out before it lets another thread run.
const GLANCES: u32 = 10;

// How many tickets may be ahead of a pass that keeps looking.
const NEAR: u64 = 3;

// How many tickets may be out when another one is drawn.
const OUT: u64 = 1;

/// One state, at which passes take turns.
///
/// Contracts see which `gate` it is, and the number of its `passes`.
#[derive(Drop)]
pub struct Gate<S: Kept> {
    pub(crate) board: Board<S>,
}

impl<S: Kept> Model for Gate<S> {
    ghost use Rattle.std.specs.Prelude.{◌≡◌, ◌<◌};
    ghost use Rattle.rlock.specs.Known.{GateSite};
    ghost use Rattle.rlock.specs.Steps.{IsSized};

    ghost Value = { GateSite };

    ghost view = { λ g. record { gate = g.board.shared.table_id; passes = g.board.shared.key.passes } };

    ghost invariant = { λ g. IsSized g.board.shared.table_id × (0 < g.board.shared.key.passes) };
}

impl<S: Kept> Gate<S> {
    /// Waits for the turn of a pass of this gate, and takes the state.
    ///
    /// What the pass knows is true of the state: since the pass left it, others have done to it only what turns of others may.
    /// The pass has then seen the state's list, and has had one more turn.
    pub fn enter<R: Wait>(&self, rt: &R, pass: Pass<S>) -> Turn<S>
        requires { pass.gate ≡ self.now.gate }
        ensures pass { result.pass ≡ entered pass (S.entries result.state) }
        ensures found { result.found ≡ Some result.state }
        ensures state { IsTrueOf S.number S.stays pass (S.opening result.state) (S.entries result.state) result.state }
    {
        let Pass { mut place, number } = pass;
        self.await_room(rt);
        let ticket = self.board.shared.fetch_add::<Draw>(&mut place, 0, 1);
        let state = self.await_ticket(rt, &mut place, ticket);
        let holder = Holder { place, number };
        Turn { holder, state }
    }

    // Waits until few tickets are out, so that a pass that draws one will soon be served. What it saw may be out of date when it
    // returns.
    fn await_room<R: Wait>(&self, rt: &R) {
        let mut glances = 0;
        for _ in rt.forever() {
            let served = self.board.shared.peek(1);
            if self.board.shared.peek(0).wrapping_sub(served) <= OUT {
                return;
            }
            if glances < GLANCES {
                glances += 1;
                hint::spin_loop();
            } else {
                glances = 0;
                thread::yield_now();
            }
        }
        unreachable!()
    }

    // Looks at which ticket is served until it is this one, and takes the state.
    fn await_ticket<R: Wait>(&self, rt: &R, place: &mut Place<S>, ticket: u64) -> S
        requires gate { place.old.table_id ≡ self.now.gate }
        requires ready { (k : Known S S.Opening S.Entry) × (t : ℕ) × Waits place.old k t × (t % 2 ^ 64 ≡ ticket) }
        ensures same { (place.new.table_id ≡ place.old.table_id) × (place.new.id ≡ place.old.id) }
        ensures served { (k : Known S S.Opening S.Entry) (t : ℕ) → Waits place.old k t → Serves place.new (record k { seen = S.entries result }) t result × IsTrueOf S.number S.stays k (S.opening result) (S.entries result) result }
    {
        let mut looks = 0;
        for _ in rt.forever() {
            let served = self.board.shared.load::<Look>(place, 1);
            if served == ticket {
                return self.board.shared.exchange(place, 0, None).unwrap();
            }
            if looks < LOOKS && ticket.wrapping_sub(served) <= NEAR {
                looks += 1;
                hint::spin_loop();
            } else {
                looks = 0;
                // The pass whose ticket is served may need this processor.
                thread::yield_now();
            }
        }
        unreachable!()
    }

    /// Gives the state back, and ends the turn. Its opening must be as it was at the entry, its list the one at the entry with
    /// entries of this pass added at the end. What the turn did to the state must be something that every other pass lets the
    /// turns of others do.
    ///
    /// The pass has then seen the list that it left, made its new entries, and left this state last.
    pub fn leave(&self, turn: Turn<S>) -> Pass<S>
        requires gate { turn.pass.gate ≡ self.now.gate }
        requires opening { turn.pass.opening ≡ Some (S.opening turn.state) }
        requires entries { Appends S.number turn.pass.number turn.pass.seen (S.entries turn.state) }
        requires others { (found : S) → turn.found ≡ Some found → KeepsOthers S.stays turn.pass.number found turn.state }
        ensures { result ≡ left turn.pass (S.entries turn.state) turn.state }
    {
        let Turn { holder, state } = turn;
        let Holder { mut place, number } = holder;
        self.note::<Brand>(&mut place, &state);
        self.put_back(&mut place, state);
        Pass { place, number }
    }

    // The state, which is out with the pass, is from now on what others will find, and its list is the kept list.
    fn note<L: Telling<S>>(&self, place: &mut Place<S>, state: &S)
        requires gate { place.old.table_id ≡ self.now.gate }
        requires telling { L.told ≡ Some state.now }
        requires ready { (k : Known S S.Opening S.Entry) × (t : ℕ) × (found : S) × Serves place.old k t found × Appends S.number k.number k.seen (S.entries state.now) × KeepsOthers S.stays k.number found state.now }
        ensures same { (place.new.table_id ≡ place.old.table_id) × (place.new.id ≡ place.old.id) }
        ensures noted { (k : Known S S.Opening S.Entry) (t : ℕ) (found : S) → Serves place.old k t found → Puts place.new (left k (S.entries state.now) state.now) t state.now }
    {
        self.board.shared.fetch_add::<Note<L>>(place, 1, 0);
    }

    // Puts the state back in its slot, and lets the next pass go on.
    fn put_back(&self, place: &mut Place<S>, state: S)
        requires gate { place.old.table_id ≡ self.now.gate }
        requires ready { (k : Known S S.Opening S.Entry) × (t : ℕ) × Puts place.old k t state × (k.opening ≡ Some (S.opening state)) × (S.entries state ≡ k.seen) }
        ensures same { (place.new.table_id ≡ place.old.table_id) × (place.new.id ≡ place.old.id) }
        ensures idle { (k : Known S S.Opening S.Entry) (t : ℕ) → Puts place.old k t state → Rests place.new k }
    {
        let shared = &self.board.shared;
        let vacant = shared.exchange(place, 0, Some(state));
        let None = vacant else { unreachable!() };
        shared.fetch_add::<Return>(place, 1, 1);
    }
}
