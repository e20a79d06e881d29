//! A section: a seat, what is lent to it, and what it does between two turns.
ghost use Rattle.std.specs.Prelude.{◌≡◌, ◌<◌, true, ◌++◌, ◌∷◌, [], length, vec_capacity, IfOk, OnOk, OnErr};
ghost use Rattle.rclaim.specs.declared.event.Event.TheVariants.{Finish};
ghost use Rattle.rvalue.specs.declared.act.Act.TheVariants.{Edited, Shown};
ghost use Rattle.rguard.specs.Seats.{Goes, IsOneTurn, IsIdle, bare};
ghost use Rattle.rguard.specs.LentGuards.{Holding, HoldingToWrite, HasValue};
ghost use Rattle.rguard.specs.LentSections.{Holds, Ends, guarded, may_edit};
ghost use Rattle.rguard.specs.declared.kind.GuardKind.{GuardKind};

use crate::copies::{NewShares, Own, edit_own, make_shares_of, replace_all, value_of, with_copy};
use crate::counted::CountedGate;
use crate::room::Room;
use crate::waking::told;
use rlock::Pass;
use rmodel::Machine;
use rstate::{Lent, State};
use rvalue::{Act, Editable};
use std::alloc::{AllocError, Global};
use std::marker::Model;
use std::sync::Wait;

/// A seat at a runtime: a right to issue requests there, one after another. It is a pass at the gate, so whoever has it has no
/// turn.
pub type Seat<T, M> = Pass<State<T, M>>;

/// The seat of a guard or a wait, with what is lent to it, its copies of what it has edited, and its acts. It must be spent.
///
/// A section promises nothing by itself: each call asks for what has to hold of it (`Waits`, `Holds`, `Ends`), and says what
/// holds afterwards.
pub struct Section<'a, T: Editable, M: Machine> {
    pub(crate) lock: &'a CountedGate<State<T, M>, T>,
    /// The seat, which has no turn.
    pub seat: Seat<T, M>,
    pub(crate) lent: Lent<T>,
    pub(crate) own: Vec<Own<T>>,
    pub(crate) shares: NewShares<T>,
    /// What the section has done so far, in order.
    pub acts: Vec<Act<T::Edit>>,
}

impl<'a, T: Editable, M: Machine> Model for Section<'a, T, M> {
    ghost use Rattle.rguard.specs.LentSections.{SectionFields};
    ghost use Rattle.std.specs.Coded.{codes};
    ghost use Rattle.rclaim.specs.Codes.{set_code};

    ghost Value = { SectionFields T T.Edit };

    ghost coded = { Prim.hlevel (codes, set_code) };

    ghost view = { λ a. record { site = a.lock.now; seat = a.seat; lent = a.lent; own = a.own.items; acts = a.acts.items } };
}

impl<'a, T: Editable, M: Machine> Section<'a, T, M> {
    /// Lends the value of a resource that the section holds. Takes no memory.
    pub fn get(&self, place: u8) -> &T
        requires holds { (kind : GuardKind) × Holds T.after T.taken T.number kind self.now }
        requires held { Holding self.now.seat place }
        ensures { HasValue T.after (guarded self.now) place result.now }
    {
        value_of(&self.own, &self.lent, place)
    }

    /// Shows the value of a resource that the section holds, and records that as an act.
    ///
    /// # Errors
    ///
    /// Out of memory. Nothing changes.
    pub fn show(&mut self, place: u8) -> Result<u64, AllocError>
        requires holds { (kind : GuardKind) × Holds T.after T.taken T.number kind self.old }
        requires held { Holding self.old.seat place }
        ensures kept { (kind : GuardKind) → Holds T.after T.taken T.number kind self.old → Holds T.after T.taken T.number kind self.new }
        ensures act { IfOk result (λ number. self.new ≡ record self.old { acts = self.old.acts ++ Shown place number ∷ [] }) }
        ensures number { IfOk result (λ number. (value : T) × HasValue T.after (guarded self.old) place value × (number ≡ T.number value)) }
        ensures err { OnErr result (self.new ≡ self.old) }
    {
        self.acts.reserve(1)?;
        let number = value_of(&self.own, &self.lent, place).shown();
        self.acts.push_reserved(Act::Shown { place, number });
        Ok(number)
    }

    /// Edits the value of a resource that the section holds for writing, records that as an act, and answers whether the edit was
    /// taken.
    ///
    /// # Errors
    ///
    /// Out of memory. Nothing changes.
    pub fn edit(&mut self, alloc: Global, place: u8, edit: T::Edit) -> Result<bool, AllocError>
        requires holds { (kind : GuardKind) × Holds T.after T.taken T.number kind self.old }
        requires held { HoldingToWrite self.old.seat place }
        ensures kept { (kind : GuardKind) → (may_edit kind ≡ true) → Holds T.after T.taken T.number kind self.old → Holds T.after T.taken T.number kind self.new }
        ensures act { IfOk result (λ done. guarded self.new ≡ record (guarded self.old) { acts = self.old.acts ++ Edited place edit done ∷ [] }) }
        ensures done { IfOk result (λ done. (value : T) × HasValue T.after (guarded self.old) place value × (done ≡ T.taken value edit)) }
        ensures err { OnErr result (self.new ≡ self.old) }
    {
        reserve(&mut self.acts, self.lent.written())?;
        with_copy(alloc, &mut self.own, &self.lent, place)?;
        let done = edit_own(&mut self.own, place, &edit);
        self.acts.push_reserved(Act::Edited { place, edit, done });
        Ok(done)
    }

    /// Makes shares of what the section has edited, so that it may end.
    ///
    /// # Errors
    ///
    /// Out of memory. Nothing changes.
    pub fn make_shares(&mut self, alloc: Global) -> Result<(), AllocError>
        requires { (kind : GuardKind) × Holds T.after T.taken T.number kind self.old }
        ensures ends { OnOk result (Ends T.after T.taken T.number self.new) }
        ensures same { self.new ≡ record self.old { lent = self.new.lent } }
        ensures err { OnErr result (self.new ≡ self.old) }
    {
        let lock: &CountedGate<State<T, M>, T> = self.lock;
        make_shares_of(
            alloc,
            &self.own,
            u16::from(lock.seats) + 1,
            &mut self.shares,
        )?;
        replace_all(&mut self.lent, &mut self.shares);
        Ok(())
    }

    /// Ends the section without its acts. Takes no memory.
    pub fn discard<R: Wait>(self, rt: &R) -> Seat<T, M>
        requires { (kind : GuardKind) × Holds T.after T.taken T.number kind self }
        ensures goes { Goes self.entry.seat (bare (Finish self.entry.seat.number) ∷ []) result }
        ensures turn { IsOneTurn self.entry.seat (bare (Finish self.entry.seat.number) ∷ []) result }
        ensures idle { IsIdle result }
    {
        let mut section = self;
        section.acts.clear();
        section.end(rt)
    }

    /// Ends the section: its acts are recorded, and what is lent to it goes home. Takes no memory.
    pub fn end<R: Wait>(self, rt: &R) -> Seat<T, M>
        requires { Ends T.after T.taken T.number self }
        ensures goes { Goes self.entry.seat (record { event = Finish self.entry.seat.number; acts = self.entry.acts } ∷ []) result }
        ensures turn { IsOneTurn self.entry.seat (record { event = Finish self.entry.seat.number; acts = self.entry.acts } ∷ []) result }
        ensures idle { IsIdle result }
    {
        let Section {
            lock,
            seat,
            lent,
            mut own,
            shares,
            acts,
        } = self;
        let number = seat.number();
        let mut turn = lock.gate.enter(rt, seat);
        let state = turn.state();
        let _ = state.history();
        let lent = state.finish(number, lent, acts);
        let told = told(state);
        let seat = lock.leave(rt, turn, told);
        own.clear();
        lock.put_room(rt, number, Room { lent, own, shares });
        seat
    }
}

// Makes room for one more act, or for `first` acts if there is no room yet.
fn reserve<E>(acts: &mut Vec<Act<E>>, first: usize) -> Result<(), AllocError>
    ensures items { acts.new.items ≡ acts.old.items }
    ensures ok { OnOk result (length acts.new.items < vec_capacity acts.new) }
{
    if acts.capacity() == 0 {
        acts.reserve_exact(first)?;
    }
    acts.reserve(1)
}
