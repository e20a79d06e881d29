//! The turns of a section: it begins to wait, looks, rises, and asks.
ghost use Rattle.std.specs.Prelude.{◌≡◌, true, false, ◌∷◌, [], IfOk, IfErr, OnOk};
ghost use Rattle.rclaim.specs.declared.event.Event.TheVariants.{Issue, Rise, Ask};
ghost use Rattle.rguard.specs.Seats.{IsOf, IsIdle, SuitsSeat, Goes, IsOneTurn, ComesBack, bare};
ghost use Rattle.rguard.specs.LentGuards.{IsPartOf, IsReady, KeepsValues, KeepsHolding, kind_for};
ghost use Rattle.rguard.specs.LentSections.{HasRoom, Holds, Waits, HasLooked, guarded, no_loans, HasRoomToIssue};
ghost use Rattle.rguard.specs.declared.kind.GuardKind.{GuardKind};

use crate::counted::CountedGate;
use crate::kind::GuardKind;
use crate::room::Room;
use crate::section::{Seat, Section};
use crate::waking::told;
use rclaim::Request;
use rmodel::Machine;
use rset::{RESOURCES, ResourceSet};
use rstate::{Lent, State};
use rvalue::Editable;
use std::alloc::{AllocError, Global};
use std::sync::Wait;

impl<'a, T: Editable, M: Machine> Section<'a, T, M> {
    /// A seat issues a request, in one turn, and waits for it, with this room for what it will be lent.
    ///
    /// # Errors
    ///
    /// Out of memory. Nothing was issued, and the seat comes back.
    pub fn issue<R: Wait>(
        lock: &'a CountedGate<State<T, M>, T>,
        rt: &R,
        alloc: Global,
        seat: Seat<T, M>,
        request: Request,
        room: Room<T>,
    ) -> Result<Section<'a, T, M>, (Seat<T, M>, AllocError)>
        requires of { IsOf lock.now seat }
        requires idle { IsIdle seat }
        requires suits { SuitsSeat seat request }
        requires room { HasRoomToIssue request room }
        ensures waits { IfOk result (Waits T.after T.taken T.number (kind_for request.kind)) }
        ensures begins { IfOk result (λ s. (s.site ≡ lock.now) × (s.acts ≡ [])) }
        ensures goes { IfOk result (λ s. Goes seat (bare (Issue seat.number request) ∷ []) s.seat) }
        ensures turn { IfOk result (λ s. IsOneTurn seat (bare (Issue seat.number request) ∷ []) s.seat) }
        ensures err { IfErr result (λ e. Goes seat [] e.0) }
        ensures turn_err { IfErr result (λ e. IsOneTurn seat [] e.0) }
        ensures idle { IfErr result (λ e. IsIdle e.0) }
    {
        let number = seat.number();
        let mut turn = lock.gate.enter(rt, seat);
        let state = turn.state();
        let _ = state.history();
        let _ = state.machine();
        match state.issue(number, request) {
            Ok(()) => {
                let _ = state.history();
                let told = told(state);
                let Room { lent, own, shares } = room;
                Ok(Section {
                    lock,
                    seat: lock.leave(rt, turn, told),
                    lent,
                    own,
                    shares,
                    acts: Vec::new(alloc),
                })
            }
            Err(e) => Err((lock.gate.leave(turn), e)),
        }
    }

    /// Looks, in one turn, whether nothing of the seat is pending. `Ok` has the section of a guard, to which all is lent that its
    /// seat holds; `Err` has a section that still waits. Takes no memory.
    pub fn look<R: Wait>(self, rt: &R) -> Result<Section<'a, T, M>, Section<'a, T, M>>
        requires { (kind : GuardKind) × Waits T.after T.taken T.number kind self }
        ensures holds { IfOk result (λ s. (kind : GuardKind) → Waits T.after T.taken T.number kind self.entry → Holds T.after T.taken T.number kind s) }
        ensures ready { IfOk result (HasLooked self.entry true) }
        ensures waits { IfErr result (λ s. (kind : GuardKind) → Waits T.after T.taken T.number kind self.entry → Waits T.after T.taken T.number kind s) }
        ensures pending { IfErr result (HasLooked self.entry false) }
    {
        let Section {
            lock,
            seat,
            mut lent,
            own,
            shares,
            acts,
        } = self;
        let number = seat.number();
        let mut turn = lock.gate.enter(rt, seat);
        let state = turn.state();
        let _ = state.history();
        if state.ready(number) {
            state.take(number, &mut lent);
            Ok(Section {
                lock,
                seat: lock.gate.leave(turn),
                lent,
                own,
                shares,
                acts,
            })
        } else {
            Err(Section {
                lock,
                seat: lock.gate.leave(turn),
                lent,
                own,
                shares,
                acts,
            })
        }
    }

    /// Looks and rests in turn until nothing of the seat is pending. The section is then that of a guard, to which all is lent
    /// that its seat holds. Takes no memory.
    pub fn wait<R: Wait>(self, rt: &R) -> Section<'a, T, M>
        requires { (kind : GuardKind) × Waits T.after T.taken T.number kind self }
        ensures holds { (kind : GuardKind) → Waits T.after T.taken T.number kind self.entry → Holds T.after T.taken T.number kind result }
        ensures same { (result.site ≡ self.entry.site) × (result.acts ≡ self.entry.acts) }
        ensures goes { Goes self.entry.seat [] result.seat }
        ensures ready { IsReady result.seat true }
    {
        let mut waiting = self;
        for _ in rt.forever() {
            match waiting.look(rt) {
                Ok(section) => return section,
                Err(section) => waiting = section.rest(rt),
            }
        }
        unreachable!()
    }

    /// Rests until the seat is notified of an event that gave it something; a notice from before counts. Changes nothing that a
    /// contract sees.
    pub fn rest<R: Wait>(self, rt: &R) -> Section<'a, T, M>
        requires { (kind : GuardKind) × Waits T.after T.taken T.number kind self }
        ensures { result ≡ self.entry }
    {
        let lock: &CountedGate<State<T, M>, T> = self.lock;
        lock.rest(rt, self.seat.number());
        self
    }

    /// Rises: the acts, which are shows, are recorded, and what is lent to the section goes home. It then waits to write, with
    /// this room for what it will be lent. Takes no memory.
    pub fn rise<R: Wait>(self, rt: &R, next: Lent<T>, alloc: Global) -> Section<'a, T, M>
        requires holds { Holds T.after T.taken T.number GuardKind.Rise self }
        requires next { next ≡ no_loans }
        ensures waits { Waits T.after T.taken T.number GuardKind.Write result }
        ensures site { result.site ≡ self.entry.site }
        ensures acts { result.acts ≡ [] }
        ensures goes { Goes self.entry.seat (record { event = Rise self.entry.seat.number; acts = self.entry.acts } ∷ []) result.seat }
        ensures turn { IsOneTurn self.entry.seat (record { event = Rise self.entry.seat.number; acts = self.entry.acts } ∷ []) result.seat }
    {
        let Section {
            lock,
            seat,
            lent,
            mut own,
            shares,
            acts,
        } = self;
        own.clear();
        let number = seat.number();
        let mut turn = lock.gate.enter(rt, seat);
        let state = turn.state();
        let _ = state.history();
        state.rise(number, lent, acts);
        let _ = state.history();
        let told = told(state);
        Section {
            lock,
            seat: lock.leave(rt, turn, told),
            lent: next,
            own,
            shares,
            acts: Vec::new(alloc),
        }
    }

    // Makes room for all that the section may be lent besides what it has. If memory runs out, nothing changes that a guard
    // shows.
    fn reserve(&mut self) -> Result<(), AllocError>
        requires { Holds T.after T.taken T.number GuardKind.Nest self.old }
        ensures holds { Holds T.after T.taken T.number GuardKind.Nest self.new }
        ensures room { OnOk result (HasRoom self.new.lent) }
        ensures same { guarded self.new ≡ guarded self.old }
    {
        self.lent.reserve(usize::from(RESOURCES))
    }

    /// Asks for a further part, in one turn, and waits for it. Room for what it may be lent is made before the turn, room for the
    /// history in it.
    ///
    /// # Errors
    ///
    /// Out of memory. Nothing was asked for, and the section comes back.
    pub fn ask<R: Wait>(
        self,
        rt: &R,
        set: ResourceSet,
    ) -> Result<Section<'a, T, M>, (Section<'a, T, M>, AllocError)>
        requires holds { Holds T.after T.taken T.number GuardKind.Nest self }
        requires part { IsPartOf self.seat set }
        ensures waits { IfOk result (Waits T.after T.taken T.number GuardKind.Nest) }
        ensures same { IfOk result (λ s. (s.site ≡ self.entry.site) × (s.acts ≡ self.entry.acts)) }
        ensures goes { IfOk result (λ s. Goes self.entry.seat (bare (Ask self.entry.seat.number set) ∷ []) s.seat) }
        ensures turn { IfOk result (λ s. IsOneTurn self.entry.seat (bare (Ask self.entry.seat.number set) ∷ []) s.seat) }
        ensures holds { IfErr result (λ e. Holds T.after T.taken T.number GuardKind.Nest e.0) }
        ensures err { IfErr result (λ e. (e.0.site ≡ self.entry.site) × (e.0.acts ≡ self.entry.acts) × Goes self.entry.seat [] e.0.seat) }
        ensures turn_err { IfErr result (λ e. ComesBack self.entry.seat e.0.seat) }
        ensures values { IfErr result (λ e. KeepsValues T.after (guarded self.entry) (guarded e.0)) }
        ensures holding { IfErr result (λ e. KeepsHolding self.entry.seat e.0.seat) }
    {
        let mut section = self;
        match section.reserve() {
            Ok(()) => section.ask_with_room(rt, set),
            Err(e) => Err((section, e)),
        }
    }

    // The same, when there is room.
    fn ask_with_room<R: Wait>(
        self,
        rt: &R,
        set: ResourceSet,
    ) -> Result<Section<'a, T, M>, (Section<'a, T, M>, AllocError)>
        requires holds { Holds T.after T.taken T.number GuardKind.Nest self }
        requires room { HasRoom self.lent }
        requires part { IsPartOf self.seat set }
        ensures waits { IfOk result (Waits T.after T.taken T.number GuardKind.Nest) }
        ensures same { IfOk result (λ s. (s.site ≡ self.entry.site) × (s.acts ≡ self.entry.acts)) }
        ensures goes { IfOk result (λ s. Goes self.entry.seat (bare (Ask self.entry.seat.number set) ∷ []) s.seat) }
        ensures turn { IfOk result (λ s. IsOneTurn self.entry.seat (bare (Ask self.entry.seat.number set) ∷ []) s.seat) }
        ensures holds { IfErr result (λ e. Holds T.after T.taken T.number GuardKind.Nest e.0) }
        ensures err { IfErr result (λ e. (e.0.site ≡ self.entry.site) × (e.0.acts ≡ self.entry.acts) × Goes self.entry.seat [] e.0.seat) }
        ensures turn_err { IfErr result (λ e. IsOneTurn self.entry.seat [] e.0.seat) }
        ensures values { IfErr result (λ e. KeepsValues T.after (guarded self.entry) (guarded e.0)) }
        ensures holding { IfErr result (λ e. KeepsHolding self.entry.seat e.0.seat) }
    {
        let Section {
            lock,
            seat,
            mut lent,
            own,
            shares,
            acts,
        } = self;
        let number = seat.number();
        let mut turn = lock.gate.enter(rt, seat);
        let state = turn.state();
        let _ = state.history();
        match state.ask(number, set) {
            Ok(()) => {
                let _ = state.history();
                let told = told(state);
                let seat = lock.leave(rt, turn, told);
                Ok(Section {
                    lock,
                    seat,
                    lent,
                    own,
                    shares,
                    acts,
                })
            }
            Err(e) => {
                // The guard is lent what its seat holds now.
                state.take(number, &mut lent);
                let seat = lock.gate.leave(turn);
                let section = Section {
                    lock,
                    seat,
                    lent,
                    own,
                    shares,
                    acts,
                };
                Err((section, e))
            }
        }
    }
}
