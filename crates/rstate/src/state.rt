// The locked state: a machine, its history, and the home values.
ghost use Rattle.std.specs.Prelude.{◌≡◌, ℕ, ◌+◌, ◌-◌, ◌<◌, ◌≤◌, ◌++◌, ◌∷◌, [], map, vec_capacity, IfOk, IfErr, OnOk, OnErr, false, length, replicate, slice_set, Some, slice_get};
ghost use Rattle.std.specs.Arc.{arc_value};
ghost use Rattle.rclaim.specs.Events.{IsNormalEvent};
ghost use Rattle.rclaim.specs.declared.event.Event.TheVariants.{Issue, Finish, Rise, Ask};
ghost use Rattle.rmodel.specs.Holds.{nothing, holds_of, has_request};
ghost use Rattle.rmodel.specs.StateLaws.{gives_back};
ghost use Rattle.rmodel.specs.declared.granted.Granted.{Granted};
ghost use Rattle.rmodel.specs.Steps.{Fits, Accepts, next};
ghost use Rattle.rstate.specs.Histories.{IsLawfulFrom, MayFollow, HaveBeenTold};
ghost use Rattle.rstate.specs.Contents.{lock_of, value_now, is_ready, AreTaken, MayIssue, IsLentNow, ComesHome, GivesBackAll};
ghost use Rattle.rstate.specs.Moves.{HasRoomFor};
ghost use Rattle.rstate.specs.Shares.{whole};

use crate::keep::{keep, nothing};
use crate::moves::{give_reads, give_writes, homes_of, one_of_each, take_reads, take_writes};
use crate::{Lent, Opening, Shares};
use rclaim::{Event, Request};
use rmodel::{Granted, Machine};
use rset::ResourceSet;
use rvalue::{Act, Editable, Entry, History};
use std::alloc::{AllocError, Global};
use std::marker::Model;
use std::snapshot::Snapshot;
use std::sync::Arc;

/// A machine, the history of what was done at it, and the values of the resources, some of them lent to seats.
///
/// A contract sees how the lock began (`beginning`), the `entries` of the history, and what each seat has `taken`. The entries
/// determine the state of the machine and what each value has become.
#[derive(Drop)]
struct Parts<T: Editable, M: Machine> {
    machine: M,
    opening: Opening<T, M>,
    history: History<T::Edit>,
    taken: Vec<Granted>,
    homes: Vec<Shares<T>>,
    // no share, and room for one of each value
    closing: Vec<Arc<T, Global>>,
    alloc: Global,
}

/// The locked state in one place on the heap, so that a turn moves only the address.
#[derive(Drop)]
pub struct State<T: Editable, M: Machine> {
    all: Box<Parts<T, M>, Global>,
}

impl<T: Editable, M: Machine> Model for State<T, M> {
    ghost use Rattle.std.specs.Prelude.{length, vec_capacity};
    ghost use Rattle.rstate.specs.Contents.{Contents, contents_code, IsWhole};

    ghost Value = { Contents T T.Edit };

    ghost coded = { contents_code T.code T.Edit.code };

    ghost view = { λ a. record { beginning = a.all.value.opening; entries = a.all.value.history.entries; taken = a.all.value.taken.items } };

    ghost invariant = { λ a. IsWhole T.after T.taken T.number (M.state a.all.value.machine) (M.watched a.all.value.machine) a.all.value.history.spare (record { beginning = a.all.value.opening; entries = a.all.value.history.entries; taken = a.all.value.taken.items }) a.all.value.homes.items (length a.all.value.closing.items) (vec_capacity a.all.value.closing) };
}

impl<T: Editable, M: Machine> State<T, M> {
    /// A lock that begins with this machine, at which nothing was done, and with these values. Nobody has taken anything.
    ///
    /// # Errors
    ///
    /// Out of memory. The machine comes back, and its watchers were given nothing.
    pub fn new_over(
        alloc: Global,
        machine: M,
        values: Vec<T>,
    ) -> Result<State<T, M>, (M, AllocError)>
        requires claims { (M.state machine).claims ≡ [] }
        requires issued { (M.state machine).issued ≡ 0 }
        requires values { length values.items ≡ (M.state machine).groups.q }
        ensures beginning { IfOk result (λ s. s.beginning ≡ record { groups = (M.state machine).groups; seats = (M.state machine).seats; cap = (M.state machine).cap; values = values.items; watched = M.watched machine }) }
        ensures entries { IfOk result (λ s. s.entries ≡ []) }
        ensures taken { IfOk result (λ s. s.taken ≡ replicate (M.state machine).seats nothing) }
        ensures back { IfErr result (λ e. e.0 ≡ machine) }
    {
        let seats = machine.seats();
        match room_of(alloc, seats, &values) {
            Ok((taken, homes, closing)) => {
                let opening = Opening {
                    groups: Snapshot::of(machine.groups()),
                    seats,
                    cap: machine.cap(),
                    values: Snapshot::of(&values),
                    machine: Snapshot::of(&machine),
                };
                let parts = Parts {
                    machine,
                    opening,
                    history: History::new(alloc),
                    taken,
                    homes,
                    closing,
                    alloc,
                };
                match Box::new(alloc, parts) {
                    Ok(all) => Ok(State { all }),
                    Err(refused) => Err((refused.value.machine, AllocError)),
                }
            }
            Err(e) => Err((machine, e)),
        }
    }

    /// The same; if memory runs out, the machine is dropped.
    ///
    /// # Errors
    ///
    /// Out of memory.
    pub fn new(alloc: Global, machine: M, values: Vec<T>) -> Result<State<T, M>, AllocError>
        requires claims { (M.state machine).claims ≡ [] }
        requires issued { (M.state machine).issued ≡ 0 }
        requires values { length values.items ≡ (M.state machine).groups.q }
        ensures beginning { IfOk result (λ s. s.beginning ≡ record { groups = (M.state machine).groups; seats = (M.state machine).seats; cap = (M.state machine).cap; values = values.items; watched = M.watched machine }) }
        ensures entries { IfOk result (λ s. s.entries ≡ []) }
        ensures taken { IfOk result (λ s. s.taken ≡ replicate (M.state machine).seats nothing) }
    {
        match State::new_over(alloc, machine, values) {
            Ok(state) => Ok(state),
            Err((_, e)) => Err(e),
        }
    }

    /// Lends the machine, which is in the state that the entries lead to. What each seat has taken lies within what it holds
    /// there. The watchers have been given just the steps of the entries.
    pub fn machine(&self) -> &M
        ensures state { M.state result.now ≡ lock_of self.now }
        ensures taken { AreTaken (lock_of self.now).claims self.now.beginning.seats self.now.taken }
        ensures told { HaveBeenTold self.now.beginning self.now.entries (M.watched result.now) }
    {
        &self.all.machine
    }

    /// Lends the history, which is lawful from the beginning. The beginning has a value for each resource.
    pub fn history(&self) -> &History<T::Edit>
        ensures entries { result.now.entries ≡ self.now.entries }
        ensures lawful { IsLawfulFrom T.after T.taken T.number self.now.beginning self.now.entries }
        ensures values { length self.now.beginning.values ≡ self.now.beginning.groups.q }
    {
        &self.all.history
    }

    /// Whether nothing of the seat is pending: it has no request, or the request holds something and has no pending ask.
    pub fn ready(&self, seat: u8) -> bool
        ensures { result ≡ is_ready (lock_of self.now) seat }
    {
        !self.all.machine.pending(seat)
    }

    /// A seat issues a request. The history gets room for all that follows of it except asks.
    ///
    /// # Errors
    ///
    /// Out of memory. Nothing changes.
    pub fn issue(&mut self, seat: u8, request: Request) -> Result<(), AllocError>
        requires { MayIssue (lock_of self.old) seat request }
        ensures beginning { self.new.beginning ≡ self.old.beginning }
        ensures taken { self.new.taken ≡ self.old.taken }
        ensures ok { OnOk result (self.new.entries ≡ self.old.entries ++ record { event = Issue seat request; acts = [] } ∷ []) }
        ensures err { OnErr result (self.new ≡ self.old) }
    {
        if self.all.machine.issued() >= MOST_ISSUES {
            return Err(AllocError);
        }
        self.add(Event::Issue { seat, request })
    }

    /// A nested request asks for a further part.
    ///
    /// # Errors
    ///
    /// Out of memory. Nothing changes.
    pub fn ask(&mut self, seat: u8, set: ResourceSet) -> Result<(), AllocError>
        requires fits { Fits (lock_of self.old) (Ask seat set) }
        requires accepted { Accepts (lock_of self.old) (Ask seat set) }
        ensures beginning { self.new.beginning ≡ self.old.beginning }
        ensures taken { self.new.taken ≡ self.old.taken }
        ensures ok { OnOk result (self.new.entries ≡ self.old.entries ++ record { event = Ask seat set; acts = [] } ∷ []) }
        ensures err { OnErr result (self.new ≡ self.old) }
    {
        self.add(Event::Ask { seat, set })
    }

    // One more entry without acts, of an event that gives nothing back. Its room is made first.
    fn add(&mut self, event: Event) -> Result<(), AllocError>
        requires fits { Fits (lock_of self.old) event }
        requires accepted { Accepts (lock_of self.old) event }
        requires gives { (seat : ℕ) → gives_back seat event ≡ false }
        ensures beginning { self.new.beginning ≡ self.old.beginning }
        ensures taken { self.new.taken ≡ self.old.taken }
        ensures ok { OnOk result (self.new.entries ≡ self.old.entries ++ record { event = event; acts = [] } ∷ []) }
        ensures err { OnErr result (self.new ≡ self.old) }
    {
        let all = &mut *self.all;
        all.history
            .reserve(2 * usize::from(all.machine.seats()) + 1)?;
        let acts = Vec::new(all.alloc);
        keep(&mut all.machine, &mut all.history, &event, acts);
        Ok(())
    }

    /// Takes all that the seat holds and has not taken yet, and lends it to the seat. Takes no memory.
    pub fn take(&mut self, seat: u8, into: &mut Lent<T>)
        requires seat { seat < self.old.beginning.seats }
        requires lent { (g : Granted) → slice_get self.old.taken seat ≡ Some g → IsLentNow T.after self.old g into.old }
        requires room { (g : Granted) → slice_get self.old.taken seat ≡ Some g → HasRoomFor g (holds_of (lock_of self.old).claims seat) into.old }
        ensures beginning { self.new.beginning ≡ self.old.beginning }
        ensures entries { self.new.entries ≡ self.old.entries }
        ensures taken { self.new.taken ≡ slice_set self.old.taken seat (holds_of (lock_of self.old).claims seat) }
        ensures lent { IsLentNow T.after self.old (holds_of (lock_of self.old).claims seat) into.new }
        ensures room { (into.new.reads_room ≡ into.old.reads_room) × (into.new.writes_room ≡ into.old.writes_room) }
    {
        let all = &mut *self.all;
        let granted = all.machine.granted(seat);
        let before = all.taken[usize::from(seat)];
        let reads = granted.reads.minus(before.reads);
        let writes = granted.writes.minus(before.writes);
        take_reads(&mut all.homes, &mut into.reads, reads);
        take_writes(&mut all.homes, &mut into.writes, writes, all.alloc);
        all.taken[usize::from(seat)] = granted;
    }

    /// Ends the section of the seat: the history records its acts, and what it has taken comes home, with the edits. Takes no
    /// memory. The lists that it was lent in come back, empty.
    pub fn finish(&mut self, seat: u8, back: Lent<T>, acts: Vec<Act<T::Edit>>) -> Lent<T>
        requires right { MayFollow T.after T.taken T.number self.old.beginning self.old.entries (record { event = Finish seat; acts = acts.items }) }
        requires back { (g : Granted) → slice_get self.old.taken seat ≡ Some g → ComesHome T.after self.old (record { event = Finish seat; acts = acts.items }) g back }
        ensures beginning { self.new.beginning ≡ self.old.beginning }
        ensures entries { self.new.entries ≡ self.old.entries ++ record { event = Finish seat; acts = acts.items } ∷ [] }
        ensures taken { self.new.taken ≡ slice_set self.old.taken seat nothing }
        ensures back { result ≡ record back { reads = []; writes = [] } }
    {
        self.give_back(seat, Event::Finish { seat }, back, acts)
    }

    /// The upgrade of the seat rises: the history records its acts so far, which are shows, and what it has taken comes home.
    /// Takes no memory.
    pub fn rise(&mut self, seat: u8, back: Lent<T>, acts: Vec<Act<T::Edit>>)
        requires right { MayFollow T.after T.taken T.number self.old.beginning self.old.entries (record { event = Rise seat; acts = acts.items }) }
        requires back { (g : Granted) → slice_get self.old.taken seat ≡ Some g → ComesHome T.after self.old (record { event = Rise seat; acts = acts.items }) g back }
        ensures beginning { self.new.beginning ≡ self.old.beginning }
        ensures entries { self.new.entries ≡ self.old.entries ++ record { event = Rise seat; acts = acts.items } ∷ [] }
        ensures taken { self.new.taken ≡ slice_set self.old.taken seat nothing }
    {
        let _ = self.give_back(seat, Event::Rise { seat }, back, acts);
    }

    // The history records an event that gives back what the seat holds, with its acts, and what the seat has taken comes home.
    fn give_back(
        &mut self,
        seat: u8,
        event: Event,
        back: Lent<T>,
        acts: Vec<Act<T::Edit>>,
    ) -> Lent<T>
        requires gives { GivesBackAll seat event }
        requires right { MayFollow T.after T.taken T.number self.old.beginning self.old.entries (record { event = event; acts = acts.items }) }
        requires back { (g : Granted) → slice_get self.old.taken seat ≡ Some g → ComesHome T.after self.old (record { event = event; acts = acts.items }) g back }
        ensures beginning { self.new.beginning ≡ self.old.beginning }
        ensures entries { self.new.entries ≡ self.old.entries ++ record { event = event; acts = acts.items } ∷ [] }
        ensures taken { self.new.taken ≡ slice_set self.old.taken seat nothing }
        ensures back { result ≡ record back { reads = []; writes = [] } }
    {
        let all = &mut *self.all;
        keep(&mut all.machine, &mut all.history, &event, acts);
        let Lent {
            mut reads,
            mut writes,
        } = back;
        give_reads(&mut all.homes, &mut reads);
        give_writes(&mut all.homes, &mut writes);
        all.taken[usize::from(seat)] = nothing();
        Lent { reads, writes }
    }

    /// Takes the state apart while no request is incomplete: the history, a share of each value, and the machine. Takes no
    /// memory.
    pub fn into_whole(self) -> (History<T::Edit>, Vec<Arc<T, Global>>, M)
        requires { (seat : ℕ) → has_request (lock_of self).claims seat ≡ false }
        ensures entries { result.0.entries ≡ self.entries }
        ensures lawful { IsLawfulFrom T.after T.taken T.number self.beginning self.entries }
        ensures count { length result.1.items ≡ self.beginning.groups.q }
        ensures values { (l : ℕ) (opening : T) → slice_get self.beginning.values l ≡ Some opening → slice_get (map arc_value result.1.items) l ≡ Some (value_now T.after self l opening) }
        ensures told { HaveBeenTold self.beginning self.entries (M.watched result.2) }
    {
        let State { all } = self;
        let Parts {
            machine,
            opening: _,
            history,
            taken: _,
            homes,
            closing,
            alloc: _,
        } = Box::into_inner(all);
        (history, one_of_each(homes, closing), machine)
    }

    /// Takes the state apart while no request is incomplete: the history, and a share of each value. Takes no memory.
    pub fn into_parts(self) -> (History<T::Edit>, Vec<Arc<T, Global>>)
        requires { (seat : ℕ) → has_request (lock_of self).claims seat ≡ false }
        ensures entries { result.0.entries ≡ self.entries }
        ensures lawful { IsLawfulFrom T.after T.taken T.number self.beginning self.entries }
        ensures count { length result.1.items ≡ self.beginning.groups.q }
        ensures values { (l : ℕ) (opening : T) → slice_get self.beginning.values l ≡ Some opening → slice_get (map arc_value result.1.items) l ≡ Some (value_now T.after self l opening) }
    {
        let (history, values, _) = self.into_whole();
        (history, values)
    }
}

// What a state has besides its machine and its history: nothing that is taken, the homes of the values, and room for a share of
// each.
type Room<T> = (Vec<Granted>, Vec<Shares<T>>, Vec<Arc<T, Global>>);

fn room_of<T: Editable>(alloc: Global, seats: u8, values: &[T]) -> Result<Room<T>, AllocError>
    ensures taken { IfOk result (λ r. r.0.items ≡ replicate seats nothing) }
    ensures homes { IfOk result (λ r. r.1.items ≡ map (whole (seats + 1)) values.now) }
    ensures closing { IfOk result (λ r. (r.2.items ≡ []) × (length r.1.items ≤ vec_capacity r.2)) }
{
    let taken = vec![in alloc; nothing(); usize::from(seats)]?;
    let homes = homes_of(alloc, u16::from(seats) + 1, values)?;
    let closing = Vec::with_capacity(alloc, homes.len())?;
    Ok((taken, homes, closing))
}

// The most requests that may be issued. After these there is no stamp left.
const MOST_ISSUES: u64 = 1 << 63;

// The number itself: an issue may be refused after that many, and a lower number would fit its clauses as well.
const _: () = prove!(MOST_ISSUES == 9_223_372_036_854_775_808);
