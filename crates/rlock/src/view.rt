//! What the table keeps of each pass. No value of these types is ever made.
use std::collections::LinkedList;

/// How far a pass is with its turn. Tickets are counted without end; the words count them modulo 2^64.
pub enum Mode<S> {
    /// It is in no turn.
    Idle,
    /// It has drawn this ticket.
    Waiting(u64),
    /// Its ticket is served, and the slot, in which it found this state, is out with it.
    Served(u64, S),
    /// The same, and its new entries are in the kept list, and it leaves this state.
    Putting(u64, S),
}

/// A pass, as it is known.
pub struct Member<S, O, E> {
    /// Its number among the passes.
    pub number: u64,
    /// The opening of the state behind the gate.
    pub opening: O,
    /// The entries that it has made.
    pub mine: LinkedList<E>,
    /// The state as it left it last.
    pub last: S,
}

/// What a seat at the table knows.
pub struct View<S, O, E> {
    /// How far it is with its turn.
    pub mode: Mode<S>,
    /// How many tickets it has drawn.
    pub turns: u64,
    /// The kept list, as last seen.
    pub seen: LinkedList<E>,
    /// The pass itself, then those whose numbers it has still to give out, then those that were joined into it. A spent view has
    /// no members.
    pub members: LinkedList<Member<S, O, E>>,
    /// What had been seen at each join into it.
    pub olds: LinkedList<LinkedList<E>>,
}
