//! A gate with the number of its seats, and what each of them has there: a post, and a room between its sections.
ghost use Rattle.std.specs.Prelude.{◌≡◌, ◌<◌, ◌≤◌, Some};
ghost use Rattle.rlock.specs.Known.{Appends, KeepsOthers, left};

use crate::room::{Room, Rooms};
use rlock::{Gate, Kept, Pass, Turn};
use rpost::Posts;
use rset::ResourceSet;
use std::marker::Model;
use std::sync::Wait;

/// A gate, how many of its passes are seats, and a post and a room for each seat. Contracts see which gate it is and the two
/// numbers.
#[derive(Drop)]
pub struct CountedGate<S: Kept, T> {
    pub(crate) gate: Gate<S>,
    pub(crate) seats: u8,
    posts: Posts,
    rooms: Rooms<T>,
}

impl<S: Kept, T> Model for CountedGate<S, T> {
    ghost use Rattle.std.specs.Prelude.{◌≡◌, ◌<◌, ◌≤◌};
    ghost use Rattle.rlock.specs.Known.{Site};

    ghost Value = { Site };

    ghost view = { λ a. record { gate = a.gate.gate; seats = a.seats; passes = a.gate.passes } };

    ghost invariant = { λ a. (0 < a.seats) × (a.seats ≤ a.gate.passes) × (a.posts ≡ a.seats) };
}

impl<S: Kept, T: Drop> CountedGate<S, T> {
    /// Makes it from a gate, the number of its passes that are seats, their posts, and their rooms.
    pub fn new(gate: Gate<S>, seats: u8, posts: Posts, rooms: Rooms<T>) -> CountedGate<S, T>
        requires count { seats ≤ gate.passes }
        requires some { 0 < seats }
        requires posts { posts ≡ seats }
        ensures { result ≡ record { gate = gate.gate; seats = seats; passes = gate.passes } }
    {
        CountedGate {
            gate,
            seats,
            posts,
            rooms,
        }
    }

    /// The gate alone. It has a seat, and a pass for each.
    pub fn into_gate(self) -> Gate<S>
        ensures gate { (result.gate ≡ self.gate) × (result.passes ≡ self.passes) }
        ensures some { (0 < self.seats) × (self.seats ≤ self.passes) }
    {
        let CountedGate {
            gate,
            seats: _,
            posts: _,
            rooms: _,
        } = self;
        gate
    }

    /// Gives the state back and ends the turn, as [`Gate::leave`] does. Then leaves a token for each of these seats but that of
    /// the turn.
    pub(crate) fn leave<R: Wait>(&self, rt: &R, turn: Turn<S>, told: ResourceSet) -> Pass<S>
        requires gate { turn.pass.gate ≡ self.now.gate }
        requires opening { turn.pass.opening ≡ Some (S.opening turn.state) }
        requires entries { Appends S.number turn.pass.number turn.pass.seen (S.entries turn.state) }
        requires others { (found : S) → turn.found ≡ Some found → KeepsOthers S.stays turn.pass.number found turn.state }
        ensures { result ≡ left turn.pass (S.entries turn.state) turn.state }
    {
        let pass = self.gate.leave(turn);
        self.posts.put(rt, told, pass.number());
        pass
    }

    /// Takes a token of the seat with this number; waits if there is none.
    pub(crate) fn rest<R: Wait>(&self, rt: &R, number: u8)
        requires { number < self.now.seats }
    {
        self.posts.rest(rt, number);
    }

    /// Takes the room of the seat with this number, if it has one.
    pub(crate) fn take_room<R: Wait>(&self, rt: &R, number: u8) -> Option<Room<T>> {
        self.rooms.take(rt, number)
    }

    /// Puts the room of the seat with this number back.
    pub(crate) fn put_room<R: Wait>(&self, rt: &R, number: u8, room: Room<T>) {
        self.rooms.put(rt, number, room);
    }
}
