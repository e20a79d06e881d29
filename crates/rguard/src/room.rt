//! What a seat keeps from one section to the next: empty lists, with the room that sections needed so far.
ghost use Rattle.std.specs.Prelude.{◌≡◌, ◌≤◌, [], OnOk};

use crate::copies::{NewShares, Own};
use crossbeam_utils::CachePadded;
use rstate::Lent;
use std::alloc::{AllocError, Global};
use std::marker::Model;
use std::sync::{Mutex, Wait};

/// The lists of a section in which nothing was done. Contracts see what is lent in it, and for how much there is room.
#[derive(Drop)]
pub struct Room<T> {
    pub(crate) lent: Lent<T>,
    pub(crate) own: Vec<Own<T>>,
    pub(crate) shares: NewShares<T>,
}

impl<T> Model for Room<T> {
    ghost use Rattle.std.specs.Prelude.{◌≡◌, []};
    ghost use Rattle.rstate.specs.Lent.{LentFields, lent_code};

    ghost Value = { LentFields T };

    ghost coded = { lent_code T.code };

    ghost view = { λ a. a.lent };

    ghost invariant = { λ a. a.own.items ≡ [] };
}

impl<T: Drop> Room<T> {
    /// A room that holds nothing yet.
    ///
    /// # Errors
    ///
    /// Out of memory.
    pub(crate) fn new(alloc: Global) -> Result<Room<T>, AllocError> {
        let lent = Lent::with_room(alloc, 0, 0)?;
        Ok(Room {
            lent,
            own: Vec::new(alloc),
            shares: NewShares::none(alloc),
        })
    }

    /// Drops what is lent in it, and makes room for so many resources to read, and for so many to write.
    ///
    /// # Errors
    ///
    /// Out of memory.
    pub(crate) fn prepare(&mut self, reads: usize, writes: usize) -> Result<(), AllocError>
        ensures none { (self.new.reads ≡ []) × (self.new.writes ≡ []) }
        ensures ok { OnOk result ((reads ≤ self.new.reads_room) × (writes ≤ self.new.writes_room)) }
    {
        self.lent.prepare(reads, writes)
    }
}

/// The rooms of the seats that are in no section, by their numbers.
#[derive(Drop)]
pub struct Rooms<T> {
    rooms: Vec<CachePadded<Mutex<Option<Room<T>>>>>,
}

impl<T: Drop> Rooms<T> {
    /// No room yet, for so many seats.
    ///
    /// # Errors
    ///
    /// Out of memory.
    pub(crate) fn new(alloc: Global, seats: u8) -> Result<Rooms<T>, AllocError> {
        let mut rooms = Vec::with_capacity(alloc, usize::from(seats))?;
        for _ in 0..seats {
            rooms.push(CachePadded::new(Mutex::new(None)))?;
        }
        Ok(Rooms { rooms })
    }

    /// Takes the room of the seat, if there is one.
    pub(crate) fn take<R: Wait>(&self, rt: &R, seat: u8) -> Option<Room<T>> {
        match self.rooms.get(usize::from(seat)) {
            Some(room) => room.lock(rt).take(),
            None => None,
        }
    }

    /// Puts the room of the seat back.
    pub(crate) fn put<R: Wait>(&self, rt: &R, seat: u8, room: Room<T>) {
        if let Some(place) = self.rooms.get(usize::from(seat)) {
            *place.lock(rt) = Some(room);
        }
    }
}
