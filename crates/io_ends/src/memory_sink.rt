// A sink in memory.
ghost use Rattle.std.specs.Prelude.{◌≡◌, ◌≤◌, ◌<◌, ◌-◌, ◌↔◌, ◌⊎◌, [], length, min, Some, None, IfOk, OnOk, OnErr, IsErr, is_err, if◌then◌else◌};
ghost use Rattle.io_ends.specs.Faults.{Rose, one_more};
ghost use Rattle.io_ends.specs.Ends.{Takes};
ghost use Rattle.io_ends.specs.Memory.{SinkContent, NextFails, at_most};

use crate::calls::{Calls, at_most};
use crate::{Failed, Sink};
use std::alloc::{AllocError, Global};
use std::marker::Model;

/// A sink in memory whose chosen writes fail. All its room is reserved at the start.
#[derive(Drop)]
pub struct MemSink {
    bytes: Vec<u8>,
    room: usize,
    most: Option<usize>,
    calls: Calls,
}

impl Model for MemSink {
    ghost use Rattle.std.specs.Prelude.{◌≤◌, vec_len, vec_capacity};
    ghost use Rattle.io_ends.specs.Memory.{SinkContent, GoesOn};

    ghost Value = { SinkContent };

    ghost view = { λ s. record { written = s.bytes.items; room = s.room; most = s.most; calls = s.calls.made; fails = s.calls.fails.items; faults = s.calls.faults } };

    ghost invariant = { λ s. (vec_len s.bytes ≤ s.room) × (s.room ≤ vec_capacity s.bytes) × GoesOn s.most };
}

impl MemSink {
    /// An empty sink for `room` bytes. Its writes are numbered from 1, and those whose number is
    /// in `fails` fail; so does every write to a full sink. The room is reserved here, so no
    /// write takes memory.
    ///
    /// # Errors
    ///
    /// Out of memory.
    pub fn new(alloc: Global, room: usize, fails: Vec<u64>) -> Result<MemSink, AllocError>
        ensures { IfOk result (λ s. s ≡ record { written = []; room = room; most = None; calls = 0; fails = fails.items; faults = 0 }) }
    {
        Ok(MemSink {
            bytes: Vec::with_capacity(alloc, room)?,
            room,
            most: None,
            calls: Calls::new(fails),
        })
    }

    /// The same, but each write takes at most `most` bytes, which is at least one.
    ///
    /// # Errors
    ///
    /// Out of memory.
    pub fn short(
        alloc: Global,
        room: usize,
        fails: Vec<u64>,
        most: usize,
    ) -> Result<MemSink, AllocError>
        requires { 1 ≤ most }
        ensures { IfOk result (λ s. s ≡ record { written = []; room = room; most = Some most; calls = 0; fails = fails.items; faults = 0 }) }
    {
        Ok(MemSink {
            bytes: Vec::with_capacity(alloc, room)?,
            room,
            most: Some(most),
            calls: Calls::new(fails),
        })
    }

    /// The bytes that were written.
    pub fn written(&self) -> &[u8]
        ensures { result.now ≡ self.now.written }
    {
        &self.bytes
    }
}

impl Sink for MemSink {
    ghost written = { λ s. Some s.written };

    ghost faults = { λ s. s.faults };

    fn write(&mut self, piece: &[u8]) -> Result<usize, Failed>
        ensures taken { IfOk result (Takes (Some self.old.written) (Some self.new.written) piece.now) }
        ensures quiet { OnOk result (self.new.faults ≡ self.old.faults) }
        ensures failed { OnErr result (Rose self.old.faults self.new.faults) }
        ensures kept { OnErr result (Some self.new.written ≡ Some self.old.written) }
        ensures counted { self.old.faults ≤ self.new.faults }

        // It fails exactly where it has to or the room is full; otherwise it takes what there is room for, or what goes through in one write.
        ensures fails { IsErr result ↔ (NextFails self.old.calls self.old.fails
            ⊎ ((0 < length piece.now) × (length self.old.written ≡ self.old.room))) }
        ensures most { IfOk result (λ n. n ≡ min (at_most self.old.most (length piece.now)) (self.old.room - length self.old.written)) }

        ensures calls { self.new.calls ≡ one_more self.old.calls }
        ensures faults { self.new.faults ≡ (if is_err result then one_more self.old.faults else self.old.faults) }
        ensures plan { self.new.fails ≡ self.old.fails }
        ensures room { self.new.room ≡ self.old.room }
        ensures limit { self.new.most ≡ self.old.most }
    {
        let free = self.room - self.bytes.len();
        let is_full = free == 0 && !piece.is_empty();
        if self.calls.begin() || is_full {
            return Err(self.calls.fail());
        }
        let n = at_most(self.most, piece.len()).min(free);
        self.bytes.extend_from_slice(&piece[..n]).unwrap();
        Ok(n)
    }
}
