// A source over bytes in memory.
ghost use Rattle.std.specs.Prelude.{◌≡◌, ◌≤◌, ◌↔◌, ◌++◌, length, min, take, drop, Some, None, IfOk, OnOk, OnErr, IsErr, is_err, if◌then◌else◌};
ghost use Rattle.io_ends.specs.Faults.{Rose, one_more};
ghost use Rattle.io_ends.specs.Ends.{Gives};
ghost use Rattle.io_ends.specs.Memory.{SourceContent, NextFails, at_most};

use crate::calls::{Calls, at_most};
use crate::{Failed, Source};
use std::marker::Model;

/// A source over bytes in memory whose chosen reads fail. It gives as many bytes as the
/// buffer holds, or as go through in one read.
#[derive(Drop)]
pub struct MemSource {
    bytes: Vec<u8>,
    next: usize,
    most: Option<usize>,
    calls: Calls,
}

impl Model for MemSource {
    ghost use Rattle.std.specs.Prelude.{◌≤◌, length, drop};
    ghost use Rattle.io_ends.specs.Memory.{SourceContent, GoesOn};

    ghost Value = { SourceContent };

    ghost view = { λ s. record { left = drop s.next s.bytes.items; most = s.most; calls = s.calls.made; fails = s.calls.fails.items; faults = s.calls.faults } };

    ghost invariant = { λ s. (s.next ≤ length s.bytes.items) × GoesOn s.most };
}

impl MemSource {
    /// A source that has `bytes` left. Its reads are numbered from 1, and those whose number is
    /// in `fails` fail.
    pub fn new(bytes: Vec<u8>, fails: Vec<u64>) -> MemSource
        ensures { result ≡ record { left = bytes.items; most = None; calls = 0; fails = fails.items; faults = 0 } }
    {
        MemSource {
            bytes,
            next: 0,
            most: None,
            calls: Calls::new(fails),
        }
    }

    /// The same, but each read gives at most `most` bytes, which is at least one.
    pub fn short(bytes: Vec<u8>, fails: Vec<u64>, most: usize) -> MemSource
        requires { 1 ≤ most }
        ensures { result ≡ record { left = bytes.items; most = Some most; calls = 0; fails = fails.items; faults = 0 } }
    {
        MemSource {
            bytes,
            next: 0,
            most: Some(most),
            calls: Calls::new(fails),
        }
    }
}

impl Source for MemSource {
    ghost left = { λ s. Some s.left };

    ghost faults = { λ s. s.faults };

    fn read(&mut self, buf: &mut [u8]) -> Result<usize, Failed>
        ensures given { IfOk result (Gives (Some self.old.left) (Some self.new.left) buf.old buf.new) }
        ensures quiet { OnOk result (self.new.faults ≡ self.old.faults) }
        ensures failed { OnErr result (Rose self.old.faults self.new.faults) }
        ensures kept { OnErr result (Some self.new.left ≡ Some self.old.left) }
        ensures counted { self.old.faults ≤ self.new.faults }

        // It fails exactly where it has to; otherwise it fills the buffer as far as the bytes go, or as many as go through in one read.
        ensures fails { IsErr result ↔ NextFails self.old.calls self.old.fails }
        ensures most { IfOk result (λ n. n ≡ min (at_most self.old.most (length buf.old)) (length self.old.left)) }
        ensures buffer_kept { OnErr result (buf.new ≡ buf.old) }

        ensures calls { self.new.calls ≡ one_more self.old.calls }
        ensures faults { self.new.faults ≡ (if is_err result then one_more self.old.faults else self.old.faults) }
        ensures plan { self.new.fails ≡ self.old.fails }
        ensures limit { self.new.most ≡ self.old.most }
    {
        if self.calls.begin() {
            return Err(self.calls.fail());
        }
        let room = at_most(self.most, buf.len());
        let n = copy_front(&self.bytes[self.next..], buf, room);
        self.next += n;
        Ok(n)
    }
}

// Copies as many bytes as fit into this much room at the front of the buffer.
fn copy_front(bytes: &[u8], buf: &mut [u8], room: usize) -> usize
    requires { room ≤ length buf.old }
    ensures count { result ≡ min room (length bytes.now) }
    ensures copied { buf.new ≡ take result bytes.now ++ drop result buf.old }
{
    let n = room.min(bytes.len());
    buf[..n].copy_from_slice(&bytes[..n]);
    n
}
