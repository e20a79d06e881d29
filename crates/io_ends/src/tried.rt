// A device of the standard library, with counts of what it answered so far.
//
// The device and the counts are private to this file: only `call_read` and `call_write` call the device, and each call is
// counted by what it answers. So the clauses on the counts show that the loops that try again hide no fault, take no
// interruption for a fault and no fault for an interruption, and make no call after one that was answered. No clause can
// say that the answer is the device's own.
ghost use Rattle.std.specs.Prelude.{◌≡◌, ◌==◌, true, length};
ghost use Rattle.std.specs.Io.{ReadsAtMost, WritesAtMost};
ghost use Rattle.std.specs.Io.KnownBytes.{ReadConsumes, WriteAppends};
ghost use Rattle.io_ends.specs.Tries.{IsCounted, told_of, tries_of};

use std::io;
use std::io::{ErrorKind, Read, Write};

// A device, and how often it answered with a fault, with an interruption, and with neither. A count stops at 2^64 - 1, and
// a device that was interrupted that often is not tried any more.
#[derive(Drop)]
pub(crate) struct Tried<D> {
    device: D,
    faults: u64,
    interruptions: u64,
    answers: u64,
}

// What an answer says. That no bytes went through is an error, unless it is allowed.
pub(crate) fn told_of(may_be_none: bool, answer: io::Result<usize>) -> Result<usize, ErrorKind>
    ensures { result ≡ told_of may_be_none answer }
{
    match answer {
        Ok(n) => {
            if may_be_none || n > 0 {
                Ok(n)
            } else {
                Err(ErrorKind::WriteZero)
            }
        }
        Err(e) => Err(e.kind()),
    }
}

impl<D> Tried<D> {
    pub(crate) fn new(device: D) -> Tried<D>
        ensures { result ≡ record { device = device; faults = 0; interruptions = 0; answers = 0 } }
    {
        Tried {
            device,
            faults: 0,
            interruptions: 0,
            answers: 0,
        }
    }

    pub(crate) fn interruptions(&self) -> u64
        ensures { result ≡ self.now.interruptions }
    {
        self.interruptions
    }

    // Counts what the device answered.
    fn count(&mut self, told: Result<usize, ErrorKind>)
        ensures device { self.new.device ≡ self.old.device }
        ensures counted { IsCounted told (tries_of self.old) (tries_of self.new) }
    {
        let kind = match told {
            Ok(_) => {
                self.answers = self.answers.saturating_add(1);
                return;
            }
            Err(kind) => kind,
        };
        if kind == ErrorKind::Interrupted {
            self.interruptions = self.interruptions.saturating_add(1);
        } else {
            self.faults = self.faults.saturating_add(1);
        }
    }
}

impl<R: Read> Tried<R> {
    // One call of the reader, counted by its answer, which is passed on.
    pub(crate) fn call_read(&mut self, buf: &mut [u8]) -> io::Result<usize>
        ensures bound { ReadsAtMost result buf.new }
        ensures bytes { ReadConsumes (R.remaining self.old.device) (R.remaining self.new.device) result buf.new }
        ensures counted { IsCounted (told_of true result) (tries_of self.old) (tries_of self.new) }
    {
        let answer = self.device.read(buf);
        self.count(told_of(true, answer));
        answer
    }
}

impl<W: Write> Tried<W> {
    // One call of the writer, counted by its answer, which is passed on.
    pub(crate) fn call_write(&mut self, piece: &[u8]) -> io::Result<usize>
        ensures bound { WritesAtMost result piece.now }
        ensures bytes { WriteAppends (W.contents self.old.device) (W.contents self.new.device) result piece.now }
        ensures counted { IsCounted (told_of (length piece.now == 0) result) (tries_of self.old) (tries_of self.new) }
    {
        let answer = self.device.write(piece);
        self.count(told_of(piece.is_empty(), answer));
        answer
    }
}
