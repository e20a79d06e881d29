// A reader of the standard library as a source.
ghost use Rattle.std.specs.Prelude.{◌≡◌, ◌≢◌, ◌≤◌, ◌<◌, ◌-◌, ◌^◌, ◌⊎◌, length, take, None, IfOk, IfErr, OnOk, OnErr, is_err};
ghost use Rattle.std.specs.Io.KnownBytes.{Consumes, IsAtEnd, Keeps, ReadConsumes};
ghost use Rattle.io_ends.specs.Faults.{Rose, one_more};
ghost use Rattle.io_ends.specs.Ends.{Gives};
ghost use Rattle.io_ends.specs.Tries.{IsTried, fault_count, untried};

use crate::tried::Tried;
use crate::{Failed, Source};
use std::io::{ErrorKind, Read};
use std::marker::Model;
use std::rt::Stdin;

/// A reader as a source. An interrupted call is made again. As a source it leaves its bytes unknown. A contract sees the reader, and how
/// often it answered with a fault, with an interruption, and with neither.
#[derive(Drop)]
pub struct ReaderSource<R: Read> {
    reader: Tried<R>,
}

impl<R: Read> Model for ReaderSource<R> {
    ghost use Rattle.std.specs.Prelude.{◌<◌, ◌^◌};
    ghost use Rattle.io_ends.specs.Tries.{TriedDevice, tries_of};

    ghost Value = { TriedDevice R };

    ghost view = { λ s. record { device = s.reader.device; tries = tries_of s.reader } };

    ghost invariant = { λ s. (s.reader.faults < 2 ^ 64) × (s.reader.interruptions < 2 ^ 64) };
}

impl<R: Read> ReaderSource<R> {
    /// A reader that was not called yet.
    pub fn new(reader: R) -> ReaderSource<R>
        ensures { result ≡ record { device = reader; tries = untried } }
    {
        ReaderSource {
            reader: Tried::new(reader),
        }
    }
}

impl<R: Read> Source for ReaderSource<R> {
    ghost left = { λ _. None };

    ghost faults = { λ s. fault_count s.tries };

    fn read(&mut self, buf: &mut [u8]) -> Result<usize, Failed>
        ensures given { IfOk result (Gives None None buf.old buf.new) }
        ensures quiet { OnOk result (fault_count self.new.tries ≡ fault_count self.old.tries) }
        ensures failed { OnErr result (Rose (fault_count self.old.tries) (fault_count self.new.tries)) }
        ensures counted { fault_count self.old.tries ≤ fault_count self.new.tries }
        ensures cause { IsTried (is_err result) self.old.tries self.new.tries }

        // Where the reader's bytes are known: it gave what it answers, and nothing with a failure; 0 is the end.
        ensures consumed { IfOk result (λ n. Consumes (R.remaining self.old.device) (R.remaining self.new.device) (take n buf.new)) }
        ensures end { IfOk result (λ n. n ≡ 0 → 0 < length buf.old → IsAtEnd (R.remaining self.new.device)) }
        ensures unchanged { OnErr result (Keeps (R.remaining self.old.device) (R.remaining self.new.device)) }
    {
        self.reader.read(buf)
    }
}

/// Standard input.
pub type StdinSource = ReaderSource<Stdin>;

impl<R: Read> Tried<R> {
    // One call of the reader, and what it answered.
    fn read_once(&mut self, buf: &mut [u8]) -> Result<usize, ErrorKind>
        ensures bound { IfOk result (λ n. n ≤ length buf.old) }
        ensures bytes { ReadConsumes (R.remaining self.old.device) (R.remaining self.new.device) result buf.new }
        ensures quiet { OnOk result ((self.new.faults ≡ self.old.faults) × (self.new.interruptions ≡ self.old.interruptions) × (self.new.answers ≡ one_more self.old.answers)) }
        ensures interrupted { IfErr result (λ kind. kind ≡ ErrorKind.Interrupted → (self.new.faults ≡ self.old.faults) × (self.new.interruptions ≡ one_more self.old.interruptions) × (self.new.answers ≡ self.old.answers)) }
        ensures fault { IfErr result (λ kind. kind ≢ ErrorKind.Interrupted → (self.new.faults ≡ one_more self.old.faults) × (self.new.interruptions ≡ self.old.interruptions) × (self.new.answers ≡ self.old.answers)) }
    {
        match self.call_read(buf) {
            Ok(n) => Ok(n),
            Err(e) => Err(e.kind()),
        }
    }

    // A read, tried until it is not interrupted. Where the reader's bytes are known, the clauses say that no failure is answered as the end.
    pub(crate) fn read(&mut self, buf: &mut [u8]) -> Result<usize, Failed>
        requires counts { (self.old.faults < 2 ^ 64) × (self.old.interruptions < 2 ^ 64) }
        ensures bound { IfOk result (λ n. n ≤ length buf.old) }
        ensures given { IfOk result (λ n. Consumes (R.remaining self.old.device) (R.remaining self.new.device) (take n buf.new)) }
        ensures end { IfOk result (λ n. n ≡ 0 → 0 < length buf.old → IsAtEnd (R.remaining self.new.device)) }
        ensures kept { OnErr result (Keeps (R.remaining self.old.device) (R.remaining self.new.device)) }
        ensures quiet { OnOk result ((self.new.faults ≡ self.old.faults) × (self.new.interruptions < 2 ^ 64 - 1)) }
        ensures failed { OnErr result (((self.new.faults ≡ one_more self.old.faults) × (self.new.interruptions < 2 ^ 64 - 1))
            ⊎ (self.new.interruptions ≡ 2 ^ 64 - 1)) }
        ensures once { OnOk result (self.new.answers ≡ one_more self.old.answers) }
        ensures unanswered { OnErr result (self.new.answers ≡ self.old.answers) }
        ensures more { self.old.interruptions ≤ self.new.interruptions }
        ensures counts { (self.new.faults < 2 ^ 64) × (self.new.interruptions < 2 ^ 64) }
    {
        while self.interruptions() < u64::MAX {
            match self.read_once(buf) {
                Ok(n) => return Ok(n),
                Err(ErrorKind::Interrupted) => {}
                Err(_) => return Err(Failed),
            }
        }
        Err(Failed)
    }
}
