// A writer of the standard library as a sink.
ghost use Rattle.std.specs.Prelude.{◌≡◌, ◌≢◌, ◌≤◌, ◌<◌, ◌-◌, ◌^◌, ◌⊎◌, length, take, None, IfOk, IfErr, OnOk, OnErr, is_err};
ghost use Rattle.std.specs.Io.KnownBytes.{Appends, Keeps, WriteAppends};
ghost use Rattle.io_ends.specs.Faults.{Rose, one_more};
ghost use Rattle.io_ends.specs.Ends.{Takes};
ghost use Rattle.io_ends.specs.Tries.{IsTried, fault_count, untried};

use crate::tried::{Tried, told_of};
use crate::{Failed, Sink};
use std::io::{ErrorKind, Write};
use std::marker::Model;
use std::rt::Stdout;

/// A writer as a sink. An interrupted call is made again, and taking nothing of a piece that is not empty is a fault. As a
/// sink it leaves its bytes unknown. A contract sees the writer, and how often it answered with a fault, with an
/// interruption, and with neither. Nothing is buffered here: what `write` took was handed to the writer.
#[derive(Drop)]
pub struct WriterSink<W: Write> {
    writer: Tried<W>,
}

impl<W: Write> Model for WriterSink<W> {
    ghost use Rattle.std.specs.Prelude.{◌<◌, ◌^◌};
    ghost use Rattle.io_ends.specs.Tries.{TriedDevice, tries_of};

    ghost Value = { TriedDevice W };

    ghost view = { λ s. record { device = s.writer.device; tries = tries_of s.writer } };

    ghost invariant = { λ s. (s.writer.faults < 2 ^ 64) × (s.writer.interruptions < 2 ^ 64) };
}

impl<W: Write> WriterSink<W> {
    /// A writer that was not called yet.
    pub fn new(writer: W) -> WriterSink<W>
        ensures { result ≡ record { device = writer; tries = untried } }
    {
        WriterSink {
            writer: Tried::new(writer),
        }
    }
}

impl<W: Write> Sink for WriterSink<W> {
    ghost written = { λ _. None };

    ghost faults = { λ s. fault_count s.tries };

    fn write(&mut self, piece: &[u8]) -> Result<usize, Failed>
        ensures taken { IfOk result (Takes None None piece.now) }
        ensures quiet { OnOk result (fault_count self.new.tries ≡ fault_count self.old.tries) }
        ensures failed { OnErr result (Rose (fault_count self.old.tries) (fault_count self.new.tries)) }
        ensures counted { fault_count self.old.tries ≤ fault_count self.new.tries }
        ensures cause { IsTried (is_err result) self.old.tries self.new.tries }

        // Where the writer's bytes are known: it appended what it answers, and nothing with a failure.
        ensures appended { IfOk result (λ n. Appends (W.contents self.old.device) (W.contents self.new.device) (take n piece.now)) }
        ensures unchanged { OnErr result (Keeps (W.contents self.old.device) (W.contents self.new.device)) }
    {
        self.writer.write(piece)
    }
}

/// Standard output.
pub type StdoutSink = WriterSink<Stdout>;

impl<W: Write> Tried<W> {
    // One call of the writer, and what it answered. Taking nothing of a piece that is not empty is an error.
    fn write_once(&mut self, piece: &[u8]) -> Result<usize, ErrorKind>
        ensures bound { IfOk result (λ n. n ≤ length piece.now) }
        ensures some { IfOk result (λ n. 0 < length piece.now → 1 ≤ n) }
        ensures bytes { WriteAppends (W.contents self.old.device) (W.contents self.new.device) result piece.now }
        ensures quiet { OnOk result ((self.new.faults ≡ self.old.faults) × (self.new.interruptions ≡ self.old.interruptions) × (self.new.answers ≡ one_more self.old.answers)) }
        ensures interrupted { IfErr result (λ kind. kind ≡ ErrorKind.Interrupted → (self.new.faults ≡ self.old.faults) × (self.new.interruptions ≡ one_more self.old.interruptions) × (self.new.answers ≡ self.old.answers)) }
        ensures fault { IfErr result (λ kind. kind ≢ ErrorKind.Interrupted → (self.new.faults ≡ one_more self.old.faults) × (self.new.interruptions ≡ self.old.interruptions) × (self.new.answers ≡ self.old.answers)) }
    {
        told_of(piece.is_empty(), self.call_write(piece))
    }

    // A write, tried until it is not interrupted.
    pub(crate) fn write(&mut self, piece: &[u8]) -> Result<usize, Failed>
        requires counts { (self.old.faults < 2 ^ 64) × (self.old.interruptions < 2 ^ 64) }
        ensures bound { IfOk result (λ n. n ≤ length piece.now) }
        ensures some { IfOk result (λ n. 0 < length piece.now → 1 ≤ n) }
        ensures taken { IfOk result (λ n. Appends (W.contents self.old.device) (W.contents self.new.device) (take n piece.now)) }
        ensures kept { OnErr result (Keeps (W.contents self.old.device) (W.contents self.new.device)) }
        ensures quiet { OnOk result ((self.new.faults ≡ self.old.faults) × (self.new.interruptions < 2 ^ 64 - 1)) }
        ensures failed { OnErr result (((self.new.faults ≡ one_more self.old.faults) × (self.new.interruptions < 2 ^ 64 - 1))
            ⊎ (self.new.interruptions ≡ 2 ^ 64 - 1)) }
        ensures once { OnOk result (self.new.answers ≡ one_more self.old.answers) }
        ensures unanswered { OnErr result (self.new.answers ≡ self.old.answers) }
        ensures more { self.old.interruptions ≤ self.new.interruptions }
        ensures counts { (self.new.faults < 2 ^ 64) × (self.new.interruptions < 2 ^ 64) }
    {
        while self.interruptions() < u64::MAX {
            match self.write_once(piece) {
                Ok(n) => return Ok(n),
                Err(ErrorKind::Interrupted) => {}
                Err(_) => return Err(Failed),
            }
        }
        Err(Failed)
    }
}
