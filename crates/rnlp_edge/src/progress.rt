// A source that reports how far it was read.
ghost use Rattle.std.specs.Prelude.{◌≡◌, ◌≤◌, ◌+◌, ◌-◌, ◌^◌, ◌&&◌, min, IfOk, OnOk, OnErr, if◌then◌else◌};
ghost use Rattle.io_ends.specs.Ends.{Gives};
ghost use Rattle.io_ends.specs.Faults.{Rose};
ghost use Rattle.rnlp_edge.specs.Progress.{is_due};

use io_ends::{Failed, Source};

// How many bytes are read between two reports: more than any input may have but a long report.
const STEP: u64 = 1 << 27;

const _: () = prove!(STEP == 134_217_728);

/// A source that passes on what another gives, and on a terminal reports how many bytes were read: after each further
/// 128 MiB, and at the end of an input that long. Its contract as a source is that of the other one.
#[derive(Drop)]
pub struct Progress<'a, R: Eprint, S: Source + Drop> {
    rt: &'a R,
    source: S,
    on_terminal: bool,
    // How many bytes were read, and how many the last report said.
    read: u64,
    told: u64,
}

impl<'a, R: Eprint, S: Source + Drop> Progress<'a, R, S> {
    /// A source that nothing was read from yet.
    pub fn new(rt: &'a R, source: S, on_terminal: bool) -> Progress<'a, R, S>
        ensures { (result.source ≡ source) × (result.on_terminal ≡ on_terminal) × (result.read ≡ 0) × (result.told ≡ 0) }
    {
        Progress {
            rt,
            source,
            on_terminal,
            read: 0,
            told: 0,
        }
    }

    // Counts bytes, and reports them if that is due. If standard error fails, nothing changes.
    fn count(&mut self, bytes: usize)
        ensures read { self.new.read ≡ min (self.old.read + bytes) (2 ^ 64 - 1) }
        ensures told { self.new.told ≡ (if is_due self.new.read self.old.told bytes then self.new.read else self.old.told) }
        ensures kept { self.new ≡ record self.old { read = self.new.read; told = self.new.told } }
    {
        self.read = self.read.saturating_add(bytes as u64);
        let more = self.read.saturating_sub(self.told) >= STEP;
        let ended = bytes == 0 && self.told > 0;
        if more || ended {
            self.told = self.read;
            let _ = self
                .rt
                .eprintln(format_args!("rnlp: {} bytes read", self.read));
        }
    }
}

impl<'a, R: Eprint, S: Source + Drop> Source for Progress<'a, R, S> {
    ghost left = { λ s. S.left s.source };

    ghost faults = { λ s. S.faults s.source };

    fn read(&mut self, buf: &mut [u8]) -> Result<usize, Failed>
        ensures given { IfOk result (Gives (S.left self.old.source) (S.left self.new.source) buf.old buf.new) }
        ensures quiet { OnOk result (S.faults self.new.source ≡ S.faults self.old.source) }
        ensures failed { OnErr result (Rose (S.faults self.old.source) (S.faults self.new.source)) }
        ensures kept { OnErr result (S.left self.new.source ≡ S.left self.old.source) }
        ensures counted { S.faults self.old.source ≤ S.faults self.new.source }

        // On a terminal the bytes given are counted, and reported if that is due.
        ensures noted { IfOk result (λ n. self.new.read ≡ (if self.old.on_terminal then min (self.old.read + n) (2 ^ 64 - 1) else self.old.read)) }
        ensures told { IfOk result (λ n. self.new.told ≡ (if self.old.on_terminal && is_due self.new.read self.old.told n then self.new.read else self.old.told)) }
        ensures unnoted { OnErr result ((self.new.read ≡ self.old.read) × (self.new.told ≡ self.old.told)) }
        ensures terminal { self.new.on_terminal ≡ self.old.on_terminal }
    {
        let given = self.source.read(buf)?;
        if self.on_terminal {
            self.count(given);
        }
        Ok(given)
    }
}
