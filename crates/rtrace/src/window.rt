// What was read of a source and not yet taken.
ghost use Rattle.std.specs.Prelude.{◌≡◌, ◌≢◌, ◌≤◌, ◌<◌, ◌+◌, ◌++◌, ◌∷◌, [], ℕ, List, length, take, drop, Some, IfOk, IfErr, IfSome, OnOk, OnErr, IsErrOf, true, false};
ghost use Rattle.io_ends.specs.Faults.{Rose};
ghost use Rattle.io_ends.specs.declared.reading.ReadErr.TheVariants.{ReadFault};
ghost use Rattle.rtrace.specs.Coming.{Came, HasEnded, BreaksOff};
ghost use Rattle.rshort.specs.Cut.{IsShortened, MayBeCut};
ghost use Rattle.rtrace.specs.Windows.{held, IsSound, Gains};

use io_ends::{Failed, ReadErr, Source};
use rshort::{cut_place, shorten};
use std::alloc::{AllocError, Global};

/// How many bytes a window has at first.
const WINDOW: usize = 65_536;

/// What was read of a source and not yet taken, in the front of a buffer.
#[derive(Drop)]
pub(crate) struct Window {
    pub(crate) bytes: Vec<u8>,
    pub(crate) filled: usize,
    /// How many bytes were taken from the source, and how many may be.
    pub(crate) taken: u64,
    pub(crate) limit: u64,
}

impl Window {
    /// Nothing was read of a source, of which so many bytes may be taken. No memory is taken.
    pub(crate) fn new(alloc: Global, limit: u64) -> Window
        ensures held { held result ≡ [] }
        ensures taken { result.taken ≡ 0 }
        ensures limit { result.limit ≡ limit }
        ensures sound { IsSound result }
    {
        Window {
            bytes: Vec::new(alloc),
            filled: 0,
            taken: 0,
            limit,
        }
    }

    /// Reads until the window is full or the source has ended, and answers whether it has.
    ///
    /// # Errors
    ///
    /// The source failed, a byte above the limit was taken, or memory ran out.
    pub(crate) fn fill<S: Source>(&mut self, source: &mut S) -> Result<bool, ReadErr>
        requires { IsSound self.old }
        ensures gained { IfOk result (λ _. (piece : List ℕ) × Gains self.old self.new piece × Came (S.left source.old) (S.left source.new) piece) }
        ensures ended { IfOk result (λ ended. ended ≡ true → HasEnded (S.left source.old) (S.left source.new)) }
        ensures further { IfOk result (λ ended. ended ≡ false → self.old.taken < self.new.taken) }
        ensures room { IfOk result (λ _. 0 < length self.new.bytes.items) }
        ensures broken { IfErr result (λ e. BreaksOff e (S.left source.old) (S.left source.new) self.old.taken self.old.limit) }
        ensures fault { IsErrOf result ReadErr.ReadFault → Rose (S.faults source.old) (S.faults source.new) }
        ensures quiet { ¬ IsErrOf result ReadErr.ReadFault → S.faults source.new ≡ S.faults source.old }
        ensures calm { OnOk result (S.faults source.new ≡ S.faults source.old) }
        ensures counted { S.faults source.old ≤ S.faults source.new }
    {
        lengthen(&mut self.bytes, self.filled)?;
        while self.filled < self.bytes.len() {
            match self.read(source) {
                Ok(0) => return Ok(true),
                Ok(_) => {}
                Err(e) => return Err(e),
            }
        }
        Ok(false)
    }

    /// Reads the rest of the source, and holds nothing of it.
    ///
    /// # Errors
    ///
    /// The source failed, or a byte above the limit was taken.
    pub(crate) fn drain<S: Source>(&mut self, source: &mut S) -> Result<(), ReadErr>
        requires sound { IsSound self.old }
        requires room { 0 < length self.old.bytes.items }
        ensures came { OnOk result ((piece : List ℕ) × Came (S.left source.old) (S.left source.new) piece × (self.old.taken + length piece ≤ self.old.limit)) }
        ensures ended { OnOk result (HasEnded (S.left source.old) (S.left source.new)) }
        ensures broken { IfErr result (λ e. BreaksOff e (S.left source.old) (S.left source.new) self.old.taken self.old.limit) }
        ensures fault { IsErrOf result ReadErr.ReadFault → Rose (S.faults source.old) (S.faults source.new) }
        ensures quiet { ¬ IsErrOf result ReadErr.ReadFault → S.faults source.new ≡ S.faults source.old }
        ensures calm { OnOk result (S.faults source.new ≡ S.faults source.old) }
        ensures counted { S.faults source.old ≤ S.faults source.new }
    {
        self.filled = 0;
        loop {
            match self.read(source) {
                Ok(0) => return Ok(()),
                Ok(_) => self.filled = 0,
                Err(e) => return Err(e),
            }
        }
    }

    // Reads once, after what is held, and answers how many bytes came: none exactly at the end.
    fn read<S: Source>(&mut self, source: &mut S) -> Result<usize, ReadErr>
        requires sound { IsSound self.old }
        requires room { self.old.filled < length self.old.bytes.items }
        ensures gained { IfOk result (λ n. (piece : List ℕ) × Gains self.old self.new piece × Came (S.left source.old) (S.left source.new) piece × (length piece ≡ n)) }
        ensures filled { IfOk result (λ n. self.new.filled ≡ self.old.filled + n) }
        ensures ended { IfOk result (λ n. n ≡ 0 → HasEnded (S.left source.old) (S.left source.new)) }
        ensures room { length self.new.bytes.items ≡ length self.old.bytes.items }
        ensures broken { IfErr result (λ e. BreaksOff e (S.left source.old) (S.left source.new) self.old.taken self.old.limit) }
        ensures fault { IsErrOf result ReadErr.ReadFault → Rose (S.faults source.old) (S.faults source.new) }
        ensures quiet { ¬ IsErrOf result ReadErr.ReadFault → S.faults source.new ≡ S.faults source.old }
        ensures calm { OnOk result (S.faults source.new ≡ S.faults source.old) }
        ensures counted { S.faults source.old ≤ S.faults source.new }
    {
        let spare = self.limit - self.taken;
        let room = (self.bytes.len() - self.filled) as u64;
        let most = room.min(spare.saturating_add(1)) as usize;
        let given = read_into(source, &mut self.bytes, self.filled, most)?;
        if given as u64 > spare {
            return Err(ReadErr::TooLong);
        }
        self.filled += given;
        self.taken += given as u64;
        Ok(given)
    }

    /// Where the beginning of what is held may be cut off: before the last end of a record that is found in it.
    pub(crate) fn cut(&self) -> Option<usize>
        requires { IsSound self.now }
        ensures within { IfSome result (λ cut. cut ≤ self.now.filled) }
        ensures cut { IfSome result (MayBeCut (held self.now)) }
    {
        cut_place(&self.bytes[..self.filled])
    }

    /// Makes what is held shorter, where no record ends in it and at least half of it cannot change what the record means.
    ///
    /// # Errors
    ///
    /// Out of memory.
    pub(crate) fn shorten(&mut self, alloc: Global) -> Result<(), AllocError>
        requires { IsSound self.old }
        ensures held { IsShortened (held self.old) (held self.new) }
        ensures sound { IsSound self.new }
        ensures same { (self.new.taken ≡ self.old.taken) × (self.new.limit ≡ self.old.limit) }
        ensures room { length self.new.bytes.items ≡ length self.old.bytes.items }
    {
        let Some(short) = shorten(alloc, &self.bytes[..self.filled])? else {
            return Ok(());
        };
        // Where less is left out the window grows instead, so that each byte is looked at only a few times.
        if short.len() > self.filled / 2 {
            return Ok(());
        }
        put_front(&mut self.bytes, &short);
        self.filled = short.len();
        Ok(())
    }

    /// Holds no more what stands in front of the cut.
    pub(crate) fn cut_off(&mut self, cut: usize)
        requires sound { IsSound self.old }
        requires within { cut ≤ self.old.filled }
        ensures held { held self.new ≡ drop cut (held self.old) }
        ensures sound { IsSound self.new }
        ensures same { (self.new.taken ≡ self.old.taken) × (self.new.limit ≡ self.old.limit) }
        ensures room { length self.new.bytes.items ≡ length self.old.bytes.items }
    {
        self.bytes.copy_within(cut..self.filled, 0);
        self.filled -= cut;
    }
}

// Makes the bytes longer than what is filled, by as much again, if they are not.
fn lengthen(bytes: &mut Vec<u8>, filled: usize) -> Result<(), AllocError>
    requires { filled ≤ length bytes.old.items }
    ensures front { take filled bytes.new.items ≡ take filled bytes.old.items }
    ensures room { OnOk result (filled < length bytes.new.items) }
    ensures longer { length bytes.old.items ≤ length bytes.new.items }
{
    if filled < bytes.len() {
        return Ok(());
    }
    let longer = filled.checked_add(filled.max(WINDOW)).ok_or(AllocError)?;
    bytes.resize(longer, 0)
}

// Writes bytes over the beginning of the buffer.
fn put_front(buffer: &mut [u8], bytes: &[u8])
    requires { length bytes.now ≤ length buffer.old }
    ensures front { take (length bytes.now) buffer.new ≡ bytes.now }
    ensures len { length buffer.new ≡ length buffer.old }
{
    buffer[..bytes.len()].copy_from_slice(bytes);
}

// One read of so many bytes at most into the buffer, from a place on.
fn read_into<S: Source>(
    source: &mut S,
    buffer: &mut [u8],
    from: usize,
    most: usize,
) -> Result<usize, Failed>
    requires within { from + most ≤ length buffer.old }
    requires some { 0 < most }
    ensures front { take from buffer.new ≡ take from buffer.old }
    ensures most { IfOk result (λ n. n ≤ most) }
    ensures len { length buffer.new ≡ length buffer.old }
    ensures came { IfOk result (λ n. Came (S.left source.old) (S.left source.new) (take n (drop from buffer.new))) }
    ensures ended { IfOk result (λ n. n ≡ 0 → HasEnded (S.left source.old) (S.left source.new)) }
    ensures quiet { OnOk result (S.faults source.new ≡ S.faults source.old) }
    ensures failed { OnErr result (Rose (S.faults source.old) (S.faults source.new)) }
    ensures kept { OnErr result (S.left source.new ≡ S.left source.old) }
    ensures counted { S.faults source.old ≤ S.faults source.new }
{
    source.read(&mut buffer[from..from + most])
}
