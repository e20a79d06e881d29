// Feeding a taker from a source.
ghost use Rattle.std.specs.Prelude.{◌≡◌, ◌≤◌, ◌<◌, ◌+◌, ◌++◌, [], ℕ, List, Some, length, IfOk, IfErr, OnOk, IsErrOf, ◌≢◌};
ghost use Rattle.io_ends.specs.Faults.{Rose};
ghost use Rattle.io_ends.specs.Ends.{Took, TookAtMost};
ghost use Rattle.rtrace_form.specs.Takers.{IsFaultOf, StandsAt, HasTaken};
ghost use Rattle.rtrace_form.specs.declared.fault.Fault.{Fault};
ghost use Rattle.rtrace.specs.Coming.{Came, HasEnded, CameWhole};
ghost use Rattle.rtrace.specs.Errors.{IsBad, IsOfSource, IsOfText, StreamBreaksOff};
ghost use Rattle.rtrace.specs.Feeding.{IsFed, StandsBrokenOff};
ghost use Rattle.rtrace.specs.Windows.{held, IsSound};

use crate::error::{StreamErr, error_of, text_error_of};
use crate::shortened::Shortened;
use crate::window::Window;
use csv::ByteRecord;
use io_ends::Source;
use rtrace_form::{TextErr, end_at, take_part};
use std::alloc::Global;

/// Takes all records of the text that a source has left, or reports its first fault, and holds a window of the text. The
/// source is read to its end, of which at most one byte more than `limit` is taken; so a fault of the source, and that it is
/// too long, are reported before a fault of the text. At the end the taker knows that all records were taken.
///
/// Of a record that does not end within a window, what cannot change its meaning is left out: of a piece of a field all
/// after 20 bytes, of a set the pieces that say nothing new, of a record all after nine fields.
///
/// # Errors
///
/// The source failed, or had more than `limit` bytes: then the taker knows the first records of what came, or stands where
/// one of them was refused. How many it knows is not said: it may be none. The first fault of a text that is none of the
/// taker's kind, and then the taker stands where the faulty record would be due (`StandsAt`). Or memory ran out: then nothing
/// is said of the taker.
pub fn take_source<S: Source, T: Shortened>(
    alloc: Global,
    source: &mut S,
    limit: u64,
    taker: &mut T,
) -> Result<(), StreamErr<T::Code>>
    requires { T.knows taker.old [] }
    ensures taken { OnOk result ((text : List ℕ) × CameWhole (S.left source.old) (S.left source.new) text × HasTaken T.code T.is_done T.no_end T.knows text taker.new) }
    ensures bad { (fault : Fault T.Code) → result ≡ Err (StreamErr.Bad fault)
        → (text : List ℕ) × CameWhole (S.left source.old) (S.left source.new) text × IsFaultOf T.code T.is_done T.no_end text fault }
    ensures still { (fault : Fault T.Code) → result ≡ Err (StreamErr.Bad fault)
        → (text : List ℕ) × CameWhole (S.left source.old) (S.left source.new) text × StandsAt T.knows T.stays text fault.line taker.new }
    ensures broken { IfErr result (λ e. IsOfSource e → (text : List ℕ) × Came (S.left source.old) (S.left source.new) text × StandsBrokenOff T.knows T.stays text taker.new) }

    // A fault has its cause, and no fault goes unreported. `TooLong` is answered exactly where one byte above the limit was taken.
    ensures fault { IsErrOf result StreamErr.ReadFault → Rose (S.faults source.old) (S.faults source.new) }
    ensures quiet { ¬ IsErrOf result StreamErr.ReadFault → S.faults source.new ≡ S.faults source.old }
    ensures too_long { IsErrOf result StreamErr.TooLong → Took (S.left source.old) (S.left source.new) (limit + 1) }
    ensures within { ¬ IsErrOf result StreamErr.TooLong → TookAtMost (S.left source.old) (S.left source.new) limit }
    ensures counted { S.faults source.old ≤ S.faults source.new }
{
    let mut window = Window::new(alloc, limit);
    let mut fields = ByteRecord::new(alloc);
    feed(alloc, source, &mut window, &mut fields, taker)
}

// Reads window after window, and takes the records of each.
fn feed<S: Source, T: Shortened>(
    alloc: Global,
    source: &mut S,
    window: &mut Window,
    fields: &mut ByteRecord,
    taker: &mut T,
) -> Result<(), StreamErr<T::Code>>
    requires knows { T.knows taker.old [] }
    requires held { held window.old ≡ [] }
    requires taken { window.old.taken ≡ 0 }
    requires sound { IsSound window.old }
    ensures taken { OnOk result ((text : List ℕ) × CameWhole (S.left source.old) (S.left source.new) text × HasTaken T.code T.is_done T.no_end T.knows text taker.new) }
    ensures bad { (fault : Fault T.Code) → result ≡ Err (StreamErr.Bad fault)
        → (text : List ℕ) × CameWhole (S.left source.old) (S.left source.new) text × IsFaultOf T.code T.is_done T.no_end text fault }
    ensures still { (fault : Fault T.Code) → result ≡ Err (StreamErr.Bad fault)
        → (text : List ℕ) × CameWhole (S.left source.old) (S.left source.new) text × StandsAt T.knows T.stays text fault.line taker.new }
    ensures broken { IfErr result (λ e. IsOfSource e → (text : List ℕ) × Came (S.left source.old) (S.left source.new) text × StandsBrokenOff T.knows T.stays text taker.new) }
    ensures fault { IsErrOf result StreamErr.ReadFault → Rose (S.faults source.old) (S.faults source.new) }
    ensures quiet { ¬ IsErrOf result StreamErr.ReadFault → S.faults source.new ≡ S.faults source.old }
    ensures too_long { IsErrOf result StreamErr.TooLong → Took (S.left source.old) (S.left source.new) (window.old.limit + 1) }
    ensures within { ¬ IsErrOf result StreamErr.TooLong → TookAtMost (S.left source.old) (S.left source.new) window.old.limit }
    ensures counted { S.faults source.old ≤ S.faults source.new }
{
    let mut line = 1;
    loop {
        match window.fill(source) {
            Ok(true) => return take_rest(alloc, window, fields, line, taker),
            Ok(false) => match take_lines(alloc, window, fields, line, taker) {
                Ok(next) => line = next,
                Err(e) => return Err(refused(window, source, e)),
            },
            Err(e) => return Err(error_of(e)),
        }
    }
}

// Takes the records that are held whole, where they may be cut off, and answers the number of the record that would follow
// them. Where none is held whole, what is held is made shorter.
fn take_lines<T: Shortened>(
    alloc: Global,
    window: &mut Window,
    fields: &mut ByteRecord,
    from: u64,
    taker: &mut T,
) -> Result<u64, TextErr<T::Code>>
    requires sound { IsSound window.old }
    requires fed { (text : List ℕ) × IsFed T.code T.knows text (held window.old) taker.old from }
    ensures fed { (text : List ℕ) → IsFed T.code T.knows text (held window.old) taker.old from → IfOk result (IsFed T.code T.knows text (held window.new) taker.new) }
    ensures bad { (text : List ℕ) → IsFed T.code T.knows text (held window.old) taker.old from → (fault : Fault T.Code) → result ≡ Err (TextErr.Bad fault)
        → (more : List ℕ) → IsFaultOf T.code T.is_done T.no_end (text ++ more) fault }
    ensures still { (text : List ℕ) → IsFed T.code T.knows text (held window.old) taker.old from → (fault : Fault T.Code) → result ≡ Err (TextErr.Bad fault)
        → (more : List ℕ) → StandsAt T.knows T.stays (text ++ more) fault.line taker.new }
    ensures sound { IsSound window.new }
    ensures same { (window.new.taken ≡ window.old.taken) × (window.new.limit ≡ window.old.limit) }
    ensures room { length window.new.bytes.items ≡ length window.old.bytes.items }
{
    let Some(cut) = window.cut() else {
        return match window.shorten(alloc) {
            Ok(()) => Ok(from),
            Err(_) => Err(TextErr::Memory),
        };
    };
    match take_part(alloc, &window.bytes[..cut], fields, from, taker) {
        Ok(line) => {
            window.cut_off(cut);
            Ok(line)
        }
        Err(e) => Err(e),
    }
}

// Takes the records of all that is held of a text that has ended.
fn take_rest<T: Shortened>(
    alloc: Global,
    window: &Window,
    fields: &mut ByteRecord,
    from: u64,
    taker: &mut T,
) -> Result<(), StreamErr<T::Code>>
    requires sound { IsSound window.now }
    requires fed { (text : List ℕ) × IsFed T.code T.knows text (held window.now) taker.old from }
    ensures taken { (text : List ℕ) → IsFed T.code T.knows text (held window.now) taker.old from → OnOk result (HasTaken T.code T.is_done T.no_end T.knows text taker.new) }
    ensures bad { (text : List ℕ) → IsFed T.code T.knows text (held window.now) taker.old from → (fault : Fault T.Code) → result ≡ Err (StreamErr.Bad fault)
        → IsFaultOf T.code T.is_done T.no_end text fault }
    ensures still { (text : List ℕ) → IsFed T.code T.knows text (held window.now) taker.old from → (fault : Fault T.Code) → result ≡ Err (StreamErr.Bad fault)
        → StandsAt T.knows T.stays text fault.line taker.new }
    ensures of_text { IfErr result IsOfText }
{
    match take_part(alloc, &window.bytes[..window.filled], fields, from, taker) {
        Ok(line) => match end_at(taker, line) {
            Ok(()) => Ok(()),
            Err(e) => Err(text_error_of(e)),
        },
        Err(e) => Err(text_error_of(e)),
    }
}

// The error of a source whose text was refused. It is read to its end first, since what is wrong there is reported before.
fn refused<S: Source, C: Copy>(window: &mut Window, source: &mut S, e: TextErr<C>) -> StreamErr<C>
    requires sound { IsSound window.old }
    requires room { 0 < length window.old.bytes.items }
    ensures bad { (fault : Fault C) → result ≡ StreamErr.Bad fault → e ≡ TextErr.Bad fault }
    ensures memory { IsOfSource result → e ≢ TextErr.Memory }
    ensures ended { IsBad result → HasEnded (S.left source.old) (S.left source.new) }
    ensures came { StreamBreaksOff result (S.left source.old) (S.left source.new) window.old.taken window.old.limit }
    ensures fault { result ≡ StreamErr.ReadFault → Rose (S.faults source.old) (S.faults source.new) }
    ensures quiet { ¬ (result ≡ StreamErr.ReadFault) → S.faults source.new ≡ S.faults source.old }
    ensures counted { S.faults source.old ≤ S.faults source.new }
{
    match e {
        TextErr::Bad(fault) => match window.drain(source) {
            Ok(()) => StreamErr::Bad(fault),
            Err(e) => error_of(e),
        },
        TextErr::Memory => StreamErr::Memory,
    }
}
