// Checking a report, keeping no more than is needed to judge it.
ghost use Rattle.std.specs.Prelude.{◌≡◌, ◌≤◌, ◌<◌, ◌+◌, ◌≢◌, ℕ, IfOk, IfErr, OnOk, IsErrOf, true, [], List};
ghost use Rattle.io_ends.specs.Faults.{Rose};
ghost use Rattle.io_ends.specs.Ends.{Took, TookAtMost};
ghost use Rattle.rtrace_form.specs.Takers.{IsFirstFault, HasTaken, StandsAt, list_code, is_list_done};
ghost use Rattle.rtrace_form.specs.declared.fault.Code.{Code};
ghost use Rattle.rtrace_form.specs.declared.fault.Code.TheVariants.{NoEnd, WrongBound};
ghost use Rattle.rtrace_form.specs.declared.fault.Fault.{Fault};
ghost use Rattle.rtrace.specs.Coming.{Came, CameWhole};
ghost use Rattle.rtrace.specs.Errors.{IsOfSource, IsOfText};
ghost use Rattle.rtrace.specs.Feeding.{StandsBrokenOff};
ghost use Rattle.rtrace.specs.Collects.{KnowsCount, CountStays, one_if_told, one_if_event};
ghost use Rattle.rtrace.specs.Counts.{IsCountOf};
ghost use Rattle.rtrace_read.specs.Takes.{bound_of};

use crate::bounds::BoundsKept;
use crate::error::StreamErr;
use crate::feed::take_source;
use crate::owned::let_go;
use csv::ByteRecord;
use io_ends::Source;
use rtrace_form::{Code, Fault, Records, RowErr};
use rtrace_read::{ReportReader, TakenRecord, take};
use std::alloc::Global;

/// Takes the records of a report, counts its events and its waits, and keeps its reported bounds.
#[derive(Drop)]
pub struct Counting {
    /// Where its memory comes from.
    pub alloc: Global,
    /// What the records said, line by line.
    pub reading: ReportReader,
    /// The bounds that they reported.
    pub bounds: BoundsKept,
    /// How many events they reported.
    pub events: u64,
    /// How many waits they reported.
    pub waits: u64,
    // What the latest record said.
    taken: TakenRecord,
}

impl Records for Counting {
    ghost use Rattle.std.specs.Prelude.{◌++◌, ◌∷◌, ◌^◌, length, Some, None};
    ghost use Rattle.csv.specs.Records.{fields_of};
    ghost use Rattle.rtrace_form.specs.Records.{Row};
    ghost use Rattle.rtrace_form.specs.Takers.{list_code, is_list_done};
    ghost use Rattle.rtrace_read.specs.Takes.{NamesStay};
    ghost use Rattle.rtrace.specs.Collects.{KnowsCount, CountStays};

    type Code = Code;

    ghost code = { list_code true };

    ghost is_done = { is_list_done true };

    ghost no_end = { NoEnd };

    ghost knows = { KnowsCount };

    ghost stays = { CountStays };

    fn take(&mut self, fields: &ByteRecord) -> Result<(), RowErr>
        requires { (rows : List Row) × KnowsCount self.old rows × (length rows < 2 ^ 62) }
        ensures taken { OnOk result ((rows : List Row) → KnowsCount self.old rows → (list_code true rows (fields_of fields.now) ≡ None) × KnowsCount self.new (rows ++ fields_of fields.now ∷ [])) }
        ensures bad { (cause : Code) → result ≡ Err (RowErr.Bad cause) → (rows : List Row) → KnowsCount self.old rows → list_code true rows (fields_of fields.now) ≡ Some cause }
        ensures still { (cause : Code) → result ≡ Err (RowErr.Bad cause) → CountStays self.old self.new }

        // Only the record's own name may be added.
        ensures names { (cause : Code) → result ≡ Err (RowErr.Bad cause) → NamesStay self.old.reading self.new.reading (fields_of fields.now) }
    {
        if let Err(e) = take(&mut self.reading, self.alloc, fields, &mut self.taken) {
            return Err(e);
        }
        let Ok(()) = self.bounds.take(self.alloc, &self.reading, &self.taken) else {
            return Err(RowErr::Memory);
        };
        self.events += one_if_event(&self.taken);
        self.waits += one_if_wait(&self.taken);
        Ok(())
    }

    fn has_ended(&self) -> bool {
        self.reading.has_ended()
    }

    fn no_end(&self) -> Code {
        Code::NoEnd
    }
}

impl Counting {
    /// Nothing was read, and no record said anything. No memory is taken.
    pub fn new(alloc: Global) -> Counting
        ensures knows { KnowsCount result [] }
        ensures nothing { result.taken ≡ TakenRecord.Other }
    {
        Counting {
            alloc,
            reading: ReportReader::new(alloc, true),
            bounds: BoundsKept::new(),
            events: 0,
            waits: 0,
            taken: TakenRecord::Other,
        }
    }
}

// 1 for an event.
fn one_if_event(taken: &TakenRecord) -> u64
    ensures value { result ≡ one_if_event taken.now }
    ensures few { result ≤ 1 }
{
    match taken {
        TakenRecord::Event(_) => 1,
        TakenRecord::Act(_) => 0,
        TakenRecord::Wait(_) => 0,
        TakenRecord::Other => 0,
    }
}

// 1 for a wait.
fn one_if_wait(taken: &TakenRecord) -> u64
    ensures value { result ≡ one_if_told (bound_of taken.now) }
    ensures few { result ≤ 1 }
{
    match taken {
        TakenRecord::Event(_) => 0,
        TakenRecord::Act(_) => 0,
        TakenRecord::Wait(_) => 1,
        TakenRecord::Other => 0,
    }
}

/// How much a report has.
#[derive(Clone, Copy, Debug, PartialEq, Eq)]
pub struct AuditCounts {
    /// How many events.
    pub events: u64,
    /// How many waits that are over.
    pub waits: u64,
}

/// Checks the report that a source has left, of at most `limit` bytes, and answers how much it has. Nothing of its
/// history is kept, and no more of its text than a window (see [`take_source`]).
///
/// # Errors
///
/// The source failed, or had more than `limit` bytes; the first fault of a text that is not a report, once it was read
/// to its end; or out of memory.
pub fn audit_stream<S: Source>(
    alloc: Global,
    source: &mut S,
    limit: u64,
) -> Result<AuditCounts, StreamErr>
    ensures right { IfOk result (λ counts. (text : List ℕ) × CameWhole (S.left source.old) (S.left source.new) text × IsCountOf text counts) }
    ensures bad { (fault : Fault Code) → result ≡ Err (StreamErr.Bad fault) → (text : List ℕ) × CameWhole (S.left source.old) (S.left source.new) text × IsFirstFault true text fault }

    // A fault has its cause, and no fault goes unreported. `TooLong` is answered exactly where one byte above the limit
    // was taken.
    ensures fault { IsErrOf result StreamErr.ReadFault → Rose (S.faults source.old) (S.faults source.new) }
    ensures quiet { ¬ IsErrOf result StreamErr.ReadFault → S.faults source.new ≡ S.faults source.old }
    ensures too_long { IsErrOf result StreamErr.TooLong → Took (S.left source.old) (S.left source.new) (limit + 1) }
    ensures within { ¬ IsErrOf result StreamErr.TooLong → TookAtMost (S.left source.old) (S.left source.new) limit }
    ensures counted { S.faults source.old ≤ S.faults source.new }
{
    let mut counting = Counting::new(alloc);
    let answer = count_stream(alloc, source, limit, &mut counting);
    let_go(counting);
    answer
}

/// The same, with a reader that has read nothing. Where the report is right, or only a bound is wrong, the reader knows
/// all of it in the end. Where a record has a fault, the reader is where that record would be due (`StandsAt`), so it
/// shows what was due. Where the source failed or had too much, the reader knows the records of a front of what came,
/// or is where one of them was refused; how long that front is is not promised: it may have no record. Out of memory,
/// nothing is promised of the reader.
///
/// # Errors
///
/// Those of [`audit_stream`].
pub fn count_stream<S: Source>(
    alloc: Global,
    source: &mut S,
    limit: u64,
    counting: &mut Counting,
) -> Result<AuditCounts, StreamErr>
    requires { KnowsCount counting.old [] }
    ensures right { IfOk result (λ counts. (text : List ℕ) × CameWhole (S.left source.old) (S.left source.new) text × IsCountOf text counts) }
    ensures knows { OnOk result ((text : List ℕ) × CameWhole (S.left source.old) (S.left source.new) text × HasTaken (list_code true) (is_list_done true) NoEnd KnowsCount text counting.new) }
    ensures still { (fault : Fault Code) → result ≡ Err (StreamErr.Bad fault) → fault.code ≢ WrongBound → (text : List ℕ) × CameWhole (S.left source.old) (S.left source.new) text × StandsAt KnowsCount CountStays text fault.line counting.new }
    ensures broken { IfErr result (λ e. IsOfSource e → (text : List ℕ) × Came (S.left source.old) (S.left source.new) text × StandsBrokenOff KnowsCount CountStays text counting.new) }
    ensures judged { (fault : Fault Code) → result ≡ Err (StreamErr.Bad fault) → fault.code ≡ WrongBound
        → (text : List ℕ) × CameWhole (S.left source.old) (S.left source.new) text × HasTaken (list_code true) (is_list_done true) NoEnd KnowsCount text counting.new }
    ensures bad { (fault : Fault Code) → result ≡ Err (StreamErr.Bad fault) → (text : List ℕ) × CameWhole (S.left source.old) (S.left source.new) text × IsFirstFault true text fault }
    ensures fault { IsErrOf result StreamErr.ReadFault → Rose (S.faults source.old) (S.faults source.new) }
    ensures quiet { ¬ IsErrOf result StreamErr.ReadFault → S.faults source.new ≡ S.faults source.old }
    ensures too_long { IsErrOf result StreamErr.TooLong → Took (S.left source.old) (S.left source.new) (limit + 1) }
    ensures within { ¬ IsErrOf result StreamErr.TooLong → TookAtMost (S.left source.old) (S.left source.new) limit }
    ensures counted { S.faults source.old ≤ S.faults source.new }
{
    match take_source(alloc, source, limit, counting) {
        Ok(()) => counted(counting),
        Err(e) => Err(e),
    }
}

// How much the report that was taken has, or the first record with a wrong bound.
fn counted(counting: &Counting) -> Result<AuditCounts, StreamErr>
    requires { (text : List ℕ) × HasTaken (list_code true) (is_list_done true) NoEnd KnowsCount text counting.now }
    ensures right { IfOk result (λ counts. (text : List ℕ) → HasTaken (list_code true) (is_list_done true) NoEnd KnowsCount text counting.now → IsCountOf text counts) }
    ensures bad { (fault : Fault Code) → result ≡ Err (StreamErr.Bad fault) → (text : List ℕ) → HasTaken (list_code true) (is_list_done true) NoEnd KnowsCount text counting.now → IsFirstFault true text fault }
    ensures bound { (fault : Fault Code) → result ≡ Err (StreamErr.Bad fault) → fault.code ≡ WrongBound }
    ensures text { IfErr result IsOfText }
{
    match counting
        .bounds
        .first_wrong(counting.alloc, &counting.reading)
    {
        Ok(None) => Ok(AuditCounts {
            events: counting.events,
            waits: counting.waits,
        }),
        Ok(Some(line)) => Err(StreamErr::Bad(Fault {
            line,
            code: Code::WrongBound,
        })),
        Err(_) => Err(StreamErr::Memory),
    }
}
