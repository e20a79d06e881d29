// Reading a whole text.
ghost use Rattle.std.specs.Prelude.{◌≡◌, ◌<◌, ◌^◌, ◌++◌, ◌∷◌, [], ℕ, List, length, true, false, OnOk, IfOk};
ghost use Rattle.rtrace_form.specs.Records.{Row};
ghost use Rattle.rtrace_form.specs.Takers.{IsFirstFault, HasTaken, list_code, is_list_done};
ghost use Rattle.rtrace_form.specs.SoFar.{nothing_yet};
ghost use Rattle.rtrace.specs.Collects.{Keeps, KnowsList, KnowsReport};
ghost use Rattle.rtrace.specs.ToldBounds.{KnowsBounds, HasRead};
ghost use Rattle.rtrace_read.specs.declared.reading.ReportReader.{ReportReader};
ghost use Rattle.rtrace_form.specs.Texts.{IsTextOf};
ghost use Rattle.rtrace_form.specs.Written.{MayBeWritten};
ghost use Rattle.rtrace_form.specs.declared.fault.Code.{Code};
ghost use Rattle.rtrace_form.specs.declared.fault.Code.TheVariants.{NoEnd};
ghost use Rattle.rtrace_form.specs.declared.fault.Fault.{Fault};
ghost use Rattle.rtrace_write.specs.Report.{told_by, IsOverResources, HasItsLedgers};

use crate::bounds::BoundsKept;
use crate::collect::Collecting;
use crate::owned::let_go;
use csv::ByteRecord;
use rtrace_form::{Code, Fault, Records, RowErr, TextErr, take_text};
use rtrace_read::{TakenRecord, take};
use rtrace_write::Report;
use std::alloc::{AllocError, Global};

/// Takes the records of a report, and keeps what they say and the bounds that they report.
#[derive(Drop)]
pub struct ReportTaker {
    /// What the records said, without the bounds of waits.
    pub inner: Collecting,
    /// The bounds that they reported.
    pub bounds: BoundsKept,
}

impl Records for ReportTaker {
    ghost use Rattle.rtrace_form.specs.Takers.{list_code, is_list_done};
    ghost use Rattle.rtrace.specs.Collects.{KnowsReport};

    type Code = Code;

    ghost code = { list_code true };

    ghost is_done = { is_list_done true };

    ghost no_end = { NoEnd };

    ghost knows = { KnowsReport };

    fn take(&mut self, fields: &ByteRecord) -> Result<(), RowErr> {
        let mut taken = TakenRecord::Other;
        if let Err(e) = take(
            &mut self.inner.reading,
            self.inner.alloc,
            fields,
            &mut taken,
        ) {
            return Err(e);
        }
        let Ok(()) = self.keep(taken) else {
            return Err(RowErr::Memory);
        };
        Ok(())
    }

    fn has_ended(&self) -> bool {
        self.inner.reading.has_ended()
    }

    fn no_end(&self) -> Code {
        Code::NoEnd
    }
}

impl ReportTaker {
    // Keeps what a record said that the reader took.
    fn keep(&mut self, taken: TakenRecord) -> Result<(), AllocError>
        requires { (old : ReportReader) × (rows : List Row) × (row : Row) × KnowsBounds self.old.bounds rows × HasRead old self.old.inner.reading rows row taken × (length rows < 2 ^ 62) }
        ensures kept { OnOk result (Keeps taken self.old.inner self.new.inner) }
        ensures bounds { OnOk result ((old : ReportReader) (rows : List Row) (row : Row) → KnowsBounds self.old.bounds rows → HasRead old self.old.inner.reading rows row taken → KnowsBounds self.new.bounds (rows ++ row ∷ [])) }
    {
        self.bounds
            .take(self.inner.alloc, &self.inner.reading, &taken)?;
        self.inner.keep_taken(taken)
    }
}

/// Reads an event list. It has no acts, and its ledgers are unchanged. What is read may be written as a report.
///
/// # Errors
///
/// The first fault of a text that is not an event list, or out of memory.
pub fn read_events(alloc: Global, bytes: &[u8]) -> Result<Report, TextErr>
    ensures list { IfOk result (λ r. IsTextOf false bytes.now (told_by r) × IsOverResources r × HasItsLedgers r) }
    ensures writable { IfOk result (λ r. MayBeWritten (told_by r)) }
    ensures bad { (fault : Fault Code) → result ≡ Err (TextErr.Bad fault) → IsFirstFault false bytes.now fault }
{
    let mut taker = Collecting::new(alloc, false);
    let read = take_list(alloc, bytes, &mut taker);
    let_go(taker);
    read
}

// The same, by a taker that has taken nothing.
fn take_list(alloc: Global, bytes: &[u8], taker: &mut Collecting) -> Result<Report, TextErr>
    requires { KnowsList taker.old nothing_yet }
    ensures list { IfOk result (λ r. IsTextOf false bytes.now (told_by r) × IsOverResources r × HasItsLedgers r) }
    ensures writable { IfOk result (λ r. MayBeWritten (told_by r)) }
    ensures bad { (fault : Fault Code) → result ≡ Err (TextErr.Bad fault) → IsFirstFault false bytes.now fault }
{
    match take_text(alloc, bytes, taker) {
        Ok(()) => taker.report(),
        Err(e) => Err(e),
    }
}

/// Reads a report, and checks all of it. What is read may be written.
///
/// # Errors
///
/// The first fault of a text that is not a report, or out of memory.
pub fn read_report(alloc: Global, bytes: &[u8]) -> Result<Report, TextErr>
    ensures report { IfOk result (λ r. IsTextOf true bytes.now (told_by r) × IsOverResources r × HasItsLedgers r) }
    ensures writable { IfOk result (λ r. MayBeWritten (told_by r)) }
    ensures bad { (fault : Fault Code) → result ≡ Err (TextErr.Bad fault) → IsFirstFault true bytes.now fault }
{
    let mut taker = ReportTaker {
        inner: Collecting::new(alloc, true),
        bounds: BoundsKept::new(),
    };
    let read = take_report(alloc, bytes, &mut taker);
    let_go(taker);
    read
}

// The same, by a taker that has taken nothing.
fn take_report(alloc: Global, bytes: &[u8], taker: &mut ReportTaker) -> Result<Report, TextErr>
    requires { KnowsReport taker.old [] }
    ensures report { IfOk result (λ r. IsTextOf true bytes.now (told_by r) × IsOverResources r × HasItsLedgers r) }
    ensures writable { IfOk result (λ r. MayBeWritten (told_by r)) }
    ensures bad { (fault : Fault Code) → result ≡ Err (TextErr.Bad fault) → IsFirstFault true bytes.now fault }
{
    match take_text(alloc, bytes, taker) {
        Ok(()) => finished(taker),
        Err(e) => Err(e),
    }
}

// The report of what was taken, which is moved out, or the first record with a wrong bound.
fn finished(taker: &mut ReportTaker) -> Result<Report, TextErr>
    requires { (bytes : List ℕ) × HasTaken (list_code true) (is_list_done true) NoEnd KnowsReport bytes taker.old }
    ensures report { IfOk result (λ r. (bytes : List ℕ) → HasTaken (list_code true) (is_list_done true) NoEnd KnowsReport bytes taker.old → IsTextOf true bytes (told_by r) × IsOverResources r × HasItsLedgers r) }
    ensures bad { (fault : Fault Code) → result ≡ Err (TextErr.Bad fault) → (bytes : List ℕ) → HasTaken (list_code true) (is_list_done true) NoEnd KnowsReport bytes taker.old → IsFirstFault true bytes fault }
{
    match taker
        .bounds
        .first_wrong(taker.inner.alloc, &taker.inner.reading)
    {
        Ok(None) => taker.inner.report(),
        Ok(Some(line)) => Err(TextErr::Bad(Fault {
            line,
            code: Code::WrongBound,
        })),
        Err(_) => Err(TextErr::Memory),
    }
}
