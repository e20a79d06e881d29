// Keeping the history of a text as it is read.
ghost use Rattle.std.specs.Prelude.{◌≡◌, ◌++◌, Bool, false, OnOk, OnErr, IfOk, IfErr, Some, option_to_list, option_map};
ghost use Rattle.rtrace_form.specs.SoFar.{with_act};
ghost use Rattle.rtrace_form.specs.declared.fault.Code.TheVariants.{NoEnd};
ghost use Rattle.rvalue.specs.declared.act.Act.{Act};
ghost use Rattle.rvalue.specs.declared.ledger.Edit.{Edit};
ghost use Rattle.rtrace_write.specs.Report.{told_by, IsOverResources, HasItsLedgers};

use csv::ByteRecord;
use rclaim::Event;
use rset::NameTable;
use rtrace_form::{Code, Records, RowErr, TextErr};
use rtrace_read::{ReportReader, TakenRecord, take};
use rtrace_write::Report;
use rvalue::{Act, Edit, Entry, History};
use std::alloc::{AllocError, Global};
use std::mem;

/// Takes the records of an event list, and keeps all that they say; it also keeps what a report says.
#[derive(Drop)]
pub struct Collecting {
    /// Where the memory for what is kept comes from.
    pub alloc: Global,
    /// The reader of the records so far.
    pub reading: ReportReader,
    /// All entries but the latest.
    pub history: History<Edit>,
    /// The latest entry, to which acts may be added.
    pub latest: Option<Entry<Edit>>,
}

impl Records for Collecting {
    ghost use Rattle.rtrace_form.specs.Takers.{list_code, is_list_done, KnowsSaid};
    ghost use Rattle.rtrace.specs.Collects.{KnowsList};

    type Code = Code;

    ghost code = { list_code false };

    ghost is_done = { is_list_done false };

    ghost no_end = { NoEnd };

    ghost knows = { KnowsSaid false KnowsList };

    fn take(&mut self, fields: &ByteRecord) -> Result<(), RowErr> {
        let mut taken = TakenRecord::Other;
        if let Err(e) = take(&mut self.reading, self.alloc, fields, &mut taken) {
            return Err(e);
        }
        let Ok(()) = self.keep_taken(taken) else {
            return Err(RowErr::Memory);
        };
        Ok(())
    }

    fn has_ended(&self) -> bool {
        self.reading.has_ended()
    }

    fn no_end(&self) -> Code {
        Code::NoEnd
    }
}

impl Collecting {
    ghost use Rattle.rtrace_form.specs.SoFar.{SoFar, nothing_yet, told_in, bare};
    ghost use Rattle.rtrace.specs.Collects.{KnowsAll, Keeps, IsFinished};

    /// Nothing was taken. No memory is taken.
    pub fn new(alloc: Global, whole: bool) -> Collecting
        ensures { KnowsAll whole result nothing_yet }
    {
        Collecting {
            alloc,
            reading: ReportReader::new(alloc, whole),
            history: History::new(alloc),
            latest: None,
        }
    }

    /// Keeps what a record said that the reader took.
    ///
    /// # Errors
    ///
    /// Out of memory. Nothing changes then.
    pub fn keep_taken(&mut self, taken: TakenRecord) -> Result<(), AllocError>
        ensures ok { OnOk result (Keeps taken self.old self.new) }
        ensures still { OnErr result (self.new ≡ self.old) }
    {
        match taken {
            TakenRecord::Event(event) => self.begin(event),
            TakenRecord::Act(act) => self.add(act),
            TakenRecord::Wait(_) => Ok(()),
            TakenRecord::Other => Ok(()),
        }
    }

    // Begins the entry of an event.
    fn begin(&mut self, event: Event) -> Result<(), AllocError>
        ensures ok { OnOk result ((self.new.reading ≡ self.old.reading) × (self.new.history.entries ≡ self.old.history.entries ++ option_to_list self.old.latest) × (self.new.latest ≡ Some (bare event))) }
        ensures still { OnErr result (self.new ≡ self.old) }
    {
        self.keep()?;
        self.latest = Some(Entry {
            event,
            acts: Vec::new(self.alloc),
        });
        Ok(())
    }

    // Puts the latest entry after the others, if there is one.
    fn keep(&mut self) -> Result<(), AllocError>
        ensures ok { OnOk result ((self.new.reading ≡ self.old.reading) × (self.new.history.entries ≡ self.old.history.entries ++ option_to_list self.old.latest)) }
        ensures still { OnErr result (self.new ≡ self.old) }
    {
        self.history.reserve(1)?;
        if let Some(entry) = self.latest.take() {
            self.history.push_reserved(entry);
        }
        Ok(())
    }

    // Adds an act to the latest entry.
    fn add(&mut self, act: Act<Edit>) -> Result<(), AllocError>
        ensures ok { OnOk result ((self.new.reading ≡ self.old.reading) × (self.new.history.entries ≡ self.old.history.entries) × (self.new.latest ≡ option_map (with_act act) self.old.latest)) }
        ensures still { OnErr result (self.new ≡ self.old) }
    {
        match &mut self.latest {
            Some(entry) => add_act(entry, act),
            None => Ok(()),
        }
    }

    /// What was said, as a report. It is moved out: nothing is promised then of what is kept.
    ///
    /// # Errors
    ///
    /// Out of memory.
    pub fn report(&mut self) -> Result<Report, TextErr>
        ensures report { IfOk result (λ r. (whole : Bool) (s : SoFar) → KnowsAll whole self.old s → (told_by r ≡ told_in s) × IsOverResources r × HasItsLedgers r) }
        ensures memory { IfErr result (λ e. e ≡ TextErr.Memory) }
    {
        let Ok(()) = self.keep() else {
            return Err(TextErr::Memory);
        };
        self.finished()
    }

    // The report of what is kept, which is moved out; an error where no read groups were made. They are made in every
    // text that has ended.
    fn finished(&mut self) -> Result<Report, TextErr>
        ensures report { IfOk result (IsFinished self.old) }
        ensures memory { IfErr result (λ e. e ≡ TextErr.Memory) }
    {
        let reading = &mut self.reading;
        let cap = reading.cap.unwrap_or(reading.tasks.len());
        match reading.groups.take() {
            Some(groups) => Ok(Report {
                resources: mem::replace(&mut reading.resources, NameTable::new(self.alloc)),
                groups,
                tasks: mem::replace(&mut reading.tasks, NameTable::new(self.alloc)),
                cap,
                history: mem::replace(&mut self.history, History::new(self.alloc)),
                ledgers: mem::replace(&mut reading.ledgers, Vec::new(self.alloc)),
            }),
            None => Err(TextErr::Memory),
        }
    }
}

// Adds an act to an entry.
fn add_act(entry: &mut Entry<Edit>, act: Act<Edit>) -> Result<(), AllocError>
    ensures ok { OnOk result (entry.new ≡ with_act act entry.old) }
    ensures still { OnErr result (entry.new ≡ entry.old) }
{
    entry.acts.push(act)?;
    Ok(())
}
