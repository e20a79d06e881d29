// The report of an event list, made in one pass, and its steps for those who watch.
ghost use Rattle.std.specs.Prelude.{◌≡◌, ◌++◌, ◌<◌, ◌^◌, false, true, length, OnOk, IfOk, None, Some};
ghost use Rattle.csv.specs.Records.{fields_of};
ghost use Rattle.rtrace_form.specs.Faults.{is_ended};
ghost use Rattle.rtrace_form.specs.Heads.{opening_of};
ghost use Rattle.rtrace_form.specs.Reports.{Report};
ghost use Rattle.rtrace_form.specs.SoFar.{SoFar, nothing_yet, head_in};
ghost use Rattle.rtrace_form.specs.Takers.{IsFirstFault};
ghost use Rattle.rtrace_form.specs.Texts.{IsTextOf, report_text};
ghost use Rattle.rtrace_form.specs.declared.fault.Code.{Code};
ghost use Rattle.rtrace_form.specs.declared.fault.Fault.{Fault};
ghost use Rattle.rtrace_replay.specs.Knows.{Knows};
ghost use Rattle.rtrace_replay.specs.Parts.{ArePartsOf};
ghost use Rattle.rtrace_replay.specs.Recording.{KnowsSteps};
ghost use Rattle.rtrace_replay.specs.Stepping.{AreStepsOf};

use crate::replaying::{Replayed, Replaying};
use crate::steps::Steps;
use csv::ByteRecord;
use rclaim::Event;
use rmodel::Machine;
use rplain::Plain;
use rtrace_form::{Code, Records, RowErr, TextErr, take_text};
use rtrace_read::{ReportReader, TakenRecord};
use std::alloc::{AllocError, Global};
use std::mem;

/// A report, and its steps.
#[derive(Drop)]
pub struct Recorded {
    /// The text of the report.
    pub replayed: Replayed,
    /// The steps of the list, for those who watch.
    pub steps: Steps,
}

/// Takes an event list, makes the text of its history, and keeps its events.
#[derive(Drop)]
pub struct Recording {
    alloc: Global,
    replaying: Replaying,
    events: Vec<Event>,
}

impl Recording {
    ghost use Rattle.rtrace_form.specs.SoFar.{SoFar, nothing_yet, entries_in, told_in, with_row};
    ghost use Rattle.rtrace_form.specs.Faults.{code_of, is_ended};
    ghost use Rattle.rtrace_replay.specs.Recording.{KnowsSteps};
    ghost use Rattle.rtrace_replay.specs.Stepping.{IsAtHead};

    /// Nothing was taken.
    fn new(alloc: Global) -> Recording
        ensures { KnowsSteps result nothing_yet }
    {
        Recording {
            alloc,
            replaying: Replaying::new(alloc),
            events: Vec::new(alloc),
        }
    }

    // Takes a record; the list of events grows with each event.
    fn take_record(&mut self, fields: &ByteRecord) -> Result<(), RowErr>
        requires { (s : SoFar) × KnowsSteps self.old s × (length (entries_in s) < 2 ^ 62) }
        ensures taken { OnOk result ((s : SoFar) → KnowsSteps self.old s → (code_of false s (fields_of fields.now) ≡ None) × KnowsSteps self.new (with_row false s (fields_of fields.now))) }
        ensures bad { (code : Code) → result ≡ Err (RowErr.Bad code) → (s : SoFar) → KnowsSteps self.old s → code_of false s (fields_of fields.now) ≡ Some code }
    {
        if let Err(e) = self.replaying.take_record(fields) {
            return Err(e);
        }
        match &self.replaying.taken {
            TakenRecord::Event(event) => match self.events.push(*event) {
                Ok(()) => Ok(()),
                Err(_) => Err(RowErr::Memory),
            },
            TakenRecord::Act(_) => Ok(()),
            TakenRecord::Wait(_) => Ok(()),
            TakenRecord::Other => Ok(()),
        }
    }

    // The report of the list that was taken to its end, and its steps. The events are moved out.
    fn made(&mut self) -> Result<Recorded, AllocError>
        requires { (s : SoFar) × KnowsSteps self.old s × (is_ended s ≡ true) }
        ensures text { IfOk result (λ made. (s : SoFar) → KnowsSteps self.old s → is_ended s ≡ true
            → (made.replayed.head ++ (made.replayed.history ++ made.replayed.ending) ≡ report_text (told_in s)) × ArePartsOf (told_in s) made.replayed.head made.replayed.history made.replayed.ending) }
        ensures steps { IfOk result (λ made. (s : SoFar) → KnowsSteps self.old s → is_ended s ≡ true → IsAtHead (told_in s) made.steps) }
    {
        let machine = machine_of(self.alloc, &self.replaying.reading)?;
        let replayed = self.replaying.made()?;
        let events = mem::replace(&mut self.events, Vec::new(self.alloc));
        Ok(Recorded {
            replayed,
            steps: Steps { machine, events },
        })
    }
}

impl Records for Recording {
    ghost use Rattle.std.specs.Prelude.{false};
    ghost use Rattle.rtrace_form.specs.Takers.{list_code, is_list_done, KnowsSaid};
    ghost use Rattle.rtrace_form.specs.declared.fault.Code.TheVariants.{NoEnd};
    ghost use Rattle.rtrace_replay.specs.Recording.{KnowsSteps};

    type Code = Code;

    ghost code = { list_code false };

    ghost is_done = { is_list_done false };

    ghost no_end = { NoEnd };

    ghost knows = { KnowsSaid false KnowsSteps };

    fn take(&mut self, fields: &ByteRecord) -> Result<(), RowErr> {
        self.take_record(fields)
    }

    fn has_ended(&self) -> bool {
        self.replaying.reading.has_ended()
    }

    fn no_end(&self) -> Code {
        Code::NoEnd
    }
}

// A machine in the state before the first event of what was read to its end.
fn machine_of(alloc: Global, reading: &ReportReader) -> Result<Plain, AllocError>
    requires { (s : SoFar) × Knows false reading.now s × (is_ended s ≡ true) }
    ensures { IfOk result (λ machine. (s : SoFar) → Knows false reading.now s → is_ended s ≡ true → machine.state ≡ opening_of (head_in s)) }
{
    match &reading.groups {
        Some(groups) => {
            let tasks = reading.tasks.len();
            let cap = reading.cap.unwrap_or(tasks);
            let groups = groups.copy(alloc)?;
            Plain::new(alloc, groups, tasks, cap)
        }
        None => unreachable!(),
    }
}

/// Reads an event list, and makes the text of its report, and its steps.
///
/// # Errors
///
/// The first fault of a text that is not an event list, or out of memory.
pub fn recorded_replay_of(alloc: Global, bytes: &[u8]) -> Result<Recorded, TextErr>
    ensures made { IfOk result (λ made. (report : Report) × IsTextOf false bytes.now report × (made.replayed.head ++ (made.replayed.history ++ made.replayed.ending) ≡ report_text report) × AreStepsOf report made.steps × ArePartsOf report made.replayed.head made.replayed.history made.replayed.ending) }
    ensures bad { (fault : Fault Code) → result ≡ Err (TextErr.Bad fault) → IsFirstFault false bytes.now fault }
{
    recorded_replay_by(alloc, bytes, &mut Recording::new(alloc))
}

// The same, by a taker that has taken nothing.
fn recorded_replay_by(
    alloc: Global,
    bytes: &[u8],
    taker: &mut Recording,
) -> Result<Recorded, TextErr>
    requires { KnowsSteps taker.old nothing_yet }
    ensures made { IfOk result (λ made. (report : Report) × IsTextOf false bytes.now report × (made.replayed.head ++ (made.replayed.history ++ made.replayed.ending) ≡ report_text report) × AreStepsOf report made.steps × ArePartsOf report made.replayed.head made.replayed.history made.replayed.ending) }
    ensures bad { (fault : Fault Code) → result ≡ Err (TextErr.Bad fault) → IsFirstFault false bytes.now fault }
{
    match take_text(alloc, bytes, taker) {
        Ok(()) => match taker.made() {
            Ok(made) => Ok(made),
            Err(_) => Err(TextErr::Memory),
        },
        Err(e) => Err(e),
    }
}
