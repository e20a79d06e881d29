// Taking records: each is read as a line, and the line is taken.
ghost use Rattle.std.specs.Prelude.{◌≡◌, true, Some, IsSome, OnOk, OnErr, IfOk, IfErr};
ghost use Rattle.csv.specs.Records.{fields_of};
ghost use Rattle.rclaim.specs.declared.event.Event.{Event};
ghost use Rattle.rtrace_form.specs.Lines.{Happens};
ghost use Rattle.rtrace_form.specs.Words.{word_in};
ghost use Rattle.rtrace_form.specs.declared.fault.Code.{Code};
ghost use Rattle.rtrace_form.specs.Told.{IsOf, Says, IsWrong, names_by, is_event, is_act};
ghost use Rattle.rtrace_read.specs.Takes.{TakesRow, RefusesRow, TellsBound, NamesStay, CountsRow, AllowsActs, IsKept};
ghost use Rattle.rtrace_read.specs.LineTakes.{StillDue, IsReady, IsAsBefore};

use crate::other_records::take_plain;
use crate::place::{AT_CHANGES, AT_TASKS};
use crate::reading::ReportReader;
use crate::taken::{BoundTold, TakenRecord};
use csv::ByteRecord;
use rclaim::{Event, RequestErr};
use rtrace_form::{
    Code, EventTold, Refusal, RowErr, Stage, Word, act_of, event_of, finish_of, wait_of, word_in,
};
use std::alloc::Global;

/// Takes the next record, and puts what it adds to the history into `taken`.
///
/// # Errors
///
/// The first thing that is wrong with it, or out of memory: in the head or at the first event. Nothing is promised then
/// of `taken`. Where a record is wrong, what was due is still due, and no name but its own was declared. Out of memory,
/// nothing changes in the reader but the room for ledgers.
pub fn take(
    reading: &mut ReportReader,
    alloc: Global,
    fields: &ByteRecord,
    taken: &mut TakenRecord,
) -> Result<(), RowErr>
    requires { IsReady reading.old }
    ensures taken { OnOk result (TakesRow reading.old reading.new (fields_of fields.now) taken.new) }
    ensures bound { OnOk result (TellsBound reading.old (fields_of fields.now) taken.new) }
    ensures counted { OnOk result (CountsRow reading.old reading.new (fields_of fields.now) taken.new) }
    ensures allowed { OnOk result (AllowsActs reading.old reading.new taken.new) }
    ensures bad { (code : Code) → result ≡ Err (RowErr.Bad code) → RefusesRow reading.old (fields_of fields.now) code }
    ensures still { (code : Code) → result ≡ Err (RowErr.Bad code) → StillDue reading.old reading.new }
    ensures names { (code : Code) → result ≡ Err (RowErr.Bad code) → NamesStay reading.old reading.new (fields_of fields.now) }
    ensures memory { result ≡ Err RowErr.Memory → IsAsBefore reading.old reading.new }
{
    let Some(word) = word_in(reading.whole, fields) else {
        return Err(RowErr::Bad(Code::BadField));
    };
    match word {
        Word::Issue(_) | Word::Finish | Word::Rise | Word::Ask => {
            take_event(reading, alloc, word, fields, taken)
        }
        Word::Show | Word::Add { .. } | Word::Take { .. } | Word::Put { .. } => {
            take_act(reading, word, fields, taken)
        }
        Word::Wait(stage) => take_wait(reading, stage, fields, taken),
        Word::Entitled { .. }
        | Word::Satisfied { .. }
        | Word::Grant
        | Word::Ledger
        | Word::Group
        | Word::Version
        | Word::Resource
        | Word::Task
        | Word::Cap
        | Word::End => take_plain(reading, alloc, word, fields, taken),
    }
}

// Takes the record of an event.
fn take_event(
    reading: &mut ReportReader,
    alloc: Global,
    word: Word,
    fields: &ByteRecord,
    taken: &mut TakenRecord,
) -> Result<(), RowErr>
    requires ready { IsReady reading.old }
    requires word { word_in reading.old.whole (fields_of fields.now) ≡ Some word }
    requires event { is_event word ≡ true }
    ensures taken { OnOk result (TakesRow reading.old reading.new (fields_of fields.now) taken.new) }
    ensures bound { OnOk result (TellsBound reading.old (fields_of fields.now) taken.new) }
    ensures counted { OnOk result (CountsRow reading.old reading.new (fields_of fields.now) taken.new) }
    ensures allowed { OnOk result (AllowsActs reading.old reading.new taken.new) }
    ensures bad { (code : Code) → result ≡ Err (RowErr.Bad code) → RefusesRow reading.old (fields_of fields.now) code }
    ensures still { (code : Code) → result ≡ Err (RowErr.Bad code) → StillDue reading.old reading.new }
    ensures names { (code : Code) → result ≡ Err (RowErr.Bad code) → (reading.new.resources ≡ reading.old.resources) × (reading.new.tasks ≡ reading.old.tasks) }
    ensures memory { result ≡ Err RowErr.Memory → reading.new ≡ reading.old }
{
    let refused = match keep_event(reading, word, fields, taken) {
        Ok(refused) => refused,
        Err(code) => return Err(RowErr::Bad(code)),
    };
    if let Some(code) = reading.misplaced(AT_TASKS, AT_CHANGES) {
        return Err(RowErr::Bad(code));
    }
    if let Some(cause) = refused {
        return Err(RowErr::Bad(Code::Refused(Refusal::Request(cause))));
    }
    match &*taken {
        TakenRecord::Event(event) => reading.happen(alloc, event),
        _ => unreachable!(),
    }
}

// Keeps the event in a record, or answers what refuses its request whatever read groups there are. A finish has only a
// seat and is kept by itself: otherwise each finish would pay for what a request has.
fn keep_event(
    reading: &ReportReader,
    word: Word,
    fields: &ByteRecord,
    taken: &mut TakenRecord,
) -> Result<Option<RequestErr>, Code>
    requires form { IsOf word (fields_of fields.now) }
    requires event { is_event word ≡ true }
    ensures kept { IfOk result (λ refused. (e : Event) × Says (names_by reading.now.resources reading.now.tasks) word (fields_of fields.now) (Happens e) × IsKept refused taken.new e) }
    ensures wrong { IfErr result (λ code. IsWrong (names_by reading.now.resources reading.now.tasks) word (fields_of fields.now) code) }
    ensures still { IfOk result (λ refused. IsSome refused → taken.new ≡ taken.old) }
    ensures err { OnErr result (taken.new ≡ taken.old) }
{
    if let Word::Finish = word {
        return match finish_of(&reading.resources, &reading.tasks, fields) {
            Ok(seat) => {
                keep(taken, Event::Finish { seat });
                Ok(None)
            }
            Err(code) => Err(code),
        };
    }
    match event_of(&reading.resources, &reading.tasks, word, fields) {
        Ok(EventTold::Event(event)) => {
            keep(taken, event);
            Ok(None)
        }
        Ok(EventTold::Refused(cause)) => Ok(Some(cause)),
        Err(code) => Err(code),
    }
}

// Takes the record of an act.
fn take_act(
    reading: &mut ReportReader,
    word: Word,
    fields: &ByteRecord,
    taken: &mut TakenRecord,
) -> Result<(), RowErr>
    requires ready { IsReady reading.old }
    requires word { word_in reading.old.whole (fields_of fields.now) ≡ Some word }
    requires act { is_act word ≡ true }
    ensures taken { OnOk result (TakesRow reading.old reading.new (fields_of fields.now) taken.new) }
    ensures bound { OnOk result (TellsBound reading.old (fields_of fields.now) taken.new) }
    ensures counted { OnOk result (CountsRow reading.old reading.new (fields_of fields.now) taken.new) }
    ensures allowed { OnOk result (AllowsActs reading.old reading.new taken.new) }
    ensures bad { (code : Code) → result ≡ Err (RowErr.Bad code) → RefusesRow reading.old (fields_of fields.now) code }
    ensures still { (code : Code) → result ≡ Err (RowErr.Bad code) → StillDue reading.old reading.new }
    ensures unchanged { OnErr result (reading.new ≡ reading.old) }
{
    match act_of(&reading.resources, &reading.tasks, word, fields) {
        Ok(act) => match reading.act(&act) {
            Ok(()) => {
                *taken = TakenRecord::Act(act);
                Ok(())
            }
            Err(code) => Err(RowErr::Bad(code)),
        },
        Err(code) => Err(RowErr::Bad(code)),
    }
}

// Takes the record of a wait of this stage.
fn take_wait(
    reading: &mut ReportReader,
    stage: Stage,
    fields: &ByteRecord,
    taken: &mut TakenRecord,
) -> Result<(), RowErr>
    requires { word_in reading.old.whole (fields_of fields.now) ≡ Some (Word.Wait stage) }
    ensures taken { OnOk result (TakesRow reading.old reading.new (fields_of fields.now) taken.new) }
    ensures bound { OnOk result (TellsBound reading.old (fields_of fields.now) taken.new) }
    ensures counted { OnOk result (CountsRow reading.old reading.new (fields_of fields.now) taken.new) }
    ensures allowed { OnOk result (AllowsActs reading.old reading.new taken.new) }
    ensures bad { (code : Code) → result ≡ Err (RowErr.Bad code) → RefusesRow reading.old (fields_of fields.now) code }
    ensures still { (code : Code) → result ≡ Err (RowErr.Bad code) → StillDue reading.old reading.new }
    ensures unchanged { OnErr result (reading.new ≡ reading.old) }
{
    match wait_of(&reading.resources, &reading.tasks, stage, fields) {
        Ok(told) => match reading.wait(&told) {
            Ok(wait) => {
                let bound = told.bound;
                *taken = TakenRecord::Wait(BoundTold { wait, bound });
                Ok(())
            }
            Err(code) => Err(RowErr::Bad(code)),
        },
        Err(code) => Err(RowErr::Bad(code)),
    }
}

// Keeps an event as what was taken. Over another event it is written in place, and nothing else is moved.
#[inline]
fn keep(taken: &mut TakenRecord, event: Event)
    ensures { taken.new ≡ TakenRecord.Event event }
{
    match taken {
        TakenRecord::Event(place) => *place = event,
        _ => *taken = TakenRecord::Event(event),
    }
}
