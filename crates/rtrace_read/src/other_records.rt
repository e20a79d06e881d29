// The records that add nothing to the history: those of the head, of changes, of ledgers, and the end.
ghost use Rattle.std.specs.Prelude.{◌≡◌, ◌<◌, ◌==◌, false, Bool, true, length, Some, OnOk, OnErr};
ghost use Rattle.csv.specs.Records.{fields_of};
ghost use Rattle.rexpand.specs.declared.TheConstants.{GROUPS};
ghost use Rattle.rtrace_form.specs.SoFar.{SoFar};
ghost use Rattle.rtrace_form.specs.Words.{word_in};
ghost use Rattle.rtrace_form.specs.declared.fault.Code.{Code};
ghost use Rattle.rtrace_form.specs.Told.{is_event, is_act, is_status, is_wait};
ghost use Rattle.rtrace_read.specs.Knows.{Knows};
ghost use Rattle.rtrace_read.specs.Takes.{TakesRow, RefusesRow, TellsBound, NamesStay, CountsRow, AllowsActs};
ghost use Rattle.rtrace_read.specs.LineTakes.{StillDue, IsReady, IsAsBefore};

use crate::reading::ReportReader;
use crate::taken::TakenRecord;
use csv::ByteRecord;
use rexpand::GROUPS;
use rtrace_form::{
    Code, RowErr, Word, cap_of, change_of, field_of, grant_of, group_of, ledger_of, word_in,
};
use std::alloc::Global;

/// Takes a record that adds nothing to the history and is not of a wait, and puts that into `taken`.
///
/// # Errors
///
/// The first thing that is wrong with it, or out of memory in the head. Nothing is promised then of `taken`. Where it
/// is wrong, what was due is still due, and no name but its own was declared. Out of memory, nothing changes in the
/// reader but the room for ledgers.
pub fn take_plain(
    reading: &mut ReportReader,
    alloc: Global,
    word: Word,
    fields: &ByteRecord,
    taken: &mut TakenRecord,
) -> Result<(), RowErr>
    requires ready { IsReady reading.old }
    requires word { word_in reading.old.whole (fields_of fields.now) ≡ Some word }
    requires event { is_event word ≡ false }
    requires act { is_act word ≡ false }
    requires wait { is_wait word ≡ false }
    ensures taken { OnOk result (TakesRow reading.old reading.new (fields_of fields.now) taken.new) }
    ensures bound { OnOk result (TellsBound reading.old (fields_of fields.now) taken.new) }
    ensures counted { OnOk result (CountsRow reading.old reading.new (fields_of fields.now) taken.new) }
    ensures allowed { OnOk result (AllowsActs reading.old reading.new taken.new) }
    ensures bad { (code : Code) → result ≡ Err (RowErr.Bad code) → RefusesRow reading.old (fields_of fields.now) code }
    ensures still { (code : Code) → result ≡ Err (RowErr.Bad code) → StillDue reading.old reading.new }
    ensures names { (code : Code) → result ≡ Err (RowErr.Bad code) → NamesStay reading.old reading.new (fields_of fields.now) }
    ensures memory { result ≡ Err RowErr.Memory → IsAsBefore reading.old reading.new }
{
    match take_other(reading, alloc, word, fields) {
        Ok(()) => {
            *taken = TakenRecord::Other;
            Ok(())
        }
        Err(e) => Err(e),
    }
}

// Takes a record that adds nothing to the history.
fn take_other(
    reading: &mut ReportReader,
    alloc: Global,
    word: Word,
    fields: &ByteRecord,
) -> Result<(), RowErr>
    requires ready { IsReady reading.old }
    requires word { word_in reading.old.whole (fields_of fields.now) ≡ Some word }
    requires event { is_event word ≡ false }
    requires act { is_act word ≡ false }
    requires wait { is_wait word ≡ false }
    ensures taken { OnOk result (TakesRow reading.old reading.new (fields_of fields.now) TakenRecord.Other) }
    ensures counted { OnOk result (CountsRow reading.old reading.new (fields_of fields.now) TakenRecord.Other) }
    ensures bad { (code : Code) → result ≡ Err (RowErr.Bad code) → RefusesRow reading.old (fields_of fields.now) code }
    ensures still { (code : Code) → result ≡ Err (RowErr.Bad code) → StillDue reading.old reading.new }
    ensures names { (code : Code) → result ≡ Err (RowErr.Bad code) → NamesStay reading.old reading.new (fields_of fields.now) }
    ensures memory { result ≡ Err RowErr.Memory → IsAsBefore reading.old reading.new }
{
    match word {
        Word::Entitled { .. } | Word::Satisfied { .. } => take_status(reading, word, fields),
        Word::Grant => take_grant(reading, fields),
        Word::Ledger => take_ledger(reading, fields),
        Word::Group => take_group(reading, alloc, fields),
        Word::Version => take_version(reading, fields),
        Word::Resource => take_resource(reading, fields),
        Word::Task => take_task(reading, alloc, fields),
        Word::Cap => take_cap(reading, fields),
        Word::End => take_end(reading, fields),
        Word::Issue(_) | Word::Finish | Word::Rise | Word::Ask => unreachable!(),
        Word::Show | Word::Add { .. } | Word::Take { .. } | Word::Put { .. } => unreachable!(),
        Word::Wait(_) => unreachable!(),
    }
}

// Takes the record of a change of a status.
fn take_status(reading: &mut ReportReader, word: Word, fields: &ByteRecord) -> Result<(), RowErr>
    requires word { word_in reading.old.whole (fields_of fields.now) ≡ Some word }
    requires change { is_status word ≡ true }
    ensures taken { OnOk result (TakesRow reading.old reading.new (fields_of fields.now) TakenRecord.Other) }
    ensures counted { OnOk result (CountsRow reading.old reading.new (fields_of fields.now) TakenRecord.Other) }
    ensures bad { (code : Code) → result ≡ Err (RowErr.Bad code) → RefusesRow reading.old (fields_of fields.now) code }
    ensures still { (code : Code) → result ≡ Err (RowErr.Bad code) → StillDue reading.old reading.new }
    ensures unchanged { OnErr result (reading.new ≡ reading.old) }
{
    match change_of(&reading.resources, &reading.tasks, word, fields) {
        Ok(change) => match reading.status(change) {
            Ok(()) => Ok(()),
            Err(code) => Err(RowErr::Bad(code)),
        },
        Err(code) => Err(RowErr::Bad(code)),
    }
}

// Takes the record of a grant.
fn take_grant(reading: &mut ReportReader, fields: &ByteRecord) -> Result<(), RowErr>
    requires { word_in reading.old.whole (fields_of fields.now) ≡ Some Word.Grant }
    ensures taken { OnOk result (TakesRow reading.old reading.new (fields_of fields.now) TakenRecord.Other) }
    ensures counted { OnOk result (CountsRow reading.old reading.new (fields_of fields.now) TakenRecord.Other) }
    ensures bad { (code : Code) → result ≡ Err (RowErr.Bad code) → RefusesRow reading.old (fields_of fields.now) code }
    ensures still { (code : Code) → result ≡ Err (RowErr.Bad code) → StillDue reading.old reading.new }
    ensures unchanged { OnErr result (reading.new ≡ reading.old) }
{
    match grant_of(&reading.resources, &reading.tasks, fields) {
        Ok(told) => match reading.grant(told.seat, told.set) {
            Ok(()) => Ok(()),
            Err(code) => Err(RowErr::Bad(code)),
        },
        Err(code) => Err(RowErr::Bad(code)),
    }
}

// Takes the record of a ledger.
fn take_ledger(reading: &mut ReportReader, fields: &ByteRecord) -> Result<(), RowErr>
    requires { word_in reading.old.whole (fields_of fields.now) ≡ Some Word.Ledger }
    ensures taken { OnOk result (TakesRow reading.old reading.new (fields_of fields.now) TakenRecord.Other) }
    ensures counted { OnOk result (CountsRow reading.old reading.new (fields_of fields.now) TakenRecord.Other) }
    ensures bad { (code : Code) → result ≡ Err (RowErr.Bad code) → RefusesRow reading.old (fields_of fields.now) code }
    ensures still { (code : Code) → result ≡ Err (RowErr.Bad code) → StillDue reading.old reading.new }
    ensures unchanged { OnErr result (reading.new ≡ reading.old) }
{
    match ledger_of(&reading.resources, &reading.tasks, fields) {
        Ok((place, ledger)) => match reading.leave(place, ledger) {
            Ok(()) => Ok(()),
            Err(code) => Err(RowErr::Bad(code)),
        },
        Err(code) => Err(RowErr::Bad(code)),
    }
}

// Takes the record of a group.
fn take_group(reading: &mut ReportReader, alloc: Global, fields: &ByteRecord) -> Result<(), RowErr>
    requires ready { IsReady reading.old }
    requires word { word_in reading.old.whole (fields_of fields.now) ≡ Some Word.Group }
    ensures taken { OnOk result (TakesRow reading.old reading.new (fields_of fields.now) TakenRecord.Other) }
    ensures counted { OnOk result (CountsRow reading.old reading.new (fields_of fields.now) TakenRecord.Other) }
    ensures bad { (code : Code) → result ≡ Err (RowErr.Bad code) → RefusesRow reading.old (fields_of fields.now) code }
    ensures still { (code : Code) → result ≡ Err (RowErr.Bad code) → StillDue reading.old reading.new }
    ensures unchanged { OnErr result (reading.new ≡ reading.old) }
{
    if has_all_groups(reading) {
        return Err(RowErr::Bad(Code::BadField));
    }
    match group_of(&reading.resources, &reading.tasks, fields) {
        Ok(set) => match reading.group(alloc, set) {
            Ok(()) => Ok(()),
            Err(e) => Err(e),
        },
        Err(code) => Err(RowErr::Bad(code)),
    }
}

// Takes the record of the version.
fn take_version(reading: &mut ReportReader, fields: &ByteRecord) -> Result<(), RowErr>
    requires { word_in reading.old.whole (fields_of fields.now) ≡ Some Word.Version }
    ensures taken { OnOk result (TakesRow reading.old reading.new (fields_of fields.now) TakenRecord.Other) }
    ensures counted { OnOk result (CountsRow reading.old reading.new (fields_of fields.now) TakenRecord.Other) }
    ensures bad { (code : Code) → result ≡ Err (RowErr.Bad code) → RefusesRow reading.old (fields_of fields.now) code }
    ensures still { (code : Code) → result ≡ Err (RowErr.Bad code) → StillDue reading.old reading.new }
    ensures unchanged { OnErr result (reading.new ≡ reading.old) }
{
    match reading.open() {
        Ok(()) => Ok(()),
        Err(code) => Err(RowErr::Bad(code)),
    }
}

// Takes the record of a resource.
fn take_resource(reading: &mut ReportReader, fields: &ByteRecord) -> Result<(), RowErr>
    requires { word_in reading.old.whole (fields_of fields.now) ≡ Some Word.Resource }
    ensures taken { OnOk result (TakesRow reading.old reading.new (fields_of fields.now) TakenRecord.Other) }
    ensures counted { OnOk result (CountsRow reading.old reading.new (fields_of fields.now) TakenRecord.Other) }
    ensures bad { (code : Code) → result ≡ Err (RowErr.Bad code) → RefusesRow reading.old (fields_of fields.now) code }
    ensures still { (code : Code) → result ≡ Err (RowErr.Bad code) → StillDue reading.old reading.new }
    ensures names { (code : Code) → result ≡ Err (RowErr.Bad code) → NamesStay reading.old reading.new (fields_of fields.now) }
    ensures memory { result ≡ Err RowErr.Memory → IsAsBefore reading.old reading.new }
{
    match reading.resource(field_of(fields, 1)) {
        Ok(()) => Ok(()),
        Err(e) => Err(e),
    }
}

// Takes the record of a task.
fn take_task(reading: &mut ReportReader, alloc: Global, fields: &ByteRecord) -> Result<(), RowErr>
    requires { word_in reading.old.whole (fields_of fields.now) ≡ Some Word.Task }
    ensures taken { OnOk result (TakesRow reading.old reading.new (fields_of fields.now) TakenRecord.Other) }
    ensures counted { OnOk result (CountsRow reading.old reading.new (fields_of fields.now) TakenRecord.Other) }
    ensures bad { (code : Code) → result ≡ Err (RowErr.Bad code) → RefusesRow reading.old (fields_of fields.now) code }
    ensures still { (code : Code) → result ≡ Err (RowErr.Bad code) → StillDue reading.old reading.new }
    ensures names { (code : Code) → result ≡ Err (RowErr.Bad code) → NamesStay reading.old reading.new (fields_of fields.now) }
    ensures memory { result ≡ Err RowErr.Memory → reading.new ≡ reading.old }
{
    match reading.task(alloc, field_of(fields, 1)) {
        Ok(()) => Ok(()),
        Err(e) => Err(e),
    }
}

// Takes the record of the cap.
fn take_cap(reading: &mut ReportReader, fields: &ByteRecord) -> Result<(), RowErr>
    requires { word_in reading.old.whole (fields_of fields.now) ≡ Some Word.Cap }
    ensures taken { OnOk result (TakesRow reading.old reading.new (fields_of fields.now) TakenRecord.Other) }
    ensures counted { OnOk result (CountsRow reading.old reading.new (fields_of fields.now) TakenRecord.Other) }
    ensures bad { (code : Code) → result ≡ Err (RowErr.Bad code) → RefusesRow reading.old (fields_of fields.now) code }
    ensures still { (code : Code) → result ≡ Err (RowErr.Bad code) → StillDue reading.old reading.new }
    ensures unchanged { OnErr result (reading.new ≡ reading.old) }
{
    match cap_of(field_of(fields, 1)) {
        Some(cap) => match reading.limit(cap) {
            Ok(()) => Ok(()),
            Err(code) => Err(RowErr::Bad(code)),
        },
        None => Err(RowErr::Bad(Code::BadField)),
    }
}

// Takes the record of the end.
fn take_end(reading: &mut ReportReader, fields: &ByteRecord) -> Result<(), RowErr>
    requires { word_in reading.old.whole (fields_of fields.now) ≡ Some Word.End }
    ensures taken { OnOk result (TakesRow reading.old reading.new (fields_of fields.now) TakenRecord.Other) }
    ensures counted { OnOk result (CountsRow reading.old reading.new (fields_of fields.now) TakenRecord.Other) }
    ensures bad { (code : Code) → result ≡ Err (RowErr.Bad code) → RefusesRow reading.old (fields_of fields.now) code }
    ensures still { (code : Code) → result ≡ Err (RowErr.Bad code) → StillDue reading.old reading.new }
    ensures unchanged { OnErr result (reading.new ≡ reading.old) }
{
    match reading.end() {
        Ok(()) => Ok(()),
        Err(code) => Err(RowErr::Bad(code)),
    }
}

// Whether there are as many read groups as allowed.
fn has_all_groups(reading: &ReportReader) -> bool
    ensures all { (whole : Bool) (s : SoFar) → Knows whole reading.now s → result ≡ (length s.groups == GROUPS) }
    ensures room { (whole : Bool) (s : SoFar) → Knows whole reading.now s → result ≡ false → length s.groups < GROUPS }
{
    match &reading.groups {
        Some(groups) => groups.len() == GROUPS,
        None => false,
    }
}
