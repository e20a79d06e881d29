//! Laws of texts, each the contract of a function that does nothing.
ghost use Rattle.std.specs.Prelude.{◌≡◌, ◌<◌, ◌^◌, ℕ, Bool, Option, List, [], ◌∷◌, ◌++◌, length, Some, None, true, false};
ghost use Rattle.std.specs.List.{AllByRecursion};
ghost use Rattle.rtrace_form.specs.Records.{Row};
ghost use Rattle.rtrace_form.specs.Fields.{Names, AreTables};
ghost use Rattle.rtrace_form.specs.Lines.{Line, IsWritable, meaning, spelled};
ghost use Rattle.rtrace_form.specs.SoFar.{told_in};
ghost use Rattle.rtrace_form.specs.Faults.{read_all, first_record_fault};
ghost use Rattle.rtrace_form.specs.declared.fault.Code.TheVariants.{WrongBound};
ghost use Rattle.rtrace_form.specs.WrongBounds.{first_fault, first_wrong_bound};
ghost use Rattle.rbound.specs.Bounds.{Numbers};
ghost use Rattle.rcover_laws.specs.declared.wait_end.WaitEnd.{WaitEnd};
ghost use Rattle.rtrace_form.specs.Waits.{bound_in};
ghost use Rattle.rtrace_form.specs.Reports.{Entry, Report, Spells, IsLawful, EachChangeIsTold, lock_after, lines_of};
ghost use Rattle.rtrace_form.specs.ToldWaits.{EachWaitIsTold, AllWaitsAreTold, IsWithinBound};
ghost use Rattle.rtrace_form.specs.Heads.{Head};
ghost use Rattle.rtrace_form.specs.Written.{MayBeWritten, report_rows};
ghost use Rattle.rtrace_form.specs.Texts.{IsTextOf, report_text};

/// A line is read back from its spelling.
pub fn what_is_spelled_is_read()
    ensures { (names : Names) (line : Line) → AreTables names → IsWritable names line → meaning true names (spelled names line) ≡ Some line }
{}

/// Records without a fault spell what they have said together.
pub fn no_fault_spells()
    ensures { (whole : Bool) (rows : List Row) → length rows < 2 ^ 63 → first_fault whole rows ≡ None → Spells whole rows (told_in (read_all whole rows)) }
{}

/// Records that spell a report have no fault, and it is what they have said together.
pub fn what_spells_has_no_fault()
    ensures { (whole : Bool) (rows : List Row) (report : Report) → Spells whole rows report
        → (first_fault whole rows ≡ None) × (told_in (read_all whole rows) ≡ report) }
{}

/// A text spells one report at most, and one event list at most.
pub fn a_text_spells_one_report()
    ensures { (whole : Bool) (bytes : List ℕ) (report other : Report) → IsTextOf whole bytes report → IsTextOf whole bytes other → report ≡ other }
{}

/// No entry of an event list has an act.
pub fn an_event_list_has_no_acts()
    ensures { (rows : List Row) (report : Report) → Spells false rows report → AllByRecursion (λ (entry : Entry). entry.acts ≡ []) report.entries }
{}

/// No record of an event list reports a wait, so its first fault is that of a record.
pub fn an_event_list_tells_no_bounds()
    ensures { (rows : List Row) → first_fault false rows ≡ first_record_fault false rows }
{}

/// A wrong bound is reported only where no record has another fault, and then it is the first wrong bound.
pub fn a_wrong_bound_is_told_last()
    ensures { (whole : Bool) (rows : List Row) (line : ℕ) → first_fault whole rows ≡ Some (line, WrongBound)
        → (first_record_fault whole rows ≡ None) × (first_wrong_bound whole rows ≡ Some (line, WrongBound)) }
{}

/// What is written of a report spells that report.
pub fn what_is_written_spells()
    ensures { (report : Report) → MayBeWritten report → Spells true (report_rows report) report }
{}

/// The text that is written of a report is a text of that report.
pub fn what_is_written_is_read()
    ensures { (report : Report) → MayBeWritten report → IsTextOf true (report_text report) report }
{}

/// What records spell may be written.
pub fn what_is_spelled_may_be_written()
    ensures { (whole : Bool) (rows : List Row) (report : Report) → Spells whole rows report → MayBeWritten report }
{}

/// In a lawful history each change of a status and each grant has its line.
pub fn each_change_is_told()
    ensures { (head : Head) (earlier : List Entry) (entry : Entry) → IsLawful head (earlier ++ entry ∷ []) → EachChangeIsTold (lock_after head earlier) entry.event }
{}

/// The last lines of an entry are those of just the waits that its event ended, and no line before them is of a wait.
pub fn each_wait_is_told()
    ensures { (bounds : WaitEnd → Numbers) (head : Head) (earlier : List Entry) (entry : Entry) → EachWaitIsTold bounds head earlier entry }
{}

/// The lines of waits in a report are those of just the waits that its history ended, in their order.
pub fn all_waits_are_told()
    ensures { (bounds : WaitEnd → Numbers) (told : Option ℕ) (report : Report) → AllWaitsAreTold bounds told report }
{}

/// Each wait in a report is within its bound: no number of its cover is above that of the bound beside it.
pub fn each_told_wait_is_within_its_bound()
    ensures { (report : Report) → MayBeWritten report → AllByRecursion IsWithinBound (lines_of true (bound_in report.head report.entries) (Some report.head.cap) report) }
{}
