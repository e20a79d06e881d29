// The lines that are reported to the user.
ghost use Rattle.std.specs.Prelude.{◌≡◌, ◌<◌, ◌+◌, ◌++◌, ◌∷◌, [], IfOk, OnOk, codes, decimal, flat_map, length, option_map, slice_get, string_bytes};
ghost use Rattle.rtrace_form.specs.SetFields.{name_at};
ghost use Rattle.rnlp_edge.specs.Lines.{told_lines, record_line, meaning_line, watcher_line, counts_shown, cause_text, fault_text, expected_line, script_text, stopped_line, stopped_lines};
ghost use Rattle.rnlp_edge.specs.Meanings.{status_meaning, kind_word, refusal_meaning};

use crate::meanings::{
    meaning_in_script, meaning_of, meaning_of_refusal, meaning_of_status, word_of,
};
use rnlp_cli::{Told, ToolStatus};
use rscript::ScriptCode;
use rset::NameTable;
use rtrace_form::{Code, Fault, Refusal};
use rwatch::{Audience, WatchKind};
use std::alloc::{AllocError, Global};

/// The lines to report, one after another: what a status means, and on a terminal what was counted of the steps that
/// were shown, or which tasks of a run were stopped in which sections; or for a refused input what is wrong with which record,
/// and which line was due there.
///
/// # Errors
///
/// Out of memory.
pub fn lines_of<A: Audience>(
    alloc: Global,
    status: ToolStatus,
    told: &Option<Told>,
    audience: &A,
    on_terminal: bool,
) -> Result<String, AllocError>
    ensures { IfOk result (λ lines. string_bytes lines ≡ told_lines (A.all audience.now) on_terminal status told.now) }
{
    let mut lines = String::new(alloc);
    push_told(&mut lines, alloc, status, told, audience, on_terminal)?;
    Ok(lines)
}

fn push_told<A: Audience>(
    lines: &mut String,
    alloc: Global,
    status: ToolStatus,
    told: &Option<Told>,
    audience: &A,
    on_terminal: bool,
) -> Result<(), AllocError>
    ensures { OnOk result (string_bytes lines.new ≡ string_bytes lines.old ++ told_lines (A.all audience.now) on_terminal status told.now) }
{
    match told {
        None => push_status(lines, status),
        Some(Told::Steps) => push_steps(lines, alloc, status, audience, on_terminal),
        Some(Told::List { fault, expected }) => push_refused(lines, alloc, *fault, expected),
        Some(Told::Script { line, code }) => push_script(lines, alloc, *line, *code),
        Some(
            Told::Stopped {
                script,
                sections,
                receipt: _,
            },
        ) => push_stopped(lines, alloc, status, script.tasks(), sections),
    }
}

// Appends what a status means, and the line of each task that was stopped.
fn push_stopped(
    lines: &mut String,
    alloc: Global,
    status: ToolStatus,
    names: &NameTable,
    sections: &[Option<u64>],
) -> Result<(), AllocError>
    ensures { OnOk result (string_bytes lines.new ≡ string_bytes lines.old ++ (meaning_line (status_meaning status) ++ stopped_lines names.now sections.now)) }
{
    push_status(lines, status)?;
    push_tasks(lines, alloc, names, sections)?;
    Ok(())
}

// Appends the line of each task that was stopped.
fn push_tasks(
    lines: &mut String,
    alloc: Global,
    names: &NameTable,
    sections: &[Option<u64>],
) -> Result<(), AllocError>
    ensures { OnOk result (string_bytes lines.new ≡ string_bytes lines.old ++ stopped_lines names.now sections.now) }
{
    for task in 0..names.len() {
        let name = name_in(names, task);
        push_task(lines, alloc, name, stopped_at(sections, task))?;
    }
    Ok(())
}

// After how many whole sections a task was stopped, if it was.
fn stopped_at(sections: &[Option<u64>], task: u8) -> Option<Option<u64>>
    ensures { result ≡ slice_get sections.now task }
{
    sections.get(usize::from(task)).copied()
}

// The name of a task.
fn name_in(names: &NameTable, task: u8) -> &str
    requires { task < length names.now }
    ensures { result.now ≡ name_at names.now task }
{
    let name = names.name_of(task);
    // For the proof: what is in a table are names.
    let _ = names.number_of(name);
    match str::from_utf8(name) {
        Ok(name) => name,
        Err(_) => unreachable!(),
    }
}

// Appends the line of a task, if it was stopped.
fn push_task(
    lines: &mut String,
    alloc: Global,
    name: &str,
    sections: Option<Option<u64>>,
) -> Result<(), AllocError>
    ensures { OnOk result (string_bytes lines.new ≡ string_bytes lines.old ++ stopped_line name.now sections) }
{
    match sections {
        Some(Some(sections)) => push_stop(lines, alloc, name, sections),
        Some(None) | None => Ok(()),
    }
}

// Appends the line of a task that was stopped after so many whole sections.
fn push_stop(lines: &mut String, alloc: Global, name: &str, sections: u64) -> Result<(), AllocError>
    ensures { OnOk result (string_bytes lines.new ≡ string_bytes lines.old ++ (codes "rnlp: task " ++ (name.now ++ (codes " was stopped in section " ++ (decimal (sections + 1) ++ codes ": out of memory\n"))))) }
{
    let section = u128::from(sections) + 1;
    let digits = section.to_string(alloc)?;
    lines.push_str("rnlp: task ")?;
    lines.push_str(name)?;
    lines.push_str(" was stopped in section ")?;
    lines.push_str(digits.as_str())?;
    lines.push_str(": out of memory\n")?;
    Ok(())
}

// Appends the line of what a status means, if it has a meaning.
fn push_status(lines: &mut String, status: ToolStatus) -> Result<(), AllocError>
    ensures { OnOk result (string_bytes lines.new ≡ string_bytes lines.old ++ meaning_line (status_meaning status)) }
{
    match meaning_of_status(status) {
        Some(meaning) => {
            lines.push_str("rnlp: ")?;
            lines.push_str(meaning)?;
            lines.push_str("\n")
        }
        None => Ok(()),
    }
}

// Appends what a status means, and what was counted if a terminal shows it.
fn push_steps<A: Audience>(
    lines: &mut String,
    alloc: Global,
    status: ToolStatus,
    audience: &A,
    on_terminal: bool,
) -> Result<(), AllocError>
    ensures { OnOk result (string_bytes lines.new ≡ string_bytes lines.old ++ (meaning_line (status_meaning status) ++ counts_shown on_terminal (A.all audience.now))) }
{
    push_status(lines, status)?;
    push_shown(lines, alloc, audience, on_terminal)?;
    Ok(())
}

// Appends what was counted, if a terminal shows it.
fn push_shown<A: Audience>(
    lines: &mut String,
    alloc: Global,
    audience: &A,
    on_terminal: bool,
) -> Result<(), AllocError>
    ensures { OnOk result (string_bytes lines.new ≡ string_bytes lines.old ++ counts_shown on_terminal (A.all audience.now)) }
{
    if on_terminal {
        push_counts(lines, alloc, audience)
    } else {
        Ok(())
    }
}

// Appends the line of each watcher.
fn push_counts<A: Audience>(
    lines: &mut String,
    alloc: Global,
    audience: &A,
) -> Result<(), AllocError>
    ensures { OnOk result (string_bytes lines.new ≡ string_bytes lines.old ++ flat_map watcher_line (A.all audience.now)) }
{
    for i in 0..audience.count() {
        push_count(lines, alloc, audience.kind_of(i), audience.count_of(i))?;
    }
    Ok(())
}

// Appends the line of a watcher.
fn push_count(
    lines: &mut String,
    alloc: Global,
    kind: WatchKind,
    count: u64,
) -> Result<(), AllocError>
    ensures { OnOk result (string_bytes lines.new ≡ string_bytes lines.old ++ (codes "rnlp: " ++ (kind_word kind ++ (codes " " ++ (decimal count ++ 10 ∷ []))))) }
{
    let digits = count.to_string(alloc)?;
    lines.push_str("rnlp: ")?;
    lines.push_str(word_of(kind))?;
    lines.push_str(" ")?;
    lines.push_str(digits.as_str())?;
    lines.push_str("\n")?;
    Ok(())
}

// Appends what is wrong with a list or a report, and the line that was due there.
fn push_refused(
    lines: &mut String,
    alloc: Global,
    fault: Fault,
    expected: &Option<String>,
) -> Result<(), AllocError>
    ensures { OnOk result (string_bytes lines.new ≡ string_bytes lines.old ++ (record_line fault.line (fault_text fault.code) ++ expected_line (option_map string_bytes expected.now))) }
{
    push_fault(lines, alloc, fault)?;
    push_expected(lines, expected)?;
    Ok(())
}

// Appends the line of what is wrong with a record of a list or a report.
fn push_fault(lines: &mut String, alloc: Global, fault: Fault) -> Result<(), AllocError>
    ensures { OnOk result (string_bytes lines.new ≡ string_bytes lines.old ++ record_line fault.line (fault_text fault.code)) }
{
    push_record(lines, alloc, fault.line)?;
    lines.push_str(meaning_of(fault.code))?;
    push_cause(lines, fault.code)?;
    lines.push_str("\n")?;
    Ok(())
}

// Appends why an event is refused; nothing for any other fault.
fn push_cause(lines: &mut String, code: Code) -> Result<(), AllocError>
    ensures { OnOk result (string_bytes lines.new ≡ string_bytes lines.old ++ cause_text code) }
{
    match code {
        Code::Refused(refusal) => push_refusal(lines, refusal),
        Code::BadField => Ok(()),
        Code::UnknownName => Ok(()),
        Code::BadOrder => Ok(()),
        Code::WrongChange => Ok(()),
        Code::WrongShow => Ok(()),
        Code::WrongLedger => Ok(()),
        Code::NoEnd => Ok(()),
        Code::WrongBound => Ok(()),
    }
}

fn push_refusal(lines: &mut String, refusal: Refusal) -> Result<(), AllocError>
    ensures { OnOk result (string_bytes lines.new ≡ string_bytes lines.old ++ (codes ": " ++ refusal_meaning refusal)) }
{
    lines.push_str(": ")?;
    lines.push_str(meaning_of_refusal(refusal))?;
    Ok(())
}

// Appends the line that is due, if it is known.
fn push_expected(lines: &mut String, expected: &Option<String>) -> Result<(), AllocError>
    ensures { OnOk result (string_bytes lines.new ≡ string_bytes lines.old ++ expected_line (option_map string_bytes expected.now)) }
{
    match expected {
        Some(line) => push_due(lines, line.as_str()),
        None => Ok(()),
    }
}

fn push_due(lines: &mut String, line: &str) -> Result<(), AllocError>
    ensures { OnOk result (string_bytes lines.new ≡ string_bytes lines.old ++ (codes "rnlp: expected: " ++ (line.now ++ 10 ∷ []))) }
{
    lines.push_str("rnlp: expected: ")?;
    lines.push_str(line)?;
    lines.push_str("\n")?;
    Ok(())
}

// Appends the line of what is wrong with a record of a script.
fn push_script(
    lines: &mut String,
    alloc: Global,
    line: u64,
    code: ScriptCode,
) -> Result<(), AllocError>
    ensures { OnOk result (string_bytes lines.new ≡ string_bytes lines.old ++ record_line line (script_text code)) }
{
    push_record(lines, alloc, line)?;
    push_script_text(lines, alloc, code)?;
    lines.push_str("\n")?;
    Ok(())
}

fn push_script_text(lines: &mut String, alloc: Global, code: ScriptCode) -> Result<(), AllocError>
    ensures { OnOk result (string_bytes lines.new ≡ string_bytes lines.old ++ script_text code) }
{
    let number = code.number().to_string(alloc)?;
    lines.push_str(meaning_in_script(code))?;
    lines.push_str(" (code ")?;
    lines.push_str(number.as_str())?;
    lines.push_str(")")?;
    Ok(())
}

// Begins the line of a record, which is named by its number.
fn push_record(lines: &mut String, alloc: Global, number: u64) -> Result<(), AllocError>
    ensures { OnOk result (string_bytes lines.new ≡ string_bytes lines.old ++ (codes "rnlp: record " ++ (decimal number ++ codes ": "))) }
{
    lines.push_str("rnlp: record ")?;
    lines.push_str(number.to_string(alloc)?.as_str())?;
    lines.push_str(": ")
}
