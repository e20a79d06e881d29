// Which line of a report is due where another one stands, for the user.
ghost use Rattle.std.specs.Prelude.{◌≡◌, ◌≢◌, ◌∷◌, ◌++◌, ◌≤◌, ◌<◌, [], List, None, Some, IfOk, IsSomeAnd, OnOk, decimal, option_map, slice_get, string_bytes};
ghost use Rattle.rclaim.specs.declared.event.Event.{Event};
ghost use Rattle.rcover_laws.specs.Ended.{ended_by};
ghost use Rattle.rtrace_write.specs.Told.{told, told_line};
ghost use Rattle.rtrace_form.specs.Lines.{Leaves};
ghost use Rattle.rtrace_form.specs.Reports.{grant_line, status_lines};
ghost use Rattle.rtrace_form.specs.SoFar.{at_ledgers};
ghost use Rattle.rtrace_form.specs.SetFields.{name_at};
ghost use Rattle.rtrace_form.specs.Texts.{behind_comma};
ghost use Rattle.rtrace_replay.specs.Knows.{changes_in};
ghost use Rattle.rtrace_replay.specs.LineTakes.{ledgers_told};
ghost use Rattle.rtrace_replay.specs.Names.{names_read};
ghost use Rattle.rtrace_replay.specs.Follows.{Follows};
ghost use Rattle.rtrace_replay.specs.Past.{Past, start_of};
ghost use Rattle.rnlp_cli.specs.Due.{as_text};
ghost use Rattle.rnlp_cli.specs.DueLines.{due_texts, wait_text, ledger_text};

use itoa::Buffer;
use rclaim::{GrantChange, StatusChange};
use rcover_laws::WaitEnd;
use rmodel::Machine;
use rplain::Plain;
use rset::NameTable;
use rtrace_form::Code;
use rtrace_replay::{AT_LEDGERS, ReportReader};
use rtrace_write::{NameRows, Page};
use rvalue::Ledger;
use std::alloc::{AllocError, Global};

/// The line that is due after what was read, if the fault is that another one stands there. For a wait it is the line
/// up to the bound, which is known only where the whole report is. After the end of the report there is none.
///
/// # Errors
///
/// Out of memory.
pub fn expected(
    alloc: Global,
    reading: &ReportReader,
    code: Code,
) -> Result<Option<String>, AllocError>
    ensures change { (p : Past) (before : List Event) (last : Event) → IsSomeAnd reading.now.following (λ f. Follows f p) → p.events ≡ before ++ last ∷ [] → code ≡ Code.WrongChange → reading.now.last < at_ledgers
        → IfOk result (λ line. option_map string_bytes line ≡ option_map as_text (slice_get (due_texts (names_read reading.now) (changes_in reading.now.machine) (ended_by (start_of p) before last)) reading.now.told)) }
    ensures begun { (p : Past) → IsSomeAnd reading.now.following (λ f. Follows f p) → p.events ≡ [] → code ≡ Code.WrongChange → reading.now.last < at_ledgers
        → IfOk result (λ line. option_map string_bytes line ≡ option_map as_text (slice_get (due_texts (names_read reading.now) (changes_in reading.now.machine) []) reading.now.told)) }
    ensures unbegun { reading.now.following ≡ None → code ≡ Code.WrongChange → IfOk result (λ line. line ≡ None) }
    ensures ledger { code ≡ Code.WrongLedger → reading.now.last ≤ at_ledgers
        → IfOk result (λ line. option_map string_bytes line ≡ option_map as_text (ledger_text (names_read reading.now) reading.now.ledgers.items (ledgers_told reading.now))) }
    ensures behind { code ≡ Code.WrongChange → at_ledgers ≤ reading.now.last → IfOk result (λ line. line ≡ None) }
    ensures ended { code ≡ Code.WrongLedger → at_ledgers < reading.now.last → IfOk result (λ line. line ≡ None) }
    ensures other { code ≢ Code.WrongChange → code ≢ Code.WrongLedger → IfOk result (λ line. line ≡ None) }
{
    match code {
        Code::WrongChange if reading.last < AT_LEDGERS => {
            text_of(alloc, change_due(alloc, reading)?)
        }
        Code::WrongLedger if reading.last <= AT_LEDGERS => {
            text_of(alloc, ledger_due(alloc, reading)?)
        }
        _ => Ok(None),
    }
}

// A line without its end, as text.
fn text_of(alloc: Global, line: Option<Page>) -> Result<Option<String>, AllocError>
    ensures { IfOk result (λ text. option_map string_bytes text ≡ option_map as_text line) }
{
    let Some(line) = line else {
        return Ok(None);
    };
    let bytes = line.as_slice();
    let text = String::from_utf8_lossy(alloc, &bytes[..bytes.len().saturating_sub(1)])?;
    Ok(Some(text))
}

// The line of the change or the wait that is due, if there is one. Before the first event there is none.
fn change_due(alloc: Global, reading: &ReportReader) -> Result<Option<Page>, AllocError>
    ensures change { (p : Past) (before : List Event) (last : Event) → IsSomeAnd reading.now.following (λ f. Follows f p) → p.events ≡ before ++ last ∷ []
        → IfOk result (λ page. page ≡ slice_get (due_texts (names_read reading.now) (changes_in reading.now.machine) (ended_by (start_of p) before last)) reading.now.told) }
    ensures begun { (p : Past) → IsSomeAnd reading.now.following (λ f. Follows f p) → p.events ≡ []
        → IfOk result (λ page. page ≡ slice_get (due_texts (names_read reading.now) (changes_in reading.now.machine) []) reading.now.told) }
    ensures unbegun { reading.now.following ≡ None → IfOk result (λ page. page ≡ None) }
{
    let Some(following) = &reading.following else {
        return Ok(None);
    };
    let names = NameRows::new(alloc, &reading.resources, &reading.tasks)?;
    due_at(
        alloc,
        &names,
        statuses_of(&reading.machine),
        grants_of(&reading.machine),
        following.ended(),
        reading.told,
    )
}

// The statuses that the latest event changed; before the first event there are none.
fn statuses_of(machine: &Option<Plain>) -> &[StatusChange]
    ensures { result.now ≡ (changes_in machine.now).statuses }
{
    match machine {
        Some(machine) => &machine.changes().statuses,
        None => &[],
    }
}

// The grants that came after it.
fn grants_of(machine: &Option<Plain>) -> &[GrantChange]
    ensures { result.now ≡ (changes_in machine.now).grants }
{
    match machine {
        Some(machine) => &machine.changes().grants,
        None => &[],
    }
}

// The line at a place, counted from the first change.
fn due_at(
    alloc: Global,
    names: &NameRows,
    statuses: &[StatusChange],
    grants: &[GrantChange],
    ended: &[WaitEnd],
    place: usize,
) -> Result<Option<Page>, AllocError>
    ensures { IfOk result (λ page. page ≡ slice_get (due_texts names.now (record { statuses = statuses.now; grants = grants.now }) ended.now) place) }
{
    if let Some(change) = statuses.get(place) {
        return status_due(alloc, names, change);
    }
    let behind = place.saturating_sub(statuses.len());
    if let Some(grant) = grants.get(behind) {
        return grant_due(alloc, names, grant);
    }
    match ended.get(behind.saturating_sub(grants.len())) {
        Some(wait) => wait_due(alloc, names, wait),
        None => Ok(None),
    }
}

fn status_due(
    alloc: Global,
    names: &NameRows,
    change: &StatusChange,
) -> Result<Option<Page>, AllocError>
    ensures { IfOk result (λ page. page ≡ Some (told names.now (status_lines change.now.seat change.now.write_half change.now.status))) }
{
    let mut line = Page::new(alloc);
    line.push_status(names, change)?;
    Ok(Some(line))
}

fn grant_due(
    alloc: Global,
    names: &NameRows,
    grant: &GrantChange,
) -> Result<Option<Page>, AllocError>
    ensures { IfOk result (λ page. page ≡ Some (told_line names.now (grant_line grant.now))) }
{
    let mut line = Page::new(alloc);
    line.push_grant(names, grant)?;
    Ok(Some(line))
}

// For a wait, the line up to the bound.
fn wait_due(alloc: Global, names: &NameRows, wait: &WaitEnd) -> Result<Option<Page>, AllocError>
    ensures { IfOk result (λ page. page ≡ Some (wait_text names.now wait.now)) }
{
    let mut line = Page::new(alloc);
    line.push_cover(names, wait)?;
    line.push(b" and its bound\n")?;
    Ok(Some(line))
}

// The line of the ledger that is due: the first one if there was none yet.
fn ledger_due(alloc: Global, reading: &ReportReader) -> Result<Option<Page>, AllocError>
    ensures { IfOk result (λ page. page ≡ ledger_text (names_read reading.now) reading.now.ledgers.items (ledgers_told reading.now)) }
{
    let due = reading.ledgers_told();
    match reading.ledgers.get(due) {
        Some(ledger) => ledger_at(alloc, reading, due, ledger),
        None => Ok(None),
    }
}

// The line of the ledger at a place. `rtrace_write` spells it too, for a resource that is there: a further field has to
// go into both.
fn ledger_at(
    alloc: Global,
    reading: &ReportReader,
    place: usize,
    ledger: &Ledger,
) -> Result<Option<Page>, AllocError>
    ensures { IfOk result (λ page. page ≡ Some (told_line (names_read reading.now) (Leaves place ledger.now))) }
{
    let mut line = Vec::from_slice(alloc, b"ledger,")?;
    line.extend_from_slice(name_of(&reading.resources, place))?;
    push_number(&mut line, ledger.balance)?;
    push_number(&mut line, ledger.edits)?;
    line.push(b'\n')?;
    Ok(Some(Page::of(line)))
}

// The name with a number; empty if there is none.
fn name_of(names: &NameTable, n: usize) -> &[u8]
    ensures { result.now ≡ name_at names.now n }
{
    if n >= usize::from(names.len()) {
        return &[];
    }
    names.name_of(n as u8)
}

// Appends a number as one more field.
fn push_number(line: &mut Vec<u8>, number: u64) -> Result<(), AllocError>
    ensures { OnOk result (line.new.items ≡ line.old.items ++ behind_comma (decimal number)) }
{
    let mut digits = Buffer::new();
    line.push(b',')?;
    line.extend_from_slice(digits.format(number).as_bytes())
}
