// The words of what is reported to the user.
ghost use Rattle.std.specs.Prelude.{◌≡◌, option_map};
ghost use Rattle.rnlp_edge.specs.Meanings.{status_meaning, kind_word, script_meaning, list_meaning, refusal_meaning};

use rclaim::RequestErr;
use rmodel::Refused;
use rnlp_cli::ToolStatus;
use rscript::ScriptCode;
use rtrace_form::{Code, Refusal};
use rwatch::WatchKind;

/// What a status means; a status that is done has no meaning to report.
pub fn meaning_of_status(status: ToolStatus) -> Option<&'static str>
    ensures { option_map (λ text. text.now) result ≡ status_meaning status }
{
    match status {
        ToolStatus::Done => None,
        ToolStatus::Words => Some(
            "no such form. The forms are rnlp run < SCRIPT, rnlp replay < LIST, rnlp audit < REPORT, rnlp bound [M] < SCRIPT, and rnlp drill N. rnlp --help tells all",
        ),
        ToolStatus::ReadFault => Some("standard input failed"),
        ToolStatus::WriteFault => Some("standard output failed"),
        ToolStatus::Script => Some("the input is no script"),
        ToolStatus::TooLong => Some("the input is too long"),
        ToolStatus::NoMemory => Some("out of memory"),
        ToolStatus::Trace => Some("the input is no event list, or no right report"),
    }
}

/// What a watcher counts.
pub fn word_of(kind: WatchKind) -> &'static str
    ensures { result.now ≡ kind_word kind }
{
    match kind {
        WatchKind::Issues => "issues",
        WatchKind::Finishes => "finishes",
        WatchKind::Rises => "rises",
        WatchKind::Asks => "asks",
        WatchKind::Entitled => "entitled",
        WatchKind::Satisfied => "satisfied",
        WatchKind::Grants => "grants",
    }
}

/// What is wrong with a record of a script.
pub fn meaning_in_script(code: ScriptCode) -> &'static str
    ensures { result.now ≡ script_meaning code }
{
    match code {
        ScriptCode::BadField =>
            "it is no record of a script, has another number of fields, or the version is not 1",
        ScriptCode::BadOrder => "it may not stand at this place",
        ScriptCode::NoResources => "no resource stands before it",
        ScriptCode::NoTask => "no task stands before it",
        ScriptCode::BadName => "the name that it declares is none",
        ScriptCode::Repeated => "the name that it declares is declared already",
        ScriptCode::TooMany => "there are as many resources, tasks or groups as there may be",
        ScriptCode::UnknownName => "it names a resource that is not declared",
        ScriptCode::BadNumber => "a number of it is none, or above its limit",
        ScriptCode::EmptyGroup => "its group is empty",
        ScriptCode::EmptyRequest => "its request has nothing to read, or nothing to write",
        ScriptCode::Undeclared => "the resources to read are not declared together",
        ScriptCode::FirstOutside => "the first part is empty, or not within the request",
        ScriptCode::NotHeld =>
            "it shows or edits what the section does not hold, or what it asks for is empty, or not within the request",
        ScriptCode::NotWritable => "it edits what the section holds for reading only",
        ScriptCode::NoEnd => "the script has no end record",
    }
}

/// What is wrong with a record of a list or a report.
pub fn meaning_of(code: Code) -> &'static str
    ensures { result.now ≡ list_meaning code }
{
    match code {
        Code::BadField =>
            "it is no record of this input, has a bad number or word, or declares what is no name, repeated, empty or one too many",
        Code::UnknownName => "it names a task or a resource that is not declared",
        Code::BadOrder => "it may not stand at this place",
        Code::Refused(_) => "the event is refused",
        Code::WrongChange =>
            "a change or a wait is due here and this is not its line, or none is due",
        Code::WrongShow =>
            "the number or the answer of this act is wrong, or the section may not do it here",
        Code::WrongLedger => "a ledger is due here, and this is not its line",
        Code::NoEnd => "the input has no end record",
        Code::WrongBound => "the bound that it tells is not that of the wait",
    }
}

/// Why an event is refused.
pub fn meaning_of_refusal(refusal: Refusal) -> &'static str
    ensures { result.now ≡ refusal_meaning refusal }
{
    match refusal {
        Refusal::Step(Refused::SeatBusy) => "the task has a request already",
        Refusal::Step(Refused::Full) => "as many requests are incomplete as the cap allows",
        Refusal::Step(Refused::NotHolding) => "the task holds nothing, or an ask of it is pending",
        Refusal::Step(Refused::NotUpgradeable) => "the request is no upgrade, or has risen",
        Refusal::Step(Refused::NotNested) => "the request is not nested",
        Refusal::Step(Refused::AskOutside) =>
            "what is asked for is empty, or not within the request",
        Refusal::Request(RequestErr::EmptyRequest) =>
            "the request has nothing to read, or nothing to write",
        Refusal::Request(RequestErr::Undeclared) => {
            "the resources to read are not declared together"
        }
        Refusal::Request(RequestErr::FirstOutside) => {
            "the first part is empty, or not within the request"
        }
    }
}
