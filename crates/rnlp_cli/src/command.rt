// The words after the program's name, and what they ask for.
ghost use Rattle.std.specs.Prelude.{◌≡◌, ◌≤◌, option_map, Some, None, IfSome, map, string_bytes, if◌then◌else◌};
ghost use Rattle.rnlp_cli.specs.Words.{begins_with_run, command_in, run_in, plain_in, bounds_under, cap_in, events_within, events_told, most_events, IsPlain};
ghost use Rattle.rnlp_cli.specs.Outputs.{limit_of, is_streamed};

use rdrill::MOST_EVENTS;
use rtrace_form::{cap_of, number_of};

/// A form that runs a script.
#[derive(Clone, Copy, Debug, PartialEq, Eq)]
pub enum RunForm {
    /// `run`: write the report of what happened.
    Report,
    /// `run tally`: have watchers under the lock of the run, and write after the report what they counted.
    Tally,
    /// `run watch`: have two workers look at the run by monitors, and write after the report what they saw.
    Watch,
}

/// What words ask for.
#[derive(Clone, Copy, Debug, PartialEq, Eq)]
pub enum Command {
    /// `run`, `run tally` and `run watch`: run the tasks of a script, and write what the form writes of it.
    Run(RunForm),
    /// `replay`: apply a list of events, and write its report.
    Replay,
    /// `audit`: check a report, and write how many events and how many waits it has.
    Audit,
    /// `bound` and `bound M`: write the bounds of a script's waits, under this cap, or under the number of tasks if
    /// none is given.
    Bound(Option<u8>),
    /// `drill N`: draw this many events, and write their summary. It reads no input.
    Drill(u32),
}

/// The most bytes that an event list may have.
pub const LIST_LIMIT: usize = 67_108_864;

/// The most bytes that an audited report may have.
pub const REPORT_LIMIT: u64 = 17_179_869_184;

// The most digits of a number among the words.
const MOST_DIGITS: usize = 7;

/// The most bytes that a script may have.
pub const SCRIPT_LIMIT: usize = 1_048_576;

// What `limit` promises about the inputs of commands, said about the constants too: other crates read them by name.
const _: () = prove!(LIST_LIMIT == 67_108_864);

const _: () = prove!(REPORT_LIMIT == 17_179_869_184);

const _: () = prove!(SCRIPT_LIMIT == 1_048_576);

impl Command {
    /// The most bytes that its input may have; None if it reads no input.
    pub fn limit(self) -> Option<usize>
        ensures { result ≡ limit_of (Some self) }
    {
        match self {
            Command::Run(_) | Command::Bound(_) => Some(SCRIPT_LIMIT),
            Command::Replay => Some(LIST_LIMIT),
            Command::Audit => Some(REPORT_LIMIT as usize),
            Command::Drill(_) => None,
        }
    }

    /// Whether its input is checked while it is read, and never held whole.
    pub fn is_streamed(self) -> bool
        ensures { result ≡ is_streamed self }
    {
        matches!(self, Command::Audit)
    }
}

/// Whether the words are for the tool that waits for its workers: the first of them is `run`.
pub fn are_for_run(words: &[String]) -> bool
    ensures first { result ≡ begins_with_run (map string_bytes words.now) }
    ensures asked { command_in (map string_bytes words.now) ≡ (if result then run_in (map string_bytes words.now) else plain_in (map string_bytes words.now)) }
{
    match words {
        [word, ..] => word.as_str() == "run",
        [] => false,
    }
}

/// The form in which the words ask for a run; None if they do not ask for one.
pub fn form_of(words: &[String]) -> Option<RunForm>
    ensures { option_map Command.Run result ≡ run_in (map string_bytes words.now) }
{
    match words {
        [word] if word.as_str() == "run" => Some(RunForm::Report),
        [word, next] if word.as_str() == "run" && next.as_str() == "tally" => Some(RunForm::Tally),
        [word, next] if word.as_str() == "run" && next.as_str() == "watch" => Some(RunForm::Watch),
        _ => None,
    }
}

/// What the words ask of the tools that wait for nobody; None if they do not fit any.
pub fn plain_of(words: &[String]) -> Option<Command>
    ensures asked { result ≡ plain_in (map string_bytes words.now) }
    ensures plain { IfSome result IsPlain }
{
    match words {
        [word] if word.as_str() == "replay" => Some(Command::Replay),
        [word] if word.as_str() == "audit" => Some(Command::Audit),
        [word] if word.as_str() == "bound" => Some(Command::Bound(None)),
        [word, number] if word.as_str() == "drill" => drill_of(number.as_str()),
        [word, cap] if word.as_str() == "bound" => bound_of(cap.as_str()),
        _ => None,
    }
}

// The bounds under a cap; None if the word is not a cap.
fn bound_of(cap: &str) -> Option<Command>
    ensures asked { result ≡ option_map bounds_under (cap_in cap.now) }
    ensures plain { IfSome result IsPlain }
{
    match cap_told(cap.as_bytes()) {
        Some(cap) => Some(Command::Bound(Some(cap))),
        None => None,
    }
}

// The cap that a word of 1 to 7 digits gives.
fn cap_told(word: &[u8]) -> Option<u8>
    ensures told { result ≡ cap_in word.now }
    ensures least { IfSome result (λ cap. 1 ≤ cap) }
{
    if word.len() > MOST_DIGITS {
        return None;
    }
    cap_of(word)
}

// The drill of this many events; None if the word is not such a number.
fn drill_of(number: &str) -> Option<Command>
    ensures asked { result ≡ option_map Command.Drill (events_told number.now) }
    ensures plain { IfSome result IsPlain }
{
    match events_of(number.as_bytes()) {
        Some(count) => Some(Command::Drill(count)),
        None => None,
    }
}

// The number of events that a word of 1 to 7 digits gives.
fn events_of(word: &[u8]) -> Option<u32>
    ensures told { result ≡ events_told word.now }
    ensures most { IfSome result (λ count. count ≤ most_events) }
{
    if word.len() > MOST_DIGITS {
        return None;
    }
    events_within(number_of(word)?)
}

// The number as that of a drill's events; None if it is 0 or too high.
fn events_within(number: u64) -> Option<u32>
    ensures told { result ≡ events_within number }
    ensures most { IfSome result (λ count. count ≤ most_events) }
{
    if number == 0 || number > u64::from(MOST_EVENTS) {
        None
    } else {
        Some(number as u32)
    }
}
