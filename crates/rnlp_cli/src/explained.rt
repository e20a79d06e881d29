// What may be reported to the user about a tool beyond its status.
use rguard::Receipt;
use rscript::{Script, ScriptCode};
use rtrace_form::Fault;
use rvalue::Edit;

/// What may be reported to the user beyond a status: for a refused input its first fault, and for a run which of its tasks
/// were stopped.
#[derive(Drop)]
pub enum Told {
    /// The steps of a list were shown to the watchers.
    Steps,
    /// For an event list or a report: its fault, and the line that was due in its place, if there is one.
    List {
        fault: Fault,
        expected: Option<String>,
    },
    /// For a script: the record's number, counted from 1, and what is wrong with it.
    Script {
        line: u64,
        code: ScriptCode,
    },
    /// For a run in which tasks were stopped because memory ran out: its script; for each task, by number, after how many
    /// whole sections it was stopped, or None if it is complete; and the receipt of its history.
    Stopped {
        script: Script,
        sections: Vec<Option<u64>>,
        receipt: Receipt<Edit>,
    },
}
