// A report, as a value.
use rexpand::Groups;
use rset::NameTable;
use rvalue::{Edit, History, Ledger};
use std::marker::Model;

/// What a report says: names, groups and a cap, the history, and what is left in each resource.
///
/// An event list is a report without acts, whose ledgers are unchanged.
#[derive(Drop)]
pub struct Report {
    /// The resources, numbered in the order of the text.
    pub resources: NameTable,
    /// The read groups, in the order of the text.
    pub groups: Groups,
    /// The tasks, numbered like the resources; each has the seat of its number.
    pub tasks: NameTable,
    /// How many requests may be incomplete at once.
    pub cap: u8,
    /// Each event in order, with what its section did.
    pub history: History<Edit>,
    /// The ledger of each resource after the history, by number.
    pub ledgers: Vec<Ledger>,
}

impl Model for Report {
    ghost use Rattle.rtrace_write.specs.Report.{ReportFields};
    ghost use Rattle.rtrace_write.specs.Codes.{report_code};

    ghost Value = { ReportFields };

    ghost coded = { report_code };

    ghost view = { λ a. record { resources = a.resources; groups = a.groups; tasks = a.tasks; cap = a.cap; entries = a.history.entries; ledgers = a.ledgers.items } };
}
