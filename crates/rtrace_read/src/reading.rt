// The reader of event lists and reports, line by line.
ghost use Rattle.std.specs.Prelude.{◌≡◌, Bool};
ghost use Rattle.rtrace_form.specs.SoFar.{SoFar, nothing_yet};
ghost use Rattle.rtrace_form.specs.Faults.{is_ended};
ghost use Rattle.rtrace_read.specs.Knows.{Knows};

use crate::place::{AT_END, AT_START};
use rcover::Following;
use rexpand::Groups;
use rplain::Plain;
use rset::{NameTable, ResourceSet};
use rvalue::Ledger;
use std::alloc::Global;

/// What the lines so far have declared, and where their events lead: as much as it needs to judge the next one.
#[derive(Drop)]
pub struct ReportReader {
    /// Whether the text is a report; otherwise it is an event list.
    pub whole: bool,
    /// The place of the last line, as `rtrace_form` numbers them.
    pub last: u8,
    /// The resources that were declared.
    pub resources: NameTable,
    /// The read groups, made at the first group or task: no resource is declared after it.
    pub groups: Option<Groups>,
    /// The tasks that were declared.
    pub tasks: NameTable,
    /// The cap in the text.
    pub cap: Option<u8>,
    /// The machine, made at the first event. Its changes are those of the latest event.
    pub machine: Option<Plain>,
    /// What follows the waits beside the machine, made with it. It has those that the latest event ended.
    pub following: Option<Following>,
    /// The ledger of each resource, after the acts so far.
    pub ledgers: Vec<Ledger>,
    /// What acts after the latest event that was taken may show; nothing in an event list.
    pub shown: ResourceSet,
    /// What they may edit.
    pub edited: ResourceSet,
    /// How many of the latest event's changes and ended waits were reported; from the first ledger on, how many
    /// ledgers.
    pub told: usize,
}

impl ReportReader {
    /// Nothing was read, of a report or else of an event list. No memory is taken.
    pub fn new(alloc: Global, whole: bool) -> ReportReader
        ensures { Knows whole result nothing_yet }
    {
        ReportReader {
            whole,
            last: AT_START,
            resources: NameTable::new(alloc),
            groups: None,
            tasks: NameTable::new(alloc),
            cap: None,
            machine: None,
            following: None,
            ledgers: Vec::new(alloc),
            shown: ResourceSet::empty(),
            edited: ResourceSet::empty(),
            told: 0,
        }
    }

    /// Whether the text has ended.
    pub fn has_ended(&self) -> bool
        ensures { (whole : Bool) (s : SoFar) → Knows whole self.now s → result ≡ is_ended s }
    {
        self.last == AT_END
    }
}
