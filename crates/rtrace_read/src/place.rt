// Where a line may come.
ghost use Rattle.std.specs.Prelude.{◌≡◌, Bool};
ghost use Rattle.rtrace_form.specs.SoFar.{SoFar};
ghost use Rattle.rtrace_form.specs.Faults.{is_change_due};
ghost use Rattle.rtrace_read.specs.Knows.{Knows};
ghost use Rattle.rtrace_read.specs.LineTakes.{place_code};

use crate::due::has_more;
use crate::reading::ReportReader;
use rmodel::Machine;
use rtrace_form::Code;

// The places of lines, as `rtrace_form` numbers them: where the last one is, in the order in which they may come.

/// Nothing was read.
pub const AT_START: u8 = 0;

/// The version was read.
pub const AT_VERSION: u8 = 1;

/// The last line declares a resource.
pub const AT_RESOURCES: u8 = 2;

/// The last line declares a group.
pub const AT_GROUPS: u8 = 3;

/// The last line declares a task.
pub const AT_TASKS: u8 = 4;

/// The last line gives the cap.
pub const AT_CAP: u8 = 5;

/// Acts may follow.
pub const AT_ACTS: u8 = 6;

/// No act may follow until the next event.
pub const AT_CHANGES: u8 = 7;

/// The last line is a ledger.
pub const AT_LEDGERS: u8 = 8;

/// The end was read.
pub const AT_END: u8 = 9;

impl ReportReader {
    /// What is wrong with the place of a line that is neither a change nor an act, and may come after these places.
    pub fn misplaced(&self, least: u8, most: u8) -> Option<Code>
        ensures { (whole : Bool) (s : SoFar) → Knows whole self.now s → result ≡ place_code s least most }
    {
        if self.is_change_due() {
            return Some(Code::WrongChange);
        }
        if least <= self.last && self.last <= most {
            None
        } else {
            Some(Code::BadOrder)
        }
    }

    /// Whether a line of a change, or of a wait that is over, is due.
    pub fn is_change_due(&self) -> bool
        ensures { (whole : Bool) (s : SoFar) → Knows whole self.now s → result ≡ is_change_due s }
    {
        if !self.whole || self.last >= AT_LEDGERS {
            return false;
        }
        match (&self.machine, &self.following) {
            (Some(machine), Some(following)) => {
                has_more(machine.changes(), following.ended(), self.told)
            }
            _ => false,
        }
    }
}
