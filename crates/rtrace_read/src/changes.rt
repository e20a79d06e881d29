// The lines of what the latest event changed, and of the waits that it ended.
ghost use Rattle.std.specs.Prelude.{◌≡◌, ◌<◌, ◌^◌, ◌+◌, ◌&&◌, Bool, is_some, OnOk, OnErr, IfOk, IfErr, IfSome, IsTrue};
ghost use Rattle.rtrace_form.specs.Lines.{Grants};
ghost use Rattle.rtrace_form.specs.Reports.{status_line};
ghost use Rattle.rtrace_form.specs.SoFar.{SoFar, at_changes};
ghost use Rattle.rtrace_form.specs.Faults.{is_first, is_change_due};
ghost use Rattle.rtrace_form.specs.WaitRecords.{line_told};
ghost use Rattle.rtrace_read.specs.Knows.{Knows};
ghost use Rattle.rtrace_read.specs.LineTakes.{Takes, Refuses, IsFirstDue};

use crate::due::{is_grant_at, is_status_at, wait_at};
use crate::place::{AT_CHANGES, AT_END, AT_LEDGERS};
use crate::reading::ReportReader;
use rclaim::StatusChange;
use rcover_laws::WaitEnd;
use rmodel::Machine;
use rset::ResourceSet;
use rtrace_form::{Code, WaitTold};

impl ReportReader {
    /// Takes the line of a change of a status.
    ///
    /// # Errors
    ///
    /// What is wrong with it there. Nothing changes then.
    pub fn status(&mut self, change: StatusChange) -> Result<(), Code>
        ensures taken { OnOk result (Takes self.old self.new (status_line change)) }
        ensures counted { OnOk result (self.new ≡ record self.old { last = at_changes; told = self.old.told + 1 }) }
        ensures bad { IfErr result (λ code. Refuses self.old (status_line change) code) }
        ensures still { OnErr result (self.new ≡ self.old) }
    {
        if self.last == AT_END {
            return Err(Code::BadOrder);
        }
        if !self.is_status_due(change) {
            return Err(Code::WrongChange);
        }
        self.told += 1;
        self.last = AT_CHANGES;
        Ok(())
    }

    /// Takes the line of all that a request holds.
    ///
    /// # Errors
    ///
    /// What is wrong with it there. Nothing changes then.
    pub fn grant(&mut self, seat: u8, set: ResourceSet) -> Result<(), Code>
        ensures taken { OnOk result (Takes self.old self.new (Grants seat set)) }
        ensures counted { OnOk result (self.new ≡ record self.old { last = at_changes; told = self.old.told + 1 }) }
        ensures bad { IfErr result (λ code. Refuses self.old (Grants seat set) code) }
        ensures still { OnErr result (self.new ≡ self.old) }
    {
        if self.last == AT_END {
            return Err(Code::BadOrder);
        }
        if !self.is_grant_due(seat, set) {
            return Err(Code::WrongChange);
        }
        self.told += 1;
        self.last = AT_CHANGES;
        Ok(())
    }

    /// Takes the line of a wait that is over, and answers which wait it is. Its bound is not compared.
    ///
    /// # Errors
    ///
    /// What is wrong with it there. Nothing changes then.
    pub fn wait(&mut self, wait: &WaitTold) -> Result<WaitEnd, Code>
        ensures taken { OnOk result (Takes self.old self.new (line_told wait.now)) }
        ensures counted { OnOk result (self.new ≡ record self.old { last = at_changes; told = self.old.told + 1 }) }
        ensures first { IfOk result (λ due. IsFirstDue self.old (line_told wait.now) due) }
        ensures bad { IfErr result (λ code. Refuses self.old (line_told wait.now) code) }
        ensures still { OnErr result (self.new ≡ self.old) }
    {
        if self.last == AT_END {
            return Err(Code::BadOrder);
        }
        let Some(due) = self.wait_due(wait) else {
            return Err(Code::WrongChange);
        };
        self.told += 1;
        self.last = AT_CHANGES;
        Ok(due)
    }

    // Whether this change of a status is the one that is due.
    fn is_status_due(&self, change: StatusChange) -> bool
        ensures due { (whole : Bool) (s : SoFar) → Knows whole self.now s → result ≡ (is_change_due s && is_first s.due (status_line change)) }
        ensures room { IsTrue result → self.now.told + 1 < 2 ^ 64 }
    {
        if !self.whole || self.last >= AT_LEDGERS {
            return false;
        }
        match &self.machine {
            Some(machine) => is_status_at(machine.changes(), self.told, change),
            None => false,
        }
    }

    // Whether this grant is the one that is due.
    fn is_grant_due(&self, seat: u8, set: ResourceSet) -> bool
        ensures due { (whole : Bool) (s : SoFar) → Knows whole self.now s → result ≡ (is_change_due s && is_first s.due (Grants seat set)) }
        ensures room { IsTrue result → self.now.told + 1 < 2 ^ 64 }
    {
        if !self.whole || self.last >= AT_LEDGERS {
            return false;
        }
        match &self.machine {
            Some(machine) => is_grant_at(machine.changes(), self.told, seat, set),
            None => false,
        }
    }

    // The wait that is due, if this is its line.
    fn wait_due(&self, wait: &WaitTold) -> Option<WaitEnd>
        ensures due { (whole : Bool) (s : SoFar) → Knows whole self.now s → is_some result ≡ (is_change_due s && is_first s.due (line_told wait.now)) }
        ensures first { IfSome result (λ due. IsFirstDue self.now (line_told wait.now) due) }
        ensures room { IfSome result (λ due. self.now.told + 1 < 2 ^ 64) }
    {
        if !self.whole || self.last >= AT_LEDGERS {
            return None;
        }
        match (&self.machine, &self.following) {
            (Some(machine), Some(following)) => {
                wait_at(machine.changes(), following.ended(), self.told, wait)
            }
            _ => None,
        }
    }
}
