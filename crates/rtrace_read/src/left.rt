// The ledgers at the end, and the end.
ghost use Rattle.std.specs.Prelude.{◌≡◌, ◌+◌, OnOk, OnErr, IfErr, true};
ghost use Rattle.rtrace_form.specs.Lines.{Leaves, Ends};
ghost use Rattle.rtrace_form.specs.Faults.{is_same_line};
ghost use Rattle.rtrace_form.specs.SoFar.{at_end, at_ledgers};
ghost use Rattle.rtrace_read.specs.LineTakes.{Takes, Refuses, ledgers_told};

use crate::place::{AT_END, AT_LEDGERS, AT_TASKS};
use crate::reading::ReportReader;
use rtrace_form::Code;
use rvalue::Ledger;

impl ReportReader {
    /// Takes the ledger of a resource.
    ///
    /// # Errors
    ///
    /// What is wrong with it there. Nothing changes then.
    pub fn leave(&mut self, place: u8, ledger: Ledger) -> Result<(), Code>
        requires { self.old.whole ≡ true }
        ensures taken { OnOk result (Takes self.old self.new (Leaves place ledger)) }
        ensures counted { OnOk result (self.new ≡ record self.old { last = at_ledgers; told = ledgers_told self.old + 1 }) }
        ensures bad { IfErr result (λ code. Refuses self.old (Leaves place ledger) code) }
        ensures still { OnErr result (self.new ≡ self.old) }
    {
        if let Some(code) = self.misplaced(AT_TASKS, AT_LEDGERS) {
            return Err(code);
        }
        let due = self.ledgers_told();
        if due >= self.ledgers.len() {
            return Err(Code::BadOrder);
        }
        if !is_left(due, self.ledgers[due], place, ledger) {
            return Err(Code::WrongLedger);
        }
        self.told = due + 1;
        self.last = AT_LEDGERS;
        Ok(())
    }

    /// Takes the end.
    ///
    /// # Errors
    ///
    /// What is wrong with it there. Nothing changes then.
    pub fn end(&mut self) -> Result<(), Code>
        ensures taken { OnOk result (Takes self.old self.new Ends) }
        ensures last { OnOk result (self.new ≡ record self.old { last = at_end }) }
        ensures bad { IfErr result (λ code. Refuses self.old Ends code) }
        ensures still { OnErr result (self.new ≡ self.old) }
    {
        if let Some(code) = self.misplaced(AT_TASKS, AT_LEDGERS) {
            return Err(code);
        }
        if self.whole && self.ledgers_told() < self.ledgers.len() {
            return Err(Code::WrongLedger);
        }
        self.last = AT_END;
        Ok(())
    }

    /// How many ledgers were given so far: none before the first one, and none after the end.
    pub fn ledgers_told(&self) -> usize
        ensures { result ≡ ledgers_told self.now }
    {
        if self.last == AT_LEDGERS {
            self.told
        } else {
            0
        }
    }
}

// Whether this is the line of the ledger that is due.
fn is_left(due: usize, left: Ledger, place: u8, ledger: Ledger) -> bool
    ensures { result ≡ is_same_line (Leaves due left) (Leaves place ledger) }
{
    due == usize::from(place) && (left.balance == ledger.balance && left.edits == ledger.edits)
}
