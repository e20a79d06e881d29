// The acts of the latest event's section.
ghost use Rattle.std.specs.Prelude.{◌≡◌, ◌<◌, OnOk, OnErr, IfErr, true, length};
ghost use Rattle.rset.specs.declared.TheConstants.{RESOURCES};
ghost use Rattle.rvalue.specs.Acts.{place_of};
ghost use Rattle.rtrace_form.specs.Lines.{Does};
ghost use Rattle.rtrace_form.specs.SoFar.{at_acts};
ghost use Rattle.rtrace_read.specs.Knows.{may_do};
ghost use Rattle.rtrace_read.specs.LineTakes.{Takes, Refuses};

use crate::place::AT_ACTS;
use crate::reading::ReportReader;
use rset::ResourceSet;
use rtrace_form::Code;
use rvalue::{Act, Edit};

impl ReportReader {
    /// Takes an act.
    ///
    /// # Errors
    ///
    /// What is wrong with it there. Nothing changes then.
    pub fn act(&mut self, act: &Act<Edit>) -> Result<(), Code>
        requires whole { self.old.whole ≡ true }
        requires below { place_of act.now < length self.old.ledgers.items }
        requires few { place_of act.now < RESOURCES }
        ensures taken { OnOk result (Takes self.old self.new (Does act.now)) }
        ensures placed { OnOk result (self.old.last ≡ at_acts) }
        ensures others { OnOk result (self.new ≡ record self.old { ledgers = self.new.ledgers }) }
        ensures bad { IfErr result (λ code. Refuses self.old (Does act.now) code) }
        ensures still { OnErr result (self.new ≡ self.old) }
    {
        if self.last != AT_ACTS {
            return Err(if self.is_change_due() {
                Code::WrongChange
            } else {
                Code::BadOrder
            });
        }
        let place = usize::from(place_of(act));
        if !may_do(self.shown, self.edited, act) {
            return Err(Code::WrongShow);
        }
        let mut ledger = self.ledgers[place];
        if !act.redo(&mut ledger) {
            return Err(Code::WrongShow);
        }
        self.ledgers[place] = ledger;
        Ok(())
    }
}

// The resource that an act is about.
fn place_of(act: &Act<Edit>) -> u8
    ensures { result ≡ place_of act.now }
{
    match act {
        Act::Edited { place, .. } => *place,
        Act::Shown { place, .. } => *place,
    }
}

// Whether an act is allowed, where these resources may be shown and those edited.
fn may_do(shown: ResourceSet, edited: ResourceSet, act: &Act<Edit>) -> bool
    requires { place_of act.now < RESOURCES }
    ensures { result ≡ may_do shown edited act.now }
{
    match act {
        Act::Edited { place, .. } => edited.has(*place),
        Act::Shown { place, .. } => shown.has(*place),
    }
}
