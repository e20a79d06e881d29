// The moments of a list of events, each as a list of claims.
ghost use Rattle.std.specs.Prelude.{◌≡◌, ◌++◌, ◌∷◌, [], OnOk, IfOk, if◌then◌else◌};
ghost use Rattle.rmodel.specs.Steps.{Comes, AreAccepted, next, after};
ghost use Rattle.rcover_laws.specs.Ended.{waits_in};
ghost use Rattle.rcover_plain.specs.Lists.{moments_in};
ghost use Rattle.rcover_laws.specs.Moments.{moments};
ghost use Rattle.rcover_laws.specs.Told.{wait_so_far};

use rbound::Which;
use rclaim::{Claim, Event};
use rcover_laws::stands;
use rmodel::{Claimed, Machine};
use rplain::Plain;
use std::alloc::{AllocError, Global};

/// A copy of these claims as a list of its own.
pub(crate) fn copy_of(alloc: Global, claims: &[Claimed]) -> Result<Vec<Claimed>, AllocError>
    ensures { IfOk result (λ v. v.items ≡ claims.now) }
{
    claims.to_vec(alloc)
}

/// Adds a moment.
pub(crate) fn push_moment(
    alloc: Global,
    all: &mut Vec<Vec<Claimed>>,
    moment: &[Claimed],
) -> Result<(), AllocError>
    ensures { OnOk result (moments_in all.new.items ≡ moments_in all.old.items ++ moment.now ∷ []) }
{
    all.push(copy_of(alloc, moment)?)?;
    Ok(())
}

/// Adds a moment, if `holds`.
pub(crate) fn push_if(
    alloc: Global,
    all: &mut Vec<Vec<Claimed>>,
    holds: bool,
    moment: &[Claimed],
) -> Result<(), AllocError>
    ensures { OnOk result (moments_in all.new.items ≡ (if holds then moments_in all.old.items ++ moment.now ∷ [] else moments_in all.old.items)) }
{
    if holds {
        return push_moment(alloc, all, moment);
    }
    Ok(())
}

/// Takes an event that is accepted.
pub(crate) fn take(machine: &mut Plain, event: &Event)
    requires { Comes machine.old.state event.now }
    ensures { machine.new.state ≡ next machine.old.state event.now }
{
    let _answer = machine.step(*event);
}

/// Takes events that are accepted one after another, and answers their moments.
pub(crate) fn moments_of(
    alloc: Global,
    machine: &mut Plain,
    events: &[Event],
) -> Result<Vec<Vec<Claimed>>, AllocError>
    requires { AreAccepted machine.old.state events.now }
    ensures moments { IfOk result (λ v. moments_in v.items ≡ moments machine.old.state events.now) }
    ensures state { OnOk result (machine.new.state ≡ after machine.old.state events.now) }
{
    let mut all = Vec::new(alloc);
    push_moment(alloc, &mut all, machine.claims())?;
    for event in events {
        take(machine, event);
        push_moment(alloc, &mut all, machine.claims())?;
    }
    Ok(all)
}

/// Carries on the moments of a wait: it is there at one more, or it is not and there are no moments.
fn go_on(
    alloc: Global,
    run: &mut Vec<Vec<Claimed>>,
    stands: bool,
    moment: &[Claimed],
) -> Result<(), AllocError>
    ensures { OnOk result (moments_in run.new.items ≡ (if stands then moments_in run.old.items ++ moment.now ∷ [] else [])) }
{
    if stands {
        return push_moment(alloc, run, moment);
    }
    run.clear();
    Ok(())
}

/// The moments of the wait of a claim so far.
pub(crate) fn wait_so_far(
    alloc: Global,
    which: Which,
    c: &Claim,
    moments: &[Vec<Claimed>],
) -> Result<Vec<Vec<Claimed>>, AllocError>
    ensures { IfOk result (λ v. moments_in v.items ≡ wait_so_far (waits_in which) c.now (moments_in moments.now)) }
{
    let mut run = Vec::new(alloc);
    for moment in moments {
        go_on(alloc, &mut run, stands(which, c, moment), moment)?;
    }
    Ok(run)
}
