// Which wait a claim is in.
ghost use Rattle.std.specs.Prelude.{◌≡◌, List};
ghost use Rattle.rmodel.specs.declared.claimed.Claimed.{Claimed};
ghost use Rattle.rcover_laws.specs.Told.{is_rising_half, waits_first, has_read_claim, waits_to_rise, waits_for_ask, stands};
ghost use Rattle.rcover_laws.specs.Ended.{waits_in};

use crate::claims::is_claim;
use rbound::Which;
use rclaim::Claim;
use rmodel::{Claimed, is_upgrade};

/// Whether a claim is the write half of an upgrade.
fn is_rising_half(c: &Claim) -> bool
    ensures { result ≡ is_rising_half c.now }
{
    is_upgrade(c.kind) && c.write_half
}

/// Whether a claim is in its first wait.
pub fn waits_first(x: &Claimed) -> bool
    ensures { (m : List Claimed) → result ≡ waits_first m x.now }
{
    x.held().is_nothing() && !is_rising_half(&x.claim)
}

/// Whether the seat of a claim has a read claim at a moment.
fn has_read_claim(moment: &[Claimed], c: &Claim) -> bool
    ensures { result ≡ has_read_claim moment.now c.now }
{
    moment
        .iter()
        .any(|y| y.claim.seat == c.seat && !y.claim.write_half)
}

/// Whether a claim waits to rise.
pub fn waits_to_rise(moment: &[Claimed], x: &Claimed) -> bool
    ensures { result ≡ waits_to_rise moment.now x.now }
{
    is_rising_half(&x.claim) && !has_read_claim(moment, &x.claim) && !x.is_satisfied()
}

/// Whether an ask of the request of a claim is pending.
pub fn waits_for_ask(x: &Claimed) -> bool
    ensures { (m : List Claimed) → result ≡ waits_for_ask m x.now }
{
    !x.held().is_nothing() && x.asked.len() > 0
}

/// Whether a claim is in this wait of its request.
fn waits_in(which: Which, moment: &[Claimed], x: &Claimed) -> bool
    ensures { result ≡ waits_in which moment.now x.now }
{
    match which {
        Which::First => waits_first(x),
        Which::Rise => waits_to_rise(moment, x),
        Which::Ask(_) => waits_for_ask(x),
    }
}

/// Whether a claim is there at a moment, in this wait of its request. For an ask its number is not looked at: a request has at
/// most one pending ask.
pub fn stands(which: Which, c: &Claim, moment: &[Claimed]) -> bool
    ensures { result ≡ stands (waits_in which) c.now moment.now }
{
    moment
        .iter()
        .any(|x| is_claim(c, &x.claim) && waits_in(which, moment, x))
}
