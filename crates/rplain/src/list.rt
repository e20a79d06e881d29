// What can be read off a list of claims, and changes of a list.
ghost use Rattle.std.specs.Prelude.{◌≡◌, ◌==◌, ◌≤◌, ◌&&◌, not, length, position, map, vec_capacity, vec_len, filter};
ghost use Rattle.std.specs.List.{count_by};
ghost use Rattle.rmodel.specs.Claims.{is_read_half};
ghost use Rattle.rmodel.specs.Holds.{Alone, lacks, holds_of, may_rise, may_ask, is_part_of};
ghost use Rattle.rmodel.specs.Steps.{asking, is_not_holding};
ghost use Rattle.rmodel.specs.Changes.{status_in};
ghost use Rattle.rplain.specs.Sweep.{is_of};
ghost use Rattle.rmodel.specs.WellFormed.{EachPair, Distinct};

use rclaim::Status;
use rmodel::{Claimed, Granted, is_nested, is_read_half};
use rset::ResourceSet;

/// What the request of the seat holds.
#[tactic(auto, unfolding(rmodel::specs::Holds::holds_of))]
pub(crate) fn holds_of(claims: &[Claimed], seat: u8) -> Granted
    ensures { result ≡ holds_of claims.now seat }
{
    claims.iter().fold(Granted::nothing(), |all, x| {
        if x.claim.seat == seat {
            all.both(&x.held())
        } else {
            all
        }
    })
}

/// The status of the read claim, or the write claim, of the request of the seat.
pub(crate) fn status_in(claims: &[Claimed], seat: u8, write_half: bool) -> Option<Status>
    ensures { result ≡ status_in claims.now seat write_half }
{
    claims
        .iter()
        .find(|x| x.claim.seat == seat && x.claim.write_half == write_half)
        .map(|x| x.status)
}

/// The number of incomplete requests: each has one claim that is not a read half. `halves` is the number of read halves.
pub(crate) fn incomplete(claims: &[Claimed], halves: usize) -> usize
    requires { halves ≡ count_by (λ x. is_read_half x.claim) claims.now }
    ensures { result ≡ count_by (λ x. not (is_read_half x.claim)) claims.now }
{
    claims.len() - halves
}

/// Whether a claim holds nothing, or asks for something.
fn lacks(x: &Claimed) -> bool
    ensures { result ≡ lacks x.now }
{
    x.held().is_nothing() || x.asked.len() > 0
}

/// The place of the first claim of the seat.
pub(crate) fn place_of(claims: &[Claimed], seat: u8) -> Option<usize>
    ensures { result ≡ position (is_of seat) claims.now }
{
    claims.iter().position(|x| x.claim.seat == seat)
}

/// Whether the seat holds nothing, or an ask of it is pending. Its first claim, at `place`, decides: a second one holds
/// nothing and asks for nothing.
pub(crate) fn is_not_holding(claims: &[Claimed], seat: u8, place: Option<usize>) -> bool
    requires alone { EachPair Alone claims.now }
    requires place { place ≡ position (is_of seat) claims.now }
    ensures { result ≡ is_not_holding claims.now seat }
{
    match place {
        Some(i) => lacks(&claims[i]),
        None => true,
    }
}

/// Whether the seat's request is an upgrade that has not risen. Its first claim, at `place`, decides.
pub(crate) fn may_rise(claims: &[Claimed], seat: u8, place: Option<usize>) -> bool
    requires distinct { EachPair Distinct claims.now }
    requires place { place ≡ position (is_of seat) claims.now }
    ensures { result ≡ may_rise claims.now seat }
{
    match place {
        Some(i) => is_read_half(&claims[i].claim),
        None => false,
    }
}

/// Whether the seat's request is nested.
pub(crate) fn may_ask(claims: &[Claimed], seat: u8) -> bool
    ensures { result ≡ may_ask claims.now seat }
{
    claims
        .iter()
        .any(|x| x.claim.seat == seat && is_nested(x.claim.kind))
}

/// Whether the set is not empty and a part of what the seat's request reads and writes.
pub(crate) fn is_part_of(claims: &[Claimed], seat: u8, part: ResourceSet) -> bool
    ensures { result ≡ is_part_of claims.now seat part }
{
    claims.iter().any(|x| {
        x.claim.seat == seat && part.len() > 0 && part.within(x.claim.reads.union(x.claim.writes))
    })
}

/// Makes the claims of the seat ask for a part.
fn ask_each(claims: &mut [Claimed], seat: u8, part: ResourceSet)
    ensures { claims.new ≡ map (asking seat part) claims.old }
{
    for x in claims.iter_mut() {
        if x.claim.seat == seat {
            x.asked = part;
        }
    }
}

/// Makes the request of the seat ask for a part.
pub(crate) fn ask(claims: &mut Vec<Claimed>, seat: u8, part: ResourceSet)
    ensures items { claims.new.items ≡ map (asking seat part) claims.old.items }
    ensures capacity { vec_capacity claims.new ≡ vec_capacity claims.old }
{
    ask_each(claims, seat, part);
}
