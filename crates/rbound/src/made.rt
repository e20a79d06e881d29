// The claims that a request makes, and their places among the claims of all tasks.
ghost use Rattle.std.specs.Prelude.{◌≡◌, ◌≤◌, ◌<◌, ◌+◌, ◌-◌, ◌∷◌, ◌++◌, ℕ, List, IsTrue, length, take, drop, slice_index_or, option_to_list, vec_capacity};
ghost use Rattle.std.specs.List.{insert, AllByRecursion};
ghost use Rattle.rset.specs.Sets.{all_below};
ghost use Rattle.rclaim.specs.Requests.{IsNormal};
ghost use Rattle.rmodel.specs.Claims.{claim_of};
ghost use Rattle.rbound.specs.Needs.{Needed, needed_of};

use crate::Needed;
use rclaim::{Claim, Kind, Request};
use rmodel::Groups;
use rset::ResourceSet;

/// A read claim, or a write claim, of the request with this number of a task.
fn claim_of(
    groups: &Groups,
    write_half: bool,
    number: u64,
    task: u8,
    kind: Kind,
    reads: ResourceSet,
    writes: ResourceSet,
) -> Claim
    requires { IsTrue (all_below groups.now.q writes) }
    ensures { result ≡ claim_of groups.now.groups write_half number task kind reads writes }
{
    let places = if write_half {
        groups.places(reads, writes)
    } else {
        reads
    };
    Claim {
        stamp: number,
        seat: task,
        kind,
        write_half,
        reads,
        writes,
        places,
    }
}

/// The claims of the request with this number of a task: one, or the two halves of an upgrade.
pub(crate) fn needed_of(
    groups: &Groups,
    task: u8,
    number: u64,
    request: &Request,
) -> (Needed, Option<Needed>)
    requires reads { IsTrue (all_below groups.now.q request.now.reads) }
    requires writes { IsTrue (all_below groups.now.q request.now.writes) }
    ensures value { result.0 ∷ option_to_list result.1 ≡ needed_of groups.now.groups task number request.now }
    ensures normal { IsNormal request.now }
{
    let kind = request.kind();
    let reads = request.reads();
    let writes = request.writes();
    let len = request.len();
    let none = ResourceSet::empty();
    match kind {
        Kind::Read => {
            let claim = claim_of(groups, false, number, task, kind, reads, writes);
            (Needed { claim, len }, None)
        }
        Kind::Write | Kind::Mixed | Kind::Nested => {
            let claim = claim_of(groups, true, number, task, kind, reads, writes);
            (Needed { claim, len }, None)
        }
        Kind::Upgrade => {
            let read_half = claim_of(groups, false, number, task, kind, reads, none);
            let write_half = claim_of(groups, true, number, task, kind, none, reads);
            let later = request.later();
            (
                Needed {
                    claim: read_half,
                    len,
                },
                Some(Needed {
                    claim: write_half,
                    len: later,
                }),
            )
        }
    }
}

/// Where the claims of later tasks begin.
pub(crate) fn place_behind(claims: &[Needed], task: u8) -> usize
    ensures within { result ≤ length claims.now }
    ensures place { (before behind : List Needed) → claims.now ≡ before ++ behind
        → AllByRecursion (λ n. n.claim.seat ≤ task) before → AllByRecursion (λ n. task < n.claim.seat) behind
        → result ≡ length before }
    ensures later { (i : ℕ) (d : Needed) → result ≤ i → i < length claims.now → task < (slice_index_or claims.now i d).claim.seat }
    ensures last { (d : Needed) → 0 < result → (slice_index_or claims.now (result - 1) d).claim.seat ≤ task }
{
    let mut at = claims.len();
    while at > 0 && claims[at - 1].claim.seat > task {
        at -= 1;
    }
    at
}

/// Inserts a claim among the others, where there is room.
fn insert_reserved(claims: &mut Vec<Needed>, at: usize, need: Needed)
    requires within { at ≤ length claims.old.items }
    requires room { length claims.old.items < vec_capacity claims.old }
    ensures items { claims.new.items ≡ insert claims.old.items at need }
    ensures capacity { vec_capacity claims.old ≤ vec_capacity claims.new }
{
    let _inserted = claims.insert(at, need);
}

/// Inserts the claims of a request among the others, where there is room for two.
pub(crate) fn insert_needed(
    claims: &mut Vec<Needed>,
    at: usize,
    first: Needed,
    second: Option<Needed>,
)
    requires within { at ≤ length claims.old.items }
    requires room { length claims.old.items + 2 ≤ vec_capacity claims.old }
    ensures { claims.new.items
        ≡ take at claims.old.items ++ ((first ∷ option_to_list second) ++ drop at claims.old.items) }
{
    if let Some(second) = second {
        insert_reserved(claims, at, second);
    }
    insert_reserved(claims, at, first);
}
