// What tasks need, and beside it the claims that this makes.
ghost use Rattle.std.specs.Prelude.{◌≡◌, ◌≤◌, ◌<◌, ◌==◌, ◌&&◌, ◌∷◌, ℕ, Some, IfOk, IsOk, OnOk, OnErr, IsTrue, true, length, slice_get, option_to_list};
ghost use Rattle.rset.specs.Sets.{all_below};
ghost use Rattle.rbound.specs.Needs.{first_need, write_need};
ghost use Rattle.rbound.specs.Zones.{zone_of};
ghost use Rattle.rbound.specs.Bounds.{numbers_in};
ghost use Rattle.rbound.specs.declared.which.Which.TheVariants.{Ask};
ghost use Rattle.rbound.specs.Kept.{tasks_in, AreFine, AreClaimsOf, write_among};
ghost use Rattle.rbound.specs.Sound.{AreSound};
ghost use Rattle.rbound.specs.TaskNeeds.{none_needed, with_request, with_ask, requests_of, last_is_nested, kind_at, asks_at, needed_in, bound_of};

use crate::bound::{asked_bound, first_bound, rise_bound};
use crate::made::{insert_needed, needed_of, place_behind};
use crate::requests::{
    RequestAsks, asks_at, kind_at, len_of, no_requests, push_ask, push_request, request_at,
};
use crate::zone::zone_among;
use crate::{Bound, Needed, Which};
use rclaim::{Kind, Request};
use rmodel::Groups;
use rset::ResourceSet;
use std::alloc::{AllocError, Global};
use std::marker::Model;

/// What tasks need: for each task its requests in order, with the sets that they ask for.
#[derive(Drop)]
pub struct Needs {
    groups: Groups,
    tasks: Vec<Vec<RequestAsks>>,
    claims: Vec<Needed>,
}

impl Model for Needs {
    ghost use Rattle.rbound.specs.TaskNeeds.{TaskNeeds, task_needs_code};
    ghost use Rattle.rbound.specs.Kept.{tasks_in, AreKept};

    ghost Value = { TaskNeeds };

    ghost coded = { task_needs_code };

    ghost view = { λ a. record { groups = a.groups; tasks = tasks_in a.tasks.items } };

    ghost invariant = { λ a. AreKept a.groups a.tasks.items a.claims.items };
}

impl Needs {
    /// This many tasks, which need nothing yet. Requests are over these groups.
    ///
    /// # Errors
    ///
    /// Out of memory.
    pub fn new(alloc: Global, groups: Groups, tasks: u8) -> Result<Needs, AllocError>
        ensures { IfOk result (λ needs. needs ≡ record { groups = groups; tasks = none_needed tasks }) }
    {
        let made = no_requests(alloc, tasks)?;
        Ok(Needs {
            groups,
            tasks: made,
            claims: Vec::new(alloc),
        })
    }

    /// Adds a request without asks after the others of a task.
    ///
    /// # Errors
    ///
    /// Out of memory. Then nothing changes.
    pub fn push(&mut self, task: u8, request: Request) -> Result<(), AllocError>
        requires task { task < length self.old.tasks }
        requires reads { IsTrue (all_below self.old.groups.q request.reads) }
        requires writes { IsTrue (all_below self.old.groups.q request.writes) }
        ensures ok { OnOk result (self.new ≡ record self.old { tasks = with_request self.old.tasks task request }) }
        ensures tasks { length self.new.tasks ≡ length self.old.tasks }
        ensures err { OnErr result (self.new ≡ self.old) }
    {
        let alloc = *self.claims.allocator();
        let number = len_of(&self.tasks, usize::from(task));
        self.claims.reserve(2)?;
        push_request(alloc, &mut self.tasks, usize::from(task), request)?;
        let (first, second) = needed_of(&self.groups, task, number as u64, &request);
        let at = place_behind(&self.claims, task);
        insert_needed(&mut self.claims, at, first, second);
        Ok(())
    }

    /// Adds a set that the last request of a task asks for, after its other asks. That request is nested.
    ///
    /// # Errors
    ///
    /// Out of memory. Then nothing changes.
    pub fn push_ask(&mut self, task: u8, set: ResourceSet) -> Result<(), AllocError>
        requires task { task < length self.old.tasks }
        requires nested { last_is_nested (requests_of self.old.tasks task) ≡ true }
        ensures ok { OnOk result (self.new ≡ record self.old { tasks = with_ask self.old.tasks task set }) }
        ensures tasks { length self.new.tasks ≡ length self.old.tasks }
        ensures err { OnErr result (self.new ≡ self.old) }
    {
        push_ask(&mut self.tasks, usize::from(task), set)
    }

    /// The number of requests of a task.
    pub fn len(&self, task: u8) -> usize
        requires { task < length self.now.tasks }
        ensures { result ≡ length (requests_of self.now.tasks task) }
    {
        len_of(&self.tasks, usize::from(task))
    }

    /// The kind of the request number `k` of a task.
    pub fn kind(&self, task: u8, k: usize) -> Kind
        requires task { task < length self.now.tasks }
        requires number { k < length (requests_of self.now.tasks task) }
        ensures { kind_at self.now.tasks task k ≡ Some result }
    {
        kind_at(&self.tasks, usize::from(task), k)
    }

    /// The number of asks of the request number `k` of a task.
    pub fn asks(&self, task: u8, k: usize) -> usize
        requires task { task < length self.now.tasks }
        requires number { k < length (requests_of self.now.tasks task) }
        ensures { result ≡ length (asks_at self.now.tasks task k) }
    {
        asks_at(&self.tasks, usize::from(task), k).len()
    }

    /// The number of tasks.
    pub fn tasks(&self) -> u8
        ensures { result ≡ length self.now.tasks }
    {
        self.tasks.len() as u8
    }

    /// All claims that are needed, task by task.
    pub fn claims(&self) -> &[Needed]
        ensures value { result.now ≡ needed_in self.now }
        ensures sound { AreSound (needed_in self.now) (length self.now.tasks) }
    {
        &self.claims
    }

    /// The claim of the request number `k` of a task that waits first: the read half of an upgrade, or the only claim.
    pub fn first_claim(&self, task: u8, k: usize) -> Needed
        requires task { task < length self.now.tasks }
        requires number { k < length (requests_of self.now.tasks task) }
        ensures { first_need (needed_in self.now) task k ≡ Some result }
    {
        let (first, _) = claims_at(&self.groups, &self.tasks, task, k);
        first
    }

    /// The write claim of the request number `k` of a task, where it has one.
    pub fn write_claim(&self, task: u8, k: usize) -> Option<Needed>
        requires task { task < length self.now.tasks }
        requires number { k < length (requests_of self.now.tasks task) }
        ensures { result ≡ write_need (needed_in self.now) task k }
    {
        let (first, second) = claims_at(&self.groups, &self.tasks, task, k);
        write_among(first, second)
    }

    /// The set that the request number `k` of a task asks for in its ask number `i`, where there is such an ask.
    pub fn ask(&self, task: u8, k: usize, i: usize) -> Option<ResourceSet>
        requires task { task < length self.now.tasks }
        requires number { k < length (requests_of self.now.tasks task) }
        ensures { result ≡ slice_get (asks_at self.now.tasks task k) i }
    {
        asks_at(&self.tasks, usize::from(task), k).get(i).copied()
    }
}

/// The zone of some places: these and the places of all needed claims, joined as long as two of them share a place. It
/// takes no memory.
pub fn zone_of(needs: &Needs, claim_places: ResourceSet) -> ResourceSet
    ensures { result ≡ zone_of (needed_in needs.now) claim_places }
{
    zone_among(&needs.claims, claim_places)
}

/// The claims of a request of a task.
fn claims_at(
    groups: &Groups,
    tasks: &[Vec<RequestAsks>],
    task: u8,
    number: usize,
) -> (Needed, Option<Needed>)
    requires task { task < length tasks.now }
    requires number { number < length (requests_of (tasks_in tasks.now) task) }
    requires fine { AreFine groups.now.q (tasks_in tasks.now) }
    ensures { AreClaimsOf groups.now.groups (tasks_in tasks.now) task number (result.0 ∷ option_to_list result.1) }
{
    let request = request_at(tasks, usize::from(task), number);
    needed_of(groups, task, number as u64, &request)
}

/// The write claim among those of a request.
fn write_among(first: Needed, second: Option<Needed>) -> Option<Needed>
    ensures { result ≡ write_among first second }
{
    if first.claim.write_half {
        Some(first)
    } else {
        second
    }
}

/// The bound of a wait of the request number `k` of a task, both counted from 0, where no more than `cap` requests may be
/// incomplete. It looks through all claims. For a rise it is the bound of the request's write claim, whatever the kind of
/// the request; where there is no write claim, or no ask of that number, all numbers are 0.
///
/// # Errors
///
/// Out of memory; never for an ask.
pub fn bound_of(
    alloc: Global,
    needs: &Needs,
    cap: u8,
    task: u8,
    k: usize,
    which: Which,
) -> Result<Bound, AllocError>
    requires cap { 1 ≤ cap }
    requires task { task < length needs.now.tasks }
    requires number { k < length (requests_of needs.now.tasks task) }
    ensures value { IfOk result (λ b. numbers_in b ≡ bound_of needs.now cap task k which) }
    ensures succeeds { (i : ℕ) → which ≡ Ask i → IsOk result }
{
    let tasks = needs.tasks();
    let claims = needs.claims();
    match which {
        Which::First => first_bound(alloc, claims, tasks, cap, &needs.first_claim(task, k).claim),
        Which::Rise => rise_bound(alloc, claims, tasks, cap, needs.write_claim(task, k)),
        Which::Ask(i) => match needs.ask(task, k, i) {
            None => Ok(Bound::no_wait()),
            Some(part) => Ok(asked_bound(claims, needs.write_claim(task, k), part)),
        },
    }
}
