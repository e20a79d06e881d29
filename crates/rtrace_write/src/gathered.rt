// What is kept of a history beside its text, until the bounds of its waits are known.
ghost use Rattle.std.specs.Prelude.{◌≡◌, ◌≤◌, ◌<◌, ◌++◌, [], Some, ℕ, List, length, map, slice_get, OnOk, IfOk};
ghost use Rattle.rbound.specs.Bounds.{numbers_in};
ghost use Rattle.rexpand.specs.Groups.{ReadGroups};
ghost use Rattle.rcover_laws.specs.declared.wait_end.WaitEnd.{WaitEnd};
ghost use Rattle.rbound_history.specs.Keys.{key_of};
ghost use Rattle.rbound_history.specs.Knows.{Knows};
ghost use Rattle.rcover.specs.Past.{Past, begun, with_event};
ghost use Rattle.rtrace_write.specs.Behind.{ComesNext, bound_by};
ghost use Rattle.rtrace_write.specs.Gathered.{EndedLast, KnowsGathered, AreBoundsIn};

use rbound::Bound;
use rbound_history::{BoundKey, GrowingNeeds, WaitBounds};
use rclaim::Event;
use rcover_laws::WaitEnd;
use rexpand::Groups;
use std::alloc::{AllocError, Global};

/// Is given a history event by event, with the waits that each event ends. The bounds of all these waits are found from
/// it in the end. It takes memory for shapes of requests and for waits, not for events.
#[derive(Drop)]
pub struct Gathered {
    needs: GrowingNeeds,
    // What the bound of each wait is found by, in the order in which the waits ended.
    keys: Vec<BoundKey>,
}

impl Gathered {
    /// Was given no event yet; there are so many tasks.
    ///
    /// # Errors
    ///
    /// Out of memory.
    pub fn new(alloc: Global, tasks: u8) -> Result<Gathered, AllocError>
        ensures { IfOk result (λ made. (groups : ReadGroups) (cap : ℕ) → KnowsGathered made (begun groups tasks cap) []) }
    {
        Ok(Gathered {
            needs: GrowingNeeds::new(alloc, tasks)?,
            keys: Vec::new(alloc),
        })
    }

    /// Is given the next event, and the waits that it ended, by rising stamp.
    ///
    /// # Errors
    ///
    /// Out of memory. Nothing is promised then of what it knows.
    pub fn tell(&mut self, event: &Event, ended: &[WaitEnd]) -> Result<(), AllocError>
        requires { (p : Past) × (ws : List WaitEnd) × KnowsGathered self.old p ws × ComesNext p event.now ended.now }
        ensures { OnOk result ((p : Past) (ws : List WaitEnd) → KnowsGathered self.old p ws → ComesNext p event.now ended.now → KnowsGathered self.new (with_event p event.now) (ws ++ ended.now)) }
    {
        if ended.is_empty() {
            return self.needs.told(event);
        }
        self.tell_ended(event, ended)
    }

    // The same for an event that ended waits. Room for their keys is made first: if the two paths began alike, the
    // compiler would join them, and an event that ends no wait would pay for both.
    #[inline(never)]
    fn tell_ended(&mut self, event: &Event, ended: &[WaitEnd]) -> Result<(), AllocError>
        requires { (p : Past) × (ws : List WaitEnd) × KnowsGathered self.old p ws × ComesNext p event.now ended.now }
        ensures { OnOk result ((p : Past) (ws : List WaitEnd) → KnowsGathered self.old p ws → ComesNext p event.now ended.now → KnowsGathered self.new (with_event p event.now) (ws ++ ended.now)) }
    {
        self.keys.reserve(ended.len())?;
        self.needs.told(event)?;
        keep_keys(&mut self.keys, &self.needs, ended)
    }

    // The bounds of the waits of a whole history, over its groups and under its cap.
    pub(crate) fn bounds(
        &self,
        alloc: Global,
        groups: &Groups,
        cap: u8,
    ) -> Result<WaitBounds, AllocError>
        requires { (p : Past) × (ws : List WaitEnd) × KnowsGathered self.now p ws × (groups.now ≡ p.groups) × (cap ≡ p.cap) × (1 ≤ cap) }
        ensures { IfOk result (λ bounds. (p : Past) (ws : List WaitEnd) → KnowsGathered self.now p ws → groups.now ≡ p.groups → cap ≡ p.cap → AreBoundsIn bounds self.now p ws) }
    {
        let groups = groups.copy(alloc)?;
        self.needs.bounds(alloc, groups, cap)
    }

    // The bound of the wait with this number, counted from 0 in the order in which they ended.
    pub(crate) fn bound(&self, bounds: &WaitBounds, number: usize) -> Bound
        requires { (p : Past) × (ws : List WaitEnd) × AreBoundsIn bounds.now self.now p ws × (number < length ws) }
        ensures { (p : Past) (ws : List WaitEnd) → AreBoundsIn bounds.now self.now p ws → slice_get (map (bound_by p) ws) number ≡ Some (numbers_in result) }
    {
        bounds.bound(self.keys[number])
    }
}

// Appends the keys of the waits that the last event ended.
fn keep_keys(
    keys: &mut Vec<BoundKey>,
    needs: &GrowingNeeds,
    ended: &[WaitEnd],
) -> Result<(), AllocError>
    requires { (p : Past) × Knows needs.now p.seats p.events × EndedLast p ended.now }
    ensures { OnOk result ((p : Past) → Knows needs.now p.seats p.events → EndedLast p ended.now → keys.new.items ≡ keys.old.items ++ map (key_of p.events) ended.now) }
{
    for wait in ended {
        keys.push(needs.key(wait))?;
    }
    Ok(())
}
