// What watchers count.
ghost use Rattle.std.specs.Prelude.{◌≡◌, ◌+◌, true, false, min};
ghost use Rattle.std.specs.List.{count_by};
ghost use Rattle.rclaim.specs.Changes.{ChangeLists};
ghost use Rattle.rclaim.specs.declared.event.Event.{Event};
ghost use Rattle.rwatch.specs.Weights.{weight, is_of_events, kind_of, is_status, greatest, count_after};

use rclaim::{Changes, Event, Status, StatusChange};

/// What a watcher counts.
#[derive(Clone, Copy, Debug, PartialEq, Eq)]
pub enum WatchKind {
    /// Issues.
    Issues,
    /// Finishes.
    Finishes,
    /// Rises.
    Rises,
    /// Asks.
    Asks,
    /// Claims that become entitled.
    Entitled,
    /// Claims that become satisfied.
    Satisfied,
    /// Requests that hold more than before.
    Grants,
}

impl WatchKind {
    /// The weight of a step for this kind.
    pub fn weight(self, event: &Event, changes: &Changes) -> u64
        ensures { result ≡ weight self event.now changes.now }
    {
        if self.is_of_events() {
            self.weight_of_event(event)
        } else {
            self.weight_of_changes(changes)
        }
    }

    // The weight of an event for a kind that counts events.
    fn weight_of_event(self, event: &Event) -> u64
        requires { is_of_events self ≡ true }
        ensures { (changes : ChangeLists) → result ≡ weight self event.now changes }
    {
        u64::from(self == kind_of(event))
    }

    // The weight of changes for a kind that counts changes.
    fn weight_of_changes(self, changes: &Changes) -> u64
        requires { is_of_events self ≡ false }
        ensures { (event : Event) → result ≡ weight self event changes.now }
    {
        match self {
            WatchKind::Entitled => count_of(&changes.statuses, false),
            WatchKind::Satisfied => count_of(&changes.statuses, true),
            _ => changes.grants.len() as u64,
        }
    }

    // Whether it counts events; otherwise it counts changes.
    fn is_of_events(self) -> bool
        ensures { result ≡ is_of_events self }
    {
        matches!(
            self,
            WatchKind::Issues | WatchKind::Finishes | WatchKind::Rises | WatchKind::Asks
        )
    }

    /// The count after a step; it stops at the greatest value.
    pub fn count_after(self, count: u64, event: &Event, changes: &Changes) -> u64
        ensures { result ≡ count_after self count event.now changes.now }
    {
        count.saturating_add(self.weight(event, changes))
    }
}

/// Adds a step to a count. Most steps weigh nothing for most kinds, so events and changes are counted on separate paths.
pub fn count_on(count: &mut u64, kind: WatchKind, event: &Event, changes: &Changes)
    ensures { count.new ≡ count_after kind count.old event.now changes.now }
{
    if kind.is_of_events() {
        add(count, kind.weight_of_event(event));
    } else {
        add(count, kind.weight_of_changes(changes));
    }
}

// Adds a weight to a count, which stops at the greatest value. Nothing is written where the weight is 0.
#[inline]
fn add(count: &mut u64, weight: u64)
    ensures { count.new ≡ min (count.old + weight) greatest }
{
    let so_far = *count;
    if weight > 0 {
        *count = so_far.saturating_add(weight);
    }
}

// The kind that counts this event.
fn kind_of(event: &Event) -> WatchKind
    ensures { result ≡ kind_of event.now }
{
    match event {
        Event::Issue { .. } => WatchKind::Issues,
        Event::Finish { .. } => WatchKind::Finishes,
        Event::Rise { .. } => WatchKind::Rises,
        Event::Ask { .. } => WatchKind::Asks,
    }
}

// How many claims became satisfied, or how many became entitled.
fn count_of(statuses: &[StatusChange], satisfied: bool) -> u64
    ensures { result ≡ count_by (is_status satisfied) statuses.now }
{
    statuses
        .iter()
        .filter(|change| is_status(change, satisfied))
        .count() as u64
}

// Whether a claim became satisfied, or whether it became entitled.
fn is_status(change: &StatusChange, satisfied: bool) -> bool
    ensures { result ≡ is_status satisfied change.now }
{
    if satisfied {
        matches!(change.status, Status::Satisfied)
    } else {
        matches!(change.status, Status::Entitled)
    }
}
