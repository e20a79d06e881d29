//! What a monitor shows of a runtime before, in and after a section of its seat.
ghost use Rattle.std.specs.Prelude.{◌≡◌, IfOk, All, length};
ghost use Rattle.rguard.specs.Resting.{Rests, all_with};
ghost use Rattle.rguard.specs.Scribes.{IsScribeOf};
ghost use Rattle.rmon.specs.Known.{newcomer};
ghost use Rattle.rmon.specs.declared.rule.Opening.{Opening};
ghost use Rattle.rlooks.specs.Workers.{Feeds};
ghost use Rattle.rstate.specs.Histories.{Beginning};
ghost use Rattle.rvalue.specs.Ledgers.{value_after, is_taken};
ghost use Rattle.rvalue.specs.declared.ledger.Ledger.{Ledger};

use crate::sections::{Place, Runtime, declared, ended, ledgers, to_write};
use rguard::Scribe;
use rlooks::feed_once;
use rmodel::Machine;
use rmon::{Feed, Look, Monitor};
use rplain::Plain;
use rset::ResourceSet;
use rvalue::{Edit, History, Ledger};
use std::alloc::{AllocError, Global};
use std::sync::Wait;
use std::test::Fail;

// The passes of a runtime with one seat and a scribe, at which this set is declared.
#[derive(Drop)]
struct Passes {
    group: ResourceSet,
    seat: Place<Plain>,
    scribe: Scribe<Ledger, Plain>,
}

// The only seat of a runtime.
fn only_seat(rnlp: &Runtime<Plain>, group: ResourceSet, seats: Vec<Place<Plain>>) -> Place<Plain>
    requires rest { All (Rests (all_with group) rnlp.now) seats.items }
    requires one { length seats.items ≡ 1 }
    ensures { Rests (all_with group) rnlp.now result }
{
    let mut seats = seats;
    let _ = rnlp;
    let _ = group.len();
    seats.pop().unwrap()
}

// The only monitor of a feed.
fn only_monitor(feed: &Feed, monitors: Vec<Monitor>) -> Monitor
    requires { length monitors.items ≡ 1 }
    ensures { (o : Opening) → All (λ m. m ≡ newcomer feed.now.feed o) monitors.items → result ≡ newcomer feed.now.feed o }
{
    let mut monitors = monitors;
    let _ = feed;
    monitors.pop().unwrap()
}

// A runtime with one seat and a scribe, a feed that began as it did, and a monitor of that feed.
fn opened<R: Wait>(
    rt: &R,
    alloc: Global,
    group: ResourceSet,
) -> Result<(Runtime<Plain>, Passes, Feed, Monitor), AllocError>
    ensures rests { IfOk result (λ r. Rests (all_with r.1.group) r.0 r.1.seat) }
    ensures one { IfOk result (λ r. r.0.seats ≡ 1) }
    ensures feeds { IfOk result (λ r. (b : Beginning Ledger) × Feeds value_after is_taken (λ (ledger : Ledger). ledger.balance) r.0 b r.1.scribe r.2 r.3) }
{
    let groups = declared(alloc, group)?;
    let again = groups.copy(alloc)?;
    let machine = Plain::new(alloc, groups, 1, 1)?;
    let (rnlp, seats, scribe) = Runtime::new_fed(alloc, machine, ledgers(alloc)?, 1)?;
    let seat = only_seat(&rnlp, group, seats);
    let (feed, monitors) = Feed::new(rt, alloc, again, 1, 1, 1)?;
    let monitor = only_monitor(&feed, monitors);
    let passes = Passes {
        group,
        seat,
        scribe,
    };
    Ok((rnlp, passes, feed, monitor))
}

// A round of the worker that feeds, and its look.
fn look_on<R: Wait>(
    rt: &R,
    alloc: Global,
    rnlp: &Runtime<Plain>,
    scribe: Scribe<Ledger, Plain>,
    feed: &mut Feed,
    monitor: &mut Monitor,
) -> (Scribe<Ledger, Plain>, Result<Look, AllocError>)
    requires { (b : Beginning Ledger) × Feeds value_after is_taken (λ (ledger : Ledger). ledger.balance) rnlp.now b scribe feed.old monitor.old }
    ensures { (b : Beginning Ledger) → Feeds value_after is_taken (λ (ledger : Ledger). ledger.balance) rnlp.now b scribe feed.old monitor.old → Feeds value_after is_taken (λ (ledger : Ledger). ledger.balance) rnlp.now b result.0 feed.new monitor.new }
{
    match feed_once(rt, alloc, rnlp, scribe, feed, monitor) {
        Ok((scribe, look)) => (scribe, Ok(look)),
        Err((scribe, e)) => (scribe, Err(e)),
    }
}

// Three looks: before a write section, while it holds, and after it.
fn rounds<R: Wait>(
    rt: &R,
    alloc: Global,
    rnlp: &Runtime<Plain>,
    passes: Passes,
    feed: &mut Feed,
    monitor: &mut Monitor,
) -> Result<(Passes, [Look; 3]), Fail>
    requires rests { Rests (all_with passes.group) rnlp.now passes.seat }
    requires feeds { (b : Beginning Ledger) × Feeds value_after is_taken (λ (ledger : Ledger). ledger.balance) rnlp.now b passes.scribe feed.old monitor.old }
    ensures rests { IfOk result (λ r. Rests (all_with r.0.group) rnlp.now r.0.seat) }
    ensures scribe { IfOk result (λ r. IsScribeOf rnlp.now r.0.scribe) }
{
    let Passes {
        group,
        seat,
        scribe,
    } = passes;
    let (scribe, first) = look_on(rt, alloc, rnlp, scribe, feed, monitor);
    let Ok(guard) = to_write(rt, alloc, rnlp, seat, group, group) else {
        return Err(AllocError)?;
    };
    let (scribe, held) = look_on(rt, alloc, rnlp, scribe, feed, monitor);
    let (seat, _) = ended(rt, alloc, rnlp, group, guard, true);
    let (scribe, last) = look_on(rt, alloc, rnlp, scribe, feed, monitor);
    let passes = Passes {
        group,
        seat,
        scribe,
    };
    Ok((passes, [first?, held?, last?]))
}

// The history of a runtime that is closed with its one seat and its scribe.
fn closed(alloc: Global, rnlp: Runtime<Plain>, passes: Passes) -> Result<History<Edit>, AllocError>
    requires rests { Rests (all_with passes.group) rnlp passes.seat }
    requires one { rnlp.seats ≡ 1 }
    requires scribe { IsScribeOf rnlp passes.scribe }
{
    let Passes {
        group,
        seat,
        scribe,
    } = passes;
    let _ = group.len();
    if seat.number() != 0 {
        return Err(AllocError);
    }
    let mut seats = Vec::new(alloc);
    seats.push(seat)?;
    let (history, _, _) = rnlp.close_fed(seats, scribe);
    Ok(history)
}

#[test]
fn a_round_shows_what_a_section_did(rt: HostRuntime) -> Result<(), Fail> {
    let alloc = rt.alloc();
    let (rnlp, passes, mut feed, mut monitor) = opened(&rt, alloc, ResourceSet::one(0))?;
    let seen = rounds(&rt, alloc, &rnlp, passes, &mut feed, &mut monitor);
    feed.close(&rt);
    let (passes, [first, held, last]) = seen?;
    assert_eq!(rt; (first.events, first.incomplete, first.holding), (0, 0, 0));
    assert_eq!(rt; (held.events, held.incomplete, held.holding), (1, 1, 1));
    assert_eq!(rt; (last.events, last.incomplete, last.holding), (2, 0, 0));
    let history = closed(alloc, rnlp, passes)?;
    assert_eq!(rt; history.len(), 2);
    Ok(())
}
