//! A section whose value finds no memory for the copy that its first edit makes.
ghost use Rattle.std.specs.Prelude.{◌≡◌, ◌<◌, length, IfOk};
ghost use Rattle.rset.specs.declared.TheConstants.{RESOURCES};
ghost use Rattle.rvalue.specs.Ledgers.{is_taken, value_after, untaken_leaves};
ghost use Rattle.rguard.specs.Guards.{HoldingToWrite};
ghost use Rattle.rguard.specs.Resting.{Rests, all_with};

use crate::closing::{Left, closed, value_at};
use crate::sections::{opened_over, pop_seat, push_seat, to_write, write_in};
use rclaim::Event;
use rguard::{Rnlp, Seat, WriteGuard};
use rmodel::Machine;
use rset::{RESOURCES, ResourceSet};
use rvalue::{Act, Edit, Editable, Entry, Ledger};
use std::alloc::{AllocError, Global};
use std::process::Abort;
use std::sync::Wait;
use std::sync::atomic::{AtomicU64, Ordering};
use std::test::Fail;

// A ledger that counts its copies down in a word that it borrows: the copy that brings the word to 0 finds no memory.
#[derive(Drop)]
struct Rationed<'a> {
    ledger: Ledger,
    left: &'a AtomicU64,
}

impl<'a> Editable for Rationed<'a> {
    type Edit = Edit;

    ghost after = { λ value edit. record value { ledger = value_after value.ledger edit } };

    ghost taken = { λ value edit. is_taken value.ledger edit };

    ghost number = { λ value. value.ledger.balance };

    ghost untaken = { λ value edit refused i. record value { ledger = untaken_leaves value.ledger edit refused i } };

    fn apply(&mut self, edit: &Edit) -> bool {
        self.ledger.apply(edit)
    }

    fn copy(&self, _alloc: Global) -> Result<Rationed<'a>, AllocError> {
        match self.left.load(Ordering::SeqCst) {
            0 => {}
            1 => {
                self.left.store(0, Ordering::SeqCst);
                return Err(AllocError);
            }
            n => self.left.store(n - 1, Ordering::SeqCst),
        }
        Ok(Rationed {
            ledger: self.ledger,
            left: self.left,
        })
    }

    fn shown(&self) -> u64 {
        self.ledger.shown()
    }
}

// What is in each ledger at first.
const BALANCE: u64 = 100;

// A rationed ledger for each resource.
fn values_with(alloc: Global, left: &AtomicU64) -> Result<Vec<Rationed<'_>>, AllocError>
    ensures { IfOk result (λ v. length v.items ≡ RESOURCES) }
{
    let mut values = Vec::new(alloc);
    for _ in 0..RESOURCES {
        let ledger = Ledger {
            balance: BALANCE,
            edits: 0,
        };
        values.push(Rationed { ledger, left })?;
    }
    Ok(values)
}

// Whether the entry ends a section with just this act, or with none.
fn ends_with(entry: &Entry<Edit>, added: Option<(u8, u64)>) -> bool {
    match &entry.event {
        Event::Finish { seat: _ } => {}
        _ => return false,
    }
    match added {
        None => entry.acts.is_empty(),
        Some((at, n)) => match entry.acts.get(0) {
            Some(Act::Edited { place, edit, done }) => {
                entry.acts.len() == 1 && *place == at && *edit == Edit::Add(n) && *done
            }
            _ => false,
        },
    }
}

// Whether this edit is refused, as its value finds no memory for its copy, and the ledger is still as it was lent.
fn is_refused<M: Machine>(
    alloc: Global,
    guard: &mut WriteGuard<'_, Rationed<'_>, M>,
    place: u8,
    edit: Edit,
) -> bool
    requires { HoldingToWrite guard.old.seat place }
    ensures { guard.new.seat ≡ guard.old.seat }
{
    match guard.edit(alloc, place, edit) {
        Ok(_) => false,
        Err(_) => {
            let ledger = guard.get(place).ledger;
            ledger.balance == BALANCE && ledger.edits == 0
        }
    }
}

// One section that is broken off: whether its edit of this resource is refused, and the ledger still as it was lent.
fn refused_in<'a, R: Wait, M: Machine>(
    rt: &R,
    alloc: Global,
    lock: &Rnlp<Rationed<'a>, M>,
    seat: Seat<Rationed<'a>, M>,
    group: ResourceSet,
    place: u8,
) -> (Seat<Rationed<'a>, M>, bool)
    requires rests { Rests (all_with group) lock.now seat }
    requires place { place < RESOURCES }
    ensures { Rests (all_with group) lock.now result.0 }
{
    match to_write(rt, alloc, lock, seat, group, ResourceSet::one(place)) {
        Ok(mut guard) => {
            let refused = is_refused(alloc, &mut guard, place, Edit::Add(5));
            (guard.discard(rt), refused)
        }
        Err(seat) => (seat, false),
    }
}

// Whether the edit of a first section is refused, and a second section, on another resource, takes its edit; and what is
// left of their runtime.
fn left_by_sections<'a, R: Wait + Abort>(
    rt: &R,
    alloc: Global,
    left: &'a AtomicU64,
) -> Result<(bool, Left<Rationed<'a>>), AllocError> {
    let both = ResourceSet::one(0).with(1);
    let (lock, mut seats) = opened_over(alloc, both, values_with(alloc, left)?, 1)?;
    left.store(1, Ordering::SeqCst);
    let seat = pop_seat(rt, &lock, both, &mut seats);
    let (seat, refused) = refused_in(rt, alloc, &lock, seat, both, 0);
    let second = ResourceSet::one(1);
    let (seat, taken) = write_in(rt, alloc, &lock, seat, both, second, Edit::Add(7));
    push_seat(&lock, both, &mut seats, seat)?;
    Ok((refused && taken, closed(rt, lock, both, seats, 1)))
}

#[test]
fn a_section_goes_on_whose_copy_was_refused(rt: HostRuntime) -> Result<(), Fail> {
    let copies_left = AtomicU64::new(0);
    let (right, left) = left_by_sections(&rt, rt.alloc(), &copies_left)?;
    let entries = left.history.entries();
    let first = value_at(&rt, &left, 0).ledger;
    let second = value_at(&rt, &left, 1).ledger;
    assert!(rt;
        right
            && entries.len() == 4
            && ends_with(&entries[1], None)
            && ends_with(&entries[3], Some((1, 7)))
            && first.balance == BALANCE
            && first.edits == 0
            && second.balance == BALANCE + 7
            && second.edits == 1
    );
    Ok(())
}
