// Tests of `rvalue`.
ghost use Rattle.std.specs.Prelude.{◌+◌, nat_lt, if◌then◌else◌, refl};

use rclaim::Event;
use rvalue::{Act, BALANCE_LIMIT, EDITS_LIMIT, Edit, Editable, Entry, History, Ledger};
use std::alloc::{AllocError, Global};
use std::test::Fail;

// A number that takes what fits into a byte.
#[derive(Drop)]
struct Tally(u8);

impl Editable for Tally {
    type Edit = u8;

    ghost after = { λ tally more. if nat_lt (tally.0 + more) 256 then record { 0 = tally.0 + more } else tally };

    ghost taken = { λ tally more. nat_lt (tally.0 + more) 256 };

    ghost number = { λ tally. tally.0 };

    ghost untaken = { λ tally more h. Prim.rw h refl };

    fn apply(&mut self, more: &u8) -> bool {
        match self.0.checked_add(*more) {
            Some(sum) => {
                self.0 = sum;
                true
            }
            None => false,
        }
    }

    fn copy(&self, _alloc: Global) -> Result<Tally, AllocError> {
        Ok(Tally(self.0))
    }

    fn shown(&self) -> u64 {
        self.0 as u64
    }
}

// The answer to the edit on a copy, and the number shown after it.
fn edited_copy<T: Editable + Drop>(
    alloc: Global,
    value: &T,
    edit: &T::Edit,
) -> Result<(bool, u64), AllocError> {
    let mut copy = value.copy(alloc)?;
    let done = copy.apply(edit);
    Ok((done, copy.shown()))
}

// Values of two types are copied and edited through the bound.
fn is_edited_as_a_copy(alloc: Global) -> Result<bool, AllocError> {
    let tally = Tally(250);
    let ledger = Ledger::new();
    let taken = edited_copy(alloc, &tally, &5)? == (true, 255);
    let refused = edited_copy(alloc, &tally, &6)? == (false, 250);
    let set = edited_copy(alloc, &ledger, &Edit::Set(9))? == (true, 9);
    Ok(taken && refused && set && ledger.copy(alloc)? == ledger)
}

// A ledger takes edits up to its limits, and none beyond them.
fn takes_edits_up_to_its_limits() -> bool {
    let mut ledger = Ledger {
        balance: BALANCE_LIMIT - 5,
        edits: EDITS_LIMIT - 2,
    };
    let above = ledger.apply(&Edit::Add(6));
    let full = ledger.apply(&Edit::Add(5));
    let empty = ledger.apply(&Edit::Take(BALANCE_LIMIT));
    let late = ledger.apply(&Edit::Set(1));
    !above && full && empty && !late && ledger.shown() == 0
}

// Entries are kept in room that was reserved, and give the value.
fn keeps_entries(alloc: Global) -> Result<bool, AllocError> {
    let mut history = History::new(alloc);
    history.reserve(1)?;
    if history.spare() == 0 {
        return Ok(false);
    }
    let add = Act::Edited {
        place: 0,
        edit: Edit::Add(5),
        done: true,
    };
    history.push_reserved(Entry {
        event: Event::Finish { seat: 3 },
        acts: vec![in alloc; add]?,
    });
    let value = history.value_of(Ledger::new(), 0);
    Ok(history.len() == 1 && history.get(0).event.seat() == 3 && value.balance == 5)
}

// An act is judged by doing it again.
fn is_judged() -> bool {
    let mut tally = Tally(250);
    let edit = Act::Edited {
        place: 0,
        edit: 5,
        done: true,
    };
    let show: Act<u8> = Act::Shown {
        place: 0,
        number: 255,
    };
    let first = edit.redo(&mut tally);
    let second = edit.redo(&mut tally);
    first && !second && show.redo(&mut tally)
}

#[test]
fn values_and_histories_have_memory(rt: HostRuntime) -> Result<(), Fail> {
    assert!(rt; is_edited_as_a_copy(rt.alloc())? && keeps_entries(rt.alloc())?);
    Ok(())
}

#[test]
fn edits_have_limits_and_are_judged(rt: HostRuntime) {
    assert!(rt; takes_edits_up_to_its_limits() && is_judged());
}
