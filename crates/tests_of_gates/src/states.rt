//! The locked state and what it lends, made on their own.

use rexpand::Groups;
use rmodel::Machine;
use rplain::Plain;
use rstate::{Lent, Shares, State};
use rvalue::Ledger;
use std::alloc::{AllocError, Global};
use std::test::Fail;

// A locked state over two ledgers, with a seat.
fn two_ledgers(alloc: Global) -> Result<State<Ledger, Plain>, AllocError> {
    let machine = Plain::new(alloc, Groups::new(alloc, 2)?, 1, 1)?;
    let values = vec![in alloc; Ledger::new(); 2]?;
    State::new(alloc, machine, values)
}

// Whether a state is made where nothing was done yet.
fn makes_state(alloc: Global) -> bool {
    match two_ledgers(alloc) {
        Ok(state) => state.history().len() == 0,
        Err(_) => false,
    }
}

// Whether shares of this ledger are made.
fn makes_shares(alloc: Global, ledger: &Ledger) -> bool {
    match Shares::of(alloc, 2, ledger) {
        Ok(shares) => *shares.get() == *ledger,
        Err(_) => false,
    }
}

// Whether room is made for what may be lent.
fn makes_room(alloc: Global) -> bool {
    Lent::<Ledger>::new(alloc, 2).is_ok()
}

#[test]
fn a_state_is_made_with_shares_and_room(rt: HostRuntime) -> Result<(), Fail> {
    let alloc = rt.alloc();
    let ledger = Ledger {
        balance: 7,
        edits: 3,
    };
    let state = makes_state(alloc) || makes_state(alloc);
    let shares = makes_shares(alloc, &ledger) || makes_shares(alloc, &ledger);
    let room = makes_room(alloc) || makes_room(alloc);
    assert!(rt; state && shares && room);
    Ok(())
}
