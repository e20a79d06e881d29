// A ledger: a balance within limits, and a count of the edits that it has taken.
ghost use Rattle.std.specs.Prelude.{◌≡◌, ◌+◌, Some, None, if◌then◌else◌};
ghost use Rattle.rvalue.specs.Ledgers.{is_taken, is_within, value_after, balance_after, untaken_leaves, opening_ledger};

use crate::{BALANCE_LIMIT, EDITS_LIMIT, Editable};
use std::alloc::{AllocError, Global};

/// A balance, and how many edits made it.
#[derive(Clone, Copy, Debug, Default, PartialEq, Eq)]
pub struct Ledger {
    /// The balance; an edit that adds or sets leaves at most [`BALANCE_LIMIT`].
    pub balance: u64,
    /// How many edits it has taken; at most [`EDITS_LIMIT`].
    pub edits: u64,
}

/// A change of a ledger.
#[derive(Clone, Copy, Debug, PartialEq, Eq)]
pub enum Edit {
    /// Puts this amount in. It is taken where the sum is at most [`BALANCE_LIMIT`].
    Add(u64),
    /// Takes this amount out. It is taken where the balance has that much.
    Take(u64),
    /// Makes the balance this number. It is taken where the number is at most [`BALANCE_LIMIT`].
    Set(u64),
}

impl Ledger {
    /// A new ledger: the balance is 0, and no edit was taken.
    pub fn new() -> Ledger
        ensures { result ≡ opening_ledger }
    {
        Ledger::default()
    }

    // The balance after the edit; None where it would leave the limits.
    fn balance_after(balance: u64, edit: Edit) -> Option<u64>
        ensures { result ≡ (if is_within balance edit then Some (balance_after balance edit) else None) }
    {
        match edit {
            Edit::Add(amount) => balance
                .checked_add(amount)
                .filter(|sum| *sum <= BALANCE_LIMIT),
            Edit::Take(amount) => balance.checked_sub(amount),
            Edit::Set(number) => Some(number).filter(|number| *number <= BALANCE_LIMIT),
        }
    }
}

impl Editable for Ledger {
    type Edit = Edit;

    ghost after = { value_after };

    ghost taken = { is_taken };

    ghost number = { λ ledger. ledger.balance };

    ghost untaken = { untaken_leaves };

    fn apply(&mut self, edit: &Edit) -> bool {
        if self.edits == EDITS_LIMIT {
            return false;
        }
        let Some(balance) = Ledger::balance_after(self.balance, *edit) else {
            return false;
        };
        self.balance = balance;
        self.edits += 1;
        true
    }

    fn copy(&self, _alloc: Global) -> Result<Ledger, AllocError> {
        Ok(*self)
    }

    fn shown(&self) -> u64 {
        self.balance
    }
}
