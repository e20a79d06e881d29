//! An account, and the law that four of them have 4,000 together.
ghost use Rattle.four_accounts.specs.Accounts.{account_after, is_taken, untaken_leaves, HaveTogether, IsMove, moves_keep};

use rnlp_lock::{Editable, Law};
use std::alloc::{AllocError, Global};

/// An account.
#[derive(Clone, Copy)]
pub struct Account {
    /// What is in it.
    pub balance: u32,
}

/// A change of it.
#[derive(Clone, Copy)]
pub enum Transfer {
    /// Puts this amount in.
    Deposit(u32),
    /// Takes this amount out, if the account has it.
    Withdraw(u32),
}

impl Editable for Account {
    type Edit = Transfer;

    ghost after = { account_after };

    ghost taken = { is_taken };

    ghost number = { λ account. account.balance };

    ghost untaken = { untaken_leaves };

    fn apply(&mut self, transfer: &Transfer) -> bool {
        let left = match *transfer {
            Transfer::Deposit(amount) => self.balance.checked_add(amount),
            Transfer::Withdraw(amount) => self.balance.checked_sub(amount),
        };
        match left {
            Some(balance) => {
                self.balance = balance;
                true
            }
            None => false,
        }
    }

    fn copy(&self, _alloc: Global) -> Result<Account, AllocError> {
        Ok(*self)
    }

    fn shown(&self) -> u64 {
        u64::from(self.balance)
    }
}

impl Law for Account {
    ghost holds = { HaveTogether 4000 };

    ghost allows = { IsMove };

    ghost keeps = { moves_keep 4000 };
}
