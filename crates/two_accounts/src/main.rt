//! Two threads move 1 to and fro between two accounts, and nothing is lost.
#![tactic(auto)]

ghost use Rattle.std.specs.Prelude.{◌≡◌, ◌≤◌, ◌-◌, IfOk};
ghost use Rattle.rnlp_lock.specs.Seats.{who};

mod account;

use account::{Account, Transfer};
use rnlp_lock::{Lock, LockErr, ResourceSet, Seat, Sits, Stop, leave, together};
use std::alloc::Global;
use std::io;
use std::sync::Wait;
use std::thread::Threads;

// One section: it takes 1 from an account and puts it into the other, or does nothing.
fn move_one<R: Wait>(rt: &R, seat: &mut Seat<'_, Account>, from: u8) -> Result<(), Stop>
    requires { from ≤ 1 }
    ensures { who seat.new ≡ who seat.old }
{
    seat.write(rt, ResourceSet::one(0).with(1), |values| {
        values.make(from, Transfer::Withdraw(1))?;
        values.make(1 - from, Transfer::Deposit(1))
    })
}

// What a thread does.
fn work<R: Wait>(rt: &R, seat: &mut Seat<'_, Account>, from: u8)
    requires { from ≤ 1 }
    ensures { who seat.new ≡ who seat.old }
{
    for _ in 0..100 {
        let _ = move_one(rt, seat, from);
    }
}

/// What two accounts of 1,000 have together, once two threads have moved amounts between them.
///
/// # Errors
///
/// Out of memory.
pub fn moved<R: Threads + Wait + Sync>(rt: &R, alloc: Global) -> Result<u64, LockErr>
    ensures { IfOk result (λ sum. sum ≡ 2000) }
{
    let accounts = vec![in alloc; Account { balance: 1_000 }; 2]?;
    let (lock, passes) = Lock::of(alloc, accounts, &[], 2)?;
    let mut seats = lock.seats(alloc, passes)?;
    together(
        rt,
        &mut seats,
        &|k, seat: &mut Seat<'_, Account>| work(rt, seat, (k % 2) as u8),
    );
    let passes = leave(alloc, &lock, seats)?;
    let (_, accounts) = lock.close(passes);
    Ok(accounts[0].balance + accounts[1].balance)
}

fn main(rt: HostRuntime) -> io::Result<()> {
    match moved(&rt, rt.alloc()) {
        Ok(sum) => println!(rt; "two accounts have {sum} together"),
        Err(_) => println!(rt; "no memory"),
    }
}
