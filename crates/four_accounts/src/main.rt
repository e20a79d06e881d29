//! Four threads move amounts among four accounts and look at all of them: none is lost, none is made.
#![tactic(auto)]

ghost use Rattle.std.specs.Prelude.{◌≡◌, ◌≢◌, ◌<◌, IfOk};
ghost use Rattle.rnlp_lock.specs.Seats.{who};

mod account;

use account::{Account, Transfer};
use rnlp_lock::{Lock, LockErr, Reading, ResourceSet, Seat, Sits, Stop, leave, together};
use std::alloc::Global;
use std::io;
use std::sync::Wait;
use std::thread::Threads;

// All four accounts.
fn all_four() -> ResourceSet {
    ResourceSet::one(0).with(1).with(2).with(3)
}

// What the accounts of a section have together.
fn sum_of(values: &Reading<'_, Account>) -> u64 {
    let mut sum = 0u64;
    for l in 0..4u8 {
        if values.has(l) {
            sum = sum.wrapping_add(u64::from(values.get(l).balance));
        }
    }
    sum
}

// One section that reads all accounts: what they have together.
fn look<R: Wait>(rt: &R, seat: &mut Seat<'_, Account>) -> Result<u64, Stop>
    ensures { who seat.new ≡ who seat.old }
{
    seat.read(rt, all_four(), |values| sum_of(values))
}

// One section that moves an amount from an account to another. It is refused, and does nothing, where the first has too little.
fn transfer<R: Wait>(
    rt: &R,
    seat: &mut Seat<'_, Account>,
    from: u8,
    to: u8,
    amount: u32,
) -> Result<(), Stop>
    requires { (from < 4) × (to < 4) × (from ≢ to) }
    ensures { who seat.new ≡ who seat.old }
{
    seat.write(rt, ResourceSet::one(from).with(to), |values| {
        values.make(from, Transfer::Withdraw(amount))?;
        values.make(to, Transfer::Deposit(amount))
    })
}

// What a thread does: it moves amounts from its own account to the next one, and looks at all accounts now and then.
fn work<R: Wait>(rt: &R, seat: &mut Seat<'_, Account>, own: u8)
    requires { own < 4 }
    ensures { who seat.new ≡ who seat.old }
{
    for turn in 0..100u8 {
        let _ = transfer(rt, seat, own, (own + 1) % 4, 30);
        if turn % 10 == 0 {
            let _ = look(rt, seat);
        }
    }
}

/// What four accounts of 1,000 have together, once four threads have moved amounts among them.
///
/// # Errors
///
/// Out of memory.
pub fn moved<R: Threads + Wait + Sync>(rt: &R, alloc: Global) -> Result<u64, LockErr>
    ensures { IfOk result (λ sum. sum ≡ 4000) }
{
    let accounts = vec![in alloc; Account { balance: 1_000 }; 4]?;
    let (lock, passes) = Lock::of(alloc, accounts, &[all_four()], 4)?;
    let mut seats = lock.seats(alloc, passes)?;
    together(
        rt,
        &mut seats,
        &|k, seat: &mut Seat<'_, Account>| work(rt, seat, (k % 4) as u8),
    );
    let passes = leave(alloc, &lock, seats)?;
    let (_, accounts) = lock.close(passes);
    Ok(
        u64::from(accounts[0].balance)
            + u64::from(accounts[1].balance)
            + u64::from(accounts[2].balance)
            + u64::from(accounts[3].balance),
    )
}

fn main(rt: HostRuntime) -> io::Result<()> {
    match moved(&rt, rt.alloc()) {
        Ok(sum) => println!(rt; "four accounts have {sum} together"),
        Err(_) => println!(rt; "no memory"),
    }
}
