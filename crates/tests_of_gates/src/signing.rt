//! Passes sign a roll at a gate, on several threads.
ghost use Rattle.std.specs.Prelude.{◌≡◌, ℕ, ◌<◌, length, All, IsTrue, IfOk, slice_index_or};
ghost use denote.Param.Send.{IsSync};
ghost use Rattle.rlock.specs.Known.{Known};
ghost use Rattle.rlock.specs.declared.roll.Roll.{Roll};
ghost use Rattle.rlock.specs.declared.roll.Signature.{Signature};

use rlock::{Gate, Pass, Roll};
use rset::SEATS;
use std::alloc::{AllocError, Global};
use std::process::Abort;
use std::sync::Wait;
use std::test::Fail;
use std::thread::{Threads, join};

// What may go to another thread.
fn may_go<T: Send>(value: T) -> T
    ensures { result ≡ value }
{
    value
}

// Signs the roll in one turn of the pass, which comes back. `Err` means there was no memory.
fn sign_in<R: Wait>(
    rt: &R,
    gate: &Gate<Roll>,
    pass: Pass<Roll>,
    time: u32,
) -> (Pass<Roll>, Result<(), AllocError>)
    requires { pass.gate ≡ gate.now.gate }
    ensures { result.0.gate ≡ gate.now.gate }
{
    let number = pass.number();
    let mut turn = may_go(gate.enter(rt, pass));
    let signed = turn.state().sign(number, time);
    (gate.leave(turn), signed)
}

fn sign_often<R: Wait>(
    rt: &R,
    gate: &Gate<Roll>,
    pass: Pass<Roll>,
    turns: u32,
) -> Result<Pass<Roll>, AllocError>
    requires { pass.gate ≡ gate.now.gate }
    ensures { IfOk result (λ p. p.gate ≡ gate.now.gate) }
{
    let mut signer = pass;
    for time in 0..turns {
        let (next, signed) = sign_in(rt, gate, signer, time);
        signed?;
        signer = next;
    }
    Ok(signer)
}

// Each of the passes signs this often.
fn sign_all<R: Wait + AllocGlobal>(
    rt: &R,
    gate: &Gate<Roll>,
    passes: Vec<Pass<Roll>>,
    turns: u32,
) -> Result<Vec<Pass<Roll>>, AllocError>
    requires { All (λ p. p.gate ≡ gate.now.gate) passes.items }
    ensures { IfOk result (λ v. All (λ p. p.gate ≡ gate.now.gate) v.items) }
{
    let mut all = Vec::new(rt.alloc());
    for pass in passes {
        all.push(sign_often(rt, gate, pass, turns)?)?;
    }
    Ok(all)
}

// The same on two threads.
fn sign_in_two<R: Threads + Wait + AllocGlobal + Sync>(
    rt: &R,
    gate: &Gate<Roll>,
    mut passes: Vec<Pass<Roll>>,
    turns: u32,
) -> Result<Vec<Pass<Roll>>, AllocError>
    requires { All (λ p. p.gate ≡ gate.now.gate) passes.items }
    ensures { IfOk result (λ v. All (λ p. p.gate ≡ gate.now.gate) v.items) }
{
    let half = passes.len() / 2;
    let others = passes.split_off(half)?;
    let (first, second) = join(
        rt,
        || sign_all(rt, gate, passes, turns),
        || sign_all(rt, gate, others, turns),
    );
    let mut all = first?;
    all.append(&mut second?)?;
    Ok(all)
}

// The same on four threads.
fn sign_in_four<R: Threads + Wait + AllocGlobal + Sync>(
    rt: &R,
    gate: &Gate<Roll>,
    mut passes: Vec<Pass<Roll>>,
    turns: u32,
) -> Result<Vec<Pass<Roll>>, AllocError>
    requires { All (λ p. p.gate ≡ gate.now.gate) passes.items }
    ensures { IfOk result (λ v. All (λ p. p.gate ≡ gate.now.gate) v.items) }
{
    let half = passes.len() / 2;
    let others = passes.split_off(half)?;
    let (first, second) = join(
        rt,
        || -> Result<Vec<Pass<Roll>>, AllocError>
            requires { IsSync R.row × All (λ p. p.gate ≡ gate.now.gate) passes.items }
            ensures { IfOk result (λ v. All (λ p. p.gate ≡ gate.entry.now.gate) v.items) }
        { sign_in_two(rt, gate, passes, turns) },
        || -> Result<Vec<Pass<Roll>>, AllocError>
            requires { IsSync R.row × All (λ p. p.gate ≡ gate.now.gate) others.items }
            ensures { IfOk result (λ v. All (λ p. p.gate ≡ gate.entry.now.gate) v.items) }
        { sign_in_two(rt, gate, others, turns) },
    );
    let mut all = first?;
    all.append(&mut second?)?;
    Ok(all)
}

// Whether the passes are numbered from 0 in their order.
fn are_in_order(passes: &[Pass<Roll>]) -> bool
    ensures { IsTrue result → (k : ℕ) (d : Known Roll ℕ Signature) → k < length passes.now → (slice_index_or passes.now k d).number ≡ k }
{
    for (k, pass) in passes.iter().enumerate() {
        if usize::from(pass.number()) != k {
            return false;
        }
    }
    true
}

// Closes the gate, after checking that all passes are there.
fn closed(rt: &impl Abort, gate: Gate<Roll>, passes: Vec<Pass<Roll>>, count: u8) -> Roll
    requires gate { All (λ p. p.gate ≡ gate.gate) passes.items }
    requires count { gate.passes ≡ count }
{
    assert!(rt; passes.len() == usize::from(count));
    assert!(rt; are_in_order(passes.as_slice()));
    gate.close(passes)
}

// How many signatures of the pass the roll has. They must be in order.
fn signed_in_order(rt: &impl Abort, roll: &Roll, pass: u8) -> u32 {
    let mut next = 0u32;
    for signature in &roll.signed {
        if signature.pass == pass {
            assert!(rt; signature.time == next && next < u32::MAX);
            next += 1;
        }
    }
    next
}

#[test]
fn one_pass(rt: HostRuntime) -> Result<(), Fail> {
    let (gate, passes) = Gate::new(rt.alloc(), Roll::new(rt.alloc(), 7), 1)?;
    let passes = sign_all(&rt, &gate, passes, 3)?;
    let roll = closed(&rt, gate, passes, 1);
    assert!(rt; roll.day == 7 && roll.signed.len() == 3 && signed_in_order(&rt, &roll, 0) == 3);
    Ok(())
}

#[test]
fn two_passes_on_two_threads(rt: HostRuntime) -> Result<(), Fail> {
    let (gate, passes) = Gate::new(rt.alloc(), Roll::new(rt.alloc(), 8), 2)?;
    let passes = sign_in_two(&rt, &gate, passes, 1000)?;
    let roll = closed(&rt, gate, passes, 2);
    assert!(rt; roll.day == 8 && roll.signed.len() == 2000);
    assert!(rt; signed_in_order(&rt, &roll, 0) == 1000 && signed_in_order(&rt, &roll, 1) == 1000);
    Ok(())
}

#[test]
fn many_passes_on_four_threads(rt: HostRuntime) -> Result<(), Fail> {
    let (gate, passes) = Gate::new(rt.alloc(), Roll::new(rt.alloc(), 9), SEATS + 1)?;
    let passes = sign_in_four(&rt, &gate, passes, 100)?;
    let roll = closed(&rt, gate, passes, SEATS + 1);
    assert!(rt; roll.day == 9 && roll.signed.len() == 100 * usize::from(SEATS + 1));
    for pass in 0..=SEATS {
        assert!(rt; signed_in_order(&rt, &roll, pass) == 100);
    }
    Ok(())
}
