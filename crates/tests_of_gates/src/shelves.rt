//! A pass takes values out of a shelf at a gate, and puts them back.
ghost use Rattle.std.specs.Prelude.{◌≡◌};

use rlock::{Gate, Pass, Shelf, Spot, add, give_home, take_out};
use std::alloc::{AllocError, Global};
use std::sync::Wait;
use std::test::Fail;

// Whether a pass alone gets the right answers at a shelf with 5 and 7 on it. It takes the 7 out, does not find it
// again, nor anything to add to; it puts it back, adds 4, and takes 11 out. The 5 is there all the time, and there is
// no third spot.
fn answers_rightly<R: Wait>(rt: &R, gate: &Gate<Shelf>, pass: Pass<Shelf>) -> bool
    requires { pass.gate ≡ gate.now.gate }
{
    let (holder, taken) = take_out(rt, gate, pass, 1);
    let Some(value) = taken else {
        return false;
    };
    let (again, none) = take_out(rt, gate, holder, 1);
    let (adder, early) = add(rt, gate, again, 1, 4);
    let home = give_home(rt, gate, adder, 1, value);
    let (later, added) = add(rt, gate, home, 1, 4);
    let (next, sum) = take_out(rt, gate, later, 1);
    let (other, first) = take_out(rt, gate, next, 0);
    let (_, third) = take_out(rt, gate, other, 2);
    let out = value == 7 && none.is_none() && !early;
    out && added && sum == Some(11) && first == Some(5) && third.is_none()
}

// The same at a new gate.
fn shelf_answers_rightly<R: Wait>(rt: &R, alloc: Global) -> Result<bool, AllocError> {
    let mut spots = Vec::new(alloc);
    spots.push(Spot::Home(5))?;
    spots.push(Spot::Home(7))?;
    let (gate, mut passes) = Gate::new(alloc, Shelf { spots }, 1)?;
    let pass = passes.pop().unwrap();
    Ok(answers_rightly(rt, &gate, pass))
}

#[test]
fn one_pass_at_a_shelf(rt: HostRuntime) -> Result<(), Fail> {
    let right = shelf_answers_rightly(&rt, rt.alloc())?;
    assert!(rt; right);
    Ok(())
}
