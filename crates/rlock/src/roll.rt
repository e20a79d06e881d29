//! The smallest state for a gate: a roll that passes sign.
ghost use Rattle.std.specs.Prelude.{◌≡◌, ◌+◌, [], ◌∷◌, ◌++◌, OnOk, OnErr};
ghost use mathlib.Core.List.{IsPrefix};
ghost use Rattle.rlock.specs.Known.{IsSamePass};
ghost use Rattle.rlock.specs.Roll.{signature};

use crate::gate::Gate;
use crate::kept::Kept;
use crate::pass::Pass;
use std::alloc::{AllocError, Global};
use std::sync::Wait;

/// A pass's signature.
#[derive(Clone, Copy, Debug, PartialEq, Eq)]
pub struct Signature {
    /// The number of the pass.
    pub pass: u8,
    /// How often it had signed before, by its own count.
    pub time: u32,
}

/// A roll of one day, with its signatures.
#[derive(Drop)]
pub struct Roll {
    /// Which day: it distinguishes rolls, and no turn changes it.
    pub day: u64,
    /// The signatures, the earliest first.
    pub signed: Vec<Signature>,
}

impl Kept for Roll {
    type Opening = u64;

    type Entry = Signature;

    ghost opening = { λ r. r.day };

    ghost entries = { λ r. r.signed.items };

    ghost number = { λ s. s.pass };

    // What a pass needs to know of a roll is in the list.
    ghost stays = { λ n before after. Unit {0} };

    ghost stays_refl = { λ n state. tt };

    ghost stays_trans = { λ n before between after p q. tt };
}

impl Roll {
    /// A roll that nobody has signed.
    pub fn new(alloc: Global, day: u64) -> Roll
        ensures { (result.day ≡ day) × (result.signed.items ≡ []) }
    {
        Roll {
            day,
            signed: Vec::new(alloc),
        }
    }

    /// Adds a signature at the end. At `Err` the roll is as it was.
    pub fn sign(&mut self, pass: u8, time: u32) -> Result<(), AllocError>
        ensures day { self.new.day ≡ self.old.day }
        ensures ok { OnOk result (self.new.signed.items ≡ self.old.signed.items ++ signature pass time ∷ []) }
        ensures err { OnErr result (self.new.signed.items ≡ self.old.signed.items) }
    {
        self.signed.push(Signature { pass, time })?;
        Ok(())
    }
}

/// Signs the roll behind the gate in one turn of the pass, which comes back. `Err` means out of memory, and the roll is as it
/// was.
pub fn sign_in<R: Wait>(
    rt: &R,
    gate: &Gate<Roll>,
    pass: Pass<Roll>,
    time: u32,
) -> (Pass<Roll>, Result<(), AllocError>)
    requires { pass.gate ≡ gate.now.gate }
    ensures same { IsSamePass pass result.0 }
    ensures turn { result.0.turns ≡ pass.turns + 1 }
    ensures seen { IsPrefix pass.seen result.0.seen }
    ensures signed { OnOk result.1 (result.0.mine ≡ pass.mine ++ signature pass.number time ∷ []) }
    ensures not_signed { OnErr result.1 (result.0.mine ≡ pass.mine) }
{
    let number = pass.number();
    let mut turn = gate.enter(rt, pass);
    let signed = turn.state().sign(number, time);
    (gate.leave(turn), signed)
}
