//! A sample state whose parts go out with a pass: what a pass took in one turn is still out with it at its next.
ghost use Rattle.std.specs.Prelude.{◌≡◌, ◌≢◌, ℕ, ◌+◌, true, false, Some, None, IfSome, if◌then◌else◌, slice_get, slice_set};
ghost use Rattle.rlock.specs.declared.shelf.Spot.TheVariants.{Home, Out};
ghost use Rattle.rlock.specs.Known.{IsSamePass};
ghost use Rattle.rlock.specs.Shelf.{StaysOut, HasAsManySpots, HasOut, HasHome, HasNotHome, spots_of, sum_within};

use crate::gate::Gate;
use crate::kept::Kept;
use crate::pass::Pass;
use std::sync::Wait;

/// Where a value is.
#[derive(Drop)]
pub enum Spot {
    /// It is on the shelf.
    Home(u64),
    /// The pass with this number has it.
    Out(u8),
}

/// Spots for values, which passes take out and bring home. It keeps no entries.
#[derive(Drop)]
pub struct Shelf {
    /// Where the value of each spot is.
    pub spots: Vec<Spot>,
}

impl Kept for Shelf {
    ghost use Rattle.std.proofs.Common.{[], refl, ◌∙◌};

    type Opening = ();

    type Entry = ();

    ghost opening = { λ shelf. tt };

    ghost entries = { λ shelf. [] };

    ghost number = { λ entry. 0 };

    // What is out with a pass stays out with it, and nothing else comes to be out with it. No spot appears or disappears.
    ghost stays = { λ n before after. StaysOut n before after × StaysOut n after before × HasAsManySpots before after };

    ghost stays_refl = { λ n shelf. ((λ spot out. out), (λ spot out. out), refl) };

    ghost stays_trans = { λ n before between after p q. ((λ spot out. q.0 spot (p.0 spot out)), (λ spot out. p.1 spot (q.1 spot out)), q.2 ∙ p.2) };
}

impl Shelf {
    /// Takes out the value of a spot for the pass, if it is at home. If not, nothing changes.
    pub fn take(&mut self, spot: usize, pass: u8) -> Option<u64>
        ensures taken { IfSome result (λ value. (slice_get self.old.spots.items spot ≡ Some (Home value)) × (self.new.spots.items ≡ slice_set self.old.spots.items spot (Out pass))) }
        ensures home { (value : ℕ) → slice_get self.old.spots.items spot ≡ Some (Home value) → result ≡ Some value }
        ensures none { result ≡ None → self.new.spots.items ≡ self.old.spots.items }
    {
        let at = self.spots.get_mut(spot)?;
        let Spot::Home(value) = *at else {
            return None;
        };
        *at = Spot::Out(pass);
        Some(value)
    }

    /// Puts home the value of a spot that is out with the pass.
    pub fn put(&mut self, spot: usize, pass: u8, value: u64)
        requires { slice_get self.old.spots.items spot ≡ Some (Out pass) }
        ensures { self.new.spots.items ≡ slice_set self.old.spots.items spot (Home value) }
    {
        self.spots[spot] = Spot::Home(value);
    }
}

/// Takes out the value of a spot in one turn of the pass, if it is at home: at `None` it is not, and nothing is taken out. What
/// was out with the pass is still out with it, and is not taken out again. Nothing else comes to be out with it but what it takes
/// here, and no spot appears or disappears. Others may have put the value there since the pass last looked, so no clause says
/// which value it is.
pub fn take_out<R: Wait>(
    rt: &R,
    gate: &Gate<Shelf>,
    pass: Pass<Shelf>,
    spot: usize,
) -> (Pass<Shelf>, Option<u64>)
    requires { pass.gate ≡ gate.now.gate }
    ensures same { IsSamePass pass result.0 }
    ensures turn { result.0.turns ≡ pass.turns + 1 }
    ensures out { IfSome result.1 (λ value. HasOut result.0 spot) }
    ensures once { HasOut pass spot → result.1 ≡ None }
    ensures none { result.1 ≡ None → HasNotHome result.0 spot }
    ensures none_out { result.1 ≡ None → HasOut result.0 spot → HasOut pass spot }
    ensures kept { (other : ℕ) → HasOut pass other → HasOut result.0 other }
    ensures only { (other : ℕ) → other ≢ spot → HasOut result.0 other → HasOut pass other }
    ensures spots { spots_of result.0 ≡ spots_of pass }
{
    let number = pass.number();
    let mut turn = gate.enter(rt, pass);
    let value = turn.state().take(spot, number);
    (gate.leave(turn), value)
}

/// Brings home the value of a spot that is out with the pass, in one turn of it. What else was out with the pass is still out
/// with it, and nothing more. No spot appears or disappears.
pub fn give_home<R: Wait>(
    rt: &R,
    gate: &Gate<Shelf>,
    pass: Pass<Shelf>,
    spot: usize,
    value: u64,
) -> Pass<Shelf>
    requires gate { pass.gate ≡ gate.now.gate }
    requires out { HasOut pass spot }
    ensures same { IsSamePass pass result }
    ensures turn { result.turns ≡ pass.turns + 1 }
    ensures home { HasHome result spot value }
    ensures kept { (other : ℕ) → other ≢ spot → HasOut pass other → HasOut result other }
    ensures only { (other : ℕ) → HasOut result other → (other ≢ spot) × HasOut pass other }
    ensures spots { spots_of result ≡ spots_of pass }
{
    let number = pass.number();
    let mut turn = gate.enter(rt, pass);
    turn.state().put(spot, number, value);
    gate.leave(turn)
}

/// Adds to the value of a spot, if it is at home: takes it out, and brings it home in a later turn. Answers whether the value was
/// at home. A sum that is too great becomes the greatest value. What was out with the pass is still out with it, and nothing
/// more, and no spot appears or disappears.
pub fn add<R: Wait>(
    rt: &R,
    gate: &Gate<Shelf>,
    pass: Pass<Shelf>,
    spot: usize,
    amount: u64,
) -> (Pass<Shelf>, bool)
    requires { pass.gate ≡ gate.now.gate }
    ensures same { IsSamePass pass result.0 }
    ensures turns { result.0.turns ≡ pass.turns + (if result.1 then 2 else 1) }
    ensures home { result.1 ≡ true → (value : ℕ) × HasHome result.0 spot (sum_within value amount) }
    ensures none { result.1 ≡ false → HasNotHome result.0 spot }
    ensures out { HasOut pass spot → (result.1 ≡ false) × HasOut result.0 spot }
    ensures kept { (other : ℕ) → other ≢ spot → HasOut pass other → HasOut result.0 other }
    ensures only { (other : ℕ) → HasOut result.0 other → HasOut pass other }
    ensures spots { spots_of result.0 ≡ spots_of pass }
{
    let (pass, value) = take_out(rt, gate, pass, spot);
    match value {
        Some(value) => {
            let sum = value.saturating_add(amount);
            (give_home(rt, gate, pass, spot, sum), true)
        }
        None => (pass, false),
    }
}
