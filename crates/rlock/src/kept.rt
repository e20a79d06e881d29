//! What can lie behind a gate.
ghost use Rattle.std.specs.Prelude.{ℕ, List};

/// A state with an opening, which no turn changes, and a list of entries, each made by a pass.
///
/// It also says what the turns of other passes leave as a pass left it: that is what the pass finds at its next turn.
pub trait Kept {
    /// What the state was when the gate was made.
    type Opening;

    /// One line of the history that the state keeps.
    type Entry;

    /// How the state began, which no turn changes.
    ghost opening: { Self → Self.Opening };

    /// The history, the earliest entry first.
    ghost entries: { Self → List Self.Entry };

    /// The number of the pass that made an entry.
    ghost number: { Self.Entry → ℕ };

    /// What the turns of others may do to the state, as the pass with this number sees it: `stays n before after`.
    ghost stays: { ℕ → Self → Self → Type 0 };

    /// They may do nothing.
    ghost stays_refl: { (n : ℕ) (state : Self) → stays n state state };

    /// Two turns in a row do nothing that turns may not do.
    ghost stays_trans: { (n : ℕ) (before between after : Self) → stays n before between → stays n between after → stays n before after };
}
