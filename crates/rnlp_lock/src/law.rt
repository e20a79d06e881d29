//! What is held to be true of all values together.
ghost use Rattle.std.specs.Prelude.{ℕ, List};
ghost use Rattle.rvalue.specs.declared.act.Act.{Act};
ghost use Rattle.rvalue.specs.Acts.{AnswersAreRight, value_within};

use rvalue::Editable;

/// A value type with a law: what holds of all values together, by the number of their resource, between any two sections.
///
/// A type without one leaves the first two as they are, and answers `tt` for the third.
pub trait Law: Editable {
    /// What holds.
    ghost holds: { (ℕ → Self) → Type 0 } = { λ _. Unit {0} };

    /// What a section may do.
    ghost allows: { List (Act Self.Edit) → Type 0 } = { λ _. Unit {0} };

    /// What a section may do keeps it.
    ghost keeps: { (values : ℕ → Self) (acts : List (Act Self.Edit)) → allows acts
        → AnswersAreRight Self.after Self.taken Self.number values acts → holds values
        → holds (λ l. value_within Self.after (values l) acts l) };
}
