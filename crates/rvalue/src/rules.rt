// The rules of a lock, as far as a lawful history depends on them.
ghost use Rattle.std.specs.Prelude.{ℕ};
ghost use Rattle.rclaim.specs.Sets.{Set};
ghost use Rattle.rclaim.specs.declared.event.Event.{Event};

/// What a history is judged by: the lock whose events it has, and what is known of the opening values. For contracts alone.
pub trait Rules<V> {
    /// The state of the lock between two events.
    ghost lock: { Type 0 };

    /// The event is accepted in the state.
    ghost comes: { lock → Event → Type 0 };

    /// The state that an accepted event leads to.
    ghost next: { lock → Event → lock };

    /// What a seat holds for reading.
    ghost reads: { lock → ℕ → Set };

    /// What a seat holds for writing.
    ghost writes: { lock → ℕ → Set };

    /// The state as the history begins.
    ghost first: { lock };

    /// What is known of the value of a resource as the history begins.
    ghost opens_at: { ℕ → V → Type 0 };
}
