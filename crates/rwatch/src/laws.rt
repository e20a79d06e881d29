//! What watchers become after some steps. The function is a theorem: it does nothing, and its contract is the law.
ghost use Rattle.rwatch.specs.Laws.{StepsAreHeard};

/// After some steps a watcher has the same kind, its count has grown by their weights, and where it had room it has kept
/// their events in order.
pub fn steps_are_heard()
    ensures { StepsAreHeard }
{}
