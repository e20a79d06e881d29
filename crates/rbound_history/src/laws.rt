//! What holds of shapes. Each function is a theorem: it does nothing, and its contract is the law.
ghost use Rattle.rbound_history.specs.Promises.{BoundsAreOfShapes, BoundsAreOfCompactNeeds};

/// *A bound is the same from needs and from their shapes.*
pub fn bounds_are_of_shapes()
    ensures { BoundsAreOfShapes }
{}

/// *A bound is the same from needs and from compact needs*, which keep one request of each shape.
pub fn bounds_are_of_compact_needs()
    ensures { BoundsAreOfCompactNeeds }
{}
