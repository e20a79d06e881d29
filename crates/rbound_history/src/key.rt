// The key by which the bound of a wait is found.
use rbound::Which;

/// A wait whose bound is known once its history is complete.
#[derive(Clone, Copy, Debug, PartialEq, Eq)]
pub struct BoundKey {
    /// The place of the shape of its request, counted from 0 in the order in which shapes first came.
    pub shape: usize,
    /// Which wait of the requests of that shape it is; an ask is numbered by its set among the different asks of the shape.
    pub which: Which,
}
