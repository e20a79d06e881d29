// What the takers of a text own.

/// Drops a value. So the code for it is there once per type, and not in each function that owns such a value.
pub(crate) fn let_go<T: Drop>(_value: T) {}
