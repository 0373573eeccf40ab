//! How deep a call may go.

/// The default budget of steps into items.
pub const DEFAULT_STEPS: usize = 256;
