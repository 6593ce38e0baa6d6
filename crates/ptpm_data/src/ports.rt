//! How many ports a clock can have.

/// How many ports a clock has at most.
pub const PORTS: usize = 64;

/// For how many ports values have room without a block of memory, such as a `Reply` that is a value of its own.
pub const INLINE_PORTS: usize = 8;
