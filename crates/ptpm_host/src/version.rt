//! Which version of this library a host is linked with.

/// 10,000 times the first part of the version, 100 times the second, and the third.
pub const VERSION_NUMBER: u32 = 100;
