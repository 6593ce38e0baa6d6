//! What an operator allows, and what he knows.

#[derive(Clone, Copy)]
pub struct Limits {
    /// How many nanoseconds the amount of an offset may have, and that of a negative delay. `None` is no limit.
    pub offset: Option<u64>,
    /// How many nanoseconds the amount of a delay may have.
    pub delay: Option<u64>,
    /// How many seconds TAI is before UTC today.
    pub tai_utc: i16,
    /// How many seconds a port may take to come to a state in which it stays.
    pub settle: u32,
    /// Whether the clock of the host that asks has the right time, in UTC.
    pub is_synchronised: bool,
}

impl Limits {
    /// The same, at a host whose clock has the right time or has not.
    pub fn at_host(self, is_synchronised: bool) -> Limits {
        Limits {
            offset: self.offset,
            delay: self.delay,
            tai_utc: self.tai_utc,
            settle: self.settle,
            is_synchronised,
        }
    }
}
