//! How often something may happen in a second, and how often at once: a bucket of tokens (this project's profile).

ghost use Rattle.std.specs.Prelude.{◌≡◌};
ghost use Rattle.ptpm_host.specs.Rate.{full, has_token, taken};

/// The most tokens that a bucket gets in a second.
const MOST: u64 = 1_000_000;

/// Milliseconds in a second, and thousandths of a token in a token. A rate of one token a second brings a thousandth of it
/// in a millisecond.
const SECOND: u64 = 1_000;

/// A bucket of tokens.
#[repr(C)]
#[derive(Clone, Copy)]
pub struct Rate {
    /// Tokens a second; what is over 1,000,000 does not count.
    rate: u64,
    /// Thousandths of a token.
    left: u64,
    /// The latest time that it was asked at, in milliseconds.
    time: u64,
}

const _: () = prove!(size_of::<Rate>() == 24);

impl Rate {
    /// A full bucket: a second's tokens.
    pub fn new(tokens: u64, now: u64) -> Rate
        ensures { result ≡ full tokens now }
    {
        let rate = tokens.min(MOST);
        Rate {
            rate,
            left: rate * SECOND,
            time: now,
        }
    }

    /// Takes a token. Answers whether there was one. A time before the latest one counts as the latest.
    pub fn take(&mut self, now: u64) -> bool
        ensures answer { result ≡ has_token self.old now }
        ensures taken { self.new ≡ taken self.old now }
    {
        let rate = self.rate.min(MOST);
        let passed = now.saturating_sub(self.time).min(SECOND);
        let left = (self.left.min(rate * SECOND) + passed * rate).min(rate * SECOND);
        let has_token = SECOND <= left;
        self.left = if has_token { left - SECOND } else { left };
        self.time = self.time.max(now);
        has_token
    }
}
