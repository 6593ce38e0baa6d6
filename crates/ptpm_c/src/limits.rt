//! The calls for the values that a clock's hardware has, each one of `ptpm_host`. No call here takes a handle or memory.

ghost use Rattle.std.specs.Prelude.{◌≡◌, ◌<◌, ℕ};
ghost use Rattle.ptpm_host.specs.Limits.{has_value, is_of_range, limits_say};

use ptpm_host::{Limit, Question, limits_say};

/// Leaves exactly the values of a range in a limit; none if the range is not within -128 to 255. Its id and its port stay.
#[unsafe(no_mangle)]
pub extern "C" fn ptpm_limit_range(limit: &mut Limit, least: i32, most: i32)
    ensures id { limit.new.id ≡ limit.old.id }
    ensures port { limit.new.port ≡ limit.old.port }
    ensures values { (n : ℕ) → n < 256
        → has_value n limit.new.values ≡ is_of_range least most n }
{
    limit.set_range(least, most);
}

/// The managementErrorId that limits say of what a device is asked, or 0.
#[unsafe(no_mangle)]
pub extern "C" fn ptpm_limits_say(limits: &[Limit], asked: &Question) -> u16
    ensures { result ≡ limits_say asked.now limits.now }
{
    limits_say(limits, asked)
}
