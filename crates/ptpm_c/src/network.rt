//! The calls for what a host keeps from its network, each one of `ptpm_host`. No call here takes a handle or memory.

ghost use Rattle.std.specs.Prelude.{◌≡◌, MatchOption, false, length};
ghost use Rattle.ptpm_host.specs.PassedOn.{IsAsked, IsTableSize, table_of};
ghost use Rattle.ptpm_host.specs.Transit.{key_in};
ghost use Rattle.ptpm_host.specs.Rate.{full, has_token, taken};

use ptpm_host::{PassedOn, PassedOnPlace, Rate, is_first_of};

/// Whether a message is to be passed on: if none with its key is noted, and a place is free. It is noted there from now on for
/// `time`. Octets that are no management message are not passed on.
#[unsafe(no_mangle)]
pub extern "C" fn ptpm_passed_on_is_first(
    table: &mut PassedOn,
    message: &[u8],
    now: u64,
    time: u64,
) -> bool
    ensures { MatchOption (key_in message.now)
        ((result ≡ false) × (table.new ≡ table.old))
        (λ key. IsAsked table.old key now time result table.new) }
{
    table.is_first(message, now, time)
}

/// Does what `ptpm_passed_on_is_first` does, over places of its host's and with this seed. If there are fewer than 16 or more than
/// 1,048,576, no message is passed on, and nothing is written.
#[unsafe(no_mangle)]
pub extern "C" fn ptpm_passed_on_is_first_of(
    seed: u64,
    places: &mut [PassedOnPlace],
    message: &[u8],
    now: u64,
    time: u64,
) -> bool
    ensures asked { IsTableSize (length places.old) → MatchOption (key_in message.now)
        ((result ≡ false) × (places.new ≡ places.old))
        (λ key. IsAsked (table_of seed places.old) key now time result (table_of seed places.new)) }
    ensures no_table { (IsTableSize (length places.old) → ⊥)
        → (result ≡ false) × (places.new ≡ places.old) }
{
    is_first_of(seed, places, message, now, time)
}

/// Makes a full bucket of `tokens` tokens a second, at a time in milliseconds.
#[unsafe(no_mangle)]
pub extern "C" fn ptpm_rate_start(rate: &mut Rate, tokens: u64, now: u64)
    ensures { rate.new ≡ full tokens now }
{
    *rate = Rate::new(tokens, now);
}

/// Takes a token. Answers whether there was one. A time before the latest one counts as the latest.
#[unsafe(no_mangle)]
pub extern "C" fn ptpm_rate_take(rate: &mut Rate, now: u64) -> bool
    ensures answer { result ≡ has_token rate.old now }
    ensures taken { rate.new ≡ taken rate.old now }
{
    rate.take(now)
}
