//! The numbers among the values of members.

use ptpm_members::MemberValue;

/// The number that a value is: of a TimeInterval nanoseconds times 2^16, and of what has a name that which is sent.
fn number_of(value: &MemberValue<'_>) -> Option<i128> {
    match value {
        MemberValue::Unsigned(number) => Some(i128::from(*number)),
        MemberValue::Signed(number) | MemberValue::Interval(number) => Some(i128::from(*number)),
        MemberValue::Named(_, number) => Some(i128::from(*number)),
        _ => None,
    }
}

/// Whether a value is a number from the first to the last.
pub(crate) fn is_between(least: i64, greatest: i64, value: &MemberValue<'_>) -> bool {
    match number_of(value) {
        Some(number) => i128::from(least) <= number && number <= i128::from(greatest),
        None => false,
    }
}
