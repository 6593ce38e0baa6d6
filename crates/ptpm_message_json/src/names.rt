//! The names of structures.

ghost use Rattle.std.specs.Prelude.{◌≡◌, option_map};
ghost use Rattle.ptpm_message_json.specs.Names.{is_in_quality, quality_name};

use ptpm_data::Member as DataSetMember;
use ptpm_members::Member;

/// The name of the ClockQuality (5.3.7) whose first member this is.
pub(crate) fn quality_name(member: Member) -> Option<&'static str>
    ensures { option_map (λ name. name.now) result ≡ quality_name member }
{
    match member {
        Member::DataSet(DataSetMember::ClockClass) => Some("clockQuality"),
        Member::DataSet(DataSetMember::GrandmasterClass) => Some("grandmasterClockQuality"),
        _ => None,
    }
}

/// Whether a member is one of a ClockQuality, but not its first.
pub(crate) fn is_in_quality(member: Member) -> bool
    ensures { result ≡ is_in_quality member }
{
    matches!(
        member,
        Member::DataSet(
            DataSetMember::ClockAccuracy
                | DataSetMember::Variance
                | DataSetMember::GrandmasterAccuracy
                | DataSetMember::GrandmasterVariance
        )
    )
}
