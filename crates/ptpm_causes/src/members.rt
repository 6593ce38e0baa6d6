//! The members of data sets that the rules name.

use ptpm_data::Member as DataSetMember;
use ptpm_members::Member;
use ptpm_site::reading::member::is_of_grandmaster;

/// Whether a member is of TIME_PROPERTIES_DATA_SET.
fn is_of_time(member: Member) -> bool {
    matches!(
        member,
        Member::DataSet(
            DataSetMember::UtcOffset
                | DataSetMember::UtcValid
                | DataSetMember::Leap59
                | DataSetMember::Leap61
                | DataSetMember::TimeTraceable
                | DataSetMember::FrequencyTraceable
                | DataSetMember::PtpTimescale
                | DataSetMember::TimeSource
        )
    )
}

/// Whether a grandmaster passes a member on to the clocks that follow it.
pub(crate) fn is_passed_on(member: Member) -> bool {
    is_of_grandmaster(member) || is_of_time(member)
}

/// Whether a member says whom a clock follows, and by what way.
fn is_of_parent(member: Member) -> bool {
    matches!(
        member,
        Member::DataSet(
            DataSetMember::ParentPort
                | DataSetMember::ParentStats
                | DataSetMember::ObservedVariance
                | DataSetMember::ObservedRate
                | DataSetMember::Grandmaster
                | DataSetMember::StepsRemoved
                | DataSetMember::State
        )
    )
}

/// Whether a member is another once a clock's grandmaster is another.
pub(crate) fn is_by_handover(member: Member) -> bool {
    is_passed_on(member) || is_of_parent(member)
}

pub(crate) fn is_quality(member: Member) -> bool {
    matches!(member, Member::ClockQuality)
}

pub(crate) fn is_parent_identity(member: Member) -> bool {
    matches!(member, Member::DataSet(DataSetMember::ParentPort))
}
