//! The members that profiles limit, and what each profile allows of them: numbers from a least to a greatest, and mechanisms.

use crate::profile::Profile;
use ptpm_data::Member;
use ptpm_data::Member::{LogMinDelayReq, Setting};
use ptpm_data::PortSetting::{
    AnnounceReceiptTimeout, DelayMechanism, LogAnnounceInterval, LogMinPdelayReqInterval,
    LogSyncInterval,
};
use ptpm_members::Member::DataSet;
use ptpm_members::{Member as AnyMember, MemberValue};
use ptpm_site::judging::expected::Allowed;
use ptpm_site::judging::port_groups::PortGroup;
use ptpm_site::reading::data_sets::{COMMON_PEER_TO_PEER, END_TO_END, PEER_TO_PEER, PortDataSet};

/// delayMechanism SPECIAL (8.2.15.4.4, table 21).
const SPECIAL: u8 = 4;

/// The members of a port that a profile may limit, in the order of their findings. An inventory that is written has them too.
pub const PORT_MEMBERS: [AnyMember; 6] = [
    DataSet(Setting(LogAnnounceInterval)),
    DataSet(Setting(LogSyncInterval)),
    DataSet(LogMinDelayReq),
    DataSet(Setting(LogMinPdelayReqInterval)),
    DataSet(Setting(AnnounceReceiptTimeout)),
    DataSet(Setting(DelayMechanism)),
];

/// The numbers from the least to the greatest.
#[derive(Clone, Copy)]
pub struct Range {
    pub least: i64,
    pub greatest: i64,
}

/// The numbers of a range, and not any number.
fn numbers(least: i64, greatest: i64) -> Option<Range> {
    Some(Range { least, greatest })
}

/// domainNumber.
pub fn domain_range() -> Option<Range> {
    numbers(0, 127)
}

/// sdoId: IEEE 802.1AS has one of its own.
pub fn sdo_range(profile: Profile) -> Option<Range> {
    match profile {
        Profile::Default | Profile::St2059 | Profile::Aes67 => numbers(0, 0),
        Profile::Gptp => numbers(0x100, 0x100),
    }
}

/// priority1. `None`: any.
pub fn priority_range(profile: Profile) -> Option<Range> {
    match profile {
        Profile::Default | Profile::St2059 | Profile::Aes67 => None,
        Profile::Gptp => numbers(1, 255),
    }
}

/// An interval of a port: the logarithm of seconds to the base 2.
fn interval(log: i8) -> Option<MemberValue<'static>> {
    Some(MemberValue::Signed(i64::from(log)))
}

/// The number that a member of a port is, if it counts. The intervals of Sync and of Delay_Req count if the port gives time: else it
/// takes its master's. Those of Delay_Req and of Pdelay_Req count with the mechanism that sends it.
pub fn held_value(set: &PortDataSet, member: Member) -> Option<MemberValue<'static>> {
    let gives = PortGroup::Giving.has(set.state());
    match member {
        Setting(LogAnnounceInterval) => interval(set.log_announce),
        Setting(LogSyncInterval) if gives => interval(set.log_sync),
        LogMinDelayReq if gives && set.measures_end_to_end() => interval(set.log_min_delay_req),
        Setting(LogMinPdelayReqInterval) if set.measures_link() => interval(set.log_min_pdelay),
        Setting(AnnounceReceiptTimeout) => {
            Some(MemberValue::Unsigned(u64::from(set.receipt_timeout)))
        }
        _ => None,
    }
}

/// A member of a port whose logSyncInterval is this. `None`: any.
pub fn port_range(profile: Profile, member: Member, log_sync: i8) -> Option<Range> {
    match profile {
        Profile::Default => default_range(member),
        Profile::St2059 => studio_range(member, log_sync),
        Profile::Aes67 => audio_range(member),
        Profile::Gptp => None,
    }
}

/// Of the default profiles.
fn default_range(member: Member) -> Option<Range> {
    match member {
        Setting(LogAnnounceInterval) => numbers(0, 4),
        Setting(LogSyncInterval) => numbers(-1, 1),
        LogMinDelayReq | Setting(LogMinPdelayReqInterval) => numbers(0, 5),
        Setting(AnnounceReceiptTimeout) => numbers(2, 10),
        _ => None,
    }
}

/// Of SMPTE ST 2059-2.
fn studio_range(member: Member, log_sync: i8) -> Option<Range> {
    match member {
        Setting(LogAnnounceInterval) => numbers(-3, 1),
        Setting(LogSyncInterval) => numbers(-7, -1),
        LogMinDelayReq | Setting(LogMinPdelayReqInterval) => {
            numbers(log_sync as i64, log_sync as i64 + 5)
        }
        Setting(AnnounceReceiptTimeout) => numbers(2, 10),
        _ => None,
    }
}

/// Of AES67.
fn audio_range(member: Member) -> Option<Range> {
    match member {
        Setting(LogAnnounceInterval) => numbers(0, 4),
        Setting(LogSyncInterval) => numbers(-4, 1),
        LogMinDelayReq => numbers(-3, 5),
        Setting(LogMinPdelayReqInterval) => numbers(0, 5),
        Setting(AnnounceReceiptTimeout) => numbers(2, 10),
        _ => None,
    }
}

/// Whether delayMechanism is E2E or P2P.
fn is_of_ptp(mechanism: u8) -> bool {
    mechanism == END_TO_END || mechanism == PEER_TO_PEER
}

/// Whether delayMechanism is P2P, COMMON_P2P or SPECIAL.
fn is_of_gptp(mechanism: u8) -> bool {
    mechanism == PEER_TO_PEER || mechanism == COMMON_PEER_TO_PEER || mechanism == SPECIAL
}

/// What is allowed of delayMechanism, if this one isn't.
pub fn allowed_mechanisms(profile: Profile, mechanism: u8) -> Option<Allowed> {
    match profile {
        Profile::Gptp if is_of_gptp(mechanism) => None,
        Profile::Gptp => Some(Allowed::PeerToPeerOrSpecial),
        _ if is_of_ptp(mechanism) => None,
        _ => Some(Allowed::EndToEndOrPeerToPeer),
    }
}
