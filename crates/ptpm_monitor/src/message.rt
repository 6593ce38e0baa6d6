//! What is read in a management message (IEEE 1588-2019, 13.3 and 15.4).

use ptpm_codec::{PortIdentity, port_identity_at, u16_at};
use ptpm_site::reading::domain::Domain;
use ptpm_site::reading::source::Source;

/// messageType of a management message.
const MANAGEMENT: u8 = 13;

/// Who sends a message, and to whom.
#[derive(Clone, Copy)]
pub(crate) struct Head {
    pub(crate) source: Source,
    pub(crate) target: PortIdentity,
    /// sequenceId.
    pub(crate) number: u16,
    is_get: bool,
}

impl Head {
    /// That of a management message up to its TLV. `None` if the octets are none.
    pub(crate) fn of(octets: &[u8]) -> Option<Head> {
        if octets.len() < 48 || octets[0] % 16 != MANAGEMENT {
            return None;
        }
        let sdo = u16::from(octets[0] / 16) * 256 + u16::from(octets[5]);
        let source = Source {
            domain: Domain::of(octets[4], sdo),
            clock: port_identity_at(octets, 20).clock,
        };
        Some(Head {
            source,
            target: port_identity_at(octets, 34),
            number: u16_at(octets, 30),
            is_get: octets[46] % 16 == 0,
        })
    }

    /// That of a message that is no GET: of an answer.
    pub(crate) fn of_answer(octets: &[u8]) -> Option<Head> {
        let head = Head::of(octets)?;
        if head.is_get { None } else { Some(head) }
    }

    /// Whether it is a GET to one clock or port.
    pub(crate) fn is_single(&self) -> bool {
        let all = PortIdentity {
            clock: ptpm_codec::ClockIdentity::EVERY,
            port: PortIdentity::EVERY_PORT,
        };
        self.is_get && self.target != all
    }
}

/// The dataField of an answer to this managementId, if it has as many octets as the `least`.
pub(crate) fn field_of(octets: &[u8], id: u16, least: usize) -> Option<(Head, &[u8])> {
    let head = Head::of_answer(octets)?;
    let (_, tlv) = octets.split_at_checked(52)?;
    if tlv.len() < 2 || u16_at(tlv, 0) != id {
        return None;
    }
    let (_, field) = tlv.split_at_checked(2)?;
    if field.len() < least {
        None
    } else {
        Some((head, field))
    }
}
