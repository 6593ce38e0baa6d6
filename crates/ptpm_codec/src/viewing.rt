//! A message read in place.

ghost use Rattle.std.specs.Prelude.{◌≡◌, ◌≤◌, true, IfOk, length, [], None, Some};
ghost use Rattle.ptpm_codec.specs.Layout as layout;
ghost use Rattle.ptpm_codec.specs.declared.tlv.TlvKind.{TlvKind};
ghost use Rattle.ptpm_codec.specs.Message.{action_of, error_of, id_of, octets_of, text_of};
ghost use Rattle.ptpm_codec.specs.PtpText.{ptp_text};
ghost use Rattle.ptpm_codec.specs.Refusal.{is_text};

use crate::error::OutOfMemory;
use crate::identity::PortIdentity;
use crate::message::{Action, Body, Message};
use crate::octets::Octets;
use crate::places::{port_identity_at, u16_at};
use crate::ptp_text::text_of_ptp_text;
use crate::tlv::TlvKind;
use std::alloc::Global;
use std::marker::Model;

/// A well-formed message that borrows its datagram. Its readers read the fields from the octets; contracts see it as
/// the `Message` that they spell.
#[derive(Debug, Drop)]
pub struct View<'a> {
    pub(crate) message: &'a [u8],
    pub(crate) action: Action,
    pub(crate) tlv: TlvKind,
}

impl<'a> Model for View<'a> {
    ghost use Rattle.ptpm_codec.specs.declared.message.Message.{Message};
    ghost use Rattle.ptpm_codec.specs.Reading.{IsViewed, message_at};

    ghost Value = { Message };

    ghost view = { λ v. message_at v.message.now };

    ghost invariant = { λ v. IsViewed v.message.now v.action v.tlv };
}

impl<'a> View<'a> {
    ghost use Rattle.std.specs.Prelude.{Ok};
    ghost use Rattle.ptpm_codec.specs.Layout.{message_octets};
    ghost use Rattle.ptpm_codec.specs.Message.{IsValid};
    ghost use Rattle.ptpm_codec.specs.Reading.{IsViewed, IsWellFormed, reading};
    ghost use Rattle.ptpm_codec.specs.Spelling.{Spells};

    /// What a well-formed datagram reads as, with this action and this kind of TLV. Copies nothing, and tests nothing again.
    #[inline(always)]
    pub(crate) fn of(datagram: &'a [u8], action: Action, tlv: TlvKind) -> View<'a>
        requires viewed { IsViewed (message_octets datagram.now) action tlv }
        requires well_formed { IsWellFormed datagram.now }
        ensures exact { reading datagram.now ≡ Ok result }
        ensures spelled { Spells result (message_octets datagram.now) }
        ensures valid { IsValid result }
    {
        View {
            message: &datagram[..u16_at(datagram, 2) as usize],
            action,
            tlv,
        }
    }

    /// sdoId, of 12 bits.
    pub fn sdo(&self) -> u16
        ensures { result ≡ self.now.sdo }
    {
        (self.message[0] / 16) as u16 * 256 + self.message[5] as u16
    }

    /// domainNumber.
    pub fn domain(&self) -> u8
        ensures { result ≡ self.now.domain }
    {
        self.message[4]
    }

    /// sourcePortIdentity.
    pub fn source(&self) -> PortIdentity
        ensures { result ≡ self.now.source }
    {
        port_identity_at(self.message, 20)
    }

    /// sequenceId.
    pub fn number(&self) -> u16
        ensures { result ≡ self.now.number }
    {
        u16_at(self.message, 30)
    }

    /// targetPortIdentity.
    pub fn target(&self) -> PortIdentity
        ensures { result ≡ self.now.target }
    {
        port_identity_at(self.message, 34)
    }

    /// startingBoundaryHops.
    pub fn starting_hops(&self) -> u8
        ensures { result ≡ self.now.starting_hops }
    {
        self.message[44]
    }

    /// boundaryHops.
    pub fn hops(&self) -> u8
        ensures { result ≡ self.now.hops }
    {
        self.message[45]
    }

    /// actionField.
    pub fn action(&self) -> Action
        ensures { result ≡ action_of self.now.body }
    {
        self.action
    }

    /// managementId, of an error status the one that it refuses.
    pub fn id(&self) -> u16
        ensures { result ≡ id_of self.now.body }
    {
        match self.tlv {
            TlvKind::Management => u16_at(self.message, 52),
            TlvKind::ErrorStatus => u16_at(self.message, 54),
        }
    }

    /// dataField; none in an error status.
    pub fn octets(&self) -> &'a [u8]
        ensures { result.now ≡ octets_of self.now.body }
    {
        match self.tlv {
            TlvKind::Management => data_field(self.message),
            TlvKind::ErrorStatus => &[],
        }
    }

    /// managementErrorId of an error status.
    pub fn error(&self) -> Option<u16>
        ensures { result ≡ error_of self.now.body }
    {
        match self.tlv {
            TlvKind::Management => None,
            TlvKind::ErrorStatus => Some(u16_at(self.message, 52)),
        }
    }

    /// The text of an error status's displayData; empty if there is none.
    pub fn text(&self) -> &'a [u8]
        ensures { result.now ≡ text_of self.now.body }
    {
        match self.tlv {
            TlvKind::Management => &[],
            TlvKind::ErrorStatus => text_of_display_data(display_data(self.message)),
        }
    }

    /// The same message with octets of its own.
    pub(crate) fn to_message(&self, alloc: Global) -> Result<Message, OutOfMemory>
        ensures { IfOk result (λ v. v ≡ self.now) }
    {
        Ok(Message {
            sdo: self.sdo(),
            domain: self.domain(),
            source: self.source(),
            number: self.number(),
            target: self.target(),
            starting_hops: self.starting_hops(),
            hops: self.hops(),
            body: self.to_body(alloc)?,
        })
    }

    fn to_body(&self, alloc: Global) -> Result<Body, OutOfMemory>
        ensures { IfOk result (λ body. body ≡ self.now.body) }
    {
        let action = self.action;
        let id = self.id();
        Ok(match self.error() {
            Some(error) => Body::Fault {
                action,
                error,
                id,
                text: Octets::copy_of(alloc, self.text())?,
            },
            None => {
                let octets = Octets::copy_of(alloc, self.octets())?;
                if action.is_reply() {
                    Body::Answer { action, id, octets }
                } else {
                    Body::Request { action, id, octets }
                }
            }
        })
    }
}

fn data_field(message: &[u8]) -> &[u8]
    requires { 54 ≤ length message.now }
    ensures { result.now ≡ layout.data_field message.now }
{
    let (_, octets) = message.split_at(54);
    octets
}

fn display_data(message: &[u8]) -> &[u8]
    requires { 60 ≤ length message.now }
    ensures { result.now ≡ layout.display_data message.now }
{
    let (_, octets) = message.split_at(60);
    octets
}

fn text_of_display_data(display_data: &[u8]) -> &[u8]
    requires { is_text display_data.now ≡ true }
    ensures { result.now ≡ ptp_text display_data.now }
{
    if display_data.is_empty() {
        display_data
    } else {
        text_of_ptp_text(display_data)
    }
}
