//! A network: its clocks, its sessions, and the links between them.

ghost use Rattle.std.specs.Prelude.{◌≡◌};
ghost use Rattle.ptpm_script.specs.NetworkValue.{value_of};
ghost use Rattle.ptpm_script.specs.NetworkText.{IsAnswerAs, IsOfText, network_of};

use crate::document::Document;
use crate::names::Name;
use crate::net_error::NetError;
use ptpm_codec::PortIdentity;
use ptpm_data::{ClockStart, PortStart, Rights};
use std::alloc::Global;

/// The clocks, sessions and links of a network file, each in the file's order. Every value is the network of some text.
#[derive(Debug, Drop)]
pub struct Network {
    clocks: Vec<NetworkClock>,
    sessions: Vec<NetworkSession>,
    links: Vec<NetworkLink>,
    ghost of_text: { ∥ IsOfText (value_of clocks.items sessions.items links.items) ∥₁ },
}

/// A clock of a network.
#[derive(Debug, Drop)]
pub struct NetworkClock {
    pub name: Name,
    pub start: ClockStart,
    /// Its ports from 1 on.
    pub ports: Vec<PortStart>,
}

/// A session of a network.
#[derive(Debug, Drop)]
pub struct NetworkSession {
    pub name: Name,
    pub identity: PortIdentity,
    /// The place of its target among the clocks, from 0.
    pub target: u8,
    /// The sequence number of its first request.
    pub first: u16,
    /// Both hop fields of its requests.
    pub hops: u8,
    /// How often a request is sent before it is given up.
    pub attempts: u8,
    /// domainNumber of its requests.
    pub domain: u8,
    /// What it may do at its target.
    pub rights: Rights,
}

/// A link of a network: what is sent at one of its ends reaches all the others.
#[derive(Debug, Drop)]
pub struct NetworkLink {
    pub ends: Vec<End>,
}

/// An end of a link, by places from 0.
#[derive(Clone, Copy, Debug, PartialEq, Eq)]
pub enum End {
    /// A clock's port.
    Clock(u8, u16),
    Session(u16),
}

impl Network {
    ghost use Rattle.ptpm_script.specs.NetworkView.{network_value};

    /// The network of a TOML document.
    ///
    /// Refused as the first fault of the text says; only want of memory may come in its place.
    pub fn from_toml(alloc: Global, text: &str) -> Result<Network, NetError>
        ensures { IsAnswerAs network_value result (network_of text.now) }
    {
        let document = Document::of(alloc, text)?;
        let parts = document.parts(alloc)?;
        Ok(Network {
            clocks: parts.clocks,
            sessions: parts.sessions,
            links: parts.links,
        })
    }

    /// The clocks.
    pub fn clocks(&self) -> &[NetworkClock]
        ensures { result.now ≡ self.now.clocks.items }
    {
        self.clocks.as_slice()
    }

    /// The sessions.
    pub fn sessions(&self) -> &[NetworkSession]
        ensures { result.now ≡ self.now.sessions.items }
    {
        self.sessions.as_slice()
    }

    /// The links.
    pub fn links(&self) -> &[NetworkLink]
        ensures { result.now ≡ self.now.links.items }
    {
        self.links.as_slice()
    }
}
