//! What a plan file asks of one clock, or of every clock.

use crate::change::PlannedId;
use crate::text::Text;
use ptpm_codec::ClockIdentity;

/// What a member is to be, as a person types it.
#[derive(Drop)]
pub enum Wished {
    /// The sole member of an id.
    Alone(Text),
    /// Some of the members of UTC_PROPERTIES.
    UtcProperties(UtcWish),
}

/// What the members of UTC_PROPERTIES are to be. One that is left out stays as it is.
#[derive(Drop)]
pub struct UtcWish {
    /// currentUtcOffset.
    pub offset: Option<Text>,
    pub leap61: Option<Text>,
    pub leap59: Option<Text>,
    /// currentUtcOffsetValid.
    pub valid: Option<Text>,
}

/// What an id is to be.
#[derive(Drop)]
pub struct Wish {
    pub id: PlannedId,
    pub wished: Wished,
}

/// Which clock a table of the file names.
#[derive(Drop)]
pub enum Target {
    Identity(ClockIdentity),
    /// The clock with this userDescription.
    Description(Text),
}

/// A clock of the file.
#[derive(Drop)]
pub struct ClockWishes {
    /// Its place among the clocks of the file, from 0.
    pub place: usize,
    pub target: Target,
    /// What it is called in what is printed.
    pub alias: Option<Text>,
    pub domain: u8,
    pub wishes: Vec<Wish>,
    pub ports: Vec<PortWishes>,
}

/// A port of a clock of the file.
#[derive(Drop)]
pub struct PortWishes {
    pub number: u16,
    pub wishes: Vec<Wish>,
}

/// What the file asks of each clock of a domain, except some.
#[derive(Drop)]
pub struct EveryWishes {
    /// Its place in the file, after all clocks.
    pub place: usize,
    pub domain: u8,
    /// How many clocks are to answer in the domain, those that are left out among them.
    pub clocks: Option<u16>,
    pub except: Vec<Target>,
    pub wishes: Vec<Wish>,
    /// What it asks of each port.
    pub port_wishes: Vec<Wish>,
}

/// A plan file.
#[derive(Drop)]
pub struct PlanFile {
    pub clocks: Vec<ClockWishes>,
    pub every: Vec<EveryWishes>,
}
