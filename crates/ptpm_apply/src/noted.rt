//! What a journal has of the steps in the session with one clock.

use ptpm_data::Request;

/// A step that is noted as begun.
#[derive(Debug, Drop)]
pub struct Begun<'a> {
    /// The sequence number of its request.
    pub number: u16,
    pub request: Request<'a>,
}

/// What is noted of all steps there.
#[derive(Debug, Drop)]
pub struct Noted<'a> {
    /// The step that is begun and has no answer noted.
    pub begun: Option<Begun<'a>>,
    /// The number of the latest step whose answer is noted.
    pub told: Option<u16>,
}
