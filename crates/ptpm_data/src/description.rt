//! A userDescription, kept as it is sent.

ghost use Rattle.std.specs.Prelude.{◌≡◌, ◌≤◌, length};
ghost use Rattle.ptpm_codec.specs.PtpText.{ptp_text_octets};

use arrayvec::ArrayVec;
use ptpm_codec::{overwrite_ptp_text, text_of_ptp_text};
use std::marker::Model;

/// A text of at most 128 octets. It is kept as the PTPText that a GET is answered (5.3.9), which so is sent as it lies.
/// Contracts see the text.
#[derive(Debug, Drop)]
pub(crate) struct Description {
    octets: ArrayVec<u8, 130>,
}

impl Model for Description {
    ghost use Rattle.std.specs.Prelude.{List, ℕ};
    ghost use Rattle.ptpm_data.specs.Description.{IsSpelled, text_of};

    ghost Value = { List ℕ };

    ghost view = { text_of };

    ghost invariant = { IsSpelled };
}

impl Description {
    /// The description that is this text.
    #[tactic(auto, using(ptpm_codec::proofs::OctetLaws::ptp_text_size))]
    pub(crate) fn of(text: &[u8]) -> Description
        requires { length text.now ≤ 128 }
        ensures { result ≡ text.now }
    {
        let mut octets = ArrayVec::new();
        overwrite_ptp_text(&mut octets, text);
        Description { octets }
    }

    /// Becomes this text.
    #[tactic(auto, using(ptpm_codec::proofs::OctetLaws::ptp_text_size))]
    pub(crate) fn set(&mut self, text: &[u8])
        requires { length text.now ≤ 128 }
        ensures { self.new ≡ text.now }
    {
        overwrite_ptp_text(&mut self.octets, text);
    }

    /// The text.
    #[tactic(auto, using(crate::proofs::DescriptionLaws::text_laws))]
    pub(crate) fn text(&self) -> &[u8]
        ensures value { result.now ≡ self.now }
        ensures small { length result.now ≤ 128 }
    {
        text_of_ptp_text(self.octets.as_slice())
    }

    /// Its PTPText.
    #[tactic(auto, using(ptpm_codec::proofs::OctetLaws::ptp_text_size))]
    pub(crate) fn octets(&self) -> &[u8]
        ensures value { result.now ≡ ptp_text_octets self.now }
        ensures small { length result.now ≤ 130 }
    {
        self.octets.as_slice()
    }
}
