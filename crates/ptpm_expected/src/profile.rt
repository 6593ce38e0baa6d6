//! The profiles that a site can be held to.

/// A profile of the protocol.
#[derive(Clone, Copy)]
pub enum Profile {
    /// The default profiles of IEEE 1588-2019, I.3 and I.4.
    Default,
    /// SMPTE ST 2059-2, of studios.
    St2059,
    /// AES67, of audio.
    Aes67,
    /// IEEE 802.1AS-2020.
    Gptp,
}

impl Profile {
    /// The profile of a name, as an operator gives it.
    pub fn of_name(name: &str) -> Option<Profile> {
        match name {
            "default" => Some(Profile::Default),
            "st2059-2" => Some(Profile::St2059),
            "aes67" => Some(Profile::Aes67),
            "gptp" => Some(Profile::Gptp),
            _ => None,
        }
    }
}
