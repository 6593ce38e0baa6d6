//! What depends on the copy that is answered, in a message that was kept.

ghost use Rattle.std.specs.Prelude.{◌≡◌, ◌≤◌, length};
ghost use Rattle.ptpm_table.specs.KeptMessages.{renewed};

/// What a kept message takes from the copy of the request that it answers.
#[derive(Clone, Copy)]
pub struct Renewal {
    /// The domainNumber.
    pub domain: u8,
    /// The source's portNumber, if the answer is of the clock.
    pub port: Option<u16>,
    /// Both hop fields.
    pub hops: u8,
}

/// Writes over what depends on the copy, in a message of 54 octets at least.
pub fn renew(message: &mut [u8], renewal: &Renewal)
    requires { 54 ≤ length message.old }
    ensures { message.new
        ≡ renewed renewal.now.domain renewal.now.port renewal.now.hops message.old }
{
    message[4] = renewal.domain;
    if let Some(port) = renewal.port {
        message[28] = (port / 256) as u8;
        message[29] = (port % 256) as u8;
    }
    message[44] = renewal.hops;
    message[45] = renewal.hops;
}
