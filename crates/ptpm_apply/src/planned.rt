//! A step as the journal has it.

/// A SET of a member of a clock.
#[derive(Drop)]
pub struct Planned {
    /// The clockIdentity, as a number.
    pub clock: u64,
    pub domain: u8,
    /// portNumber; 0 if the member is the clock's.
    pub port: u16,
    /// managementId.
    pub id: u16,
    /// The dataField that the clock is to have before the step.
    pub before: Vec<u8>,
    /// The one that it is asked to have.
    pub after: Vec<u8>,
}

/// managementId of DOMAIN.
const DOMAIN: u16 = 0x2007;

impl Planned {
    ghost use Rattle.std.specs.Prelude.{◌≡◌};
    ghost use Rattle.ptpm_apply.specs.Rollout.{domain_after, moved_to};

    /// The domain to which it moves its clock.
    pub fn moved_to(&self) -> Option<u8>
        ensures { result ≡ moved_to self.now }
    {
        if self.id == DOMAIN {
            self.after.as_slice().first().copied()
        } else {
            None
        }
    }

    /// The domain of its clock after these steps: the first move from its domain counts.
    pub fn domain_after(&self, steps: &[Planned]) -> u8
        ensures { result ≡ domain_after steps.now self.now }
    {
        for step in steps {
            let is_beside = step.clock == self.clock && step.domain == self.domain;
            if is_beside && let Some(moved) = step.moved_to() {
                return moved;
            }
        }
        self.domain
    }
}
