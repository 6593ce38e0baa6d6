//! A network as it starts: every clock with its first data sets and nothing kept, every session with nothing begun.

ghost use Rattle.std.specs.Prelude.{◌≡◌, ◌≤◌, ◌<◌, ◌++◌, ◌∷◌, ℕ, IfOk, [], length, map};
ghost use Rattle.ptpm_codec.specs.declared.identity.PortIdentity.{PortIdentity};
ghost use Rattle.ptpm_network.specs.ByManager.{account_of};
ghost use Rattle.ptpm_network.specs.Served.{IsServedSoFar};
ghost use Rattle.ptpm_network.specs.Stands.{StandsAfter};
ghost use Rattle.ptpm_network.specs.Stands.{Stands};
ghost use Rattle.ptpm_network.specs.State.{initial_state};
ghost use Rattle.ptpm_data.specs.declared.ports.TheConstants.{INLINE_PORTS};
ghost use Rattle.ptpm_script.specs.NetworkValue.{CanStart, clock_value, first_sets, link_value};
ghost use Rattle.ptpm_script.specs.NetworkView.{network_value};
ghost use Rattle.ptpm_world.specs.Described.{configured, described};
ghost use Rattle.ptpm_world.specs.Placed.{names_in, names_of};
ghost use Rattle.ptpm_world.specs.Running.{IsOf, running};
ghost use Rattle.ptpm_world.specs.Starting.{AreStartedClocks, AreStartedSessions, IsStartedClock, IsStartedSession};

use crate::frames::Frames;
use crate::running_clock::RunningClock;
use crate::world::{RunningSession, World};
use ptpm_agent::Agent;
use ptpm_codec::{Buffer, OutOfMemory, PortIdentity};
use ptpm_data::{DataSets, Rights};
use ptpm_manager::Session;
use ptpm_script::{Network, NetworkClock, NetworkLink, NetworkSession};
use ptpm_table::Outbox;
use std::alloc::Global;

impl World {
    /// The network of a file before anything has happened. Each session is a configured manager of its target, with the
    /// rights that the file gives it, in the file's order. Nothing is made if memory is refused.
    pub fn new(alloc: Global, network: &Network) -> Result<World, OutOfMemory>
        ensures network { IfOk result (λ w. IsOf (described (network_value network.now)) w) }
        ensures stands { IfOk result
            (λ w.
            (first : ℕ → PortIdentity → ℕ)
            → Stands (described (network_value network.now)) first (running w)
            (initial_state (described (network_value network.now)))) }
        ensures after { IfOk result
            (λ w. StandsAfter (described (network_value network.now)) [] (running w)) }
        ensures served { IfOk result
            (λ w.
            let N = described (network_value network.now) in
            (s : ℕ) → s < N.sessions → IsServedSoFar N s (running w) (account_of N s [])) }
        ensures names { IfOk result (λ w. names_in w ≡ names_of (network_value network.now)) }
    {
        Ok(World {
            clocks: start_clocks(alloc, network)?,
            sessions: start_sessions(alloc, network)?,
            links: copy_links(alloc, network.links())?,
            frames: Frames::new(alloc),
            outbox: Outbox::new(),
            buffer: Buffer::new(),
        })
    }
}

/// The clocks, in the order of the file. They are made in frames that end before the network runs.
#[inline(never)]
fn start_clocks(alloc: Global, network: &Network) -> Result<Vec<RunningClock>, OutOfMemory>
    ensures { IfOk result (λ v. AreStartedClocks (network_value network.now) v.items) }
{
    let mut running = Vec::new(alloc);
    for place in 0..network.clocks().len() {
        start_clock(alloc, network, place, &mut running)?;
    }
    Ok(running)
}

/// Puts the clock at a place after the others. It has some 36,000 octets. So it is moved once, without managers, to its place
/// in the vector, which has room for it by then. It is given its managers there.
#[inline(never)]
fn start_clock(
    alloc: Global,
    network: &Network,
    place: usize,
    running: &mut Vec<RunningClock>,
) -> Result<(), OutOfMemory>
    requires { place < length network.now.clocks.items }
    ensures { IfOk result (λ _. (x : RunningClock)
        × ((running.new.items ≡ running.old.items ++ x ∷ [])
        × IsStartedClock (network_value network.now) place x)) }
{
    let listed = &network.clocks()[place];
    let managers = managers_of(alloc, network.sessions(), place)?;
    let name = listed.name.copy(alloc)?;
    if running.reserve(1).is_err() {
        return Err(OutOfMemory);
    }
    let last = running.len();
    running.push_reserved(RunningClock {
        name,
        agent: Agent::without_managers(data_sets(listed)),
    });
    let clock = &mut running[last];
    clock.agent.admit(managers.as_slice());
    Ok(())
}

/// The data sets that a clock starts with.
#[inline(never)]
fn data_sets(clock: &NetworkClock) -> DataSets
    requires { CanStart (clock_value clock.now) }
    ensures sets { result ≡ first_sets (clock_value clock.now) }
    ensures few { length result.ports ≤ INLINE_PORTS }
{
    match DataSets::new(&clock.start, clock.ports.as_slice()) {
        Ok(sets) => sets,
        Err(_) => unreachable!(),
    }
}

/// The configured managers of the clock at a place, with their rights.
fn managers_of(
    alloc: Global,
    sessions: &[NetworkSession],
    place: usize,
) -> Result<Vec<(PortIdentity, Rights)>, OutOfMemory>
    ensures { IfOk result (λ v. v.items ≡ configured sessions.now place) }
{
    let mut managers = Vec::new(alloc);
    for session in sessions {
        if session.target as usize == place {
            managers
                .push((session.identity, session.rights))
                .map_err(|_| OutOfMemory)?;
        }
    }
    Ok(managers)
}

fn start_sessions(alloc: Global, network: &Network) -> Result<Vec<RunningSession>, OutOfMemory>
    ensures { IfOk result (λ v. AreStartedSessions (network_value network.now) v.items) }
{
    let mut running = Vec::new(alloc);
    for place in 0..network.sessions().len() {
        let session = start_session(alloc, network, place)?;
        running.push(session).map_err(|_| OutOfMemory)?;
    }
    Ok(running)
}

/// The session at a place, to its target.
fn start_session(
    alloc: Global,
    network: &Network,
    place: usize,
) -> Result<RunningSession, OutOfMemory>
    requires { place < length network.now.sessions.items }
    ensures { IfOk result (λ x. IsStartedSession (network_value network.now) place x) }
{
    let session = &network.sessions()[place];
    let target = &network.clocks()[session.target as usize];
    Ok(RunningSession {
        name: session.name.copy(alloc)?,
        identity: session.identity,
        session: Session::new(
            alloc,
            session.identity,
            target.start.identity,
            target.ports.len() as u16,
            session.domain,
            session.first,
            session.hops,
            session.attempts,
        ),
        reports: Vec::new(alloc),
    })
}

fn copy_links(alloc: Global, links: &[NetworkLink]) -> Result<Vec<NetworkLink>, OutOfMemory>
    ensures { IfOk result (λ v. map link_value v.items ≡ map link_value links.now) }
{
    let mut copies = Vec::new(alloc);
    for link in links {
        let ends = Vec::from_slice(alloc, link.ends.as_slice()).map_err(|_| OutOfMemory)?;
        copies.push(NetworkLink { ends }).map_err(|_| OutOfMemory)?;
    }
    Ok(copies)
}
