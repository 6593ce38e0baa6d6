//! Events of a network while memory is refused: the same event then does what it would have done. That a refused one changes nothing
//! is in its contract. `tools/refuse_memory` refuses each request for memory in turn. Whatever else a test needs is asked for again.

use ptpm_agent::Verdict;
use ptpm_codec::OutOfMemory;
use ptpm_manager::{Outcome, Report};
use ptpm_script::{Event, EventError, NetError, Network, read_event};
use ptpm_world::{StepError, Took, World};
use std::alloc::Global;
use std::test::Fail;

/// A clock of two ports with one manager at port 1, and the divider.
const ONE_CLOCK: &str = r#"version = 1
[[clock]]
name = "K"
identity = "aabbccfffeddee01"
domain = 0
ports = 2
[[session]]
name = "m"
identity = "0011223344556677/1"
target = "K"
first = 7
hops = 1
attempts = 2
[[link]]
ends = ["K.1", "m"]
"#;

/// The network of a text. This and the next promise nothing, so that a test that calls them stays quick to prove.
fn network_of(alloc: Global, text: &str) -> Result<Network, NetError> {
    match Network::from_toml(alloc, text) {
        Err(NetError::OutOfMemory) => Network::from_toml(alloc, text),
        answer => answer,
    }
}

/// The event of a line.
fn event_of(alloc: Global, line: &str) -> Result<Event, EventError> {
    match read_event(alloc, line) {
        Err(EventError::OutOfMemory) => read_event(alloc, line),
        answer => answer,
    }
}

/// The network before anything has happened.
fn world(alloc: Global) -> Result<World, Fail> {
    let network = network_of(alloc, ONE_CLOCK)?;
    match World::new(alloc, &network) {
        Err(OutOfMemory) => Ok(World::new(alloc, &network)?),
        Ok(world) => Ok(world),
    }
}

// What the methods of a world answer. These promise nothing, so that a test that calls them stays quick to prove.

fn happen(world: &mut World, event: &Event) -> Result<Took, StepError> {
    world.step(event)
}

fn run(world: &mut World, events: &[Event]) -> Result<(), (usize, StepError)> {
    world.run(events)
}

fn frames(world: &World) -> u32 {
    world.frames()
}

/// The reports of the manager. There are none of a clock.
fn reports(world: &World) -> &[Report] {
    match (world.reports("m"), world.reports("K")) {
        (Some(reports), None) => reports,
        _ => &[],
    }
}

/// Whether the manager has one report: its request was answered by this dataField.
fn is_only_report(world: &World, value: &[u8]) -> bool {
    match reports(world) {
        [report] => match &report.outcome {
            Outcome::Value(octets) => report.index == 1 && octets.as_slice() == value,
            _ => false,
        },
        _ => false,
    }
}

/// Whether an event does this, or at once again if memory was refused.
fn does(world: &mut World, event: &Event, wanted: Took) -> bool {
    let mut took = happen(world, event);
    if took == Err(StepError::OutOfMemory) {
        took = happen(world, event);
    }
    took == Ok(wanted)
}

#[test]
fn step_after_refused_memory(rt: HostRuntime) -> Result<(), Fail> {
    let alloc = rt.alloc();
    let mut world = world(alloc)?;
    for (line, wanted) in [
        ("begin m set PRIORITY1 - 6400", Took::Fine),
        ("send m", Took::Fine),
        ("deliver 1", Took::AtClock(Verdict::AnsweredNew)),
        ("deliver 2", Took::Answered),
        ("deliver 1", Took::AtClock(Verdict::AnsweredRepeat)),
    ] {
        let event = event_of(alloc, line)?;
        assert!(rt; does(&mut world, &event, wanted), "{line}");
    }
    assert!(rt; frames(&world) == 3);
    assert!(rt; is_only_report(&world, &[0x64, 0]));
    Ok(())
}

/// The frames before each of four events.
const FRAMES: [u32; 4] = [0, 0, 1, 2];

/// Whether a network is as it is before the event at this place: the last one alone brings a report.
fn is_begun(world: &World, place: usize) -> bool {
    FRAMES.get(place) == Some(&frames(world)) && reports(world).is_empty()
}

/// The events before the one that is refused stay done, and the others can follow. An event that is refused for another reason
/// ends the list too.
#[test]
fn run_after_refused_memory(rt: HostRuntime) -> Result<(), Fail> {
    let alloc = rt.alloc();
    let mut world = world(alloc)?;
    let events = [
        event_of(alloc, "begin m set PRIORITY1 - 6400")?,
        event_of(alloc, "send m")?,
        event_of(alloc, "deliver 1")?,
        event_of(alloc, "deliver 2")?,
    ];
    if let Err((place, refused)) = run(&mut world, &events) {
        assert!(rt; refused == StepError::OutOfMemory && is_begun(&world, place));
        let rest = events.get(place..).unwrap_or(&[]);
        assert!(rt; run(&mut world, rest).is_ok());
    }
    assert!(rt; frames(&world) == 2);
    assert!(rt; is_only_report(&world, &[0x64, 0]));
    let wrong = [
        event_of(alloc, "retune m 0")?,
        event_of(alloc, "deliver 9")?,
    ];
    assert!(rt; run(&mut world, &wrong) == Err((1, StepError::NoSuchFrame)));
    Ok(())
}
