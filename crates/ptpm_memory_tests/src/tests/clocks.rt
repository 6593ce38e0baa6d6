//! A clock over a table that takes memory, while memory is refused: the same call then answers as it would have. That a refused call
//! changes nothing is in its contract. `tools/refuse_memory` refuses each request for memory in turn.

use ptpm_agent::{Agent, Verdict};
use ptpm_codec::{ClockIdentity, PortIdentity};
use ptpm_data::{ClockStart, DataSets, PortStart, Rights};
use ptpm_table::{HeapTable, Outbox, PlainTable, ReplyTable, TableError};
use std::alloc::Global;
use std::test::Fail;

const K: ClockIdentity = ClockIdentity([0xaa, 0xbb, 0xcc, 0xff, 0xfe, 0xdd, 0xee, 0x01]);

const M: PortIdentity = PortIdentity {
    clock: ClockIdentity([0x00, 0x11, 0x22, 0x33, 0x44, 0x55, 0x66, 0x77]),
    port: 1,
};

const MANAGERS: [(PortIdentity, Rights); 1] = [(M, Rights(7))];

/// M's SET of PRIORITY1 of K to 100, number 7.
const SET: &[u8; 56] = b"\x0d\x12\x00\x38\x00\x00\
    \x00\x00\x00\x00\x00\x00\x00\x00\x00\x00\x00\x00\x00\x00\
    \x00\x11\x22\x33\x44\x55\x66\x77\x00\x01\x00\x07\x04\x7f\
    \xaa\xbb\xcc\xff\xfe\xdd\xee\x01\xff\xff\x01\x01\x01\x00\
    \x00\x01\x00\x04\x20\x05\x64\x00";

/// The reply to it, of port 1.
const REPLY: &[u8; 56] = b"\x0d\x12\x00\x38\x00\x00\
    \x00\x00\x00\x00\x00\x00\x00\x00\x00\x00\x00\x00\x00\x00\
    \xaa\xbb\xcc\xff\xfe\xdd\xee\x01\x00\x01\x00\x07\x04\x7f\
    \x00\x11\x22\x33\x44\x55\x66\x77\x00\x01\x00\x00\x02\x00\
    \x00\x01\x00\x04\x20\x05\x64\x00";

// What a call answers, or at once again if memory was refused. These promise nothing, so that a test stays quick to prove.

fn plain_table(alloc: Global) -> Result<PlainTable, TableError> {
    match PlainTable::new(alloc, K, &MANAGERS) {
        Err(TableError::OutOfMemory) => PlainTable::new(alloc, K, &MANAGERS),
        table => table,
    }
}

fn heap_table(alloc: Global) -> Result<HeapTable, TableError> {
    match HeapTable::new(alloc, K, &MANAGERS) {
        Err(TableError::OutOfMemory) => HeapTable::new(alloc, K, &MANAGERS),
        table => table,
    }
}

#[test]
fn heap_table_after_refused_memory(rt: HostRuntime) -> Result<(), Fail> {
    let table = heap_table(rt.alloc())?;
    assert!(rt; table.clock() == K && table.rights(&M) == Rights(7));
    Ok(())
}

/// What becomes of the SET at port 1; nothing if memory is refused.
fn handled(agent: &mut Agent<PlainTable>, out: &mut Outbox) -> Option<Verdict> {
    if !agent.sets().has_port(1) {
        return None;
    }
    agent.try_handle(1, SET, out).ok()
}

/// Whether it gets this verdict, and the reply is sent.
fn is_answered(agent: &mut Agent<PlainTable>, wanted: Verdict) -> bool {
    let mut out = Outbox::new();
    let verdict = match handled(agent, &mut out) {
        None => handled(agent, &mut out),
        verdict => verdict,
    };
    verdict == Some(wanted) && is_sent(&out)
}

fn is_sent(out: &Outbox) -> bool {
    match out.entries() {
        [entry] => entry.0 == 1 && entry.1.as_slice() == REPLY.as_slice(),
        _ => false,
    }
}

/// The copy gets the reply that the table keeps.
#[test]
fn try_handle_after_refused_memory(rt: HostRuntime) -> Result<(), Fail> {
    let sets = DataSets::new(&ClockStart::new(K, 0), &[PortStart::new()])?;
    let table = plain_table(rt.alloc())?;
    assert!(rt; sets.identity() == table.clock());
    assert!(rt; sets.port_count() == 1);
    let mut agent = Agent::new(sets, table);
    assert!(rt; is_answered(&mut agent, Verdict::AnsweredNew));
    assert!(rt; is_answered(&mut agent, Verdict::AnsweredRepeat));
    Ok(())
}
