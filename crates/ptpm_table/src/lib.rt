//! Request numbers, kept replies, and replies as messages: what at-most-once execution is built on.
#![tactic(auto)]

mod error;
mod heap_table;
mod heard;
mod in_order;
mod kept;
mod kept_messages;
mod kept_octets;
pub mod laws;
mod lending;
mod managers;
mod outbox;
mod outgoing;
mod plain_table;
mod rendering;
mod renewal;
mod reply_table;
mod serial;
mod slot;
mod slot_list;
mod slot_memory;
mod slot_table;
mod table_over;

pub use error::TableError;
pub use heap_table::HeapTable;
pub use heard::Heard;
pub use in_order::LentEntries;
pub use lending::{LendingTable, LentAnswer, LentAnswers, LentEntry, LentWhat};
pub use managers::{MOST_MANAGERS, managers_refusal};
pub use outbox::{OUTBOX_MESSAGES, Outbox};
pub use outgoing::{LongOutgoing, Outgoing};
pub use plain_table::PlainTable;
pub use rendering::{Sender, render};
pub use renewal::{Renewal, renew};
pub use reply_table::{Look, ReplyTable, SureTable};
pub use serial::{Serial, compare};
pub use slot_table::{BoundTable, SlotTable};
