//! What an answer says.

use crate::reading::asked::Asked;

/// What an answer says: the octets of a data set, that the clock refuses to answer, or nothing.
#[derive(Drop)]
pub enum AnswerContent {
    /// Those that answer an id: its dataField; of USER_DESCRIPTION its text, in UTF-8.
    Clock(Asked, Vec<u8>),
    /// PORT_DATA_SET of the port of this number.
    Port(u16, Vec<u8>),
    /// A MANAGEMENT_ERROR_STATUS for this id.
    Refused(Asked),
    /// Only that the clock is there: the dataField has another length than that of its id, or is of a port of another clock.
    Nothing,
}
