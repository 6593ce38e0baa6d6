//! Why words are no dataField, as a text.

ghost use Rattle.std.specs.Prelude.{Some};
ghost use Rattle.ptpm_members.specs.ParseFaultText.{fault_text};

use crate::parsing::ParseFault;
use std::fmt;

impl fmt::Display for ParseFault {
    ghost output = { λ fault. Some (fault_text fault) };

    fn fmt<W: fmt::Write>(&self, f: &mut fmt::Formatter<W>) -> fmt::Result {
        match self {
            ParseFault::NoSuchId => f.write_str("NoSuchId"),
            ParseFault::WordCount => f.write_str("WordCount"),
            ParseFault::OtherName(member) => write!(f, "OtherName {}", member.name()),
            ParseFault::NoValue(member) => write!(f, "NoValue {}", member.name()),
        }
    }
}
