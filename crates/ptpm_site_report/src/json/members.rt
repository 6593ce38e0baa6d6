//! The members of a JSON object.

use ptpm_codec::ClockIdentity;
use ptpm_members::MemberValue;
use ptpm_message_json::member_value;
use serde_json::{Map, Value, put};
use std::alloc::{AllocError, Global};

/// The members of an object.
#[derive(Drop)]
pub(crate) struct Members {
    pub(crate) alloc: Global,
    map: Map<String, Value>,
}

impl Members {
    pub(crate) fn none(alloc: Global) -> Members {
        let map = Map::new(alloc);
        Members { alloc, map }
    }

    pub(crate) fn put_value(&mut self, name: &str, value: Value) -> Result<(), AllocError> {
        put(&mut self.map, self.alloc, name, value)
    }

    /// Puts a value as the members of a message have it.
    pub(crate) fn put(&mut self, name: &str, value: MemberValue<'_>) -> Result<(), AllocError> {
        let value = member_value(self.alloc, value)?;
        self.put_value(name, value)
    }

    pub(crate) fn put_text(&mut self, name: &str, text: &str) -> Result<(), AllocError> {
        let text = text_value(self.alloc, text)?;
        self.put_value(name, text)
    }

    pub(crate) fn put_number(&mut self, name: &str, number: i64) -> Result<(), AllocError> {
        self.put_value(name, Value::from(number))
    }

    pub(crate) fn put_clock(&mut self, name: &str, clock: ClockIdentity) -> Result<(), AllocError> {
        let clock = identity_value(self.alloc, clock)?;
        self.put_value(name, clock)
    }

    pub(crate) fn object(self) -> Value {
        Value::Object(self.map)
    }
}

pub(crate) fn text_value(alloc: Global, text: &str) -> Result<Value, AllocError> {
    Ok(Value::String(String::from_str(alloc, text)?))
}

pub(crate) fn identity_value(alloc: Global, clock: ClockIdentity) -> Result<Value, AllocError> {
    Ok(Value::String(format!(in alloc; "{clock}")?))
}
