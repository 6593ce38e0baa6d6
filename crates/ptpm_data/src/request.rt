//! A request as a clock judges it.

use ptpm_codec::Action;
use std::marker::Model;

/// What is asked of a clock, with the dataField lent. Contracts see it with the dataField as a list.
#[derive(Debug, Drop)]
pub struct Request<'a> {
    pub action: Action,
    /// managementId.
    pub id: u16,
    /// The target's portNumber; 0xFFFF means every port.
    pub port: u16,
    /// dataField.
    pub octets: &'a [u8],
}

impl<'a> Model for Request<'a> {
    ghost use Rattle.ptpm_data.specs.Request.{RequestValue, request_value};

    ghost Value = { RequestValue };

    ghost view = { request_value };
}
