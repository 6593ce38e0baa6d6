//! What a request is answered (15.5.3, 15.5.4).

use crate::answers::Answers;
use crate::data_field::put_port_data_set;
use crate::data_sets::DataSets;
use crate::management_id::{Layout, ManagementIdRow, Scope};
use crate::reply::{PortValue, Value};
use crate::request::Request;
use ptpm_codec::{Action, ErrorId, PortIdentity};

impl DataSets {
    ghost use Rattle.std.specs.Prelude.{◌≡◌, None, Some, map, [], ◌∷◌, ◌-◌, ◌<◌, ◌≤◌, ◌+◌, length};
    ghost use Rattle.std.specs.List.{range_with_len};
    ghost use Rattle.ptpm_data.specs.ManagementId.{row_value, row_of};
    ghost use Rattle.ptpm_data.specs.Changes.{IsTargetPort};
    ghost use Rattle.ptpm_data.specs.DataField.{clock_field_of, data_field_of};
    ghost use Rattle.ptpm_data.specs.Reply.{Value};
    ghost use Rattle.ptpm_data.specs.Replies.{answer, named_ports, outcome, reply_of};

    /// Puts the answers to a request for an id of the table, which was carried out, or refused for this reason.
    #[inline(always)]
    pub(crate) fn put_reply<A: Answers>(
        &self,
        row: &ManagementIdRow,
        request: &Request<'_>,
        refusal: Option<ErrorId>,
        answers: &mut A,
    )
        requires row { row_of request.now.id ≡ Some (row_value row.now) }
        requires port { IsTargetPort request.now.port self.now }
        requires room { A.count answers.old + length (reply_of request.now refusal self.now).answers
            ≤ A.most answers.old }
        ensures { A.taken answers.old (reply_of request.now refusal self.now).answers answers.new }
    {
        match row.scope {
            Scope::Clock => self.put_answer(row.layout, request.action, refusal, None, answers),
            Scope::Port => self.put_answers(row, request, refusal, answers),
        }
    }

    /// Puts the answer of each named port. It is never inlined: most requests are for one answer.
    #[inline(never)]
    fn put_answers<A: Answers>(
        &self,
        row: &ManagementIdRow,
        request: &Request<'_>,
        refusal: Option<ErrorId>,
        answers: &mut A,
    )
        requires row { row_of request.now.id ≡ Some (row_value row.now) }
        requires port { IsTargetPort request.now.port self.now }
        requires room { A.count answers.old + length (named_ports request.now.port (length self.now.ports))
            ≤ A.most answers.old }
        ensures { A.taken answers.old (map (answer request.now refusal self.now)
            (map Some (named_ports request.now.port (length self.now.ports)))) answers.new }
    {
        let (first, end) = self.named_ports(request.port);
        for port in first..end {
            self.put_answer(row.layout, request.action, refusal, Some(port), answers);
        }
    }

    /// Puts the answer of a port, or of the clock.
    #[inline(always)]
    fn put_answer<A: Answers>(
        &self,
        layout: Layout,
        action: Action,
        refusal: Option<ErrorId>,
        port: Option<u16>,
        answers: &mut A,
    )
        requires { A.count answers.old < A.most answers.old }
        ensures { A.taken answers.old
            (record { port = port; outcome = outcome refusal action (data_field_of layout port self.now) } ∷ [])
            answers.new }
    {
        match refusal {
            Some(error) => answers.take_refusal(port, error),
            None if action == Action::Command => answers.take_done(port),
            None => self.put_value(layout, port, answers),
        }
    }

    /// Puts the dataField of an id.
    #[inline(always)]
    fn put_value<A: Answers>(&self, layout: Layout, port: Option<u16>, answers: &mut A)
        requires { A.count answers.old < A.most answers.old }
        ensures { A.taken answers.old
            (record { port = port; outcome = Value (data_field_of layout port self.now) } ∷ [])
            answers.new }
    {
        match port {
            None => self.put_clock_value(layout, answers),
            Some(number) => self.put_port_value(layout, number, answers),
        }
    }

    /// Puts the dataField of an id of the clock: what shows one member right by its size.
    #[inline(always)]
    fn put_clock_value<A: Answers>(&self, layout: Layout, answers: &mut A)
        requires { A.count answers.old < A.most answers.old }
        ensures { A.taken answers.old
            (record { port = None; outcome = Value (clock_field_of layout self.now) } ∷ [])
            answers.new }
    {
        if let Some(octet) = self.octet_of_clock(layout) {
            answers.take_value(None, &[octet, 0]);
        } else {
            self.put_larger_value(layout, answers);
        }
    }

    /// Puts the dataField of an id of the clock. It is never inlined: the room of a dataField is in its frame.
    #[inline(never)]
    #[tactic(auto, unfolding(crate::specs::DataField::clock_field_of))]
    fn put_larger_value<A: Answers>(&self, layout: Layout, answers: &mut A)
        requires { A.count answers.old < A.most answers.old }
        ensures { A.taken answers.old
            (record { port = None; outcome = Value (clock_field_of layout self.now) } ∷ [])
            answers.new }
    {
        match layout {
            Layout::UserDescription => answers.take_value(None, self.description.octets()),
            _ => {
                let mut value = Value::new();
                self.put_clock_field(layout, &mut value);
                answers.take_value(None, value.as_slice());
            }
        }
    }

    /// Puts the dataField of an id of a port.
    #[inline(always)]
    fn put_port_value<A: Answers>(&self, layout: Layout, port: u16, answers: &mut A)
        requires { A.count answers.old < A.most answers.old }
        ensures { A.taken answers.old
            (record { port = Some port; outcome = Value (data_field_of layout (Some port) self.now) } ∷ [])
            answers.new }
    {
        if layout == Layout::PortDataSet {
            self.put_whole_port(port, answers);
        } else if let Some(octet) = self.octet_of_port(layout, port) {
            answers.take_value(Some(port), &[octet, 0]);
        } else {
            answers.take_value(Some(port), &[]);
        }
    }

    /// Puts a port's data set, whose size is known when it is put.
    #[inline(always)]
    #[tactic(auto, unfolding(crate::specs::DataField::port_field_of))]
    fn put_whole_port<A: Answers>(&self, port: u16, answers: &mut A)
        requires { A.count answers.old < A.most answers.old }
        ensures { A.taken answers.old
            (record { port = Some port; outcome = Value (data_field_of Layout.PortDataSet (Some port) self.now) } ∷ [])
            answers.new }
    {
        let Some(set) = self.port(port) else {
            answers.take_value(Some(port), &[]);
            return;
        };
        let mut value = PortValue::new();
        put_port_data_set(&mut value, &self.default.identity, port, set);
        answers.take_value(Some(port), value.as_slice());
    }

    /// The ports that a target port means: from the first number on, up to the second, which is not one of them.
    #[tactic(auto, using(crate::proofs::ReplyLemmas::named_ports_laws), unfolding(crate::specs::Replies::named_ports))]
    fn named_ports(&self, port: u16) -> (u16, u16)
        requires { IsTargetPort port self.now }
        ensures numbers { named_ports port (length self.now.ports)
            ≡ range_with_len result.0 (result.1 - result.0) }
        ensures ordered { result.0 ≤ result.1 }
    {
        if port == PortIdentity::EVERY_PORT {
            (1, self.port_count() + 1)
        } else {
            (port, port + 1)
        }
    }
}
