//! How the clocks of a network file and their ports start (this project's profile).

ghost use Rattle.std.specs.Prelude.{◌≡◌};
ghost use Rattle.toml.specs.View.{table_view};
ghost use Rattle.ptpm_script.specs.Starts.{clock_start, port_start};

use crate::values::{
    clock_at, description_at, flag_or, i8_or, i16_or, i32_or, i64_or, port_at, u8_at, u8_or,
    u16_at, u16_or,
};
use ptpm_codec::ClockIdentity;
use ptpm_data::{ClockStart, PortStart};
use toml::Table;

/// An identity for a clock whose own is not asked for, or is missing.
pub(crate) const SOME_CLOCK: ClockIdentity = ClockIdentity([0; 8]);

/// The start values of a clock: of each key, or this profile's default.
pub(crate) fn clock_start(identity: ClockIdentity, domain: u8, table: &Table) -> ClockStart
    ensures { result ≡ clock_start identity domain (table_view table.now) }
{
    let default = ClockStart::new(identity, domain);
    ClockStart {
        identity: default.identity,
        domain: default.domain,
        user_description: description_at(table, "user_description"),
        two_step: flag_or(table, "two_step", default.two_step),
        priority1: u8_or(table, "priority1", default.priority1),
        clock_class: u8_or(table, "clock_class", default.clock_class),
        clock_accuracy: u8_or(table, "clock_accuracy", default.clock_accuracy),
        variance: u16_or(table, "variance", default.variance),
        priority2: u8_or(table, "priority2", default.priority2),
        steps_removed: u16_or(table, "steps_removed", default.steps_removed),
        offset_from_master: i64_or(table, "offset_from_master", default.offset_from_master),
        mean_path_delay: i64_or(table, "mean_path_delay", default.mean_path_delay),
        parent_port: port_at(table, "parent_port"),
        parent_stats: flag_or(table, "parent_stats", default.parent_stats),
        observed_variance: u16_or(table, "observed_variance", default.observed_variance),
        observed_rate: i32_or(table, "observed_rate", default.observed_rate),
        grandmaster_priority1: u8_at(table, "grandmaster_priority1"),
        grandmaster_class: u8_at(table, "grandmaster_class"),
        grandmaster_accuracy: u8_at(table, "grandmaster_accuracy"),
        grandmaster_variance: u16_at(table, "grandmaster_variance"),
        grandmaster_priority2: u8_at(table, "grandmaster_priority2"),
        grandmaster: clock_at(table, "grandmaster"),
        utc_offset: i16_or(table, "utc_offset", default.utc_offset),
        leap61: flag_or(table, "leap61", default.leap61),
        leap59: flag_or(table, "leap59", default.leap59),
        utc_valid: flag_or(table, "utc_valid", default.utc_valid),
        ptp_timescale: flag_or(table, "ptp_timescale", default.ptp_timescale),
        time_traceable: flag_or(table, "time_traceable", default.time_traceable),
        frequency_traceable: flag_or(table, "frequency_traceable", default.frequency_traceable),
        time_source: u8_or(table, "time_source", default.time_source),
    }
}

/// The start values of a port: of each key, or this profile's default.
pub(crate) fn port_start(table: &Table) -> PortStart
    ensures { result ≡ port_start (table_view table.now) }
{
    let default = PortStart::new();
    PortStart {
        state: u8_or(table, "state", default.state),
        log_min_delay_req: i8_or(table, "log_min_delay_req", default.log_min_delay_req),
        peer_delay: i64_or(table, "peer_delay", default.peer_delay),
        log_announce: i8_or(table, "log_announce", default.log_announce),
        receipt_timeout: u8_or(table, "receipt_timeout", default.receipt_timeout),
        log_sync: i8_or(table, "log_sync", default.log_sync),
        delay_mechanism: u8_or(table, "delay_mechanism", default.delay_mechanism),
        log_min_pdelay: i8_or(table, "log_min_pdelay", default.log_min_pdelay),
    }
}
