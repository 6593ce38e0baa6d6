//! A site for monitoring systems: as numbers in OpenMetrics, and as a plugin of Nagios.

pub(crate) mod label;
pub(crate) mod metric_families;
pub(crate) mod nagios;
pub(crate) mod openmetrics;
pub(crate) mod seconds;
