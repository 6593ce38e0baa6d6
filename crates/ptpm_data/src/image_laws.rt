//! What holds of images. Each law is the contract of a function that does nothing.

ghost use Rattle.std.specs.Prelude.{◌≡◌, ◌++◌, ℕ, List};
ghost use Rattle.std.specs.List.{All};
ghost use Rattle.ptpm_data.specs.Image.{CurrentFits, DefaultFits, DataSetsFit, ParentFits, PortFits, TimeFits, data_sets_octets};
ghost use Rattle.ptpm_data.specs.Members.{DataSetsValue, IsConsistent};

use crate::data_sets::{
    CurrentDataSet, DataSets, DefaultDataSet, ParentDataSet, PortDataSet, TimePropertiesDataSet,
};
use crate::laws::{identity_law, port_identity_law};
use crate::port_settings::settings_law;

/// No two data sets have the same octets, whatever comes after them.
#[tactic(auto, using(crate::proofs::OneImage::one_image))]
pub fn image_law()
    ensures { (d e : DataSetsValue) (r s : List ℕ) → IsConsistent d → IsConsistent e → DataSetsFit d → DataSetsFit e
        → data_sets_octets d ++ r ≡ data_sets_octets e ++ s
        → (d ≡ e) × (r ≡ s) }
{}

/// A clock's members are numbers of their types, and its identities have eight octets.
pub fn fits_law(sets: &DataSets)
    ensures { DataSetsFit sets.now }
{
    default_law(&sets.default);
    current_law(&sets.current);
    parent_law(&sets.parent);
    time_law(&sets.time);
    ports_law(sets.ports.as_slice());
}

fn default_law(set: &DefaultDataSet)
    ensures { DefaultFits set.now }
{
    identity_law(&set.identity);
    let _variance = set.precedence.variance;
}

fn current_law(set: &CurrentDataSet)
    ensures { CurrentFits set.now }
{
    let _steps = set.steps_removed;
    let _offset = set.offset_from_master;
    let _delay = set.mean_path_delay;
}

fn parent_law(set: &ParentDataSet)
    ensures { ParentFits set.now }
{
    port_identity_law(&set.parent_port);
    identity_law(&set.grandmaster);
    let _observed = set.observed_variance;
    let _rate = set.observed_rate;
    let _variance = set.precedence.variance;
}

fn time_law(set: &TimePropertiesDataSet)
    ensures { TimeFits set.now }
{
    let _offset = set.utc_offset;
}

fn ports_law(ports: &[PortDataSet])
    ensures { All PortFits ports.now }
{
    for port in ports {
        port_law(port);
    }
}

fn port_law(set: &PortDataSet)
    ensures { PortFits set.now }
{
    let _delay_req = set.log_min_delay_req;
    let _delay = set.peer_delay;
    settings_law(&set.settings);
}
