//! What holds of the network of every text that is one. Each law is the contract of a function that does nothing; the first
//! speaks only of the definitions.

ghost use Rattle.std.specs.Prelude.{◌≡◌, ℕ, List, [], map, option_map, Ok};
ghost use Rattle.std.specs.Result.{result_err};
ghost use Rattle.toml.specs.Data.{Members};
ghost use Rattle.ptpm_script.specs.declared.net_error.NetError.TheVariants.{BadClock};
ghost use Rattle.ptpm_script.specs.Faults.{first_refusal, text_marks};
ghost use Rattle.ptpm_script.specs.Heads.{clocks_of, ends_of, sessions_of};
ghost use Rattle.ptpm_script.specs.NameFaults.{name_marks};
ghost use Rattle.ptpm_script.specs.NetworkText.{IsOfText, clock_of, first_start_fault, network_of};
ghost use Rattle.ptpm_script.specs.NetworkValue.{IsAccepted, NetworkValue};
ghost use Rattle.ptpm_script.specs.NetworkView.{network_value};
ghost use Rattle.ptpm_script.specs.RepeatFaults.{repeat_marks};
ghost use Rattle.ptpm_script.specs.ShapeFaults.{shape_marks};
ghost use Rattle.ptpm_script.specs.StartFaults.{start_marks};

use crate::network::Network;

/// A network that a text is keeps its limits. Each clock can start, with 1 to `CLOCK_PORTS` ports and an identity that is not all ones.
/// No two clocks and no two sessions have one name or one identity. No session has a clock's name or clockIdentity, and each
/// has a target that is there. The ends of links are there, and no end is given twice.
pub fn accepted_networks()
    ensures { (text : List ℕ) (n : NetworkValue) → network_of text ≡ Ok n → IsAccepted n }
{}

/// Every `Network` is one that some text is, and keeps those limits.
#[tactic(auto, using(crate::proofs::NetworkLaw::network_laws))]
pub fn network_law(network: &Network)
    ensures of_text { ∥ IsOfText (network_value network.now) ∥₁ }
    ensures accepted { IsAccepted (network_value network.now) }
{
    let _ = network;
}

/// A text is refused as the first fault in it says, and is a network exactly if none is found.
#[tactic(auto, using(crate::proofs::NetworkLaw::faults_found_laws))]
pub fn faults_found()
    ensures { (text : List ℕ) → first_refusal (text_marks text) ≡ result_err (network_of text) }
{}

/// If only starts of clocks are at fault in a file, it is refused for what the first of these starts is refused for.
#[tactic(auto, using(crate::proofs::StartLemmas::clock_start_faults_laws))]
pub fn clock_start_faults()
    ensures { (ms : Members)
        → shape_marks ms ≡ []
        → repeat_marks (clocks_of ms) (sessions_of ms) (ends_of ms) ≡ []
        → name_marks (clocks_of ms) (sessions_of ms) (ends_of ms) ≡ []
        → first_refusal (start_marks (clocks_of ms))
        ≡ option_map (λ e. BadClock e) (first_start_fault (map clock_of (clocks_of ms))) }
{}
