//! What is left of a script if only some of its lines are drawn.

ghost use Rattle.std.specs.Prelude.{◌≡◌, filter, length, map};
ghost use Rattle.ptpm_draw.specs.Chosen.{chosen_of, is_chosen};
ghost use Rattle.ptpm_draw.specs.Picture.{drawn_in};
ghost use Rattle.ptpm_script.specs.NetworkView.{network_value};

use crate::chosen::Chosen;
use crate::picture::{Message, Picture};
use ptpm_world::{EventLine, Network, Script};

/// What is drawn of a script. Nothing else of it is left, so a line that is not chosen cannot be shown.
#[derive(Drop)]
pub(crate) struct Selection {
    pub(crate) network: Network,
    /// The lines that are chosen.
    pub(crate) lines: Vec<EventLine>,
    /// What the picture has of these lines, a row each, and the messages of all.
    pub(crate) picture: Picture,
    /// Of each frame, by its number from 1, whether an event of any line delivered it.
    pub(crate) is_delivered: Vec<bool>,
    /// How many events the script has.
    pub(crate) events: usize,
    ghost rows: { map (λ row. row.line) picture.rows.items ≡ map (λ line. line.number) lines.items },
}

impl Selection {
    /// Keeps what is chosen of a script and its picture.
    pub(crate) fn of(
        script: Script,
        picture: Picture,
        is_delivered: Vec<bool>,
        chosen: Chosen,
    ) -> Selection
        requires { map (λ row. row.line) picture.rows.items ≡ map (λ line. line.number) script.lines.items }
        ensures network { network_value result.network ≡ network_value script.network }
        ensures lines { result.lines.items ≡ filter (λ line. is_chosen chosen line.number) script.lines.items }
        ensures picture { drawn_in result.picture ≡ chosen_of chosen (drawn_in picture) }
        ensures delivered { result.is_delivered.items ≡ is_delivered.items }
        ensures events { result.events ≡ length script.lines.items }
    {
        let Script { network, lines, .. } = script;
        let events = lines.len();
        let mut lines = lines;
        choose_lines(&mut lines, chosen);
        let mut picture = picture;
        picture.choose(chosen);
        Selection {
            network,
            lines,
            picture,
            is_delivered,
            events,
        }
    }

    /// The message of the frame of a number, counted from 1, if no event delivered it.
    pub(crate) fn lost(&self, frame: u32) -> Option<&Message> {
        if *self.is_delivered.get((frame as usize).checked_sub(1)?)? {
            return None;
        }
        self.picture.message(frame)
    }
}

/// Keeps the lines that are chosen.
fn choose_lines(lines: &mut Vec<EventLine>, chosen: Chosen)
    ensures { lines.new.items ≡ filter (λ line. is_chosen chosen line.number) lines.old.items }
{
    lines.retain(|line| chosen.contains(line.number));
}
