//! How arrows and marks look, so that each outcome is recognized without colours.

use crate::outcome::EventOutcome;

/// How the end of an arrow looks.
#[derive(Clone, Copy)]
pub(crate) enum Head {
    /// A filled triangle.
    Filled,
    /// An empty triangle.
    Empty,
    /// Two strokes.
    Open,
    /// A cross.
    Cross,
    /// A ring.
    Ring,
}

/// A line's colour, width in tenths, dashes and end.
#[derive(Clone, Copy)]
pub(crate) struct Stroke {
    pub(crate) colour: &'static str,
    pub(crate) width: &'static str,
    /// As `stroke-dasharray` has them.
    pub(crate) dashes: &'static str,
    pub(crate) head: Head,
}

/// The colour of what went wrong.
const RED: &str = "#b42318";

/// How a lost message is drawn.
pub(crate) const LOST: Stroke = Stroke {
    colour: RED,
    width: "1.5",
    dashes: "2 3",
    head: Head::Cross,
};

/// How an event with an outcome is drawn. If a clock answered by an error, or a session received one, it is red, and nothing is
/// drawn as carried out.
pub(crate) fn stroke_of(outcome: EventOutcome, has_error: bool) -> Stroke {
    match outcome {
        EventOutcome::CarriedOut if has_error => make_stroke(RED, "1.5", "none", Head::Empty),
        EventOutcome::CarriedOut => make_stroke("#1a7f37", "2.5", "none", Head::Filled),
        EventOutcome::AnsweredAgain if has_error => make_stroke(RED, "2", "10 4", Head::Empty),
        EventOutcome::AnsweredAgain => make_stroke("#0550ae", "2", "10 4", Head::Empty),
        EventOutcome::Answered if has_error => make_stroke(RED, "1.5", "none", Head::Empty),
        EventOutcome::Answered => make_stroke("#0550ae", "1.5", "none", Head::Empty),
        EventOutcome::PassedOn => make_stroke("#57606a", "1.5", "none", Head::Open),
        EventOutcome::Reported if has_error => make_stroke(RED, "1.5", "none", Head::Filled),
        EventOutcome::Reported => make_stroke("#1a7f37", "1.5", "none", Head::Filled),
        EventOutcome::Dropped(_) => make_stroke(RED, "1.5", "6 4", Head::Cross),
        EventOutcome::Ignored(_) => make_stroke("#8a4600", "1.5", "6 4", Head::Ring),
        EventOutcome::Refused(_) => make_stroke(RED, "1.5", "none", Head::Cross),
        EventOutcome::Done => make_stroke("#24292f", "1.5", "none", Head::Ring),
    }
}

fn make_stroke(
    colour: &'static str,
    width: &'static str,
    dashes: &'static str,
    head: Head,
) -> Stroke {
    Stroke {
        colour,
        width,
        dashes,
        head,
    }
}
