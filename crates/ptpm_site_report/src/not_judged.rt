//! What can't be judged, since the lines of a site lack something.

use ptpm_causes::{Kind, not_judged};
use ptpm_site::judging::lacks::Lack;
use ptpm_site::picture::Picture;
use std::fmt;

/// What lines lack, with the findings that are not judged for that.
#[derive(Clone, Copy)]
pub(crate) struct NotJudged(pub(crate) Lack);

impl fmt::Display for NotJudged {
    fn fmt<W: fmt::Write>(&self, f: &mut fmt::Formatter<W>) -> fmt::Result {
        let (names, reason) = (KindNames::of(self.0), reason_of(self.0));
        write!(f, "not judged: {names}: {reason}")
    }
}

fn reason_of(lack: Lack) -> &'static str {
    match lack {
        Lack::Requests => "no GET is among the lines",
        Lack::Times => "no line says when it came (at=)",
        Lack::Sources => "no line says who sent it (from=)",
        Lack::Senders => "no Announce, Sync, Follow_Up or Delay_Req is among the lines",
    }
}

/// The names of findings, with commas between them.
#[derive(Clone, Copy)]
pub(crate) struct KindNames(&'static [Kind]);

impl KindNames {
    /// Those that are not judged of lines that lack this.
    pub(crate) fn of(lack: Lack) -> KindNames {
        KindNames(not_judged(lack))
    }
}

impl fmt::Display for KindNames {
    fn fmt<W: fmt::Write>(&self, f: &mut fmt::Formatter<W>) -> fmt::Result {
        let mut between = "";
        for kind in self.0 {
            write!(f, "{between}{}", kind.name())?;
            between = ", ";
        }
        Ok(())
    }
}

/// What comes after `none` and its like: nothing, unless the lines lack something that is worth a word.
pub(crate) fn limit_of(picture: &Picture<'_>) -> &'static str {
    for lack in picture.lacks.as_slice() {
        if lack.is_worth_a_word() {
            return " that these lines can show";
        }
    }
    ""
}
