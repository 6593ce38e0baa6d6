//! The exit status of a look.

ghost use Rattle.std.specs.Prelude.{◌≡◌, true};
ghost use Rattle.ptpm_monitor.specs.Status.{is_known, status_in, tells_findings};

use crate::look::Look;
use ptpm_site_report::{Came, Form};

/// Something failed, or the host says no more.
pub(crate) const FAILED: u8 = 1;

/// Nothing was asked, or an inventory is refused.
pub(crate) const REFUSED: u8 = 2;

/// That of a plugin for a critical finding.
pub(crate) const CRITICAL: u8 = 2;

/// No clock answered, or not everywhere, or something was left out.
pub(crate) const NOT_KNOWN: u8 = 3;

/// What is printed was not written, or nobody reads it.
pub(crate) const NOT_WRITTEN: u8 = 4;

/// That of a site that was judged, in a form.
pub(crate) fn status_of(form: Form, came: &Came) -> u8
    ensures { result ≡ status_in form came.now }
{
    match form {
        Form::Plugin => came.standing.status(),
        Form::OpenMetrics => came.conclusion.status_of_numbers(),
        Form::Text | Form::Json | Form::Drawing | Form::Page => came.conclusion.status(),
    }
}

/// That at the end of a look whose site was printed with a status. If not all is known of it, nothing is sound.
pub(crate) fn status_at_end(form: Form, look: &Look, status: u8) -> u8
    ensures { tells_findings form ≡ true → result ≡ 0 → (status ≡ 0) × (is_known look.now ≡ true) }
{
    match form {
        Form::OpenMetrics => status,
        _ if status == 0 && !look.is_known() => NOT_KNOWN,
        _ => status,
    }
}

/// That of a plugin, whose site has a status. If something was left out, nothing less than critical is known.
pub(crate) fn plugin_status(look: &Look, status: u8) -> u8
    ensures { result ≡ 0 → (status ≡ 0) × (is_known look.now ≡ true) }
{
    if status == 0 && !look.is_known() || status != CRITICAL && !look.left_out.is_none() {
        NOT_KNOWN
    } else {
        status
    }
}
