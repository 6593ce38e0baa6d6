//! userDescription (8.2.1.4, 15.5.3.1.9).

use ptpm_codec::{is_ptp_text, text_of_ptp_text};
use std::alloc::{AllocError, Global};

/// The text of a dataField of USER_DESCRIPTION. Octets that are no UTF-8 are replaced. `None` if it is no PTPText.
pub fn description_text(alloc: Global, octets: &[u8]) -> Result<Option<String>, AllocError> {
    if !is_ptp_text(octets) {
        return Ok(None);
    }
    Ok(Some(String::from_utf8_lossy(alloc, text_of_ptp_text(octets))?))
}
