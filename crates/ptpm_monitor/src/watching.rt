//! A watch of a site: looks without an end.

use crate::ended::Ended;
use crate::look::Look;
use crate::looking::Monitor;
use crate::status::NOT_WRITTEN;
use std::io::{Read, Write};
use std::rt::Files;

impl<F: Files, R: Read + Drop, W: Write + Drop, E: Write> Monitor<'_, F, R, W, E> {
    /// Looks again and again, until nobody reads what is printed; the status.
    pub(crate) fn watch(&mut self, look: Look, milliseconds: u64) -> Result<u8, Ended> {
        let mut before = self.keep_clocks(look)?;
        self.is_watching = true;
        for _ in 0..u64::MAX {
            let (clocks, seconds) = (self.known.order.len(), milliseconds / 1_000);
            self.host.show(&format_args!(
                "{clocks} clocks; the next look comes {seconds} s after this one"
            ))?;
            if !self.host.watch(milliseconds)? {
                return Ok(NOT_WRITTEN);
            }
            let look = self.look_twice(Some(&mut before.basis))?;
            if look.judged.is_some() {
                before = self.next(look, before)?;
            } else if self.tells_failures() {
                let _ = self.print_look(&look, None)?;
            }
        }
        Ok(NOT_WRITTEN)
    }

    /// Prints what a look has that the one before lacks. After it the next one is judged.
    fn next(&mut self, look: Look, before: Look) -> Result<Look, Ended> {
        self.print_difference(&look, &before)?;
        let mut look = self.keep_clocks(look)?;
        let is_over_time = 0 < look.momentary() || look.is_over_time();
        self.follow(&mut look, before.basis, is_over_time)?;
        Ok(look)
    }
}
