//! `ptpm findings`: the table of what `ptpm site` may find.

use ptpm_causes::Kind;
use ptpm_commands::Fault;
use std::io::Write;

/// Prints a line for each finding, in the order of a clock's. Of its row it has the name, the severity, the looks and the course, and
/// last what it means.
pub fn findings<O: Write>(out: &mut O) -> Result<(), Fault> {
    for kind in Kind::ALL {
        let row = kind.row();
        let (name, severity, course) = (row.name, row.severity.word(), row.course.word());
        writeln!(
            out,
            "{name} {severity} {} {course} {}",
            row.looks,
            kind.meaning()
        )?;
    }
    Ok(())
}
