// What a fault of a text tells, in the layer that reads it.
ghost use Rattle.std.specs.Prelude.{◌≡◌};
ghost use Rattle.report.specs.Reports.{report_at, report_at_pair, text_report};

use crate::verdict::{Layer, Report};
use causes::Cause;
use text::faults::TextFault;

impl Report {
    // The number of a cause at a line and a field, or 0 where they are not told: a report may hold any number.
    pub fn at(layer: Layer, line: u32, field: u32, cause: u32) -> Report
        ensures { result ≡ report_at layer line field cause }
    {
        Report::at_pair(layer, line, field, 0, 0, cause)
    }

    // The number of a cause at a line and a field, of a region and a face, each 0 where it is not told.
    pub fn at_pair(
        layer: Layer,
        line: u32,
        field: u32,
        region: u32,
        face: u32,
        cause: u32,
    ) -> Report
        ensures { result ≡ report_at_pair layer line field region face cause }
    {
        Report {
            layer,
            line,
            field,
            region,
            face,
            cause,
        }
    }

    // What a fault of a text tells. No From: the layer is that of the reader, and the fault does not know it.
    pub fn of_text(layer: Layer, fault: TextFault) -> Report
        ensures { result ≡ text_report layer fault }
    {
        match fault {
            TextFault::Size => Report::at(layer, 0, 0, Cause::Size.into()),
            TextFault::Line(line) => Report::at(layer, line, 0, Cause::Line.into()),
            TextFault::Field(place, fault) => {
                Report::at(layer, place.line, place.field, Cause::from(fault).into())
            }
        }
    }
}
