//! A report is printed.
ghost use Rattle.image_outside.specs.Endings.{EndsIfMemory, Prints};
ghost use Rattle.image_outside.specs.Views.{sink_told};
ghost use Rattle.image_verdict.specs.Text.{report_status, report_text};

use crate::report::Report;
use crate::text::text_of;
use image_outside::{Sink, Status, end, end_without_memory};
use std::alloc::Global;

/// Prints a report.
pub fn print_report<K: Sink>(alloc: Global, report: &Report, sink: &mut K) -> Status
    ensures { EndsIfMemory (sink_told K.Sink sink.old) (sink_told K.Sink sink.new)
        (Prints (report_text report.now) (report_status report.now)) result.0 }
{
    match text_of(alloc, report) {
        Ok(text) => end(sink, text.as_slice(), report.status()),
        Err(_) => end_without_memory(sink),
    }
}
