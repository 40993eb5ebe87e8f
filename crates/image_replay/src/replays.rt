//! A replay: the images of a bank are read, the script is run on them, and the journal is printed.
ghost use Rattle.std.specs.Prelude.{◌≡◌, ◌≤◌, ◌^◌, true, false, length, slice_index_or, OnOk, OnErr};
ghost use Rattle.std.specs.List.{list_all};
ghost use Rattle.first_opening.specs.Opened.{is_first_op};
ghost use Rattle.stage_law.specs.Runs.{AsksRows};
ghost use Rattle.image_outside.specs.declared.status.TheConstants.Status.{MEMORY};
ghost use Rattle.image_outside.specs.Endings.{Ends, EndsIfMemory, Prints};
ghost use Rattle.image_outside.specs.Outside.{Adds};
ghost use Rattle.image_outside.specs.Shelves.{IsUncalled};
ghost use Rattle.image_outside.specs.Told.{bank_told};
ghost use Rattle.image_outside.specs.Views.{sink_told, WriteBreaksOff};
ghost use Rattle.run_script.specs.Within.{IsWithin};
ghost use Rattle.image_verdict.specs.Images.{blank_serial, serials_of_all, HasReadAnchors, HasReadFirst, IsFoundOn};
ghost use Rattle.image_start.specs.Starts.{Starts};
ghost use Rattle.image_replay.specs.Ends.{asks_second, end_status, volume_named};
ghost use Rattle.image_replay.specs.Lines.{absent_volume_line, end_line, run_text};
ghost use Rattle.image_replay.specs.Replays.{Replays, ReplaysBy};

use crate::lines::write_journal;
use crate::runs::{Finished, run};
use array_model::{Entry, OpKind, Script};
use image_outside::{Sink, Status, end, end_without_memory, status_after, write_all, write_line};
use image_verdict::{ImageRead, print_report, read_images, report_on};
use imsm_text::Word;
use member_bank::{Bank, Failed};
use stage::{DriveEnd, StageFault};
use std::alloc::Global;
use units::{DiskNo, SERIAL_BYTES, Serial, VolNo};

/// The volume that an operation names.
fn volume_of(kind: OpKind) -> VolNo
    ensures { result.0 ≡ volume_named kind }
{
    match kind {
        OpKind::Write(v, _, _) | OpKind::Read(v, _) | OpKind::Whole(v) => v,
    }
}

/// Whether an operation names the second volume, which no container of the first form has.
fn asks_second(script: &Script) -> bool
    ensures { result ≡ asks_second script.now.ops }
{
    script.ops().iter().any(|op| volume_of(op.kind).0 == 1)
}

/// The status of a run.
fn status_of(end: DriveEnd) -> Status
    ensures { result.0 ≡ end_status end }
{
    match end {
        DriveEnd::Over => Status::DONE,
        DriveEnd::Full => Status::JOURNAL_FULL,
        DriveEnd::Member(_) => Status::MEMBER_FAULT,
    }
}

/// The serial of a disk.
fn serial_of(images: &[ImageRead], d: DiskNo) -> Serial
    ensures { result ≡ slice_index_or (serials_of_all images.now) d.0 blank_serial }
{
    match images.get(usize::from(d.0)) {
        Some(image) => image.serial,
        None => Serial([0; SERIAL_BYTES]),
    }
}

/// Writes the line of a run's end.
fn write_end<K: Sink>(sink: &mut K, end: DriveEnd, images: &[ImageRead]) -> Result<(), Failed>
    ensures ok { OnOk result (Adds (K.written sink.old) (K.written sink.new)
        (end_line (serials_of_all images.now) end)) }
    ensures err { OnErr result (WriteBreaksOff K.Sink sink.old sink.new (end_line (serials_of_all images.now) end)) }
{
    match end {
        DriveEnd::Over => write_all(sink, b"done\n"),
        DriveEnd::Full => write_all(sink, b"full\n"),
        DriveEnd::Member(d) => write_line(sink, b"member", &[Word::Name(&serial_of(images, d).0)]),
    }
}

/// Writes the lines of a run.
fn write_run<K: Sink>(
    sink: &mut K,
    entries: &[Entry],
    end: DriveEnd,
    images: &[ImageRead],
) -> Result<(), Failed>
    ensures ok { OnOk result (Adds (K.written sink.old) (K.written sink.new)
        (run_text (serials_of_all images.now) entries.now end)) }
    ensures err { OnErr result (WriteBreaksOff K.Sink sink.old sink.new
        (run_text (serials_of_all images.now) entries.now end)) }
{
    write_journal(sink, entries)?;
    write_end(sink, end, images)
}

/// Prints a run.
fn print_run<K: Sink>(
    sink: &mut K,
    entries: &[Entry],
    end: DriveEnd,
    images: &[ImageRead],
) -> Status
    ensures { Ends (sink_told K.Sink sink.old) (sink_told K.Sink sink.new)
        (Prints (run_text (serials_of_all images.now) entries.now end) (end_status end)) result.0 }
{
    status_after(write_run(sink, entries, end, images), status_of(end))
}

/// Runs a script on images that start, and prints the run.
fn play<B: Bank, K: Sink>(
    alloc: Global,
    bank: B,
    images: &[ImageRead],
    script: &Script,
    limit: u32,
    sink: &mut K,
) -> (B, Status)
    requires starts { Starts images.now }
    requires found { IsFoundOn (bank_told B.Bank bank) images.now }
    requires reads { HasReadAnchors (bank_told B.Bank bank) images.now }
    requires limit { limit ≤ 2 ^ 20 }
    requires asks { asks_second script.now.ops ≡ false }
    requires rows { AsksRows script.now.ops }
    requires first { list_all is_first_op script.now.ops ≡ true }
    ensures ends { EndsIfMemory (sink_told K.Sink sink.old) (sink_told K.Sink sink.new)
        (Replays script.now limit (bank_told B.Bank result.0)) result.1.0 }
    ensures unrun { result.1.0 ≡ MEMORY.0 → result.0 ≡ bank }
    ensures same { B.serials result.0 ≡ B.serials bank }
{
    match run(alloc, bank, images, script, limit) {
        Ok(Finished { bank, journal, end }) => {
            let status = print_run(sink, journal.entries(), end, images);
            (bank, status)
        }
        Err((bank, StageFault::Memory)) => (bank, end_without_memory(sink)),
    }
}

/// Replays a script on the disks of a bank, of which there are 1 to 16: its turns, and then all that is left to do.
///
/// The status is 0 where each operation has its answer, 2 where a disk of the container is absent, 3 where an operation
/// names a volume that isn't there, 6 where a line couldn't be written, 8 where the journal has no room for a turn, 9
/// without memory, 13 where a call on a disk failed, and 14 where an image isn't of the form that is started today.
pub fn replay<B: Bank, K: Sink>(
    alloc: Global,
    mut bank: B,
    script: &Script,
    limit: u32,
    sink: &mut K,
) -> (B, Status)
    requires fresh { IsUncalled (bank_told B.Bank bank) }
    requires some { 1 ≤ length (B.serials bank) }
    requires limit { limit ≤ 2 ^ 20 }
    requires script { IsWithin script.now }
    ensures ends { EndsIfMemory (sink_told K.Sink sink.old) (sink_told K.Sink sink.new)
        (ReplaysBy script.now limit (bank_told B.Bank result.0)) result.1.0 }
    ensures unrun { result.1.0 ≡ MEMORY.0 → HasReadFirst (bank_told B.Bank result.0) }
    ensures serials { B.serials result.0 ≡ B.serials bank }
{
    let images = match read_images(alloc, &mut bank) {
        Ok(images) => images,
        Err(_) => return (bank, end_without_memory(sink)),
    };
    let report = report_on(images.as_slice());
    if !report.starts() {
        let status = print_report(alloc, &report, sink);
        return (bank, status);
    }
    if asks_second(script) {
        return (bank, end(sink, b"volume 1 absent\n", Status::REFUSED));
    }
    play(alloc, bank, images.as_slice(), script, limit, sink)
}
