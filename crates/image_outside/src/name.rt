//! Names as they are printed.
ghost use Rattle.std.specs.Prelude.{◌≡◌, ◌≤◌, OnOk, OnErr};
ghost use Rattle.std.specs.List.{flat_map};
ghost use Rattle.image_outside.specs.Outside.{Adds};
ghost use Rattle.image_outside.specs.Views.{WriteBreaksOff};
ghost use Rattle.imsm_text.specs.Text.{escaped, name_text};

use crate::{Sink, write_all};
use imsm_text::{digits_of, is_plain, name_bytes};
use member_bank::Failed;

/// Writes a byte as it is, or as `\x` and two digits.
fn write_escaped<K: Sink>(sink: &mut K, byte: u8) -> Result<(), Failed>
    ensures ok { OnOk result (Adds (K.written sink.old) (K.written sink.new) (escaped byte)) }
    ensures err { OnErr result (WriteBreaksOff K.Sink sink.old sink.new (escaped byte)) }
    ensures later { K.faults_of sink.old ≤ K.faults_of sink.new }
{
    if is_plain(byte) {
        return write_all(sink, &[byte]);
    }
    let [high, low] = digits_of(byte);
    write_all(sink, &[b'\\', b'x', high, low])
}

/// Writes bytes one by one, each as it is or as two digits.
fn write_all_escaped<K: Sink>(sink: &mut K, bytes: &[u8]) -> Result<(), Failed>
    ensures ok { OnOk result (Adds (K.written sink.old) (K.written sink.new) (flat_map escaped bytes.now)) }
    ensures err { OnErr result (WriteBreaksOff K.Sink sink.old sink.new (flat_map escaped bytes.now)) }
    ensures later { K.faults_of sink.old ≤ K.faults_of sink.new }
{
    for byte in bytes {
        write_escaped(sink, *byte)?;
    }
    Ok(())
}

/// Writes a name, or a serial, without the zeros at its end.
pub fn write_name<K: Sink>(sink: &mut K, bytes: &[u8]) -> Result<(), Failed>
    ensures ok { OnOk result (Adds (K.written sink.old) (K.written sink.new) (name_text bytes.now)) }
    ensures err { OnErr result (WriteBreaksOff K.Sink sink.old sink.new (name_text bytes.now)) }
    ensures later { K.faults_of sink.old ≤ K.faults_of sink.new }
{
    let bytes = name_bytes(bytes);
    if bytes.is_empty() {
        write_escaped(sink, 0)
    } else {
        write_all_escaped(sink, bytes)
    }
}
