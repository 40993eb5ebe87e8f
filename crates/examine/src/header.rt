//! The lines of a block's header.
ghost use Rattle.std.specs.Prelude.{◌≡◌, ◌++◌, map, OnOk};
ghost use Rattle.std.specs.List.{flat_map};
ghost use Rattle.imsm_text.specs.Text.{word_text};
ghost use Rattle.imsm_codec.specs.Mpb.{block_of};
ghost use Rattle.examine.specs.Lines.{field_line, header_lines};

use imsm_codec::MpbRef;
use imsm_text::{Word, push_line};
use std::alloc::AllocError;

/// A name and the word behind it in a line.
type Field<'a> = (&'a [u8], Word<'a>);

/// Appends a line for each field.
fn push_fields(out: &mut Vec<u8>, fields: &[Field<'_>]) -> Result<(), AllocError>
    ensures { OnOk result (out.new.items ≡ out.old.items
        ++ flat_map field_line (map (λ f. (f.0.now, word_text f.1)) fields.now)) }
{
    for (name, word) in fields {
        push_line(out, name, &[*word])?;
    }
    Ok(())
}

/// Appends the lines of the header.
pub(crate) fn push_header(out: &mut Vec<u8>, mpb: &MpbRef<'_>) -> Result<(), AllocError>
    ensures { OnOk result (out.new.items ≡ out.old.items ++ header_lines (block_of mpb.now)) }
{
    let fields: [Field<'_>; 6] = [
        (b"family", Word::Hex(mpb.family())),
        (b"orig", Word::Hex(mpb.orig_family())),
        (b"generation", Word::Number(u64::from(mpb.generation()))),
        (b"size", Word::Number(u64::from(mpb.size()))),
        (b"attributes", Word::Hex(mpb.attributes())),
        (b"checksum", Word::Hex(mpb.checksum())),
    ];
    push_fields(out, &fields)
}
