//! Views of a metadata block.
ghost use Rattle.std.specs.Prelude.{◌≤◌, length};
ghost use Rattle.units.specs.declared.bounds.TheConstants.{MAX_BLOCK_BYTES};
ghost use Rattle.imsm_codec.specs.Laid.{IsLaid};

/// A view of the bytes of a metadata block.
#[derive(Clone, Copy)]
pub struct MpbRef<'a> {
    pub(crate) bytes: &'a [u8],
    ghost laid: { IsLaid bytes.now },
    ghost short: { length bytes.now ≤ MAX_BLOCK_BYTES },
}
