//! A law on views.
ghost use Rattle.std.specs.Prelude.{◌≡◌};
ghost use Rattle.imsm_base.specs.Layout.{Block, Spells};
ghost use Rattle.imsm_codec.specs.Mpb.{block_bytes, block_of};

use crate::mpb::MpbRef;

/// The bytes of each view spell its parts, and no other block: what the readers say of `block_of` they say of the one
/// block that the bytes are.
pub fn views_are_spelled(mpb: &MpbRef<'_>)
    ensures parts { Spells (block_bytes mpb.now) (block_of mpb.now) }
    ensures one { (b : Block) → Spells (block_bytes mpb.now) b → b ≡ block_of mpb.now }
{}
