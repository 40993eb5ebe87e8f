//! The newest block of images that start.
ghost use Rattle.std.specs.Prelude.{◌≡◌};
ghost use Rattle.imsm_codec.specs.Mpb.{block_bytes};
ghost use Rattle.image_verdict.specs.Reports.{first_block};
ghost use Rattle.image_start.specs.Starts.{Starts};
ghost use Rattle.image_start.specs.Openings.{first_anchor};

use image_verdict::ImageRead;
use imsm_codec::{MpbRef, check};
use units::Sector;

/// The anchor of the first image.
pub(crate) fn first_anchor(images: &[ImageRead]) -> &Sector
    requires { Starts images.now }
    ensures { result.now ≡ first_anchor images.now }
{
    images[0].anchor.as_ref().unwrap()
}

/// The block in the anchor of the first image, which all images hold.
pub(crate) fn first_block(images: &[ImageRead]) -> MpbRef<'_>
    requires { Starts images.now }
    ensures { block_bytes result ≡ first_block images.now }
{
    check(&first_anchor(images).0).unwrap()
}
