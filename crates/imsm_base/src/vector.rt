//! A whole metadata block, and a torn one.
ghost use Rattle.imsm_base.specs.Layout.{Block};
ghost use Rattle.imsm_base.specs.Whole.{IsWhole, IsWholeBlock};
ghost use Rattle.imsm_base.specs.FirstForm.{IsFirstForm};
ghost use Rattle.imsm_base.specs.Vector.{mirror_bytes, torn_mirror_bytes};

/// The bytes of a new container of two disks with one volume of two copies are a whole block, of the first form.
pub fn example_of_a_whole_block()
    ensures whole { IsWhole mirror_bytes }
    ensures first_form { (b : Block) → IsWholeBlock mirror_bytes b → IsFirstForm b }
{}

/// With one byte changed they are not: the checksum tells.
pub fn example_of_a_torn_block()
    ensures { IsWhole torn_mirror_bytes → ⊥ }
{}
