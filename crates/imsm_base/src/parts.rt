//! Laws on the parts of a metadata block.
ghost use Rattle.std.specs.Prelude.{◌≡◌, ℕ, ◌≤◌, ◌↔◌, List, length};
ghost use Rattle.imsm_base.specs.Layout.{Block, Spells};
ghost use Rattle.imsm_base.specs.Parts.{block_in, room_of};

/// The bytes of a metadata block determine its parts: they spell one block at most, and `block_in` finds it.
/// They spell one exactly where its parts have room in them.
pub fn parts_are_determined()
    ensures one { (bytes : List ℕ) (a b : Block) → Spells bytes a → Spells bytes b → a ≡ b }
    ensures found { (bytes : List ℕ) (b : Block) → Spells bytes b → b ≡ block_in bytes }
    ensures room { (bytes : List ℕ) → Spells bytes (block_in bytes) ↔ (room_of (block_in bytes) ≤ length bytes) }
{}
