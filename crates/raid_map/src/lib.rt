//! Where the sectors of a volume lie on its members, at levels one, five and ten: the place of a sector, the sector of
//! a place, the sum of sectors that parity is, and what follows of `array_model`'s one list of slots and rows, of which
//! sector `s` is item `s`.
//!
//! It owes that a place is the list's, that a row of a slot holds just the sector that is placed there, and that sums
//! are taken bit by bit. Of the list it owes that it has a placement for each sector of a volume and for no other, that
//! no row of a slot holds two sectors, that the rows are below those which a volume takes, and what numbers a division
//! gives: these functions have an empty body and are proved.
//!
//! `sound_images` says by the list what stands where, and the laws of a run place sectors by it.
#![tactic(auto)]

mod parity;
mod places;

ghost use Rattle.std.specs.Prelude.{◌≡◌, ℕ, ◌<◌, ◌≤◌, Some, None};
ghost use Rattle.units.specs.declared.volume.Level.{Level};
ghost use Rattle.units.specs.declared.volume.Level.TheVariants.{One, Five, Ten};
ghost use Rattle.units.specs.Levels.{rows_of};
ghost use Rattle.array_model.specs.Placement.{Shape, Placement, item_of_stripes, placement_of};
ghost use Rattle.raid_map.specs.Layouts.{IsLaidOut, LiesAt, IsPlacedIn, sector_placement};
ghost use Rattle.raid_map.specs.Small.{small_shape};

pub use parity::xor_into;
pub use places::{Place, place_of, sector_at};

/// Each sector below the size of a volume has a placement, and no sector past it has one.
pub fn each_sector_is_placed()
    ensures below { (shape : Shape) (level : Level) (s : ℕ) → IsLaidOut shape level → s < shape.size
        → (lies : Placement) × (sector_placement shape s ≡ Some lies) }
    ensures past { (shape : Shape) (s : ℕ) → shape.size ≤ s → sector_placement shape s ≡ None }
{}

/// A placement by its numbers, both ways: the stripe, which of its pairs of slots, and which of its rows. So a division
/// finds it, and a product the sector of a row.
pub fn sectors_lie_in_stripes()
    ensures lies { (shape : Shape) (level : Level) (s : ℕ) (lies : Placement) → shape.level ≡ Some level
        → sector_placement shape s ≡ Some lies → LiesAt level shape.members shape.strip s lies }
    ensures placed { (shape : Shape) (level : Level) (s : ℕ) (lies : Placement) → IsLaidOut shape level
        → s < shape.size → LiesAt level shape.members shape.strip s lies → sector_placement shape s ≡ Some lies }
{}

/// No row of a slot holds two sectors of a volume, as data or as mirror. At level five the slot of a sector's parity
/// holds none in that row.
pub fn each_row_has_one_sector()
    ensures one { (shape : Shape) (slot row a b : ℕ) → IsPlacedIn shape slot row a → IsPlacedIn shape slot row b
        → a ≡ b }
    ensures parity { (shape : Shape) (s other : ℕ) (lies : Placement) → shape.level ≡ Some Five
        → sector_placement shape s ≡ Some lies → IsPlacedIn shape lies.other lies.row other → ⊥ }
{}

/// A volume that takes the rows of its size has each of its sectors below them.
pub fn rows_hold_the_volume()
    ensures { (shape : Shape) (s : ℕ) (lies : Placement)
        → shape.rows ≡ rows_of shape.level shape.members shape.size shape.strip
        → sector_placement shape s ≡ Some lies → lies.row < shape.rows }
{}

/// Each sector is an item of its volume's stripes: also of two copies, where the laws of a run place it in the row of
/// its number, without the list.
pub fn sectors_are_items()
    ensures items { (shape : Shape) (level : Level) (s : ℕ) → shape.level ≡ Some level
        → placement_of shape s ≡ item_of_stripes level shape s }
    ensures copies { (shape : Shape) (s : ℕ) → s < shape.size
        → item_of_stripes One shape s ≡ Some (record { main = 0; other = 1; row = s }) }
{}

/// At level five over three members with a strip of 8, sector 20 is row 12 of slot 0 with its parity on slot 1, and
/// sector 24 is row 8 of slot 2. At level ten, with the same strip, sector 20 is row 12 of slots 0 and 1, and sector 24
/// row 8 of slots 2 and 3. The shapes are such as the promises ask for.
pub fn example_of_layouts()
    ensures five { IsLaidOut (small_shape Five 3) Five }
    ensures ten { IsLaidOut (small_shape Ten 4) Ten }
    ensures rows { rows_of (Some Five) 3 32 8 ≡ (small_shape Five 3).rows }
    ensures five_20 { sector_placement (small_shape Five 3) 20 ≡ Some (record { main = 0; other = 1; row = 12 }) }
    ensures five_24 { sector_placement (small_shape Five 3) 24 ≡ Some (record { main = 2; other = 1; row = 8 }) }
    ensures ten_20 { sector_placement (small_shape Ten 4) 20 ≡ Some (record { main = 0; other = 1; row = 12 }) }
    ensures ten_24 { sector_placement (small_shape Ten 4) 24 ≡ Some (record { main = 2; other = 3; row = 8 }) }
{}
