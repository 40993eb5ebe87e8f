//! Where a sector of a volume lies, and which sector lies in a row of a slot.
ghost use Rattle.std.specs.Prelude.{◌≡◌, ℕ, ◌^◌, ◌<◌, ◌≤◌, Some, None, MatchOption};
ghost use Rattle.std.specs.Option.{option_map};
ghost use Rattle.units.specs.declared.volume.Level.TheVariants.{Five, Ten};
ghost use Rattle.array_model.specs.Placement.{placement_of, parity_slot};
ghost use Rattle.raid_map.specs.Layouts.{LiesAt, IsPlacedIn};
ghost use Rattle.raid_map.specs.Mapped.{shape_of, placement_told, IsMapped, sector_number};

use units::{Geometry, Level, Slot};

/// Where a sector lies: the slot of its data, the slot of its mirror or of its parity, and the row on both.
#[derive(Clone, Copy, Debug, PartialEq, Eq)]
pub struct Place {
    pub main: Slot,
    pub other: Slot,
    pub row: u64,
}

/// The slot of a stripe's parity, of so many members: the last slot at first, and one lower with each stripe.
fn parity_slot(members: u8, stripe: u64) -> u8
    requires { 1 ≤ members }
    ensures slot { result ≡ parity_slot members stripe }
    ensures below { result < members }
{
    members - 1 - (stripe % u64::from(members)) as u8
}

/// A sector of a volume with rotating parity: a stripe's strips lie, in order, on all slots but the parity's.
fn with_parity(g: &Geometry, s: u64) -> Place
    requires mapped { IsMapped g.now }
    requires level { g.now.level ≡ Five }
    ensures { LiesAt Five g.now.members g.now.strip s (placement_told result) }
{
    let strip = u64::from(g.strip);
    let data = u64::from(g.members) - 1;
    let stripe = s / strip / data;
    let on = (s / strip % data) as u8;
    let parity = parity_slot(g.members, stripe);
    Place {
        main: Slot(if on < parity { on } else { on + 1 }),
        other: Slot(parity),
        row: stripe * strip + s % strip,
    }
}

/// A sector of a volume with two pairs of copies: its strip lies on both slots of one pair.
fn on_pair(g: &Geometry, s: u64) -> Place
    requires mapped { IsMapped g.now }
    requires level { g.now.level ≡ Ten }
    ensures { LiesAt Ten g.now.members g.now.strip s (placement_told result) }
{
    let strip = u64::from(g.strip);
    let main = 2 * (s / strip % 2) as u8;
    Place {
        main: Slot(main),
        other: Slot(main + 1),
        row: s / strip / 2 * strip + s % strip,
    }
}

/// Where a sector of a volume lies; none past its size.
pub fn place_of(g: &Geometry, s: u64) -> Option<Place>
    requires { IsMapped g.now }
    ensures { option_map placement_told result ≡ placement_of (shape_of g.now) s }
{
    if s >= g.size {
        return None;
    }
    Some(match g.level {
        Level::One => Place {
            main: Slot(0),
            other: Slot(1),
            row: s,
        },
        Level::Five => with_parity(g, s),
        Level::Ten => on_pair(g, s),
    })
}

/// The sector in this row of a pair of slots, of so many pairs; none past the size.
#[tactic(auto, using(crate::proofs::Rows::rows_below))]
fn sector_on(g: &Geometry, pairs: u8, on: u8, row: u64) -> Option<u64>
    requires mapped { IsMapped g.now }
    requires strip { 1 ≤ g.now.strip }
    requires row { row < g.now.rows }
    ensures { MatchOption result (g.now.size ≤ sector_number pairs g.now.strip on row)
        (λ s. (s ≡ sector_number pairs g.now.strip on row) × (s < g.now.size)) }
{
    let strip = u64::from(g.strip);
    let at = row % strip;
    let s = (row - at) * u64::from(pairs) + u64::from(on) * strip + at;
    if s < g.size { Some(s) } else { None }
}

/// The sector in a row of a volume with rotating parity; none where the slot holds the row's parity.
fn sector_beside_parity(g: &Geometry, slot: Slot, row: u64) -> Option<u64>
    requires mapped { IsMapped g.now }
    requires level { g.now.level ≡ Five }
    requires slot { slot.0 < g.now.members }
    requires row { row < g.now.rows }
    ensures { MatchOption result ((s : ℕ) → IsPlacedIn (shape_of g.now) slot.0 row s → ⊥)
        (λ s. IsPlacedIn (shape_of g.now) slot.0 row s) }
{
    let parity = parity_slot(g.members, row / u64::from(g.strip));
    if slot.0 == parity {
        return None;
    }
    let on = if slot.0 < parity { slot.0 } else { slot.0 - 1 };
    sector_on(g, g.members - 1, on, row)
}

/// The sector that a row of a slot holds, as data or as mirror. There is none where the slot holds the row's parity,
/// and none past the volume's size.
pub fn sector_at(g: &Geometry, slot: Slot, row: u64) -> Option<u64>
    requires mapped { IsMapped g.now }
    requires slot { slot.0 < g.now.members }
    requires row { row < g.now.rows }
    ensures { MatchOption result ((s : ℕ) → IsPlacedIn (shape_of g.now) slot.0 row s → ⊥)
        (λ s. IsPlacedIn (shape_of g.now) slot.0 row s) }
{
    match g.level {
        Level::One => Some(row),
        Level::Five => sector_beside_parity(g, slot, row),
        Level::Ten => sector_on(g, 2, slot.0 / 2, row),
    }
}
