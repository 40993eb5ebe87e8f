//! A volume that is made.
ghost use Rattle.std.specs.Prelude.{◌≡◌, ◌==◌, ◌+◌, ◌^◌, ◌<◌, ◌≤◌, ◌*◌, ◌%◌, true};
ghost use Rattle.units.specs.declared.volume.Level.{Level};
ghost use Rattle.new_container.specs.Fits.{is_in_range, is_striped, rows_over, takes, volume_fits};

use imsm_view::rows_of;
use units::{Level, MAX_VOLUME_SECTORS};

/// A volume that is made: its level, and its strip and size in sectors.
#[derive(Clone, Copy, Debug, PartialEq, Eq)]
pub struct NewVolume {
    pub level: Level,
    pub strip: u16,
    pub size: u64,
}

/// Whether a level takes so many disks.
fn takes(level: Level, disks: usize) -> bool
    ensures { result ≡ takes level disks }
{
    match level {
        Level::One => disks == 2,
        Level::Five => 3 <= disks && disks <= 8,
        Level::Ten => disks == 4,
    }
}

/// Whether a size is whole stripes of so many strips.
fn is_striped_over(strips: u64, strip: u16, size: u64) -> bool
    requires some { 1 ≤ strips }
    requires few { strips < 256 }
    requires strip { 1 ≤ strip }
    ensures { result ≡ (size % (strips * strip) == 0) }
{
    size % (strips * u64::from(strip)) == 0
}

impl NewVolume {
    fn is_in_range(self) -> bool
        ensures { result ≡ is_in_range self }
    {
        1 <= self.strip && 1 <= self.size && self.size <= MAX_VOLUME_SECTORS
    }

    /// Whether the volume is whole stripes, where its level has stripes.
    fn is_striped(self, disks: usize) -> bool
        requires range { is_in_range self ≡ true }
        requires taken { takes self.level disks ≡ true }
        ensures { result ≡ is_striped self.level disks self.strip self.size }
    {
        match self.level {
            Level::One => true,
            Level::Five => is_striped_over(disks as u64 - 1, self.strip, self.size),
            Level::Ten => is_striped_over(2, self.strip, self.size),
        }
    }

    /// Whether the volume can be made over so many disks.
    pub fn fits(self, disks: usize) -> bool
        ensures { result ≡ volume_fits self disks }
    {
        self.is_in_range() && takes(self.level, disks) && self.is_striped(disks)
    }

    /// The rows of the volume over so many disks, one sector on each of them.
    pub fn rows(self, disks: usize) -> u64
        requires { volume_fits self disks ≡ true }
        ensures rows { result ≡ rows_over self disks }
        ensures bound { result < 2 ^ 41 }
    {
        rows_of(self.level, disks as u8, self.size, self.strip)
    }
}
