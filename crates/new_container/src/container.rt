//! A container that is made.
ghost use Rattle.std.specs.Prelude.{◌≡◌, ◌+◌, ◌^◌, ◌<◌, ◌≤◌, true, Option};
ghost use Rattle.new_container.specs.declared.volume.NewVolume.{NewVolume};
ghost use Rattle.new_container.specs.Created.{second_count, volume_count};
ghost use Rattle.new_container.specs.Fits.{container_fits, second_fits, second_rows, total_rows};

use crate::volume::NewVolume;

/// A container that is made: the number of its family, if one is given, and its one or two volumes.
#[derive(Clone, Copy, Debug, PartialEq, Eq)]
pub struct NewContainer {
    pub family: Option<u32>,
    pub first: NewVolume,
    pub second: Option<NewVolume>,
}

fn second_fits(second: Option<NewVolume>, disks: usize) -> bool
    ensures { result ≡ second_fits second disks }
{
    match second {
        None => true,
        Some(volume) => volume.fits(disks),
    }
}

/// How many second volumes there are.
fn second_count(second: Option<NewVolume>) -> u8
    ensures { result ≡ second_count second }
{
    match second {
        None => 0,
        Some(_) => 1,
    }
}

/// The rows of a second volume, none where there is none.
fn second_rows(second: Option<NewVolume>, disks: usize) -> u64
    requires { second_fits second disks ≡ true }
    ensures rows { result ≡ second_rows second disks }
    ensures bound { result < 2 ^ 41 }
{
    match second {
        None => 0,
        Some(volume) => volume.rows(disks),
    }
}

impl NewContainer {
    /// Whether the volumes can be made over so many disks.
    pub fn fits(self, disks: usize) -> bool
        ensures { result ≡ container_fits self disks }
    {
        self.first.fits(disks) && second_fits(self.second, disks)
    }

    /// How many volumes there are.
    pub(crate) fn volume_count(self) -> u8
        ensures count { result ≡ volume_count self }
        ensures bound { result ≤ 2 }
    {
        1 + second_count(self.second)
    }

    /// The rows of the volumes over so many disks. A disk takes the container where it has these sectors and those of
    /// the metadata.
    pub fn total_rows(self, disks: usize) -> u64
        requires { container_fits self disks ≡ true }
        ensures rows { result ≡ total_rows self disks }
        ensures bound { result < 2 ^ 42 }
    {
        self.first.rows(disks) + second_rows(self.second, disks)
    }
}
