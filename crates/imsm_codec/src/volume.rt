//! The readers of volumes (`struct imsm_dev` and `imsm_vol` of super-intel.c).
ghost use Rattle.std.specs.Prelude.{◌≡◌, ◌+◌, ◌*◌, ◌^◌, ◌<◌, ◌≤◌, length, drop};
ghost use Rattle.imsm_base.specs.Fields.{number_at};
ghost use Rattle.imsm_base.specs.Layout.{volume_count_of, name_of, volume_size_of, policy_of, unit_of, checkpoint_of, migration_state_of, migration_type_of, map_count_of};
ghost use Rattle.imsm_base.specs.Volumes.{is_dirty};
ghost use Rattle.imsm_base.specs.Parts.{volume_in, volume_room, volumes_in, volumes_room, behind_disks, block_in};
ghost use Rattle.imsm_codec.specs.Laid.{IsLaid};
ghost use Rattle.imsm_codec.specs.Mpb.{block_of, volume_at};

use crate::bytes::{behind, get_name, get_u8, get_wide};
use crate::layout::{volume_len, volumes_at};
use crate::mpb::MpbRef;
use imsm_base::get_u32;
use units::VolNo;

/// The bytes from a volume's record on.
pub fn volume_from(bytes: &[u8], v: u8) -> &[u8]
    requires laid { IsLaid bytes.now }
    requires below { v < number_at 1 0x39 bytes.now }
    ensures place { result.now ≡ drop (volumes_room (volumes_in v (behind_disks bytes.now))) (behind_disks bytes.now) }
    ensures volume { volume_in result.now ≡ volume_at v (block_in bytes.now) }
    ensures room { volume_room (volume_in result.now) ≤ length result.now }
{
    let mut rest = volumes_at(bytes);
    for _number in 0..v {
        rest = behind(rest, volume_len(rest));
    }
    rest
}

impl MpbRef<'_> {
    #[tactic(auto, unfolding(imsm_base::specs::Parts::block_in))]
    pub(crate) fn volume_bytes(&self, v: VolNo) -> &[u8]
        requires { v.0 < volume_count_of (block_of self.now) }
        ensures volume { volume_in result.now ≡ volume_at v.0 (block_of self.now) }
        ensures room { volume_room (volume_in result.now) ≤ length result.now }
    {
        volume_from(self.bytes, v.0)
    }

    /// A volume's name, padded with zero bytes.
    pub fn vol_name(&self, v: VolNo) -> [u8; 16]
        requires { v.0 < volume_count_of (block_of self.now) }
        ensures { result ≡ name_of (volume_at v.0 (block_of self.now)) }
    {
        get_name(self.volume_bytes(v), 0)
    }

    /// A volume's size in sectors.
    pub fn vol_size(&self, v: VolNo) -> u64
        requires { v.0 < volume_count_of (block_of self.now) }
        ensures { result ≡ volume_size_of (volume_at v.0 (block_of self.now)) }
    {
        get_wide(self.volume_bytes(v), 16, 20)
    }

    /// A volume's policy for write holes.
    pub fn vol_policy(&self, v: VolNo) -> u8
        requires { v.0 < volume_count_of (block_of self.now) }
        ensures { result ≡ policy_of (volume_at v.0 (block_of self.now)) }
    {
        get_u8(self.volume_bytes(v), 50)
    }

    /// 0 where no pass is open (`migr_state`).
    pub fn migr_state(&self, v: VolNo) -> u8
        requires { v.0 < volume_count_of (block_of self.now) }
        ensures { result ≡ migration_state_of (volume_at v.0 (block_of self.now)) }
    {
        get_u8(self.volume_bytes(v), 88)
    }

    /// The type of an open pass (`migr_type`).
    pub fn migr_type(&self, v: VolNo) -> u8
        requires { v.0 < volume_count_of (block_of self.now) }
        ensures { result ≡ migration_type_of (volume_at v.0 (block_of self.now)) }
    {
        get_u8(self.volume_bytes(v), 89)
    }

    /// Whether a volume's dirty bit is set.
    pub fn dirty(&self, v: VolNo) -> bool
        requires { v.0 < volume_count_of (block_of self.now) }
        ensures { result ≡ is_dirty (volume_at v.0 (block_of self.now)) }
    {
        get_u8(self.volume_bytes(v), 90) % 2 == 1
    }

    /// How far an open pass has come, in units of 128 rows (`curr_migr_unit`).
    pub fn unit(&self, v: VolNo) -> u64
        requires { v.0 < volume_count_of (block_of self.now) }
        ensures { result ≡ unit_of (volume_at v.0 (block_of self.now)) }
    {
        get_wide(self.volume_bytes(v), 80, 96)
    }

    /// `checkpoint_id`.
    pub fn checkpoint(&self, v: VolNo) -> u32
        requires { v.0 < volume_count_of (block_of self.now) }
        ensures { result ≡ checkpoint_of (volume_at v.0 (block_of self.now)) }
    {
        get_u32(self.volume_bytes(v), 84)
    }

    /// How many maps a volume has: 2 where a pass is open, else 1.
    pub fn maps(&self, v: VolNo) -> u8
        requires { v.0 < volume_count_of (block_of self.now) }
        ensures { result ≡ map_count_of (volume_at v.0 (block_of self.now)) }
    {
        if self.migr_state(v) == 0 { 1 } else { 2 }
    }
}
