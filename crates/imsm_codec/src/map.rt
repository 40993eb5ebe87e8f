//! The readers of a volume's maps (`struct imsm_map` of super-intel.c).
ghost use Rattle.std.specs.Prelude.{◌≡◌, ◌+◌, ◌*◌, ◌^◌, ◌<◌, ◌≤◌, length};
ghost use Rattle.imsm_base.specs.Layout.{volume_count_of, map_count_of, pba_of, blocks_per_member_of, data_stripes_of, strip_of, map_state_of, level_byte_of, member_count_of};
ghost use Rattle.imsm_base.specs.Volumes.{order_at};
ghost use Rattle.imsm_base.specs.Parts.{map_in, map_room};
ghost use Rattle.imsm_codec.specs.Mpb.{block_of, volume_at, map_at};

use crate::bytes::{behind, get_u8, get_wide};
use crate::layout::{MAP_BYTES, VOLUME_BYTES, map_len};
use crate::mpb::MpbRef;
use imsm_base::{get_u16, get_u32};
use units::{Slot, VolNo};

impl MpbRef<'_> {
    /// The bytes from a volume's map on.
    fn map_bytes(&self, v: VolNo, m: u8) -> &[u8]
        requires volume { v.0 < volume_count_of (block_of self.now) }
        requires map { m < map_count_of (volume_at v.0 (block_of self.now)) }
        ensures map { map_in result.now ≡ map_at m (volume_at v.0 (block_of self.now)) }
        ensures room { map_room (map_in result.now) ≤ length result.now }
    {
        let maps = behind(self.volume_bytes(v), VOLUME_BYTES);
        if m == 0 {
            return maps;
        }
        behind(maps, map_len(maps))
    }

    /// A map's first sector on each member (`pba_of_lba0`).
    pub fn map_pba(&self, v: VolNo, m: u8) -> u64
        requires volume { v.0 < volume_count_of (block_of self.now) }
        requires map { m < map_count_of (volume_at v.0 (block_of self.now)) }
        ensures { result ≡ pba_of (map_at m (volume_at v.0 (block_of self.now))) }
    {
        get_wide(self.map_bytes(v, m), 0, 20)
    }

    /// How many sectors of each member a map takes (`blocks_per_member`).
    pub fn map_blocks(&self, v: VolNo, m: u8) -> u64
        requires volume { v.0 < volume_count_of (block_of self.now) }
        requires map { m < map_count_of (volume_at v.0 (block_of self.now)) }
        ensures { result ≡ blocks_per_member_of (map_at m (volume_at v.0 (block_of self.now))) }
    {
        get_wide(self.map_bytes(v, m), 4, 24)
    }

    /// `num_data_stripes`.
    pub fn map_stripes(&self, v: VolNo, m: u8) -> u64
        requires volume { v.0 < volume_count_of (block_of self.now) }
        requires map { m < map_count_of (volume_at v.0 (block_of self.now)) }
        ensures { result ≡ data_stripes_of (map_at m (volume_at v.0 (block_of self.now))) }
    {
        get_wide(self.map_bytes(v, m), 8, 28)
    }

    /// A strip in sectors (`blocks_per_strip`).
    pub fn map_strip(&self, v: VolNo, m: u8) -> u16
        requires volume { v.0 < volume_count_of (block_of self.now) }
        requires map { m < map_count_of (volume_at v.0 (block_of self.now)) }
        ensures { result ≡ strip_of (map_at m (volume_at v.0 (block_of self.now))) }
    {
        get_u16(self.map_bytes(v, m), 12)
    }

    /// 0 normal, 1 uninitialised, 2 degraded, 3 failed (`map_state`).
    pub fn map_state(&self, v: VolNo, m: u8) -> u8
        requires volume { v.0 < volume_count_of (block_of self.now) }
        requires map { m < map_count_of (volume_at v.0 (block_of self.now)) }
        ensures { result ≡ map_state_of (map_at m (volume_at v.0 (block_of self.now))) }
    {
        get_u8(self.map_bytes(v, m), 14)
    }

    /// The byte of the level (`raid_level`).
    pub fn map_level(&self, v: VolNo, m: u8) -> u8
        requires volume { v.0 < volume_count_of (block_of self.now) }
        requires map { m < map_count_of (volume_at v.0 (block_of self.now)) }
        ensures { result ≡ level_byte_of (map_at m (volume_at v.0 (block_of self.now))) }
    {
        get_u8(self.map_bytes(v, m), 15)
    }

    /// How many members a map has (`num_members`).
    pub fn map_members(&self, v: VolNo, m: u8) -> u8
        requires volume { v.0 < volume_count_of (block_of self.now) }
        requires map { m < map_count_of (volume_at v.0 (block_of self.now)) }
        ensures { result ≡ member_count_of (map_at m (volume_at v.0 (block_of self.now))) }
    {
        get_u8(self.map_bytes(v, m), 16)
    }

    /// The entry of a slot: the low 24 bits are the index of its disk's record, and bit 24 says that it is out of sync.
    pub fn map_ord(&self, v: VolNo, m: u8, slot: Slot) -> u32
        requires volume { v.0 < volume_count_of (block_of self.now) }
        requires map { m < map_count_of (volume_at v.0 (block_of self.now)) }
        requires slot { slot.0 < member_count_of (map_at m (volume_at v.0 (block_of self.now))) }
        ensures { result ≡ order_at slot.0 (map_at m (volume_at v.0 (block_of self.now))) }
    {
        get_u32(self.map_bytes(v, m), MAP_BYTES + 4 * usize::from(slot.0))
    }
}
