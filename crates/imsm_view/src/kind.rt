//! Whether a volume is of a kind that is supported: its level, its policy and its open pass.
ghost use Rattle.std.specs.Prelude.{◌≡◌, ◌<◌, Some, None};
ghost use Rattle.imsm_base.specs.Layout.{volume_count_of};
ghost use Rattle.imsm_base.specs.Volumes.{level_of, volume_level, has_policy, has_migration, pass_of};
ghost use Rattle.imsm_codec.specs.Mpb.{block_of, volume_at};

use imsm_codec::MpbRef;
use units::{Level, VolNo};

/// The level of a map, by its byte and its number of members.
fn level_of(byte: u8, members: u8) -> Option<Level>
    ensures { result ≡ level_of byte members }
{
    if byte == 1 && members == 2 {
        Some(Level::One)
    } else if byte == 1 && members == 4 {
        Some(Level::Ten)
    } else if byte == 5 && 3 <= members && members <= 8 {
        Some(Level::Five)
    } else {
        None
    }
}

#[tactic(auto, using(imsm_codec::proofs::Places::some_map))]
pub(crate) fn volume_level(mpb: &MpbRef<'_>, v: VolNo) -> Option<Level>
    requires { v.0 < volume_count_of (block_of mpb.now) }
    ensures { result ≡ volume_level (volume_at v.0 (block_of mpb.now)) }
{
    level_of(mpb.map_level(v, 0), mpb.map_members(v, 0))
}

pub(crate) fn has_policy(mpb: &MpbRef<'_>, v: VolNo) -> bool
    requires { v.0 < volume_count_of (block_of mpb.now) }
    ensures { result ≡ has_policy (volume_at v.0 (block_of mpb.now)) }
{
    let policy = mpb.vol_policy(v);
    policy == 0 || policy == 5
}

/// The type of an open pass.
pub(crate) fn pass_of(mpb: &MpbRef<'_>, v: VolNo) -> Option<u8>
    requires { v.0 < volume_count_of (block_of mpb.now) }
    ensures { result ≡ pass_of (volume_at v.0 (block_of mpb.now)) }
{
    if mpb.migr_state(v) == 0 {
        return None;
    }
    Some(mpb.migr_type(v))
}

/// Whether no pass is open, or one of a supported type.
pub(crate) fn has_migration(mpb: &MpbRef<'_>, v: VolNo) -> bool
    requires { v.0 < volume_count_of (block_of mpb.now) }
    ensures { result ≡ has_migration (volume_at v.0 (block_of mpb.now)) }
{
    match pass_of(mpb, v) {
        Some(kind) => kind == 0 || kind == 1 || kind == 2 || kind == 5,
        None => true,
    }
}
