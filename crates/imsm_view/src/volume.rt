//! The view of a volume.
use arrayvec::ArrayVec;
use units::{Geometry, MAX_MEMBERS};

/// A slot of a volume: the index of its disk's record by the first map, whether some map calls it out of sync, and
/// whether the record is configured and hasn't failed.
#[derive(Clone, Copy, Debug, Default, PartialEq, Eq)]
pub struct SlotView {
    pub index: u8,
    pub out: bool,
    pub expected: bool,
}

/// A supported volume: how it lies, the state of its first map (0 normal, 1 uninitialised, 2 degraded, 3 failed), its
/// dirty bit, the type of an open pass (0 init, 1 rebuild, 2 verify, 5 repair), how far the pass has come in units of
/// 128 rows, the mark of that checkpoint, and its slots in their order.
#[derive(Drop)]
pub struct Volume {
    pub geometry: Geometry,
    pub state: u8,
    pub dirty: bool,
    pub pass: Option<u8>,
    pub unit: u64,
    pub checkpoint: u32,
    pub slots: ArrayVec<SlotView, MAX_MEMBERS>,
}
