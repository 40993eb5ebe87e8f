//! The blocks that rounds are edited from.
ghost use Rattle.std.specs.Prelude.{◌≡◌};
ghost use Rattle.block_meaning.specs.Reading.{block_words};
ghost use Rattle.block_meaning.specs.Renewed.{renewed};
ghost use Rattle.control_state.specs.Book.{IsBook, IsBlockOf, laid_at};

use imsm_buffer::MpbBuf;
use units::{Sector, VolNo};

/// A whole block of one sector with a volume, in room for one sector, and the sector as it lies on a disk: one that was
/// read may hold other bytes behind the block.
#[derive(Drop)]
pub struct Book {
    pub block: MpbBuf,
    pub anchor: Sector,
    ghost whole: { IsBook block.bytes },
    ghost room: { block.room ≡ 512 },
    ghost there: { IsBlockOf anchor block.bytes },
}

impl Book {
    /// Whether volume 0 is dirty.
    pub fn is_dirty(&self) -> bool
        ensures { result ≡ block_words.is_dirty (laid_at self.now.anchor) 0 }
    {
        self.block.parts().dirty(VolNo(0))
    }

    pub fn generation(&self) -> u32
        ensures { result ≡ block_words.generation self.now.anchor }
    {
        self.block.parts().generation()
    }

    /// Makes this the block of a round that is edited from another, with a generation and the dirty bit of volume 0.
    pub fn renew(&mut self, from: &Book, generation: u32, dirty: bool)
        ensures { laid_at self.new.anchor ≡ renewed (laid_at from.now.anchor) generation dirty }
    {
        from.block.copy_into(&mut self.block).unwrap();
        self.block.set_generation(generation);
        self.block.set_dirty(VolNo(0), dirty);
        self.block.seal();
        self.anchor = self.block.anchor();
    }
}
