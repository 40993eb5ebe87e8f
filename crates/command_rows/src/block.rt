//! Blocks of bytes, by their names.
use crate::fault::Fault;
use std::alloc::Global;
use std::collections::BTreeMap;

/// Puts bytes over others from a place on. Where they don't fit there, nothing is changed.
pub fn put(bytes: &mut [u8], at: usize, part: &[u8]) -> Result<(), Fault> {
    let room = bytes.len().checked_sub(at).ok_or(Fault::Line)?;
    if room < part.len() {
        return Err(Fault::Line);
    }
    for (place, byte) in bytes.iter_mut().skip(at).zip(part) {
        *place = *byte;
    }
    Ok(())
}

/// Puts the size and the checksum of a metadata block where they stand in it. Its size is a multiple of 4.
fn seal(block: &mut [u8]) -> Result<(), Fault> {
    let size = u32::try_from(block.len()).map_err(|_| Fault::Line)?;
    put(block, 0x20, &[0; 4])?;
    put(block, 0x24, &size.to_le_bytes())?;
    let mut sum: u32 = 0;
    for word in block.chunks(4) {
        let word = word.first_chunk().copied().ok_or(Fault::Line)?;
        sum = sum.wrapping_add(u32::from_le_bytes(word));
    }
    put(block, 0x20, &sum.to_le_bytes())
}

#[derive(Drop)]
pub struct Blocks {
    alloc: Global,
    all: BTreeMap<String, Vec<u8>>,
}

impl Blocks {
    pub fn new(alloc: Global) -> Blocks {
        let all = BTreeMap::new(alloc);
        Blocks { alloc, all }
    }

    pub fn get(&self, name: &str) -> Result<&[u8], Fault> {
        let block = self.all.get(name).ok_or(Fault::Line)?;
        Ok(block.as_slice())
    }

    /// Adds bytes in hex to the end of a block, which may be new.
    pub fn add(&mut self, name: &str, hex: &str) -> Result<(), Fault> {
        let bytes = hex::decode(self.alloc, hex).map_err(|_| Fault::Line)?;
        match self.all.get_mut(name) {
            Some(block) => block.extend_from_slice(&bytes)?,
            None => {
                self.all.insert(String::from_str(self.alloc, name)?, bytes)?;
            }
        }
        Ok(())
    }

    /// A block of so many bytes: the first ones of another, and zeros behind its end.
    pub fn copy(&mut self, name: &str, from: &str, size: usize) -> Result<(), Fault> {
        let mut bytes = self.get(from)?.to_vec(self.alloc)?;
        bytes.resize(size, 0)?;
        self.all.insert(String::from_str(self.alloc, name)?, bytes)?;
        Ok(())
    }

    /// Puts bytes in hex over those of a block, from a place on.
    pub fn set(&mut self, name: &str, at: usize, hex: &str) -> Result<(), Fault> {
        let bytes = hex::decode(self.alloc, hex).map_err(|_| Fault::Line)?;
        put(self.all.get_mut(name).ok_or(Fault::Line)?, at, &bytes)
    }

    /// Gives a metadata block its size and its checksum.
    pub fn seal(&mut self, name: &str) -> Result<(), Fault> {
        seal(self.all.get_mut(name).ok_or(Fault::Line)?)
    }
}
