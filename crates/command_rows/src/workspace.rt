//! What the lines are done on: blocks and images by their names, what the last command left, what the next one finds.
use crate::block::Blocks;
use crate::fault::Fault;
use crate::image::{filled, hold, is_block, part_of};
use crate::print::print_bytes;
use crate::setting::Setting;
use image_run::MemFile;
use std::alloc::{AllocError, Global};
use std::collections::BTreeMap;
use std::io::Write;
use std::mem;
use units::Sector;

type Images = BTreeMap<String, Vec<Sector>>;

#[derive(Drop)]
pub struct Workspace {
    alloc: Global,
    blocks: Blocks,
    images: Images,
    left: Images,
    setting: Setting,
}

/// A word of a command, in which a space is written `_`.
fn word_of(alloc: Global, word: &str) -> Result<String, AllocError> {
    word.chars()
        .map(|c| if c == '_' { ' ' } else { c })
        .collect(alloc)
}

/// The file of a word NAME=FILE.
fn file_of(word: &String) -> Option<&str> {
    let (_, file) = word.as_str().split_once('=')?;
    Some(file)
}

impl Workspace {
    pub fn new(alloc: Global) -> Workspace {
        Workspace {
            alloc,
            blocks: Blocks::new(alloc),
            images: BTreeMap::new(alloc),
            left: BTreeMap::new(alloc),
            setting: Setting::new(alloc),
        }
    }

    /// Does what a line says, and prints what comes of it.
    pub fn take<W: Write>(&mut self, line: &str, out: &mut W) -> Result<(), Fault> {
        let words: Vec<&str> = line.split_whitespace().collect(self.alloc)?;
        match words.as_slice() {
            [] => Ok(()),
            [first, ..] if first.starts_with('#') => Ok(()),
            ["block", name, hex] => self.blocks.add(name, hex),
            ["copy", name, from, size] => self.blocks.copy(name, from, size.parse()?),
            ["set", name, at, hex] => self.blocks.set(name, at.parse()?, hex),
            ["sum", name] => self.blocks.seal(name),
            ["file", name, sectors] => self.file(name, sectors.parse()?, "00", None),
            ["file", name, sectors, block] => self.file(name, sectors.parse()?, "00", Some(block)),
            ["filled", name, sectors, byte] => self.file(name, sectors.parse()?, byte, None),
            ["keep"] => self.keep(),
            ["script", ..] => self.script(line.strip_prefix("script ").unwrap_or("")),
            ["bytes", count, byte] => self.bytes(count.parse()?, byte),
            ["fail", kind, number] => self.setting.fail(kind, number.parse()?),
            ["room", count] => self.room(count.parse()?),
            words => {
                writeln!(out, "{line}")?;
                self.print(words, out)
            }
        }
    }

    /// Does what a line of these words says that prints something.
    fn print<W: Write>(&mut self, words: &[&str], out: &mut W) -> Result<(), Fault> {
        match words {
            ["row", ..] => self.row(),
            ["run", words @ ..] => self.run(words, out),
            ["read"] => self.setting.read(self.alloc, out),
            ["show", name, sector, at, count] => {
                self.show(name, sector.parse()?, at.parse()?, count.parse()?, out)
            }
            ["same", name, sector, block] => self.same(name, sector.parse()?, block, out),
            _ => Err(Fault::Line),
        }
    }

    fn file(
        &mut self,
        name: &str,
        sectors: usize,
        byte: &str,
        block: Option<&str>,
    ) -> Result<(), Fault> {
        let mut image = filled(self.alloc, sectors, u8::from_str_radix(byte, 16)?)?;
        if let Some(block) = block {
            hold(&mut image, self.blocks.get(block)?)?;
        }
        self.images
            .insert(String::from_str(self.alloc, name)?, image)?;
        Ok(())
    }

    /// The images are from now on what the last command left of them.
    fn keep(&mut self) -> Result<(), Fault> {
        let left = mem::replace(&mut self.left, BTreeMap::new(self.alloc));
        for (name, image) in left {
            self.images.insert(name, image)?;
        }
        Ok(())
    }

    fn row(&mut self) -> Result<(), Fault> {
        self.setting = Setting::new(self.alloc);
        Ok(())
    }

    fn script(&mut self, line: &str) -> Result<(), Fault> {
        self.setting.script.extend_from_slice(line.as_bytes())?;
        self.setting.script.push(b'\n')?;
        Ok(())
    }

    fn bytes(&mut self, count: usize, byte: &str) -> Result<(), Fault> {
        let byte = u8::from_str_radix(byte, 16)?;
        let size = self.setting.script.len().saturating_add(count);
        self.setting.script.resize(size, byte)?;
        Ok(())
    }

    fn room(&mut self, count: u64) -> Result<(), Fault> {
        self.setting.room = count;
        Ok(())
    }

    /// A copy of each image that a command names.
    fn files(&self, words: &[String]) -> Result<Vec<MemFile>, Fault> {
        let mut files = Vec::new(self.alloc);
        for (name, image) in &self.images {
            if words
                .iter()
                .any(|word| file_of(word) == Some(name.as_str()))
            {
                let (name, sectors) = (name.clone()?, image.to_vec(self.alloc)?);
                files.push(MemFile { name, sectors })?;
            }
        }
        Ok(files)
    }

    fn run<W: Write>(&mut self, words: &[&str], out: &mut W) -> Result<(), Fault> {
        let alloc = self.alloc;
        let words: Vec<String> = words
            .iter()
            .map(|word| word_of(alloc, word))
            .try_collect(alloc)?;
        let files = self.files(&words)?;
        let disks = self.setting.run(alloc, &words, files, out)?;
        self.left = BTreeMap::new(alloc);
        for (name, disk) in words.iter().filter_map(file_of).zip(disks) {
            self.left
                .insert(String::from_str(alloc, name)?, disk.sectors)?;
        }
        Ok(())
    }

    /// An image as the last command left it.
    fn left(&self, name: &str) -> Result<&[Sector], Fault> {
        let image = self.left.get(name).or_else(|| self.images.get(name));
        Ok(image.ok_or(Fault::Line)?.as_slice())
    }

    fn show<W: Write>(
        &self,
        name: &str,
        sector: usize,
        at: usize,
        count: usize,
        out: &mut W,
    ) -> Result<(), Fault> {
        let bytes = part_of(self.alloc, self.left(name)?, sector, at, count)?;
        Ok(print_bytes(out, &bytes)?)
    }

    fn same<W: Write>(
        &self,
        name: &str,
        sector: usize,
        block: &str,
        out: &mut W,
    ) -> Result<(), Fault> {
        let same = is_block(self.left(name)?, sector, self.blocks.get(block)?)?;
        writeln!(out, "| {same}")?;
        Ok(())
    }
}
