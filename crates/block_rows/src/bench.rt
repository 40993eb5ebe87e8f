//! What rows work on.
use crate::banks::{Setting, hold_disk, hold_fail};
use crate::bytes::{print_changes, set_base, set_block};
use crate::calls::{call_disk, call_file, call_free};
use crate::editing::{edit_book, new_book, open_book};
use crate::making::make_container;
use crate::reading::{check_front, examine_block, read_block, tell_form, view_volume};
use crate::row::Row;
use crate::storing::{find_block, write_block};
use imsm_buffer::MpbBuf;
use std::alloc::Global;
use std::io;

/// The base, which blocks are changed from; the bytes at hand; the block that is edited; the disk of the next bank.
#[derive(Drop)]
pub(crate) struct Bench {
    base: Vec<u8>,
    bytes: Vec<u8>,
    book: Option<MpbBuf>,
    setting: Setting,
}

impl Bench {
    pub(crate) fn new(alloc: Global) -> Bench {
        Bench {
            base: Vec::new(alloc),
            bytes: Vec::new(alloc),
            book: None,
            setting: Setting::new(alloc),
        }
    }

    /// Answers a row.
    pub(crate) fn answer(
        &mut self,
        rt: &HostRuntime,
        line: &str,
        row: &mut Row<'_>,
    ) -> io::Result<()> {
        let word = row.word();
        match word {
            "base" | "block" | "take" | "anchor" | "changes" => self.answer_bytes(rt, word, row),
            "edit" | "new" | "set" => self.answer_book(rt, word, row),
            "disk" | "fail" | "found" | "write" | "calls" | "free" => self.answer_disk(
                rt, word, row,
            ),
            "check" => check_front(rt, row, &self.bytes),
            "read" => read_block(rt, &self.bytes),
            "form" => tell_form(rt, row, &self.bytes),
            "view" => view_volume(rt, row, &self.bytes),
            "examine" => examine_block(rt, &self.bytes),
            "container" => make_container(rt, row),
            "file" => call_file(rt, row),
            _ => println!(rt; "{line}"),
        }
    }

    /// Answers a row that sets the bytes at hand or compares them with the base.
    fn answer_bytes(&mut self, rt: &HostRuntime, word: &str, row: &mut Row<'_>) -> io::Result<()> {
        match word {
            "base" => {
                self.base = set_base(rt.alloc(), row)?;
                self.bytes = self.base.to_vec(rt.alloc())?;
            }
            "block" => self.bytes = set_block(rt.alloc(), row, &self.base)?,
            "take" => {
                if let Some(book) = &self.book {
                    self.bytes = book.bytes().to_vec(rt.alloc())?;
                }
            }
            "anchor" => {
                if let Some(book) = &self.book {
                    self.bytes = book.anchor().0.to_vec(rt.alloc())?;
                }
            }
            _ => print_changes(rt, &self.bytes, &self.base)?,
        }
        Ok(())
    }

    /// Answers a row of the block that is edited.
    fn answer_book(&mut self, rt: &HostRuntime, word: &str, row: &mut Row<'_>) -> io::Result<()> {
        match word {
            "edit" => self.book = open_book(rt.alloc(), row, &self.bytes),
            "new" => self.book = new_book(rt.alloc(), row),
            _ => {}
        }
        let Some(book) = &mut self.book else {
            return println!(rt; "no block");
        };
        match word {
            "set" => edit_book(rt, row, book),
            _ => Ok(()),
        }
    }

    /// Answers a row of a disk in memory.
    fn answer_disk(&mut self, rt: &HostRuntime, word: &str, row: &mut Row<'_>) -> io::Result<()> {
        match word {
            "disk" => hold_disk(rt.alloc(), row, &self.bytes, &mut self.setting),
            "fail" => hold_fail(row, &mut self.setting),
            "found" => find_block(rt, &mut self.setting, &self.bytes),
            "write" => write_block(rt, &mut self.setting, &self.bytes),
            "free" => call_free(rt, row, &mut self.setting),
            _ => call_disk(rt, row, &mut self.setting),
        }
    }
}
