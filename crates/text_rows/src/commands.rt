//! Rows of words: what a command of these words is to do.
use crate::row::Row;
use image_words::parse;
use std::alloc::{AllocError, Global};
use std::io;

/// The words that are left of a row.
fn words_of(alloc: Global, row: &Row<'_>) -> Result<Vec<String>, AllocError> {
    let mut words = Vec::new(alloc);
    if let Some(rest) = row.rest() {
        for word in rest.split(' ') {
            words.push(String::from_str(alloc, word)?)?;
        }
    }
    Ok(words)
}

/// Prints what the words ask for and how many images they name, or why they are refused.
pub(crate) fn answer_words(rt: &HostRuntime, row: &Row<'_>) -> io::Result<()> {
    let words = words_of(rt.alloc(), row)?;
    match parse(rt.alloc(), words.as_slice()) {
        Ok(command) => {
            let verb = command.verb;
            let images = command.images.len();
            println!(rt; "{verb:?} images {images}")
        }
        Err(fault) => println!(rt; "refused {fault:?}"),
    }
}
