//! What is printed.
use racer_base::{FolderFault, Place};
use std::alloc::Global;
use std::io;
use std::io::ErrorKind;

/// The text of all that was put. A fault is noted, and the text is then not given.
#[derive(Drop)]
pub struct Page {
    text: String,
    fault: Option<FolderFault>,
}

impl Page {
    pub fn new(alloc: Global) -> Page {
        Page {
            text: String::new(alloc),
            fault: None,
        }
    }

    /// Notes a fault.
    pub fn note(&mut self, fault: FolderFault) {
        self.fault = Some(fault);
    }

    pub fn put(&mut self, text: &str) {
        if self.text.push_str(text).is_err() {
            self.note(FolderFault::Memory);
        }
    }

    /// A text behind a mark.
    pub fn put_after(&mut self, mark: &str, text: &str) {
        self.put(mark);
        self.put(text);
    }

    pub fn put_number(&mut self, number: usize) {
        if write!(self.text, "{number}").is_err() {
            self.note(FolderFault::Memory);
        }
    }

    /// A word and a number behind it.
    pub fn put_counted(&mut self, word: &str, number: usize) {
        self.put_after(word, " ");
        self.put_number(number);
    }

    /// A word, and whether it holds.
    pub fn put_flag(&mut self, word: &str, holds: bool) {
        self.put_after(word, if holds { " true" } else { " false" });
    }

    /// Line and column behind a word.
    pub fn put_placed(&mut self, word: &str, place: Place) {
        self.put(word);
        self.put_number(place.line as usize);
        self.put(":");
        self.put_number(place.column as usize);
    }

    /// A line of a word and a place.
    pub fn put_line(&mut self, word: &str, place: Place) {
        self.put_placed(word, place);
        self.put("\n");
    }

    /// The text, unless there was a fault.
    pub fn into_text(self) -> io::Result<String> {
        match self.fault {
            None => Ok(self.text),
            Some(FolderFault::Failed) => Err(io::Error::from(ErrorKind::NotFound)),
            Some(FolderFault::Memory) => Err(io::Error::from(ErrorKind::OutOfMemory)),
        }
    }
}
