// Files that are built line by line. A line is one of these:
//
// - `put COUNT TEXT` puts so many of the text, with the end of a line for each `$`;
// - `bytes HEX..` puts bytes;
// - `words HEX..` puts words of four bytes, the lowest byte first;
// - `of COUNT NAME` puts so many of the newest file of that name;
// - `at ADDRESS HEX` puts a word in the place of four bytes;
// - `file NAME` makes a file of what was put.

use std::alloc::{AllocError, Global};
use std::mem;

/// A file.
#[derive(Drop)]
pub struct Built {
    pub name: String,
    pub bytes: Vec<u8>,
}

/// The files so far, the newest one last, and the bytes of the one to come.
#[derive(Drop)]
pub struct BuiltFiles {
    pub files: Vec<Built>,
    bytes: Vec<u8>,
}

/// A number, or 0 where the digits tell none.
fn number(digits: &str) -> usize {
    digits.parse::<usize>().unwrap_or(0)
}

/// A number of hexadecimal digits, or 0 where they tell none.
fn hexadecimal(digits: &str) -> u32 {
    u32::from_str_radix(digits, 16).unwrap_or(0)
}

/// The bytes of the newest file of a name, or none.
fn find<'a>(files: &'a [Built], name: &str) -> &'a [u8] {
    for file in files.iter().rev() {
        if file.name.as_str() == name {
            return &file.bytes;
        }
    }
    &[]
}

impl BuiltFiles {
    pub fn new(alloc: Global) -> BuiltFiles {
        BuiltFiles {
            files: Vec::new(alloc),
            bytes: Vec::new(alloc),
        }
    }

    fn put(&mut self, count: usize, text: &[u8]) -> Result<(), AllocError> {
        for _ in 0..count {
            for byte in text {
                self.bytes.push(if *byte == b'$' { b'\n' } else { *byte })?;
            }
        }
        Ok(())
    }

    fn put_file(&mut self, count: usize, name: &str) -> Result<(), AllocError> {
        let file = find(&self.files, name);
        for _ in 0..count {
            self.bytes.extend_from_slice(file)?;
        }
        Ok(())
    }

    fn put_bytes(&mut self, list: &str) -> Result<(), AllocError> {
        for digits in list.split_whitespace() {
            self.bytes.push(hexadecimal(digits).to_le_bytes()[0])?;
        }
        Ok(())
    }

    fn put_words(&mut self, list: &str) -> Result<(), AllocError> {
        for digits in list.split_whitespace() {
            self.bytes
                .extend_from_slice(&hexadecimal(digits).to_le_bytes())?;
        }
        Ok(())
    }

    fn replace(&mut self, address: usize, word: u32) {
        for (place, byte) in word.to_le_bytes().iter().enumerate() {
            if let Some(old) = self.bytes.get_mut(address.saturating_add(place)) {
                *old = *byte;
            }
        }
    }

    fn finish(&mut self, alloc: Global, name: &str) -> Result<(), AllocError> {
        let bytes = mem::replace(&mut self.bytes, Vec::new(alloc));
        let name = String::from_str(alloc, name)?;
        self.files.push(Built { name, bytes })?;
        Ok(())
    }

    /// Does what a line says that has a count or an address in front.
    fn take_counted(&mut self, verb: &str, count: usize, rest: &str) -> Result<bool, AllocError> {
        if verb == "put" {
            self.put(count, rest.as_bytes())?;
        } else if verb == "of" {
            self.put_file(count, rest)?;
        } else if verb == "at" {
            self.replace(count, hexadecimal(rest));
        } else {
            return Ok(false);
        }
        Ok(true)
    }

    /// Does what a line says, or tells that it says nothing on files.
    pub fn take_line(&mut self, alloc: Global, line: &str) -> Result<bool, AllocError> {
        let Some((verb, rest)) = line.split_once(' ') else {
            return Ok(false);
        };
        if verb == "bytes" {
            self.put_bytes(rest)?;
        } else if verb == "words" {
            self.put_words(rest)?;
        } else if verb == "file" {
            self.finish(alloc, rest)?;
        } else {
            return match rest.split_once(' ') {
                Some((count, text)) => self.take_counted(verb, number(count), text),
                None => Ok(false),
            };
        }
        Ok(true)
    }
}
