// Texts that are made of repeated pieces.

use super::spelling::length_told;
use std::alloc::{AllocError, Global};
use std::rt::Files;
use std::{fs, io};

/// Puts so many pieces behind a text.
fn repeat(text: &mut String, count: u32, piece: &str) -> Result<(), AllocError> {
    for _ in 0..count {
        text.push_str(piece)?;
    }
    Ok(())
}

/// The number that digits tell.
fn number(digits: &str) -> Option<u32> {
    match digits.parse::<u32>() {
        Ok(number) => Some(number),
        Err(_) => None,
    }
}

/// The text that counts and pieces make, with a blank between each two.
fn made_of(alloc: Global, parts: &str) -> Result<String, AllocError> {
    let mut text = String::new(alloc);
    let mut wanted = None;
    for part in parts.split(' ') {
        match wanted {
            Some(count) => {
                repeat(&mut text, count, part)?;
                wanted = None;
            }
            None => wanted = number(part),
        }
    }
    Ok(text)
}

/// Tells how long the spelling of each text is, and what comes of reading it.
pub fn tell(rt: &(impl Print + Files + AllocGlobal)) -> io::Result<()> {
    let alloc = rt.alloc();
    let file = fs::read_to_string(rt, "long.txt")?;
    for line in file.lines() {
        if let Some((name, parts)) = line.split_once(' ') {
            let text = made_of(alloc, parts)?;
            let told = length_told(alloc, text.as_bytes())?;
            println!(rt; "{name} => {told}")?;
        }
    }
    Ok(())
}
