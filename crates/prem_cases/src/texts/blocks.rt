// Files of longer texts, in blocks. A line is one of these:
//
// - `case NAME` begins a text, which has no byte yet;
// - `repeat COUNT PIECE` puts so many pieces behind the text;
// - `read`, `check` and `run JOBS INPUTS..` tell what comes of the text;
// - `# ..` is a remark;
// - any other line is put behind the text. An end of line stands before it where the line above is another such line.

use crate::texts::checking::check_told;
use crate::texts::reading::read_told;
use crate::texts::running::line_told;
use std::alloc::{AllocError, Global};
use std::rt::Files;
use std::{fs, io};

/// A text with its name.
#[derive(Drop)]
struct Case {
    name: String,
    text: String,
    /// Whether its last piece is a whole line.
    in_lines: bool,
}

impl Case {
    fn new(alloc: Global, name: &str) -> Result<Case, AllocError> {
        Ok(Case {
            name: String::from_str(alloc, name)?,
            text: String::new(alloc),
            in_lines: false,
        })
    }

    /// Puts a line behind the text.
    fn add_line(&mut self, line: &str) -> Result<(), AllocError> {
        if self.in_lines {
            self.text.push_str("\n")?;
        }
        self.in_lines = true;
        self.text.push_str(line)
    }

    /// Puts pieces behind the text.
    fn repeat(&mut self, count: u32, piece: &str) -> Result<(), AllocError> {
        self.in_lines = false;
        for _ in 0..count {
            self.text.push_str(piece)?;
        }
        Ok(())
    }

    /// What comes of the text, if the line asks for it.
    fn told(&self, alloc: Global, line: &str) -> Result<Option<String>, AllocError> {
        let text = self.text.as_bytes();
        if line == "read" {
            return Ok(Some(read_told(alloc, text)?));
        }
        if line == "check" {
            return Ok(Some(check_told(alloc, text)?));
        }
        match line.strip_prefix("run ") {
            Some(words) => Ok(Some(line_told(alloc, text, words)?)),
            None => Ok(None),
        }
    }
}

/// The count and the piece of a line that repeats one.
fn repeated(line: &str) -> Option<(u32, &str)> {
    let (count, piece) = line.strip_prefix("repeat ")?.split_once(' ')?;
    match count.parse::<u32>() {
        Ok(number) => Some((number, piece)),
        Err(_) => None,
    }
}

/// Does what a line of a file says.
fn take_line(rt: &(impl Print + AllocGlobal), case: &mut Case, line: &str) -> io::Result<()> {
    let alloc = rt.alloc();
    if line.starts_with("# ") {
        return Ok(());
    }
    if let Some(name) = line.strip_prefix("case ") {
        *case = Case::new(alloc, name)?;
        return Ok(());
    }
    if let Some(told) = case.told(alloc, line)? {
        let name = case.name.as_str();
        return println!(rt; "{name} {line} => {told}");
    }
    match repeated(line) {
        Some((count, piece)) => case.repeat(count, piece)?,
        None => case.add_line(line)?,
    }
    Ok(())
}

/// Tells what comes of the texts of a file.
pub fn tell(rt: &(impl Print + Files + AllocGlobal), name: &str) -> io::Result<()> {
    let file = fs::read_to_string(rt, name)?;
    let mut case = Case::new(rt.alloc(), "")?;
    for line in file.lines() {
        take_line(rt, &mut case, line)?;
    }
    Ok(())
}
