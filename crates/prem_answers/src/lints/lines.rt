// Texts on one line.
use prem_io::FileMap;
use std::alloc::{AllocError, Global};

/// What was written, with a `$` for each end of a line.
pub fn on_one_line(alloc: Global, bytes: &[u8]) -> Result<String, AllocError> {
    let mut text = String::new(alloc);
    for byte in bytes {
        text.push(if *byte == b'\n' {
            '$'
        } else {
            char::from(*byte)
        })?;
    }
    Ok(text)
}

/// A text with the end of a line for each `$`.
pub fn with_lines(alloc: Global, text: &[u8]) -> Result<Vec<u8>, AllocError> {
    let mut bytes = Vec::new(alloc);
    for byte in text {
        bytes.push(if *byte == b'$' { b'\n' } else { *byte })?;
    }
    Ok(bytes)
}

/// The files of a list: each of its lines has a name, a blank, and a text with a `$` for each end of a line.
pub fn listed(alloc: Global, list: &str) -> Result<FileMap, AllocError> {
    let mut files = FileMap::new(alloc);
    for line in list.lines() {
        if let Some((name, text)) = line.split_once(' ') {
            let _added = files.add(alloc, name, &with_lines(alloc, text.as_bytes())?)?;
        }
    }
    Ok(files)
}
