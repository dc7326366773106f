// Names of functions and globals by their numbers.

use prem_syntax::{Item, Name};
use std::str;

/// The text of a name.
fn text_of(name: &Name) -> &str {
    match str::from_utf8(name.bytes()) {
        Ok(text) => text,
        Err(_) => "?",
    }
}

/// The name of the function of a number among all functions, which count from 0.
pub fn function_name(items: &[Item], number: u64) -> &str {
    let mut left = number;
    for item in items {
        if let Item::Function(function) = item {
            if left == 0 {
                return text_of(&function.name);
            }
            left -= 1;
        }
    }
    "?"
}

/// The name of the global of a number among all globals, which count from 0.
pub fn global_name(items: &[Item], number: u64) -> &str {
    let mut left = number;
    for item in items {
        if let Item::Global(global) = item {
            if left == 0 {
                return text_of(&global.name);
            }
            left -= 1;
        }
    }
    "?"
}
