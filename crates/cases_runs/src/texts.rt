//! Texts of many lines.

use std::alloc::{AllocError, Global};

/// A line with a word and a number for each number from the first to below the last.
pub fn numbered(alloc: Global, word: &str, first: u32, below: u32) -> Result<String, AllocError> {
    let mut lines = String::new(alloc);
    for number in first..below {
        lines.push_str(format!(in alloc; "{word}{number}\n")?.as_str())?;
    }
    Ok(lines)
}

/// The same line so many times.
pub fn repeated(alloc: Global, line: &str, times: u32) -> Result<String, AllocError> {
    let mut lines = String::new(alloc);
    for _ in 0..times {
        lines.push_str(line)?;
    }
    Ok(lines)
}

/// A text between two others.
pub fn between(
    alloc: Global,
    before: &str,
    text: &str,
    behind: &str,
) -> Result<String, AllocError> {
    format!(in alloc; "{before}{text}{behind}")
}
