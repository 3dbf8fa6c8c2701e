//! The words with which tests call the program.
use ilk_base::Memory;
use std::alloc::Global;

/// The words of a line.
pub fn words_of(alloc: Global, line: &str) -> Result<Vec<String>, Memory> {
    let mut words = Vec::new(alloc);
    for word in line.split_whitespace() {
        words.push(String::from_str(alloc, word)?)?;
    }
    Ok(words)
}
