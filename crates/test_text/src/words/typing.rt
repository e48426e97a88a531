//! Words of a command line, which stand in one text with `|` between two.
use std::alloc::Global;
use std::test::Fail;

pub fn typed(alloc: Global, line: &str) -> Result<Vec<String>, Fail> {
    let mut words = Vec::new(alloc);
    for word in line.split('|') {
        words.push(String::from_str(alloc, word)?)?;
    }
    Ok(words)
}

/// The words of the line are these.
pub fn are_words(found: &[&str], line: &str) -> bool {
    if found.len() != line.split('|').count() {
        return false;
    }
    for (found, word) in found.iter().zip(line.split('|')) {
        if *found != word {
            return false;
        }
    }
    true
}
