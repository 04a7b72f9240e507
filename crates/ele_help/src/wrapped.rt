//! Words in lines that a terminal of 80 columns shows.

use std::alloc::AllocError;

// The most columns of a line.
const COLUMNS: usize = 80;

/// Appends words to a line that has `column` columns. A word that doesn't fit begins the next line, below the
/// first of them.
pub(crate) fn put_wrapped(text: &mut String, column: usize, words: &str) -> Result<(), AllocError> {
    let mut end = column;
    for word in words.split_whitespace() {
        if end > column && word.len() >= COLUMNS.saturating_sub(end) {
            put_new_line(text, column)?;
            end = column;
        }
        if end > column {
            text.push_str(" ")?;
            end = end.saturating_add(1);
        }
        text.push_str(word)?;
        end = end.saturating_add(word.len());
    }
    Ok(())
}

// Ends a line, and begins the next one at a column.
fn put_new_line(text: &mut String, column: usize) -> Result<(), AllocError> {
    text.push_str("\n")?;
    for _ in 0..column {
        text.push_str(" ")?;
    }
    Ok(())
}
