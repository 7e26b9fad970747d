//! The cells of a row, with tabs between.

use std::alloc::{AllocError, Global};

/// The cell of this number, counted from 0; the empty text if the row has fewer.
pub(crate) fn cell(row: &str, number: usize) -> &str {
    row.split('\t').nth(number).unwrap_or("")
}

/// The row without its first cell; the empty text if it has only that.
pub(crate) fn without_first(row: &str) -> &str {
    match row.split_once('\t') {
        Some((_, rest)) => rest,
        None => "",
    }
}

/// The row without its last cell; the empty text if it has only that.
pub(crate) fn without_last(row: &str) -> &str {
    match row.rsplit_once('\t') {
        Some((rest, _)) => rest,
        None => "",
    }
}

/// What a character means after a backslash: `t` a tab, `n` a line feed, `r` a carriage return,
/// another itself.
fn meant(escape: char) -> char {
    match escape {
        't' => '\t',
        'n' => '\n',
        'r' => '\r',
        _ => escape,
    }
}

/// The text that a cell stands for, where a tab, a line feed, a carriage return and a backslash are
/// written `\t`, `\n`, `\r` and `\\`. A backslash at the end stands for nothing. The only error is
/// that there is no memory for the text.
pub(crate) fn unescaped(alloc: Global, cell: &str) -> Result<String, AllocError> {
    let mut text = String::new(alloc);
    let mut is_escaped = false;
    for c in cell.chars() {
        if is_escaped {
            text.push(meant(c))?;
            is_escaped = false;
        } else if c == '\\' {
            is_escaped = true;
        } else {
            text.push(c)?;
        }
    }
    Ok(text)
}
