// Texts of many equal parts.
use crate::constants::Unread;
use crate::trees::{is_expression, is_statement};
use nt_value::Text;
use std::alloc::{AllocError, Global};

/// What a text is asked to be.
#[derive(Clone, Copy, Debug, PartialEq, Eq)]
pub(crate) enum Sort {
    Expression,
    Statement,
}

fn push_times(times: u32, part: &str, out: &mut Text) -> Result<(), AllocError> {
    for _turn in 0..times {
        out.push_bytes(part.as_bytes())?;
    }
    Ok(())
}

// The first part, the second so many times, the third, the fourth as many times, and the fifth.
fn long_text(alloc: Global, line: &str) -> Result<Text, Unread> {
    let words: Vec<&str> = line.split('|').collect(alloc)?;
    let [times, before, opening, middle, closing, after] = words.as_slice() else {
        return Err(Unread::Words);
    };
    let Some(times) = times.parse::<u32>().ok() else {
        return Err(Unread::Words);
    };
    let mut text = Text::new(Vec::new(alloc));
    text.push_bytes(before.as_bytes())?;
    push_times(times, opening, &mut text)?;
    text.push_bytes(middle.as_bytes())?;
    push_times(times, closing, &mut text)?;
    text.push_bytes(after.as_bytes())?;
    Ok(text)
}

/// Adds whether all of the text is what it is asked to be.
pub(crate) fn tell_limit(
    alloc: Global,
    sort: Sort,
    line: &str,
    out: &mut Text,
) -> Result<(), Unread> {
    let text = long_text(alloc, line)?;
    let is = match sort {
        Sort::Expression => is_expression(alloc, text.items())?,
        Sort::Statement => is_statement(alloc, text.items())?,
    };
    out.push_bytes(if is {
        b"yes".as_slice()
    } else {
        b"no".as_slice()
    })?;
    Ok(())
}
