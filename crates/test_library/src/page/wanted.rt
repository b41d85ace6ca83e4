//! What a text has to have.

use std::test::*;

/// A property of a text: of an answer with its head and its body, or of a page.
#[derive(Clone, Copy)]
pub enum Want<'a> {
    /// It is this one.
    Is(&'a str),
    /// It begins with this one.
    Begins(&'a str),
    /// It ends with this one.
    Ends(&'a str),
    /// This one is in it.
    Has(&'a str),
    /// This one is not in it.
    Lacks(&'a str),
    /// It has this many parts, with this text between them.
    Parts(&'a str, usize),
    /// This one is in its head.
    Head(&'a str),
    /// Its body is this one.
    Body(&'a str),
    /// The lines of its body are these, apart from comments.
    Rows(&'a [&'a str]),
    /// The last field of its head gives the count of bytes of its body.
    Length,
}

/// The number of the first of these properties that the text does not have.
pub fn unmet(text: &str, wants: &[Want<'_>]) -> Result<Option<usize>, Fail> {
    for (k, want) in wants.iter().enumerate() {
        if !is_met(text, *want)? {
            return Ok(Some(k));
        }
    }
    Ok(None)
}

fn is_met(text: &str, want: Want<'_>) -> Result<bool, Fail> {
    match want {
        Want::Head(_) | Want::Body(_) | Want::Rows(_) | Want::Length => {
            let (head, body) = text.split_once("\r\n\r\n").ok_or("there is an empty line")?;
            is_met_by(head, body, want)
        }
        _ => Ok(is_met_whole(text, want)),
    }
}

// Whether a text has this property of a whole text.
fn is_met_whole(text: &str, want: Want<'_>) -> bool {
    match want {
        Want::Is(whole) => text == whole,
        Want::Begins(part) => text.starts_with(part),
        Want::Ends(part) => text.ends_with(part),
        Want::Has(part) => text.contains(part),
        Want::Lacks(part) => !text.contains(part),
        Want::Parts(between, count) => text.split(between).count() == count,
        _ => false,
    }
}

fn is_met_by(head: &str, body: &str, want: Want<'_>) -> Result<bool, Fail> {
    match want {
        Want::Head(part) => Ok(head.contains(part)),
        Want::Body(whole) => Ok(body == whole),
        Want::Rows(rows) => Ok(are_rows_of(body, rows)),
        Want::Length => Ok(length_in(head)? == body.len()),
        _ => Err("it is a property of a whole text".into()),
    }
}

// Whether these are the lines of the text, apart from comments.
fn are_rows_of(text: &str, rows: &[&str]) -> bool {
    let mut lines = text.lines().filter(|line| !line.starts_with("# "));
    for row in rows {
        if lines.next() != Some(*row) {
            return false;
        }
    }
    lines.next() == None
}

// The count of bytes in the last field of a head.
fn length_in(head: &str) -> Result<usize, Fail> {
    let (_, digits) = head
        .split_once("Content-Length: ")
        .ok_or("its length is the last field")?;
    Ok(digits.parse().ok().ok_or("it is a number")?)
}
