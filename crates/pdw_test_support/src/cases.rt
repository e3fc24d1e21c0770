//! The texts of cases.

use itoa::Buffer;
use std::alloc::{AllocError, Global};
use std::test::Fail;

// A piece with a number in place of its mark, where it has one.
fn push_piece(text: &mut String, piece: &str, number: usize) -> Result<(), AllocError> {
    match piece.split_once('#') {
        Some((before, after)) => {
            text.push_str(before)?;
            text.push_str(Buffer::new().format(number))?;
            text.push_str(after)
        }
        None => text.push_str(piece),
    }
}

// A count, a colon and the piece that stands so many times.
fn push_pieces(text: &mut String, group: &str) -> Result<(), Fail> {
    let (count, piece) = group.split_once(':').ok_or("a colon")?;
    for number in 0..count.parse::<usize>()? {
        push_piece(text, piece, number)?;
    }
    Ok(())
}

/// A case's text in full: `{3:a#, }` stands for `a0, a1, a2, `, and what stands outside braces for itself.
pub fn expanded(alloc: Global, case: &str) -> Result<String, Fail> {
    let mut text = String::new(alloc);
    for part in case.split('{') {
        match part.split_once('}') {
            Some((group, rest)) => {
                push_pieces(&mut text, group)?;
                text.push_str(rest)?;
            }
            None => text.push_str(part)?,
        }
    }
    Ok(text)
}
