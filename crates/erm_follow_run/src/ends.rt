//! The texts behind the lines of commits.
ghost use Rattle.std.specs.Prelude.{◌≡◌, ◌++◌, ◌∷◌, [], OnOk, IfOk, decimal};
ghost use Rattle.erm_follow_run.specs.Texts.{bad_text, broken_text, end_text, number_text, rest_text};

use erm_follow::Broken;
use itoa::Buffer;
use std::alloc::{AllocError, Global};

/// How many commits wait, what bytes are left, and that this is all.
pub(crate) fn end_text(alloc: Global, pending: usize, rest: usize) -> Result<Vec<u8>, AllocError>
    ensures { IfOk result (λ text. text.items ≡ end_text pending rest) }
{
    let mut text = Vec::new(alloc);
    push_number(&mut text, b"pending ", pending as u64)?;
    push_rest(&mut text, rest)?;
    text.extend_from_slice(b"end\n")?;
    Ok(text)
}

// Adds how many bytes are left, where there are any.
fn push_rest(text: &mut Vec<u8>, rest: usize) -> Result<(), AllocError>
    ensures { OnOk result (text.new.items ≡ text.old.items ++ rest_text rest) }
{
    if rest == 0 {
        return Ok(());
    }
    push_number(text, b"rest ", rest as u64)
}

/// The place of what is no item of a stream.
pub(crate) fn bad_text(alloc: Global, place: u64) -> Result<Vec<u8>, AllocError>
    ensures { IfOk result (λ text. text.items ≡ bad_text place) }
{
    let mut text = Vec::new(alloc);
    push_number(&mut text, b"bad stream ", place)?;
    Ok(text)
}

/// A safe stamp, and the stamp of the commit that breaks it.
pub(crate) fn broken_text(alloc: Global, broken: &Broken) -> Result<Vec<u8>, AllocError>
    ensures { IfOk result (λ text. text.items ≡ broken_text broken.now.safe broken.now.stamp) }
{
    let mut text = Vec::new(alloc);
    push_count(&mut text, b"broken mark ", broken.safe)?;
    push_number(&mut text, b" commit ", broken.stamp)?;
    Ok(text)
}

/// Adds words, a number, and the line's end.
pub fn push_number(text: &mut Vec<u8>, words: &[u8], number: u64) -> Result<(), AllocError>
    ensures { OnOk result (text.new.items ≡ text.old.items ++ number_text words.now number) }
{
    push_count(text, words, number)?;
    text.extend_from_slice(b"\n")?;
    Ok(())
}

/// Adds words and a number.
pub fn push_count(text: &mut Vec<u8>, words: &[u8], number: u64) -> Result<(), AllocError>
    ensures { OnOk result (text.new.items ≡ text.old.items ++ (words.now ++ decimal number)) }
{
    let mut buffer = Buffer::new();
    text.extend_from_slice(words)?;
    text.extend_from_slice(buffer.format(number).as_bytes())?;
    Ok(())
}
