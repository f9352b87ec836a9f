//! Values of a few bytes, and the text of lines.
ghost use Rattle.std.specs.Prelude.{◌≤◌, length};

use erm_model::{VALUE_BYTES, Value};
use erm_report::{Line, Text};
use std::alloc::{AllocError, Global};

/// The value of these bytes.
pub fn value(bytes: &[u8]) -> Value
    requires { length bytes.now ≤ VALUE_BYTES }
{
    Value::new(bytes).unwrap()
}

/// The text of lines, one behind the other.
pub fn text_of(alloc: Global, lines: &[Line]) -> Result<Text, AllocError> {
    let mut text = Text::new(alloc);
    for line in lines {
        text.add(line)?;
    }
    Ok(text)
}
