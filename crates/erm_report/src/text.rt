//! The text of a report.
ghost use Rattle.std.specs.Prelude.{◌≡◌, ◌++◌, [], OnOk, OnErr};
ghost use Rattle.erm_report.specs.Printable.{FitsTypes, IsInTables};
ghost use Rattle.erm_report.specs.Texts.{line_text};

use crate::Line;
use crate::printing::push_line;
use std::alloc::{AllocError, Global};
use std::marker::Model;

/// The text of lines, one after the other. Contracts see the list of its bytes.
#[derive(Drop)]
pub struct Text {
    bytes: Vec<u8>,
}

impl Model for Text {
    ghost use Rattle.std.specs.Prelude.{List, ℕ};

    ghost Value = { List ℕ };

    ghost view = { λ t. t.bytes.items };
}

impl Text {
    /// The text of no line. It takes no memory.
    pub fn new(alloc: Global) -> Text
        ensures { result ≡ [] }
    {
        Text {
            bytes: Vec::new(alloc),
        }
    }

    /// Adds the text of a line at the end. The numbers and values of a line that was added fit their types, where its table
    /// is one of those that there are. An `Err` changes nothing.
    pub fn add(&mut self, line: &Line) -> Result<(), AllocError>
        ensures ok { OnOk result (self.new ≡ self.old ++ line_text line.now) }
        ensures fits { OnOk result (IsInTables line.now → FitsTypes line.now) }
        ensures err { OnErr result (self.new ≡ self.old) }
    {
        let length = self.bytes.len();
        let added = push_line(&mut self.bytes, line);
        if added.is_err() {
            self.bytes.truncate(length);
        }
        added
    }

    /// The bytes, in order.
    pub fn as_slice(&self) -> &[u8]
        ensures { result.now ≡ self.now }
    {
        &self.bytes
    }
}
