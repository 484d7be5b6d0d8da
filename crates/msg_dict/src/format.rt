//! A format of a dictionary.

ghost use Rattle.std.specs.Prelude.{◌≡◌};
ghost use Rattle.msg_dict.specs.Table.{row_named};

use crate::row::Row;

/// A format, its identifier, and its row of the table, where it is one.
#[derive(Drop)]
pub struct Format {
    pub text: Vec<u8>,
    pub id: u32,
    pub row: Option<Row>,
    ghost known: { row ≡ row_named text.items },
}

impl Format {
    /// A format with an identifier.
    pub fn new(text: Vec<u8>, id: u32) -> Format
        ensures text { result.text.items ≡ text.items }
        ensures id { result.id ≡ id }
    {
        let row = Row::of_format(text.as_slice());
        Format { text, id, row }
    }
}
