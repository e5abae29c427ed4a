// Rows of the formula part, read from the file's bytes.
ghost use Rattle.std.specs.Prelude.{◌≡◌, ◌+◌, ◌*◌, ◌≤◌, length};
ghost use Rattle.definition.specs.14-Book.{row_at};
ghost use Rattle.formula_rows.specs.Meanings.{row_meant};

#[derive(Clone, Copy, Debug, PartialEq, Eq)]
pub struct Row {
    pub kind: u8,
    pub code: u8,
    pub x: u16,
    pub y: u16,
    pub z: u16,
}

// Row `row` of the book.
pub fn row_at(book: &[u8], row: usize) -> Row
    requires { 8 * row + 8 ≤ length book.now }
    ensures { row_meant result ≡ row_at book.now row }
{
    let at = 8 * row;
    Row {
        kind: book[at],
        code: book[at + 1],
        x: words::read_word(book, at + 2),
        y: words::read_word(book, at + 4),
        z: words::read_word(book, at + 6),
    }
}
