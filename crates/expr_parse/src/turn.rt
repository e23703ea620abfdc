// What a lexeme led to.
use tree_parts::Part;

/// What a lexeme led to.
#[derive(Clone, Copy)]
pub(crate) enum Turn {
    /// It does not fit.
    Refused,
    /// The next part or lexeme of the innermost frame is due.
    Due,
    /// A part was read.
    Read(Part),
}
