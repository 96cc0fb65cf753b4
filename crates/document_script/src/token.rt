//! The type of a token of a command line.
use filter_constraints::Op;
use filter_values::Text;

/// A token.
#[derive(Drop)]
pub enum Token<'a> {
    /// A run of letters, digits, `_`, `.`, `-` and `+`.
    Word(&'a [u8]),
    /// `=`, `!=`, `<`, `<=`, `>` or `>=`.
    Sign(Op),
    /// A string, decoded.
    Str(Text),
    /// A string of more than 1,024 bytes, decoded.
    Long,
    /// `;`.
    Semicolon,
    /// What is no token.
    Bad,
}
