//! The type of the operators of constraints.

/// The operators of constraints, in their order. A value satisfies an operator with an operand where
/// it is of the operand's kind and stands to it as the variant says: truth values by their equality,
/// numbers and times by number, texts by their bytes, a proper prefix being less.
#[derive(Clone, Copy, Debug, PartialEq, Eq, PartialOrd, Ord)]
pub enum Op {
    /// The value differs from the operand.
    Ne,
    /// It is less than the operand.
    Lt,
    /// It is less than the operand or equal to it.
    Le,
    /// It equals the operand.
    Eq,
    /// It is greater than the operand.
    Gt,
    /// It is greater than the operand or equal to it.
    Ge,
    /// It is any value of the kind; there is no operand.
    Any,
    /// It is a text in which the bytes of the operand stand somewhere without a gap.
    Contains,
    /// It is a text that begins with the operand.
    Prefix,
    /// It is a text that ends with the operand.
    Suffix,
}
