//! The type of a row: what is asked, and what must come.

/// Words and a document, with what the program must report and write.
pub struct Row {
    /// What it is for.
    pub name: &'static str,
    /// The words, with spaces between them.
    pub words: &'static str,
    /// The document, or what stands behind the front of its table.
    pub document: &'static str,
    /// The line to standard error, or nothing.
    pub fault: &'static str,
    /// What is written.
    pub text: &'static str,
}
