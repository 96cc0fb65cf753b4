//! The type of the edges of one tree of a document, with the first phase in which it is in force.
use std::marker::Model;

/// The edges of a tree, with the first phase in which it is in force; contracts see the two as a pair.
#[derive(Debug, Drop)]
pub struct Block {
    pub phase: u32,
    pub edges: Vec<(u32, u32)>,
}

impl Model for Block {
    ghost use Rattle.document_reader.specs.Drawn.{Block as Drawing, block};

    ghost Value = { Drawing };

    ghost view = { λ b. block b.phase b.edges.items };
}
