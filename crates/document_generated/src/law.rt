//! That the reader accepts every generated document.
ghost use Rattle.std.specs.Prelude.{ℕ};
ghost use Rattle.net_model.specs.Parts.{NetParts};
ghost use Rattle.document_reader.specs.declared.fault.Fault.{Fault as Kind};
ghost use Rattle.document_reader.specs.Net.{IsBadAt, IsNetOf};
ghost use Rattle.document_generate.specs.Document.{generated};

/// The document that a seed makes has a net, whatever the seed, and no line of it is at fault.
pub fn lemma_has_net()
    ensures net { (seed : ℕ) → (net : NetParts) × IsNetOf (generated seed) net }
    ensures accepted { (seed line : ℕ) (kind : Kind) → IsBadAt (generated seed) line kind → ⊥ }
{}
