//! That the canonical text of a document's net says what the document says.
ghost use Rattle.std.specs.Prelude.{◌≡◌, ℕ, List};
ghost use Rattle.net_model.specs.Parts.{NetParts};
ghost use Rattle.document_reader.specs.Net.{IsNetOf};
ghost use Rattle.document_format.specs.DocumentText.{as_written, document_text};
ghost use Rattle.document_format.specs.Limits.{FitsDocument};

/// The canonical text of a net that a document has is read as that net, with its turns on their lines of the text, where it
/// is within the limits of a document. The text is the same for each net of a document, and so is that of the text's net.
pub fn lemma_text_read()
    ensures read { (input : List ℕ) (net : NetParts) → IsNetOf input net → FitsDocument net → IsNetOf (document_text net) (as_written net) }
    ensures one { (input : List ℕ) (net other : NetParts) → IsNetOf input net → IsNetOf input other → document_text net ≡ document_text other }
    ensures again { (input : List ℕ) (net other : NetParts) → IsNetOf input net → FitsDocument net → IsNetOf (document_text net) other
        → document_text other ≡ document_text net }
{}
