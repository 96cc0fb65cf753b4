//! A document behind which an output is written is an input that claims both.
ghost use Rattle.std.specs.Prelude.{List, ℕ};
ghost use Rattle.net_model.specs.Parts.{NetParts};
ghost use Rattle.document_reader.specs.Net.{IsNetOf};
ghost use Rattle.audit_claim.specs.Claim.{EndsLine, IsInput, with_output};

/// A document with a net, whose last line is ended by a newline, then the line `output`, then any bytes: the input is cut where they were joined, since no
/// line of such a document is `output`.
pub fn written_is_input()
    ensures { (document output : List ℕ) (net : NetParts) → IsNetOf document net → EndsLine document
        → IsInput (with_output document output) document output net }
{}
