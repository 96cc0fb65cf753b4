//! Says what is true of every document: its first line at fault, its accepted lines, and that its net is sound.
ghost use Rattle.std.specs.Prelude.{◌≡◌, ◌≤◌, ◌↔◌, ℕ, List, Ok, length};
ghost use Rattle.net_model.specs.Parts.{NetParts};
ghost use Rattle.net_model.specs.Sound.{IsSound};
ghost use Rattle.document_reader.specs.declared.fault.Fault.{Fault as Kind};
ghost use Rattle.document_reader.specs.declared.state.State.{State as Standing};
ghost use Rattle.document_reader.specs.Lines.{lines};
ghost use Rattle.document_reader.specs.Places.{document_of};
ghost use Rattle.document_reader.specs.Meaning.{AreTaken, IsFirstFault};
ghost use Rattle.document_reader.specs.Net.{IsBadAt, IsNetOf};

/// A document is refused at a line where the lines before are all accepted and this one, or the end, has the fault.
pub fn first_fault()
    ensures { (bytes : List ℕ) (line : ℕ) (kind : Kind) → length bytes ≤ 4194304 → IsBadAt bytes line kind ↔ IsFirstFault (lines bytes) line kind }
{}

/// A document says what stands after its lines where each of them is accepted, and so is the end.
pub fn all_taken()
    ensures { (bytes : List ℕ) (s : Standing) → length bytes ≤ 4194304 → (document_of bytes ≡ Ok s) ↔ AreTaken (lines bytes) s }
{}

/// Every net of a document is sound.
pub fn lemma_net_sound()
    ensures { (bytes : List ℕ) (net : NetParts) → IsNetOf bytes net → IsSound net }
{}
