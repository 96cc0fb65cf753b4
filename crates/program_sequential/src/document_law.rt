//! States that a document says one thing: its nets differ in nothing that a run or a text shows.
ghost use Rattle.std.specs.Prelude.{◌≡◌, List, ℕ};
ghost use Rattle.net_model.specs.Parts.{NetParts, EntryParts};
ghost use Rattle.document_reader.specs.Net.{IsNetOf, IsBadAt};
ghost use Rattle.document_format.specs.DocumentText.{document_text};
ghost use Rattle.output_flood.specs.declared.owed.OwedRow.{OwedRow};
ghost use Rattle.output_flood.specs.Flooding.{IsFlooding};
ghost use Rattle.audit_verdict.specs.Kinds.{peers};
ghost use Rattle.audit_verdict.specs.Verdict.{IsOutputOf};
ghost use Rattle.audit_hierarchy.specs.Runs.{hierarchies};
ghost use Rattle.program_sequential.specs.Runs.{GoesBy};

use crate::words::Schedule;
use document_reader::Fault;

/// Two nets of one document have the same whole runs, of peers and as hierarchies, with the same texts, the same walk, the
/// same flooding and the same canonical text. A document has one first line at fault, with one fault, and none where it has
/// a net.
pub fn lemma_one_document()
    ensures runs { (input : List ℕ) (one two : NetParts) (journal : List EntryParts) (output : List ℕ) → IsNetOf input one → IsNetOf input two
        → IsOutputOf peers one journal output → IsOutputOf peers two journal output }
    ensures hierarchies { (input : List ℕ) (one two : NetParts) (journal : List EntryParts) (output : List ℕ) → IsNetOf input one → IsNetOf input two
        → IsOutputOf hierarchies one journal output → IsOutputOf hierarchies two journal output }
    ensures walk { (input : List ℕ) (one two : NetParts) (journal : List EntryParts) → IsNetOf input one → IsNetOf input two
        → GoesBy Schedule.Walk one journal → GoesBy Schedule.Walk two journal }
    ensures flooding { (input : List ℕ) (one two : NetParts) (rows : List (List OwedRow)) (refused : List (List ℕ)) → IsNetOf input one
        → IsNetOf input two → IsFlooding one rows refused → IsFlooding two rows refused }
    ensures text { (input : List ℕ) (one two : NetParts) → IsNetOf input one → IsNetOf input two → document_text one ≡ document_text two }
    ensures refusal { (input : List ℕ) (line other : ℕ) (kind second : Fault) → IsBadAt input line kind → IsBadAt input other second
        → (line ≡ other) × (kind ≡ second) }
    ensures net_or_refusal { (input : List ℕ) (net : NetParts) (line : ℕ) (kind : Fault) → IsNetOf input net → IsBadAt input line kind → ⊥ }
{}
