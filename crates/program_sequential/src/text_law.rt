//! States that the text of a run says one thing: what each client received.
ghost use Rattle.std.specs.Prelude.{◌≡◌, List, ℕ};
ghost use Rattle.net_model.specs.Parts.{NetParts, EntryParts};
ghost use Rattle.document_reader.specs.Net.{IsNetOf};
ghost use Rattle.output_report.specs.Plain.{MayFollow};
ghost use Rattle.program_sequential.specs.declared.words.Schedule.{Schedule};
ghost use Rattle.program_sequential.specs.declared.words.Shown.{Shown};
ghost use Rattle.program_sequential.specs.Headline.{Headline};
ghost use Rattle.program_sequential.specs.Promise.{ClientLists, ClientPromise};
ghost use Rattle.program_sequential.specs.SameLists.{GiveSame};

/// A text keeps the promise of a document with one set of clients' lists: two sets that it keeps it with give each client the
/// same, and the same trace stands behind them. So a text without a trace tells what each client received. Two runs of a
/// document that print one text, whatever their schedules, gave each client the same.
pub fn lemma_one_text()
    ensures lists { (shown : Shown) (input text : List ℕ) (one two : NetParts) (lists others : ClientLists) (trace more : List ℕ)
        → IsNetOf input one → IsNetOf input two → MayFollow trace → MayFollow more
        → ClientPromise shown input text one lists trace → ClientPromise shown input text two others more
        → GiveSame shown.sorted one lists others × (trace ≡ more) }
    ensures runs { (schedule other : Schedule) (shown : Shown) (input text : List ℕ) (journal entries : List EntryParts)
        → (one : Headline schedule shown input text journal) (two : Headline other shown input text entries)
        → GiveSame shown.sorted one.net one.lists two.lists }
{
    net_model::law::lemma_lawful_net();
    output_report::law::one_text();
}
