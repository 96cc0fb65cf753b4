//! States what every whole run promises, whatever its schedule.
ghost use Rattle.std.specs.Prelude.{List, ℕ};
ghost use Rattle.net_model.specs.Parts.{NetParts, EntryParts};
ghost use Rattle.document_reader.specs.Net.{IsNetOf};
ghost use Rattle.program_sequential.specs.declared.words.Schedule.{Schedule};
ghost use Rattle.program_sequential.specs.declared.words.Shown.{Shown};
ghost use Rattle.program_sequential.specs.Runs.{GoesBy};
ghost use Rattle.program_sequential.specs.Printed.{run_text, trace_of};
ghost use Rattle.program_sequential.specs.Promise.{ClientPromise};
ghost use Rattle.program_sequential.specs.Network.{lists_by, NetworkPromise, RunPromise, IsWholeRun};

use net_model::Real;

/// A run of a sound net that took all commands gives its clients what flooding owes them, once, and nothing that it does
/// not allow, by the text of the notice published and in the order of each publisher; where all that is allowed is owed its
/// sorted deliveries are what flooding prints of the document. Its links carry only what is wanted, a publication that is
/// settled on its way is delivered once, and is there once its messages are received, deliveries go by the filters in force, by phase
/// and in causal order, no link carries more than plain flooding puts on it, and its length is bounded.
pub fn lemma_promise()
    ensures clients { (shown : Shown) (input : List ℕ) (net : NetParts) (journal : List EntryParts) → IsNetOf input net → IsWholeRun net journal
        → ClientPromise shown input (run_text shown net journal) net (lists_by net journal) (trace_of shown.trace net journal) }
    ensures run { (shown : Shown) (net : NetParts) (journal : List EntryParts) → IsWholeRun net journal
        → RunPromise shown net journal (lists_by net journal) (trace_of shown.trace net journal) }
    ensures network { (schedule : Schedule) (shown : Shown) (net : NetParts) (journal : List EntryParts) → IsWholeRun net journal
        → GoesBy schedule net journal
        → NetworkPromise schedule shown net journal (lists_by net journal) (trace_of shown.trace net journal) }
{
    net_model::law::lemma_lawful_net();
    law_phases::owed_once::<Real>();
    law_phases::delivered_allowed::<Real>();
    law_phases::never_twice::<Real>();
    law_phases::delivered_in_order::<Real>();
    law_phases::pruning::<Real>();
    law_phases::settled_delivery::<Real>();
    law_phases::settled_by::<Real>();
    law_phases::due_once::<Real>();
    law_phases::delivered_by_phase::<Real>();
    law_phases::causal_order::<Real>();
    law_phases::economy::<Real>();
    law_phases::in_force::<Real>();
    law_phases::holds_roots::<Real>();
    law_phases::bounded::<Real>();
    output_report::law::flood_as_delivered();
}
