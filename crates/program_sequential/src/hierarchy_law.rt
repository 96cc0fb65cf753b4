//! States what every whole run of a hierarchy promises.
ghost use Rattle.std.specs.Prelude.{◌≡◌, List, [], ℕ};
ghost use Rattle.net_model.specs.Parts.{NetParts, EntryParts};
ghost use Rattle.document_reader.specs.Net.{IsNetOf};
ghost use Rattle.hierarchy_turns.specs.Network.{journal_in};
ghost use Rattle.hierarchy_turns.specs.Promise.{IsWholeRun};
ghost use Rattle.hierarchy_turns.specs.Walked.{walk_after};
ghost use Rattle.program_sequential.specs.declared.words.Shown.{Shown};
ghost use Rattle.program_sequential.specs.Hierarchy.{hierarchy_lists, hierarchy_text, hierarchy_trace, HierarchyWalkPromise};
ghost use Rattle.program_sequential.specs.Promise.{AreOfNotices, ClientPromise};

use net_model::Real;

/// A whole run of a hierarchy over a net that publishes notices gives its clients what a run of peers gives: what flooding owes
/// them, once, and nothing that it does not allow, by the text of the notice published, in the order of each publisher and of the
/// phases; where all that is allowed is owed its sorted deliveries are what flooding prints of the document. And its network has done all that
/// one of a hierarchy does.
pub fn lemma_hierarchy_promise()
    ensures clients { (shown : Shown) (input : List ℕ) (net : NetParts) (journal : List EntryParts) → IsNetOf input net → IsWholeRun net journal
        → AreOfNotices net.clients
        → ClientPromise shown input (hierarchy_text shown net journal) net (hierarchy_lists net journal) (hierarchy_trace shown.trace net journal) }
    ensures network { (shown : Shown) (net : NetParts) (journal : List EntryParts) → IsWholeRun net journal
        → journal_in net journal ≡ walk_after net []
        → HierarchyWalkPromise shown net journal (hierarchy_lists net journal) (hierarchy_trace shown.trace net journal) }
{
    hierarchy_turns::law::promise();
    net_model::law::lemma_lawful_net();
    law_hierarchy::never_twice::<Real>();
    law_hierarchy::last_moment::<Real>();
}
