//! Layer: law, above the theorems.
//! Job: worked runs: the definitions of the network computed in small nets over ranges of numbers, and in hierarchies over numbers.
//! Users: nobody; it is there to be read.
//!
//! Each contract is an equation between the trace of a walk or a replay and its lines, or states what a client receives
//! or a server holds.
#![tactic(auto)]

ghost use Rattle.std.specs.Prelude.{◌≡◌, ◌<◌, ℕ, List, [], ◌∷◌, ◌++◌, take, drop, map};
ghost use Rattle.base.specs.Sets.{Has};
ghost use Rattle.law_machine.specs.Runs.{IsRun};
ghost use Rattle.law_machine.specs.Machine.{Act, Did, Received};
ghost use Rattle.law_routing.specs.Theory.{TheoryLaws};
ghost use Rattle.law_routing.specs.Net.{Net, NetLaws, PhasedCommand};
ghost use Rattle.law_routing.specs.Rest.{IsDrained};
ghost use Rattle.law_routing.specs.Routing.{Network, NetEntry, routing_machine, opening};
ghost use Rattle.law_routing.specs.Clients.{filters_after};
ghost use Rattle.law_routing.specs.Owed.{IsOwed, IsAllowed};
ghost use Rattle.law_routing.specs.Server.{Subs, Advs, Noticed};
ghost use Rattle.law_routing.specs.Step.{Task, NextCommand, TableUpdate};
ghost use Rattle.law_examples.specs.Ranges.{Below, Equal, Above, AtLeast, Any, ranges};
ghost use Rattle.law_examples.specs.Trace.{line, walk, replay, trace, given, held};
ghost use Rattle.law_phases.specs.Trees.{off, entry_off, PhasedNetLaws};
ghost use Rattle.law_phases.specs.Moments.{opening_moment};
ghost use Rattle.law_phases.specs.Runs.{IsRunTo};
ghost use Rattle.law_phases.specs.AtMoments.{DrainsBy};
ghost use Rattle.law_phases.specs.Owing.{IsOwedByScripts};
ghost use Rattle.law_examples.specs.Phased.{on_one_tree, phased_trace, phased_walk, phased_given, phased_held, line_becomes_star, subscriber_publishes};
ghost use Rattle.law_examples.specs.Phased.{withdrawn_on_tree, withdrawn_walk, IsSettledIn, IsSettledBy};
ghost use Rattle.law_examples.specs.SmallNets.{ranges_publication, wide_travels, wide_and_narrow, withdrawn_wide, all_know, both_set_out, notice_arrives};
ghost use Rattle.law_examples.specs.SmallNets.{withdrawal_known, equal_ranges, advertised_small, subscribed_again};

pub mod hierarchies;
pub mod orders;

/// Ranges of numbers are a theory of filters, and the nets below are nets over it, so that every law of runs holds of them.
pub fn all_lawful()
    ensures ranges { TheoryLaws ranges }
    ensures wide_and_narrow { NetLaws ranges wide_and_narrow }
    ensures withdrawn_wide { NetLaws ranges withdrawn_wide }
    ensures equal_ranges { NetLaws ranges equal_ranges }
    ensures advertised_small { NetLaws ranges advertised_small }
    ensures subscribed_again { NetLaws ranges subscribed_again }
{}

/// The walk of such a net is a legal run that ends drained.
pub fn walk_runs()
    ensures { (net : Net ranges) → NetLaws ranges net → (phases : ℕ)
        → ((client : ℕ) (command : PhasedCommand ranges) → Has command (net.script client) → command.phase < phases) → 0 < phases
        → (end : Network ranges net) × (last : ℕ) × IsRun (routing_machine ranges net) (opening ranges net) 0 (walk ranges net phases) end last
        × IsDrained ranges net end }
{}

/// Schedules of turns, phase by phase, are a legal run of such a net, whatever they try.
pub fn replay_runs()
    ensures { (net : Net ranges) → NetLaws ranges net → (schedules : List (List (ℕ × Act Task)))
        → (end : Network ranges net) × (last : ℕ) × IsRun (routing_machine ranges net) (opening ranges net) 0 (replay ranges net schedules) end last }
{}

/// A net on one tree is a net with trees by phase that keeps its laws: each of its runs is a run of that, its walk is that walk, and they show the same
/// line by line. So all the runs below are runs over trees by phase too.
pub fn one_tree_runs()
    ensures lawful { (net : Net ranges) → NetLaws ranges net → PhasedNetLaws ranges (on_one_tree ranges net) }
    ensures runs { (net : Net ranges) (entries : List (NetEntry ranges net)) (end : Network ranges net) (last : ℕ)
        → IsRun (routing_machine ranges net) (opening ranges net) 0 entries end last
        → IsRunTo ranges (on_one_tree ranges net) (opening_moment ranges (on_one_tree ranges net)) (map (entry_off ranges net) entries)
        (record { state = off ranges net end; phase = last }) }
    ensures walk { (net : Net ranges) (phases : ℕ)
        → phased_walk ranges (on_one_tree ranges net) phases ≡ map (entry_off ranges net) (walk ranges net phases) }
    ensures trace { (net : Net ranges) (entries : List (NetEntry ranges net))
        → phased_trace ranges (on_one_tree ranges net) (map (entry_off ranges net) entries) ≡ trace ranges net entries }
{}

/// Only the wide range travels; the narrow one in it goes nowhere.
pub fn narrow_range_stays()
    ensures trace { trace ranges wide_and_narrow (walk ranges wide_and_narrow 1) ≡
        line ranges 1 1 (Did (NextCommand 1)) ((2, Subs [] (Any ∷ [])) ∷ []) ∷
        line ranges 2 1 (Did (NextCommand 2)) [] ∷
        line ranges 3 1 (Did TableUpdate) [] ∷
        line ranges 2 2 (Received 1) ((3, Subs [] (Any ∷ [])) ∷ []) ∷
        line ranges 3 2 (Did TableUpdate) [] ∷
        line ranges 3 3 (Received 2) [] ∷
        line ranges 4 3 (Did TableUpdate) [] ∷ [] }
    ensures home { held ranges wide_and_narrow (walk ranges wide_and_narrow 1) 1 66 ≡ Above 5 ∷ [] }
    ensures middle { held ranges wide_and_narrow (walk ranges wide_and_narrow 1) 2 1 ≡ Any ∷ [] }
    ensures far { held ranges wide_and_narrow (walk ranges wide_and_narrow 1) 3 2 ≡ Any ∷ [] }
{}

/// The withdrawal and the notice meet at the middle server: it sends the change on, and then routes the notice by its older table. Server 1 has made its
/// table update by then.
pub fn withdrawal_meets_notice()
    ensures trace { trace ranges withdrawn_wide (replay ranges withdrawn_wide (all_know ∷ both_set_out ∷ [])) ≡
        wide_travels ++ (
        line ranges 5 1 (Did (NextCommand 1)) ((2, Subs (Any ∷ []) (Above 5 ∷ [])) ∷ []) ∷
        line ranges 5 3 (Did (NextCommand 3)) ((2, Noticed 3 1 9) ∷ []) ∷
        line ranges 6 1 (Did TableUpdate) [] ∷
        line ranges 6 2 (Received 1) ((3, Subs (Any ∷ []) (Above 5 ∷ [])) ∷ []) ∷
        line ranges 7 2 (Received 3) ((1, Noticed 3 1 9) ∷ []) ∷
        line ranges 8 2 (Did TableUpdate) [] ∷
        line ranges 7 3 (Received 2) [] ∷
        line ranges 8 3 (Did TableUpdate) [] ∷
        line ranges 8 1 (Received 2) [] ∷ []) }
    ensures wide { given ranges withdrawn_wide (replay ranges withdrawn_wide (all_know ∷ both_set_out ∷ [])) 1 ≡ [] }
    ensures narrow { given ranges withdrawn_wide (replay ranges withdrawn_wide (all_know ∷ both_set_out ∷ [])) 2 ≡ ranges_publication 3 1 9 ∷ [] }
{}

/// The notice arrives before the withdrawal, and both clients are given it.
pub fn notice_before_withdrawal()
    ensures trace { trace ranges withdrawn_wide (replay ranges withdrawn_wide (all_know ∷ notice_arrives ∷ [])) ≡
        wide_travels ++ (
        line ranges 5 3 (Did (NextCommand 3)) ((2, Noticed 3 1 9) ∷ []) ∷
        line ranges 6 2 (Received 3) ((1, Noticed 3 1 9) ∷ []) ∷
        line ranges 7 1 (Received 2) [] ∷
        line ranges 8 1 (Did (NextCommand 1)) ((2, Subs (Any ∷ []) (Above 5 ∷ [])) ∷ []) ∷
        line ranges 9 1 (Did TableUpdate) [] ∷
        line ranges 9 2 (Received 1) ((3, Subs (Any ∷ []) (Above 5 ∷ [])) ∷ []) ∷
        line ranges 10 2 (Did TableUpdate) [] ∷
        line ranges 10 3 (Received 2) [] ∷
        line ranges 11 3 (Did TableUpdate) [] ∷ []) }
    ensures wide { given ranges withdrawn_wide (replay ranges withdrawn_wide (all_know ∷ notice_arrives ∷ [])) 1 ≡ ranges_publication 3 1 9 ∷ [] }
    ensures narrow { given ranges withdrawn_wide (replay ranges withdrawn_wide (all_know ∷ notice_arrives ∷ [])) 2 ≡ ranges_publication 3 1 9 ∷ [] }
{}

/// The middle server knows of the withdrawal before the notice comes; the client with the narrow range is given it still.
pub fn withdrawal_before_notice()
    ensures trace { trace ranges withdrawn_wide (replay ranges withdrawn_wide (all_know ∷ withdrawal_known ∷ [])) ≡
        wide_travels ++ (
        line ranges 5 1 (Did (NextCommand 1)) ((2, Subs (Any ∷ []) (Above 5 ∷ [])) ∷ []) ∷
        line ranges 6 2 (Received 1) ((3, Subs (Any ∷ []) (Above 5 ∷ [])) ∷ []) ∷
        line ranges 7 2 (Did TableUpdate) [] ∷
        line ranges 5 3 (Did (NextCommand 3)) ((2, Noticed 3 1 9) ∷ []) ∷
        line ranges 6 1 (Did TableUpdate) [] ∷
        line ranges 8 2 (Received 3) ((1, Noticed 3 1 9) ∷ []) ∷
        line ranges 7 3 (Received 2) [] ∷
        line ranges 8 3 (Did TableUpdate) [] ∷
        line ranges 9 1 (Received 2) [] ∷ []) }
    ensures wide { given ranges withdrawn_wide (replay ranges withdrawn_wide (all_know ∷ withdrawal_known ∷ [])) 1 ≡ [] }
    ensures narrow { given ranges withdrawn_wide (replay ranges withdrawn_wide (all_know ∷ withdrawal_known ∷ [])) 2 ≡ ranges_publication 3 1 9 ∷ [] }
{}

/// What each run may and must deliver of it: client 1 withdraws in the phase of the notice, so it may be given it; client 2 is owed it.
pub fn withdrawn_and_owed()
    ensures allowed { IsAllowed ranges withdrawn_wide 1 9 1 }
    ensures not_owed { IsOwed ranges withdrawn_wide 3 1 9 1 → ⊥ }
    ensures owed { IsOwed ranges withdrawn_wide 3 1 9 2 }
{}

/// Client 1 withdraws its range in the phase of the notice, so it is not owed it. But the withdrawal is still on its way when the notice sets out, and no
/// table update has installed it before the notice comes: the notice is settled wherever it passes, and is delivered once: after seven of
/// the ten entries, while the withdrawal is still on its way.
pub fn settled_and_not_owed()
    ensures lawful { PhasedNetLaws ranges withdrawn_on_tree }
    ensures drains { DrainsBy ranges withdrawn_on_tree withdrawn_walk }
    ensures trace { phased_trace ranges withdrawn_on_tree withdrawn_walk ≡
        line ranges 1 1 (Did (NextCommand 1)) ((2, Subs [] (Any ∷ [])) ∷ []) ∷
        line ranges 2 1 (Did TableUpdate) [] ∷
        line ranges 2 2 (Received 1) [] ∷
        line ranges 3 2 (Did TableUpdate) [] ∷
        line ranges 4 1 (Did (NextCommand 1)) ((2, Subs (Any ∷ []) []) ∷ []) ∷
        line ranges 4 2 (Did (NextCommand 2)) ((1, Noticed 2 1 9) ∷ []) ∷
        line ranges 5 1 (Received 2) [] ∷
        line ranges 6 1 (Did TableUpdate) [] ∷
        line ranges 5 2 (Received 1) [] ∷
        line ranges 6 2 (Did TableUpdate) [] ∷ [] }
    ensures settled { IsSettledIn withdrawn_on_tree withdrawn_walk (ranges_publication 2 1 9) 1 }
    ensures early { IsSettledBy withdrawn_on_tree withdrawn_walk (ranges_publication 2 1 9) 1 7 }
    ensures not_owed { IsOwedByScripts ranges withdrawn_on_tree (ranges_publication 2 1 9) 1 → ⊥ }
    ensures given { phased_given ranges withdrawn_on_tree withdrawn_walk 1 ≡ ranges_publication 2 1 9 ∷ [] }
{}

/// A withdrawal and the range that it uncovers are one message.
pub fn withdrawal_uncovers()
    ensures { trace ranges equal_ranges (walk ranges equal_ranges 2) ≡
        line ranges 1 1 (Did (NextCommand 1)) ((2, Subs [] (Above 1 ∷ [])) ∷ []) ∷
        line ranges 2 1 (Did (NextCommand 2)) [] ∷
        line ranges 3 1 (Did TableUpdate) [] ∷
        line ranges 2 2 (Received 1) [] ∷
        line ranges 3 2 (Did TableUpdate) [] ∷
        line ranges 4 1 (Did (NextCommand 1)) ((2, Subs (Above 1 ∷ []) (AtLeast 2 ∷ [])) ∷ []) ∷
        line ranges 5 1 (Did TableUpdate) [] ∷
        line ranges 5 2 (Received 1) [] ∷
        line ranges 6 2 (Did TableUpdate) [] ∷ [] }
{}

/// A range travels only towards an advertisement that it overlaps.
pub fn overlap_lets_through()
    ensures { trace ranges advertised_small (walk ranges advertised_small 3) ≡
        line ranges 1 1 (Did (NextCommand 1)) ((2, Advs [] (Below 3 ∷ [])) ∷ []) ∷
        line ranges 2 2 (Received 1) [] ∷
        line ranges 3 2 (Did (NextCommand 2)) [] ∷
        line ranges 4 2 (Did TableUpdate) [] ∷
        line ranges 5 2 (Did (NextCommand 2)) ((1, Subs [] (Below 9 ∷ [])) ∷ []) ∷
        line ranges 6 1 (Received 2) [] ∷
        line ranges 7 1 (Did TableUpdate) [] ∷
        line ranges 6 2 (Did TableUpdate) [] ∷ [] }
{}

/// A withdrawal takes away all that its range covers; until the next table update notices go by the ranges of the last.
pub fn withdrawal_takes_all()
    ensures trace { trace ranges subscribed_again (walk ranges subscribed_again 2) ≡
        line ranges 1 1 (Did (NextCommand 1)) [] ∷
        line ranges 2 1 (Did (NextCommand 1)) [] ∷
        line ranges 3 1 (Did (NextCommand 1)) [] ∷
        line ranges 4 1 (Did TableUpdate) [] ∷
        line ranges 5 1 (Did (NextCommand 1)) [] ∷
        line ranges 6 1 (Did (NextCommand 1)) [] ∷
        line ranges 7 1 (Did (NextCommand 2)) [] ∷
        line ranges 8 1 (Did TableUpdate) [] ∷ [] }
    ensures first { filters_after ranges [] (take 3 (subscribed_again.script 1)) ≡ Equal 1 ∷ Above 5 ∷ Any ∷ [] }
    ensures withdrawn { filters_after ranges [] (take 4 (subscribed_again.script 1)) ≡ [] }
    ensures given { given ranges subscribed_again (walk ranges subscribed_again 2) 1 ≡ ranges_publication 2 1 8 ∷ [] }
    ensures publisher { given ranges subscribed_again (walk ranges subscribed_again 2) 2 ≡ [] }
    ensures list { held ranges subscribed_again (walk ranges subscribed_again 2) 1 65 ≡ Any ∷ [] }
    ensures allowed { IsAllowed ranges subscribed_again 1 8 1 }
    ensures not_owed { IsOwed ranges subscribed_again 2 1 8 1 → ⊥ }
{}

/// Three servers in a line become a star around server 1. The range travels along the line in the first phase; the publication of the second takes the
/// new link, straight to the server of the subscriber.
pub fn link_after_change()
    ensures lawful { PhasedNetLaws ranges line_becomes_star }
    ensures drains { DrainsBy ranges line_becomes_star (phased_walk ranges line_becomes_star 2) }
    ensures trace { phased_trace ranges line_becomes_star (phased_walk ranges line_becomes_star 2) ≡
        line ranges 1 1 (Did (NextCommand 1)) ((2, Subs [] (Any ∷ [])) ∷ []) ∷
        line ranges 2 1 (Did TableUpdate) [] ∷
        line ranges 2 2 (Received 1) ((3, Subs [] (Any ∷ [])) ∷ []) ∷
        line ranges 3 2 (Did TableUpdate) [] ∷
        line ranges 3 3 (Received 2) [] ∷
        line ranges 4 3 (Did TableUpdate) [] ∷
        line ranges 5 3 (Did (NextCommand 2)) ((1, Noticed 2 1 1) ∷ []) ∷
        line ranges 6 1 (Received 3) [] ∷ [] }
    ensures given { phased_given ranges line_becomes_star (phased_walk ranges line_becomes_star 2) 1 ≡ ranges_publication 2 1 1 ∷ [] }
    ensures publisher { phased_given ranges line_becomes_star (phased_walk ranges line_becomes_star 2) 2 ≡ [] }
    ensures from_middle { phased_held ranges line_becomes_star (phased_walk ranges line_becomes_star 2) 1 2 ≡ [] }
    ensures at_middle { phased_held ranges line_becomes_star (phased_walk ranges line_becomes_star 2) 2 1 ≡ Any ∷ [] }
    ensures at_leaf { phased_held ranges line_becomes_star (phased_walk ranges line_becomes_star 2) 3 1 ≡ Any ∷ [] }
    ensures old_link { phased_held ranges line_becomes_star (phased_walk ranges line_becomes_star 2) 3 2 ≡ [] }
{}

/// A server whose clock has fallen behind begins the second phase above every stamp of the first: the change raises all clocks.
pub fn clocks_are_raised()
    ensures lawful { PhasedNetLaws ranges subscriber_publishes }
    ensures trace { drop 5 (phased_trace ranges subscriber_publishes (phased_walk ranges subscriber_publishes 2)) ≡
        line ranges 4 3 (Did TableUpdate) [] ∷
        line ranges 5 1 (Did (NextCommand 1)) [] ∷ [] }
    ensures given { phased_given ranges subscriber_publishes (phased_walk ranges subscriber_publishes 2) 1 ≡ ranges_publication 1 1 1 ∷ [] }
{}
