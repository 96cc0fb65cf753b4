//! Worked runs on the order of deliveries, and on what is due.
ghost use Rattle.std.specs.Prelude.{◌≡◌, ℕ, [], ◌∷◌, take};
ghost use Rattle.base.specs.Sets.{Has};
ghost use Rattle.law_machine.specs.Machine.{Did, Received};
ghost use Rattle.law_routing.specs.Net.{NetLaws};
ghost use Rattle.law_routing.specs.Clients.{filters_after};
ghost use Rattle.law_routing.specs.Owed.{IsMomentOfPhase, IsPublication, IsOwed, IsDue};
ghost use Rattle.law_routing.specs.Server.{Subs, Advs, Noticed};
ghost use Rattle.law_routing.specs.Step.{NextCommand, TableUpdate};
ghost use Rattle.law_examples.specs.Ranges.{Any, ranges};
ghost use Rattle.law_examples.specs.Trace.{line, walk, replay, trace, given};
ghost use Rattle.law_examples.specs.SmallNets.{ranges_publication, advertised_late, advertised_until, both_publish, answers, far_then_near, near_tried_first};
ghost use Rattle.law_phases.specs.Flooding.{IsFloodOwed};
ghost use Rattle.law_examples.specs.Flooding.{flooded_net, IsFlooding};
ghost use Rattle.law_phases.specs.Bounds.{receptions_in, commands_in};
ghost use Rattle.law_examples.specs.Phased.{answered, answered_journal, IsAnswered, phased_walk, line_becomes_star, Carries};

/// That an advertisement is in force when a publish is accepted doesn't suffice: where a client advertises and publishes in one phase, the notice sets
/// out before any server has sent a subscription for it back, though the subscriber has its filter all the time.
pub fn advertised_too_late()
    ensures lawful { NetLaws ranges advertised_late }
    ensures accepted { IsPublication ranges advertised_late 1 1 1 9 }
    ensures wanted { (count : ℕ) → IsMomentOfPhase ranges advertised_late 1 2 count
        → Has Any (filters_after ranges [] (take count (advertised_late.script 2))) }
    ensures not_due { IsDue ranges advertised_late 1 1 1 9 2 → ⊥ }
    ensures trace { trace ranges advertised_late (walk ranges advertised_late 2) ≡
        line ranges 1 2 (Did (NextCommand 2)) [] ∷
        line ranges 2 2 (Did TableUpdate) [] ∷
        line ranges 3 1 (Did (NextCommand 1)) ((2, Advs [] (Any ∷ [])) ∷ []) ∷
        line ranges 4 1 (Did (NextCommand 1)) [] ∷
        line ranges 4 2 (Received 1) ((1, Subs [] (Any ∷ [])) ∷ []) ∷
        line ranges 5 1 (Received 2) [] ∷
        line ranges 6 1 (Did TableUpdate) [] ∷ [] }
    ensures given { given ranges advertised_late (walk ranges advertised_late 2) 2 ≡ [] }
{}

/// A withdrawal of the advertisement in the phase of the notice, behind it, leaves it due, though not owed: the notice is ahead of it on each link.
pub fn advertised_till_published()
    ensures lawful { NetLaws ranges advertised_until }
    ensures due { IsDue ranges advertised_until 1 1 1 9 2 }
    ensures not_owed { IsOwed ranges advertised_until 1 1 9 2 → ⊥ }
    ensures given { given ranges advertised_until (walk ranges advertised_until 2) 2 ≡ ranges_publication 1 1 9 ∷ [] }
{}

/// Publications of which neither was known when the other was published may be given in different orders.
pub fn no_one_order()
    ensures lawful { NetLaws ranges both_publish }
    ensures one { given ranges both_publish (walk ranges both_publish 2) 1 ≡ ranges_publication 1 1 1 ∷ ranges_publication 3 1 3 ∷ [] }
    ensures three { given ranges both_publish (walk ranges both_publish 2) 3 ≡ ranges_publication 3 1 3 ∷ ranges_publication 1 1 1 ∷ [] }
{}

/// A barrier holds at each client: a publication behind it is given behind one before it, though that comes from further away, and though the later one is
/// tried first.
pub fn barrier_keeps_order()
    ensures lawful { NetLaws ranges far_then_near }
    ensures walked { given ranges far_then_near (walk ranges far_then_near 3) 1 ≡ ranges_publication 3 1 3 ∷ ranges_publication 2 1 1 ∷ [] }
    ensures tried { given ranges far_then_near (replay ranges far_then_near ([] ∷ near_tried_first ∷ [] ∷ [])) 1
        ≡ ranges_publication 3 1 3 ∷ ranges_publication 2 1 1 ∷ [] }
{}

/// An answer is given behind what it answers, to its own publisher's correspondent too.
pub fn answer_comes_behind()
    ensures one { given ranges both_publish (replay ranges both_publish ([] ∷ answers ∷ [])) 1
        ≡ ranges_publication 3 1 3 ∷ ranges_publication 1 1 1 ∷ [] }
    ensures three { given ranges both_publish (replay ranges both_publish ([] ∷ answers ∷ [])) 3
        ≡ ranges_publication 3 1 3 ∷ ranges_publication 1 1 1 ∷ [] }
    ensures knowing { IsAnswered answered answered_journal (ranges_publication 3 1 3) (ranges_publication 1 1 1) }
{}

/// A run of plain flooding in five entries: the notice goes over the one link, and the withdrawal behind it goes nowhere. It ends drained, and the client
/// to which flooding owes the publication is given it.
pub fn flooding_delivers()
    ensures runs { IsFlooding 5 2 (ranges_publication 1 1 9 ∷ []) }
    ensures owed { IsFloodOwed ranges flooded_net (ranges_publication 1 1 9) 2 }
{}

/// A link carries fewer notifications than flooding puts on it where nobody beyond wants one, and as many where each is due to a client beyond. Each
/// command leads to at most one reception at each other server: three of at most four.
pub fn carries_no_more()
    ensures wanted { Carries line_becomes_star (phased_walk ranges line_becomes_star 2) 3 1 1 1 }
    ensures unwanted { Carries line_becomes_star (phased_walk ranges line_becomes_star 2) 1 2 0 1 }
    ensures receptions { receptions_in (phased_walk ranges line_becomes_star 2) ≡ 3 }
    ensures commands { commands_in (phased_walk ranges line_becomes_star 2) ≡ 2 }
{}
