//! Worked runs of hierarchies, over a theory of numbers in which a filter matches what is no less.

ghost use Rattle.std.specs.Prelude.{◌≡◌, List, [], ◌∷◌, true, false};
ghost use Rattle.law_machine.specs.Machine.{Did, Received};
ghost use Rattle.law_routing.specs.Clients.{refused_after};
ghost use Rattle.law_routing.specs.Server.{Subs, Noticed};
ghost use Rattle.law_routing.specs.Step.{NextCommand, TableUpdate};
ghost use Rattle.law_routing.specs.Example.{numbers};
ghost use Rattle.law_hierarchy.specs.Example.{pair, chain};
ghost use Rattle.law_examples.specs.Trace.{line};
ghost use Rattle.law_examples.specs.Hierarchies.{hierarchy_trace, hierarchy_given, numbers_publication};

/// The walk of a pair: the filter goes up, the notice goes up though no filter is held above, and the client beside the publisher
/// is given it at once. Under advertisement semantics the publish is refused, since nothing is advertised.
pub fn notice_goes_up()
    ensures trace { hierarchy_trace numbers (pair false) 2 ≡
        line numbers 1 2 (Did (NextCommand 1)) ((1, Subs [] (6 ∷ [])) ∷ []) ∷
        line numbers 2 1 (Received 2) [] ∷
        line numbers 3 1 (Did TableUpdate) [] ∷
        line numbers 2 2 (Did TableUpdate) [] ∷
        line numbers 4 2 (Did (NextCommand 2)) ((1, Noticed 2 1 9) ∷ []) ∷
        line numbers 5 1 (Received 2) [] ∷ [] }
    ensures subscriber { hierarchy_given numbers (pair false) 2 1 ≡ numbers_publication 2 1 9 ∷ [] }
    ensures publisher { hierarchy_given numbers (pair false) 2 2 ≡ [] }
    ensures unadvertised { hierarchy_trace numbers (pair true) 2 ≡
        line numbers 1 2 (Did (NextCommand 1)) ((1, Subs [] (6 ∷ [])) ∷ []) ∷
        line numbers 2 1 (Received 2) [] ∷
        line numbers 3 1 (Did TableUpdate) [] ∷
        line numbers 2 2 (Did TableUpdate) [] ∷
        line numbers 4 2 (Did (NextCommand 2)) [] ∷ [] }
    ensures refused { refused_after numbers (pair true) 2 1 ≡ 1 ∷ [] }
{}

/// The walk of a chain: only the wider filter goes up, its withdrawal uncovers the narrower one in one message, and then only
/// what that one matches goes down.
pub fn notice_goes_down()
    ensures trace { hierarchy_trace numbers chain 3 ≡
        line numbers 1 3 (Did (NextCommand 1)) ((2, Subs [] (3 ∷ [])) ∷ []) ∷
        line numbers 2 3 (Did (NextCommand 2)) [] ∷
        line numbers 2 2 (Received 3) ((1, Subs [] (3 ∷ [])) ∷ []) ∷
        line numbers 3 2 (Did TableUpdate) [] ∷
        line numbers 3 3 (Did TableUpdate) [] ∷
        line numbers 3 1 (Received 2) [] ∷
        line numbers 4 1 (Did TableUpdate) [] ∷
        line numbers 5 3 (Did (NextCommand 1)) ((2, Subs (3 ∷ []) (6 ∷ [])) ∷ []) ∷
        line numbers 6 2 (Received 3) ((1, Subs (3 ∷ []) (6 ∷ [])) ∷ []) ∷
        line numbers 7 2 (Did TableUpdate) [] ∷
        line numbers 6 3 (Did TableUpdate) [] ∷
        line numbers 7 1 (Received 2) [] ∷
        line numbers 8 1 (Did TableUpdate) [] ∷
        line numbers 9 1 (Did (NextCommand 3)) ((2, Noticed 3 1 9) ∷ []) ∷
        line numbers 10 1 (Did (NextCommand 3)) [] ∷
        line numbers 10 2 (Received 1) ((3, Noticed 3 1 9) ∷ []) ∷
        line numbers 11 3 (Received 2) [] ∷ [] }
    ensures withdrawn { hierarchy_given numbers chain 3 1 ≡ [] }
    ensures subscriber { hierarchy_given numbers chain 3 2 ≡ numbers_publication 3 1 9 ∷ [] }
{}
