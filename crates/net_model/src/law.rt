//! What nets represent in the laws, and that a sound net keeps all that the laws of runs ask for.
ghost use Rattle.std.specs.Prelude.{◌≡◌, ℕ, List, [], ◌∷◌, ◌++◌, take};
ghost use Rattle.base.specs.Sets.{set_of};
ghost use Rattle.law_routing.specs.Net.{Net, NetLaws, PhasedCommand};
ghost use Rattle.law_routing.specs.Clients.{filters_after, adverts_after, accepts, refused_from};
ghost use Rattle.law_phases.specs.Trees.{PhasedNetLaws, net_at, tree_at};
ghost use Rattle.law_phases.specs.Runs.{PhasedRun};
ghost use Rattle.law_phases.specs.AtMoments.{AllBelow};
ghost use Rattle.net_model.specs.Real.{real};
ghost use Rattle.net_model.specs.Parts.{NetParts};
ghost use Rattle.net_model.specs.Nets.{phased_net, topology_at, tree_of, script_of, phases_of};
ghost use Rattle.net_model.specs.Sound.{IsSound};
ghost use Rattle.net_model.specs.Limits.{StaysLow};
ghost use Rattle.net_model.specs.Adding.{own_filters, own_filters_step, own_adverts, own_adverts_step, refused_next};
ghost use Rattle.net_model.specs.Lists.{filters_added, adverts_added};

use law_routing::Matching;

/// A sound net keeps what is asked of a net over trees by phase, and so at each phase what is asked of a net on its
/// tree; each command is of one of its phases.
pub fn lemma_lawful_net()
    ensures laws { (net : NetParts) → IsSound net → PhasedNetLaws real (phased_net net) }
    ensures each { (net : NetParts) → IsSound net → (phase : ℕ) → NetLaws real (net_at real (phased_net net) phase) }
    ensures tree { (net : NetParts) (phase : ℕ) → tree_of (topology_at net phase) ≡ tree_at real (phased_net net) phase }
    ensures phases { (net : NetParts) → IsSound net → AllBelow real (phased_net net) (phases_of net) }
{}

/// A client's own lists in the order of adding, sorted, are its lists in the runs, so they accept the same publishes.
pub fn order_of_adding<M: Matching>()
    ensures filters { (commands : List (PhasedCommand M.theory))
        → set_of M.theory.before (own_filters M.theory [] commands) ≡ filters_after M.theory [] commands }
    ensures adverts { (commands : List (PhasedCommand M.theory))
        → set_of M.theory.before_advert (own_adverts M.theory [] commands) ≡ adverts_after M.theory [] commands }
    ensures accepted { (net : Net M.theory) (commands : List (PhasedCommand M.theory)) (notice : M.theory.Notice)
        → accepts M.theory net (own_adverts M.theory [] commands) notice ≡ accepts M.theory net (adverts_after M.theory [] commands) notice }
{}

/// What one more command makes of a client's own lists, and of the ordinals of its refused publishes.
pub fn one_more_command<M: Matching>()
    ensures filters { (commands : List (PhasedCommand M.theory)) (command : PhasedCommand M.theory)
        → own_filters M.theory [] (commands ++ command ∷ []) ≡ own_filters_step M.theory (own_filters M.theory [] commands) command.command }
    ensures adverts { (commands : List (PhasedCommand M.theory)) (command : PhasedCommand M.theory)
        → own_adverts M.theory [] (commands ++ command ∷ []) ≡ own_adverts_step M.theory (own_adverts M.theory [] commands) command.command }
    ensures refused { (net : Net M.theory) (commands : List (PhasedCommand M.theory)) (command : PhasedCommand M.theory)
        → refused_from M.theory net [] 0 (commands ++ command ∷ [])
        ≡ refused_from M.theory net [] 0 commands ++ refused_next M.theory net commands command.command }
{}

/// A net's clients have, after so many of their commands, the lists of the runs: their own lists in the order of adding,
/// sorted.
pub fn client_lists()
    ensures filters { (net : NetParts) (client count : ℕ)
        → set_of real.before (filters_added net client count) ≡ filters_after real [] (take count (script_of net client)) }
    ensures adverts { (net : NetParts) (client count : ℕ)
        → set_of real.before_advert (adverts_added net client count) ≡ adverts_after real [] (take count (script_of net client)) }
{}

/// Within the limits of a sound net every run has fewer than a thousand million entries, and no stamp is as great, so
/// none comes near 2^62.
pub fn within_limits()
    ensures { (net : NetParts) → IsSound net → (run : PhasedRun real) → run.net ≡ phased_net net → StaysLow run }
{}
