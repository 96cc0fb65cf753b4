//! Says what the traffic of every legal run keeps beside flooding.
ghost use Rattle.std.specs.Prelude.{◌≡◌, List};
ghost use Rattle.law_phases.specs.AtMoments.{EndsDrained};
ghost use Rattle.law_phases.specs.Runs.{PhasedRun};
ghost use Rattle.net_model.specs.Real.{real};
ghost use Rattle.filter_text.specs.declared.sent.Sent.{Sent};
ghost use Rattle.net_model.specs.Nets.{phased_net};
ghost use Rattle.net_model.specs.Parts.{EntryParts, NetParts};
ghost use Rattle.net_model.specs.Sound.{IsSound};
ghost use Rattle.output_traffic.specs.Told.{IsTold};
ghost use Rattle.output_traffic.specs.Laws.{AsManyWhereOwed, NeverMore};
ghost use Rattle.output_traffic.specs.Tallied.{AreFew};

/// In a legal run of a sound net no link carries more notifications than plain flooding would put on it; and where the run is
/// drained, it carries as many wherever each accepted publication that flooding sends over the link is owed to some client
/// beyond it, as where every client takes everything. On each link it puts fewer messages than are counted.
pub fn lemma_beside_flooding()
    ensures never_more { (net : NetParts) → IsSound net → (run : PhasedRun real) → run.net ≡ phased_net net
        → (journal : List EntryParts) (outs : List (List Sent)) → IsTold run journal outs → NeverMore net journal outs }
    ensures as_many { (net : NetParts) → IsSound net → (run : PhasedRun real) → run.net ≡ phased_net net → EndsDrained real run
        → (journal : List EntryParts) (outs : List (List Sent)) → IsTold run journal outs → AsManyWhereOwed net journal outs }
    ensures few { (net : NetParts) → IsSound net → (run : PhasedRun real) → run.net ≡ phased_net net
        → (journal : List EntryParts) (outs : List (List Sent)) → IsTold run journal outs → AreFew journal outs }
{}
