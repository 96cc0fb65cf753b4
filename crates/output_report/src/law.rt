//! Says where the text of deliveries and that of flooding are the same, and that a text tells its lists.
ghost use Rattle.std.specs.Prelude.{◌≡◌, ◌++◌, Bool, true, ℕ, suc, List, map, slice_get, Some};
ghost use Rattle.std.specs.List.{flat_map};
ghost use Rattle.filter_text.specs.Deliveries.{Delivery};
ghost use Rattle.filter_text.specs.declared.sent.Sent.{Sent};
ghost use Rattle.law_phases.specs.AtMoments.{EndsDrained, inbox_of};
ghost use Rattle.law_phases.specs.Runs.{PhasedRun};
ghost use Rattle.net_model.specs.Real.{real};
ghost use Rattle.net_model.specs.Meaning.{deliveries_of};
ghost use Rattle.net_model.specs.Nets.{phased_net};
ghost use Rattle.net_model.specs.Parts.{EntryParts, NetParts};
ghost use Rattle.net_model.specs.Sound.{IsSound};
ghost use Rattle.output_flood.specs.declared.owed.OwedRow.{OwedRow};
ghost use Rattle.output_flood.specs.Flooding.{IsFlooding};
ghost use Rattle.output_report.specs.Published.{texts_in};
ghost use Rattle.output_report.specs.Deliveries.{by_id, delivery_line, deliveries_text, ordered};
ghost use Rattle.output_report.specs.Drained.{AreOwed, AllOwed, received_at_end};
ghost use Rattle.output_report.specs.Flood.{row_line, flood_text};
ghost use Rattle.output_report.specs.Trace.{trace_text};
ghost use Rattle.output_report.specs.Plain.{ArePlainLists, ArePlainNames, MayFollow};

use net_model::Real;

/// Where all that is allowed to a client of a net is owed to it, the lines of what flooding brings it are those of its sorted
/// deliveries in any drained run of the net; and where that is so of all clients, the whole texts are one.
pub fn flood_as_delivered()
    ensures client { (net : NetParts) → IsSound net → (rows : List (List OwedRow)) (refused : List (List ℕ)) → IsFlooding net rows refused
        → (run : PhasedRun real) → run.net ≡ phased_net net → EndsDrained real run
        → (place : ℕ) (list : List OwedRow) → slice_get rows place ≡ Some list → AreOwed list
        → flat_map (row_line net.clients (texts_in net.clients)) list
        ≡ flat_map (delivery_line net.clients) (by_id (deliveries_of (inbox_of real run (suc place)))) }
    ensures whole { (net : NetParts) → IsSound net → (rows : List (List OwedRow)) (refused : List (List ℕ)) → IsFlooding net rows refused → AllOwed rows
        → (run : PhasedRun real) → run.net ≡ phased_net net → EndsDrained real run
        → flood_text net refused rows ≡ deliveries_text net refused (received_at_end run net.clients) true }
{
    law_phases::stable_inputs::<Real>();
    law_phases::never_twice::<Real>();
    law_phases::last_moment::<Real>();
}

/// A text of what the clients of a net received tells its lists: those of refused publishes, those of deliveries in the order in which they are printed,
/// and what stands behind them, which is nothing or begins as each trace does.
pub fn one_text()
    ensures lists { (net : NetParts) (sorted : Bool) → ArePlainNames net.clients
        → (refused others : List (List ℕ)) (received deliveries : List (List Delivery)) (tail more : List ℕ)
        → ArePlainLists net.clients refused received → ArePlainLists net.clients others deliveries → MayFollow tail → MayFollow more
        → deliveries_text net refused received sorted ++ tail ≡ deliveries_text net others deliveries sorted ++ more
        → (refused ≡ others) × (map (ordered sorted) received ≡ map (ordered sorted) deliveries) × (tail ≡ more) }
    ensures trace { (net : NetParts) (journal : List EntryParts) (outs : List (List Sent)) → MayFollow (trace_text net journal outs) }
{}
