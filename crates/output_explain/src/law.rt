//! A verdict is that of the promise, and what flooding tells; so is what is listed of a client.
ghost use Rattle.std.specs.Prelude.{◌≡◌, ◌↔◌, ℕ, suc, true, false, List, slice_get, Some};
ghost use Rattle.base.specs.Sets.{Has};
ghost use Rattle.law_phases.specs.Runs.{PhasedRun};
ghost use Rattle.law_phases.specs.AtMoments.{EndsDrained, inbox_at};
ghost use Rattle.law_phases.specs.Routes.{IsDeliveredOnce};
ghost use Rattle.law_phases.specs.Owing.{IsOwedByScripts, IsAllowedByScripts};
ghost use Rattle.net_model.specs.Real.{real};
ghost use Rattle.net_model.specs.Parts.{NetParts};
ghost use Rattle.net_model.specs.Nets.{home_of, phased_net};
ghost use Rattle.output_flood.specs.declared.owed.OwedRow.{OwedRow};
ghost use Rattle.output_flood.specs.Flooding.{row_of, IsFlooding};
ghost use Rattle.output_explain.specs.declared.answer.Explanation.{Explanation};
ghost use Rattle.output_explain.specs.declared.prospect.Prospect.{Prospect};
ghost use Rattle.output_explain.specs.declared.verdict.Verdict.TheVariants as verdicts;
ghost use Rattle.output_explain.specs.Explained.{IsExplanation, IsAnswer, publication_of};
ghost use Rattle.output_explain.specs.Prospects.{AreProspects, IsListed};
ghost use Rattle.output_explain.specs.Verdicts.{is_given, is_may};

use crate::prospect::Chance;

/// A publication is owed by its explanation exactly where it is owed by the scripts, and given exactly where it is allowed.
pub fn as_promised()
    ensures owed { (net : NetParts) (client publisher : List ℕ) (ordinal : ℕ) (e : Explanation) → IsAnswer net client publisher ordinal e
        → (e.verdict ≡ verdicts.Owed) ↔ IsOwedByScripts real (phased_net net) (publication_of e) e.client }
    ensures allowed { (net : NetParts) (client publisher : List ℕ) (ordinal : ℕ) (e : Explanation) → IsAnswer net client publisher ordinal e
        → (is_given e.verdict ≡ true) ↔ IsAllowedByScripts real (phased_net net) (publication_of e) e.client }
{}

/// What is owed by its explanation is delivered exactly once in each drained run of the net's servers, and what isn't given
/// is never delivered, at any moment of any run.
pub fn in_runs()
    ensures owed { (net : NetParts) (client publisher : List ℕ) (ordinal : ℕ) (e : Explanation) → IsAnswer net client publisher ordinal e
        → e.verdict ≡ verdicts.Owed → (run : PhasedRun real) → run.net ≡ phased_net net → EndsDrained real run
        → IsDeliveredOnce real run (publication_of e) e.client }
    ensures never { (net : NetParts) (client publisher : List ℕ) (ordinal : ℕ) (e : Explanation) → IsAnswer net client publisher ordinal e
        → is_given e.verdict ≡ false → (run : PhasedRun real) → run.net ≡ phased_net net → (n : ℕ)
        → Has (publication_of e) (inbox_at real run n (home_of net e.client) e.client) → ⊥ }
{}

/// Among the rows of what flooding owes and allows to the client there is one that is owed exactly where the verdict is
/// `Owed`, and one that is allowed alone exactly where the verdict is `May`.
pub fn as_flooded()
    ensures owed { (net : NetParts) (rows : List (List OwedRow)) (refused : List (List ℕ)) → IsFlooding net rows refused
        → (e : Explanation) → IsExplanation net e → (place : ℕ) (list : List OwedRow) → e.client ≡ suc place → slice_get rows place ≡ Some list
        → (e.verdict ≡ verdicts.Owed) ↔ Has (row_of e.id.publisher e.id.ordinal true) list }
    ensures may { (net : NetParts) (rows : List (List OwedRow)) (refused : List (List ℕ)) → IsFlooding net rows refused
        → (e : Explanation) → IsExplanation net e → (place : ℕ) (list : List OwedRow) → e.client ≡ suc place → slice_get rows place ≡ Some list
        → (is_may e.verdict ≡ true) ↔ Has (row_of e.id.publisher e.id.ordinal false) list }
{}

/// What is listed of a client as owed is what flooding owes it, and what is listed as what may come is what flooding allows
/// besides: `explain` of a client alone and `flood` agree.
pub fn listed_as_flooded()
    ensures owed { (net : NetParts) (rows : List (List OwedRow)) (refused : List (List ℕ)) → IsFlooding net rows refused
        → (place : ℕ) (list : List OwedRow) → slice_get rows place ≡ Some list → (prospects : List Prospect) → AreProspects net (suc place) prospects
        → (publisher ordinal : ℕ) → IsListed publisher ordinal Chance.Owed prospects ↔ Has (row_of publisher ordinal true) list }
    ensures may { (net : NetParts) (rows : List (List OwedRow)) (refused : List (List ℕ)) → IsFlooding net rows refused
        → (place : ℕ) (list : List OwedRow) → slice_get rows place ≡ Some list → (prospects : List Prospect) → AreProspects net (suc place) prospects
        → (publisher ordinal : ℕ) → IsListed publisher ordinal Chance.May prospects ↔ Has (row_of publisher ordinal false) list }
{}

/// What is listed of a publication is the verdict of its explanation, and what is near is never given.
pub fn listed_as_explained()
    ensures owed { (net : NetParts) (e : Explanation) → IsExplanation net e → (prospects : List Prospect) → AreProspects net e.client prospects
        → IsListed e.id.publisher e.id.ordinal Chance.Owed prospects ↔ (e.verdict ≡ verdicts.Owed) }
    ensures may { (net : NetParts) (e : Explanation) → IsExplanation net e → (prospects : List Prospect) → AreProspects net e.client prospects
        → IsListed e.id.publisher e.id.ordinal Chance.May prospects ↔ (is_may e.verdict ≡ true) }
    ensures near { (net : NetParts) (e : Explanation) → IsExplanation net e → (prospects : List Prospect) → AreProspects net e.client prospects
        → IsListed e.id.publisher e.id.ordinal Chance.Near prospects → is_given e.verdict ≡ false }
{}
