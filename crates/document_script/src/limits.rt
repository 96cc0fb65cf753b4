//! Makes the filter, the advertisement or the notice of a command's parts, or answers the first fault.
ghost use Rattle.std.specs.Prelude.{◌≡◌, ℕ, List, false, IsPermutation};
ghost use Rattle.filter_types.specs.Canonical.{canonical};
ghost use Rattle.filter_types.specs.Notice.{AreRising};
ghost use Rattle.document_script.specs.Command.{control_fault, fit_of, fits, is_beyond, is_empty, is_wide, publish_fault, whole_of, wholes};
ghost use Rattle.document_script.specs.Reading.{IsGathered, Judges, KeepsDistinct, KeepsFew};
ghost use Rattle.document_script.specs.declared.form.Given.{Given};
ghost use Rattle.document_script.specs.declared.form.Part.{Part};

use crate::fault::ScriptFault;
use crate::part::Parts;
use filter_constraints::Constraint;
use filter_types::{Advert, Filter, FilterFault, Notice, NoticeFault};
use filter_values::{Name, Value};

/// A filter or an advertisement: what is made of constraints, of which it has a bounded number.
pub(crate) trait Limited: Drop {
    ghost use Rattle.std.specs.Prelude.{◌≡◌, ◌<◌, ◌≤◌, [], ℕ, List, length, IfOk, IsErrOf};
    ghost use Rattle.filter_constraints.specs.Constraint.{ConstraintParts};
    ghost use Rattle.filter_types.specs.Canonical.{canonical};

    ghost most: { ℕ };

    ghost constraints: { Self → List ConstraintParts };

    /// What these constraints make, given in any order and maybe more than once.
    fn make(given: Vec<Constraint>) -> Result<Self, FilterFault>
        ensures value { IfOk result (λ x. constraints x ≡ canonical given.items) }
        ensures few { IfOk result (λ x. length (constraints x) ≤ most) }
        ensures nothing { IsErrOf result FilterFault.Nothing → given.items ≡ [] }
        ensures too_many { IsErrOf result FilterFault.TooMany → most < length (canonical given.items) }
        ensures small { most ≤ 64 };
}

impl Limited for Filter {
    ghost most = { 16 };

    ghost constraints = { λ f. f };

    fn make(given: Vec<Constraint>) -> Result<Filter, FilterFault> {
        Filter::make(given)
    }
}

impl Limited for Advert {
    ghost most = { 64 };

    ghost constraints = { λ a. a };

    fn make(given: Vec<Constraint>) -> Result<Advert, FilterFault> {
        Advert::make(given)
    }
}

/// What a control command's parts make.
pub(crate) fn list_of<L: Limited>(parts: Parts<Constraint>) -> Result<L, ScriptFault>
    ensures { (given : List Part)
        → IsGathered KeepsDistinct whole_of is_beyond is_empty (parts.is_full, parts.kept.items) parts.has_beyond parts.has_empty given
        → Judges (λ x. L.constraints x ≡ canonical (wholes given)) result (control_fault L.most given) }
{
    if parts.has_beyond {
        return Err(ScriptFault::Value);
    }
    if parts.has_empty {
        return Err(ScriptFault::Operand);
    }
    match L::make(parts.kept) {
        Ok(list) => Ok(list),
        Err(FilterFault::TooMany) => Err(ScriptFault::Count),
        Err(FilterFault::Nothing) => Err(ScriptFault::Syntax),
        Err(FilterFault::NoMemory) => Err(ScriptFault::NoMemory),
    }
}

/// The notice of a publish command's parts.
pub(crate) fn notice_of(parts: Parts<(Name, Value)>) -> Result<Notice, ScriptFault>
    ensures { (given : List (List ℕ × Given))
        → IsGathered KeepsFew fit_of is_wide (λ _. false) (parts.is_full, parts.kept.items) parts.has_beyond parts.has_empty given
        → Judges (λ n. IsPermutation (fits given) n × AreRising n) result (publish_fault given) }
{
    if parts.has_beyond {
        return Err(ScriptFault::Value);
    }
    match Notice::make(parts.kept) {
        Ok(notice) => Ok(notice),
        Err(NoticeFault::TooMany) => Err(ScriptFault::Count),
        Err(NoticeFault::Twice(_)) => Err(ScriptFault::Repeat),
        Err(NoticeFault::Nothing) => Err(ScriptFault::Syntax),
        Err(NoticeFault::NoMemory) => Err(ScriptFault::NoMemory),
    }
}
