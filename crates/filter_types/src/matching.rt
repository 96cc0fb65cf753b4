//! What a filter and an advertisement say of a notice. Both walk two lists side by side, as each stands in the order of
//! names, and take no memory.
ghost use Rattle.std.specs.Prelude.{◌≡◌};
ghost use Rattle.filter_types.specs.Cover.{matches, allows};

use crate::filter::{Advert, Filter};
use crate::notice::Notice;
use std::cmp::Ordering;

/// Whether the notice matches the filter: for each constraint the attribute of its name exists and satisfies it.
pub fn matches(filter: &Filter, notice: &Notice) -> bool
    ensures { result ≡ matches notice.now filter.now }
{
    let mut constraints = filter.constraints();
    let mut attributes = notice.attributes();
    while let Some((constraint, further)) = constraints.split_first() {
        let Some((attribute, later)) = attributes.split_first() else {
            return false;
        };
        match attribute.0.bytes().cmp(constraint.name().bytes()) {
            Ordering::Less => attributes = later,
            Ordering::Equal if constraint.satisfied(&attribute.1) => constraints = further,
            _ => return false,
        }
    }
    true
}

/// Whether the advertisement allows the notice: each attribute satisfies some constraint on its name.
pub fn allows(advert: &Advert, notice: &Notice) -> bool
    ensures { result ≡ allows advert.now notice.now }
{
    let mut constraints = advert.constraints();
    let mut attributes = notice.attributes();
    while let Some((attribute, later)) = attributes.split_first() {
        let Some((constraint, further)) = constraints.split_first() else {
            return false;
        };
        match attribute.0.bytes().cmp(constraint.name().bytes()) {
            Ordering::Less => return false,
            Ordering::Equal if constraint.satisfied(&attribute.1) => attributes = later,
            _ => constraints = further,
        }
    }
    true
}
