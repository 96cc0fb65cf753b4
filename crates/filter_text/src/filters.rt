//! Reads and writes the texts of filters and of advertisements.
ghost use Rattle.std.specs.Prelude.{List, IfOk, IsErrOf};
ghost use Rattle.filter_constraints.specs.Constraint.{ConstraintParts};
ghost use Rattle.filter_text.specs.Reading.{Gives, whole};
ghost use Rattle.filter_text.specs.FilterText.{IsAdvertText, IsFilterText};

use crate::fault::WireFault;
use crate::listed::Listed;
use crate::reader::Reader;
use base::NoMemory;
use filter_types::{Advert, Filter};
use std::alloc::Global;

// The list whose text the bytes are.
fn read_whole<L: Listed>(alloc: Global, bytes: &[u8]) -> Result<L, WireFault>
    ensures { Gives (λ x. x) result (whole (L.front bytes.now)) }
{
    let mut reader = Reader::new(bytes);
    let list = L::read(&mut reader, alloc)?;
    if !reader.rest.is_empty() {
        return Err(WireFault::Outside);
    }
    Ok(list)
}

/// The filter whose text the bytes are; `Outside` where they are the text of none.
#[tactic(auto, using(crate::proofs::FilterLaws::list_found, crate::proofs::FilterLaws::list_outside))]
pub fn read_filter(alloc: Global, bytes: &[u8]) -> Result<Filter, WireFault>
    ensures found { IfOk result (λ f. IsFilterText bytes.now f) }
    ensures outside { IsErrOf result WireFault.Outside → (f : List ConstraintParts) → IsFilterText bytes.now f → ⊥ }
{
    read_whole(alloc, bytes)
}

/// The advertisement whose text the bytes are; `Outside` where they are the text of none.
#[tactic(auto, using(crate::proofs::FilterLaws::list_found, crate::proofs::FilterLaws::list_outside))]
pub fn read_advert(alloc: Global, bytes: &[u8]) -> Result<Advert, WireFault>
    ensures found { IfOk result (λ f. IsAdvertText bytes.now f) }
    ensures outside { IsErrOf result WireFault.Outside → (f : List ConstraintParts) → IsAdvertText bytes.now f → ⊥ }
{
    read_whole(alloc, bytes)
}

/// The text of a filter.
pub fn write_filter(alloc: Global, filter: &Filter) -> Result<Vec<u8>, NoMemory>
    ensures { IfOk result (λ v. IsFilterText v.items filter.now) }
{
    let mut out = Vec::new(alloc);
    filter.push(&mut out)?;
    Ok(out)
}

/// The text of an advertisement.
pub fn write_advert(alloc: Global, advert: &Advert) -> Result<Vec<u8>, NoMemory>
    ensures { IfOk result (λ v. IsAdvertText v.items advert.now) }
{
    let mut out = Vec::new(alloc);
    advert.push(&mut out)?;
    Ok(out)
}
