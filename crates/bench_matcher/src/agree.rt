//! Compares what the matcher finds with what the plain scan finds.
use crate::scan::{Matching, filters, notices, scanned};
use crate::{Fault, Maker, WORKLOADS, Workload};
use std::alloc::Global;

/// How many filters are compared.
const FILTERS: usize = 600;

/// On how many notices.
const NOTICES: usize = 100;

/// Compares the filters and the notices of a workload.
fn compare(rt: &impl Print, alloc: Global, workload: &Workload) -> Result<(), Fault> {
    let mut maker = Maker::new(alloc, workload.seed, workload.plan)?;
    let filters = filters(alloc, &mut maker, workload, FILTERS)?;
    let notices = notices(alloc, &mut maker, NOTICES)?;
    let mut matching = Matching::of(alloc, &filters)?;
    let mut matches = 0_usize;
    for notice in &notices {
        matching.give(notice)?;
        let wrong = matching.wrong(&filters, notice);
        if wrong > 0 {
            return Err(Fault::Differences(wrong));
        }
        matches = matches.saturating_add(scanned(&filters, notice));
    }
    println!(rt;
        "{}: {FILTERS} filters, {NOTICES} notices, {matches} matches: matcher and scan agree",
        workload.name
    )?;
    Ok(())
}

/// Compares each workload.
pub(crate) fn agree(rt: &impl Print, alloc: Global) -> Result<(), Fault> {
    for workload in WORKLOADS.as_slice() {
        compare(rt, alloc, workload)?;
    }
    Ok(())
}
