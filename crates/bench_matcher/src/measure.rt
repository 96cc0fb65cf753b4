//! Measures the matcher beside the plain scan.
use crate::scan::{Matching, filters, notices, scanned};
use crate::{Fault, Maker, WORKLOADS, Workload};
use filter_types::{Filter, Notice};
use std::alloc::Global;
use std::time::CpuClock;

/// How often the notices are given; the figures are the least.
const ROUNDS: usize = 5;

/// The nanoseconds of processor time that the thread has used.
fn used(rt: &impl CpuClock) -> Result<u64, Fault> {
    let nanos = rt.thread_cpu_time()?.as_nanos();
    Ok(u64::try_from(nanos).unwrap_or(u64::MAX))
}

/// The nanoseconds of each of so many since a time.
fn each(rt: &impl CpuClock, start: u64, count: usize) -> Result<u64, Fault> {
    let nanos = used(rt)?.saturating_sub(start);
    Ok(nanos.checked_div(count as u64).unwrap_or(0))
}

/// Nanoseconds a notice by the scan.
fn time_scan(rt: &impl CpuClock, filters: &[Filter], notices: &[Notice]) -> Result<u64, Fault> {
    let start = used(rt)?;
    for notice in notices {
        let _count = scanned(filters, notice);
    }
    each(rt, start, notices.len())
}

/// Nanoseconds of all notices by the matcher.
fn time_round(
    rt: &impl CpuClock,
    matching: &mut Matching,
    notices: &[Notice],
) -> Result<u64, Fault> {
    let start = used(rt)?;
    for notice in notices {
        matching.give(notice)?;
    }
    each(rt, start, notices.len())
}

/// The least nanoseconds a notice by the matcher.
fn time_matcher(
    rt: &impl CpuClock,
    matching: &mut Matching,
    notices: &[Notice],
) -> Result<u64, Fault> {
    let mut least = u64::MAX;
    for _ in 0..ROUNDS {
        least = least.min(time_round(rt, matching, notices)?);
    }
    Ok(least)
}

/// Measures a workload, and prints a line of figures.
fn measure_one(
    rt: &(impl CpuClock + Print),
    alloc: Global,
    workload: &Workload,
) -> Result<(), Fault> {
    let mut maker = Maker::new(alloc, workload.seed, workload.plan)?;
    let filters = filters(alloc, &mut maker, workload, workload.filters)?;
    let notices = notices(alloc, &mut maker, workload.notices)?;
    let scan = time_scan(
        rt,
        &filters,
        &notices[..workload.scanned.min(notices.len())],
    )?;
    let start = used(rt)?;
    let mut matching = Matching::of(alloc, &filters)?;
    let made = each(rt, start, 1)?;
    let matcher = time_matcher(rt, &mut matching, &notices)?;
    println!(rt;
        "{:<8}  {:>8}  {:>8}  {:>10}",
        workload.name, scan, matcher, made
    )?;
    Ok(())
}

/// Measures each workload, and prints a line of nanoseconds of processor time a notice for it.
pub(crate) fn measure(rt: &(impl CpuClock + Print), alloc: Global) -> Result<(), Fault> {
    println!(rt; "workload      scan   matcher   made in all")?;
    for workload in WORKLOADS.as_slice() {
        measure_one(rt, alloc, workload)?;
    }
    Ok(())
}
