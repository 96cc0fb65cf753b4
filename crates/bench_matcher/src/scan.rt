//! Makes filters and notices by a plan, and finds by a plain scan what matches.
ghost use Rattle.std.specs.Prelude.{◌≡◌, length};

use crate::{Fault, Maker, Workload};
use base_bits::Row;
use filter_types::{Filter, Notice, matches};
use match_filters::{Matcher, Scratch};
use std::alloc::Global;

/// So many filters.
pub(crate) fn filters(
    alloc: Global,
    maker: &mut Maker,
    workload: &Workload,
    count: usize,
) -> Result<Vec<Filter>, Fault> {
    let mut filters = Vec::new(alloc);
    for _ in 0..count {
        let _iface = maker.iface(workload.interfaces);
        filters.push(maker.filter()?)?;
    }
    Ok(filters)
}

/// So many notices.
pub(crate) fn notices(
    alloc: Global,
    maker: &mut Maker,
    count: usize,
) -> Result<Vec<Notice>, Fault> {
    let mut notices = Vec::new(alloc);
    for _ in 0..count {
        notices.push(maker.notice()?)?;
    }
    Ok(notices)
}

/// A matcher with what it is given notices by.
#[derive(Drop)]
pub(crate) struct Matching {
    matcher: Matcher,
    scratch: Scratch,
    row: Row,
    ghost wide: { row.width ≡ length matcher },
}

impl Matching {
    /// A matcher of the filters, if they aren't too many.
    pub(crate) fn of(alloc: Global, filters: &[Filter]) -> Result<Matching, Fault> {
        if filters.len() > 4096 {
            return Err(Fault::Usage);
        }
        let matcher = Matcher::of(alloc, filters)?;
        let row = Row::new(alloc, filters.len() as u32)?;
        let scratch = Scratch::new(alloc);
        Ok(Matching {
            matcher,
            scratch,
            row,
        })
    }

    /// Gives a notice to the matcher.
    pub(crate) fn give(&mut self, notice: &Notice) -> Result<(), Fault> {
        self.matcher
            .matched(notice, &mut self.scratch, &mut self.row)?;
        Ok(())
    }

    /// The number of filters of which the last answer isn't what the scan says.
    pub(crate) fn wrong(&self, filters: &[Filter], notice: &Notice) -> usize {
        let mut wrong = 0_usize;
        for (i, filter) in filters.iter().enumerate() {
            let says = i < self.row.width() as usize && self.row.has(i as u32);
            wrong = wrong.saturating_add(usize::from(says != matches(filter, notice)));
        }
        wrong
    }
}

/// How many filters the notice matches, by a test of each.
pub(crate) fn scanned(filters: &[Filter], notice: &Notice) -> usize {
    filters
        .iter()
        .filter(|filter| matches(filter, notice))
        .count()
}
