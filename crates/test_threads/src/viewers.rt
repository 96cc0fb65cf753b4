//! Viewers find routes beside a publisher, in one thread and in two.
ghost use Rattle.std.specs.Prelude.{◌≡◌, [], ◌∷◌, IfOk};
ghost use Rattle.thread_versions.specs.Ends.{forwarding_of, width_of, IsViewerOf};

use base::NoMemory;
use base_bits::Row;
use match_routes::TableChange;
use std::alloc::Global;
use std::rt::HostRuntime;
use std::sync::Wait;
use std::test::Fail;
use std::thread::join_mut;
use thread_versions::{Publisher, Viewer, agree, match_ahead, versions};

// The number 7 is installed from interface 65 from now on.
const PUT: TableChange = TableChange::Put {
    number: 7,
    interface: 65,
};

// And no longer.
const TAKE: TableChange = TableChange::Take {
    number: 7,
    interface: 65,
};

// The set of the numbers 3 and 7, of 9.
fn matched(alloc: Global) -> Result<Row, NoMemory>
    ensures { IfOk result (λ row. row.width ≡ 9) }
{
    let mut row = Row::new(alloc, 9)?;
    row.insert(3);
    row.insert(7);
    Ok(row)
}

// A publisher of 9 numbers from the interfaces 2 and 65, and its one viewer.
fn pair<R: Wait>(alloc: Global, rt: &R) -> Result<(Publisher, Viewer), Fail>
    ensures viewer { IfOk result (λ r. IsViewerOf r.0 r.1) }
    ensures forwarding { IfOk result (λ r. forwarding_of r.0 ≡ record { width = 9; interfaces = 2 ∷ 65 ∷ []; pairs = [] }) }
{
    let (publisher, mut viewers) = versions(alloc, rt, 9, &[2, 65], 1)?;
    match viewers.pop() {
        Some(viewer) => Ok((publisher, viewer)),
        None => {
            publisher.end(rt);
            Err(Fail::new("no viewer"))
        }
    }
}

// A match before a table update does not agree with it, and one after it does.
fn one_change<R: Wait>(
    alloc: Global,
    rt: &R,
    publisher: &mut Publisher,
    viewer: &mut Viewer,
) -> Result<bool, Fail>
    requires viewer { IsViewerOf publisher.old viewer.old }
    requires forwarding { forwarding_of publisher.old ≡ record { width = 9; interfaces = 2 ∷ 65 ∷ []; pairs = [] } }
{
    let row = matched(alloc)?;
    let other = Row::new(alloc, 9)?;
    publisher.stage(PUT)?;
    let early = match_ahead(alloc, rt, viewer, &row.as_set())?;
    let shown = publisher.publish(rt)?;
    let told = !agree(publisher, viewer, &early);
    let late = match_ahead(alloc, rt, viewer, &row.as_set())?;
    let agrees = agree(publisher, viewer, &late);
    let route = publisher.route(alloc, &row.as_set())?;
    let nothing = !publisher.publish(rt)?;
    Ok(
        early.seen() == 0
            && early.route().interfaces().is_empty()
            && shown
            && told
            && late.seen() == 1
            && late.route().interfaces() == [65].as_slice()
            && agrees
            && late.is_of(&row.as_set())
            && !late.is_of(&other.as_set())
            && route.interfaces() == [65].as_slice()
            && nothing,
    )
}

#[test]
fn a_match_before_a_publish_and_one_after(rt: HostRuntime) -> Result<(), Fail> {
    let alloc = rt.alloc();
    let (mut publisher, mut viewer) = pair(alloc, &rt)?;
    let told = one_change(alloc, &rt, &mut publisher, &mut viewer);
    publisher.end(&rt);
    assert!(rt; told?);
    Ok(())
}

// Makes so many table updates: the number is installed and removed in turn.
fn publish_in_turn<R: Wait>(rt: &R, publisher: &mut Publisher, times: u64) -> Result<(), NoMemory>
    requires width { (forwarding_of publisher.old).width ≡ 9 }
    requires interfaces { (forwarding_of publisher.old).interfaces ≡ 2 ∷ 65 ∷ [] }
{
    for i in 0..times {
        if i % 2 == 0 {
            publisher.stage(PUT)?;
        } else {
            publisher.stage(TAKE)?;
        }
        publisher.publish(rt)?;
    }
    Ok(())
}

// Whether so many matches ahead each have the route of their number: interface 65 where it is odd, else nothing.
fn match_often<R: Wait>(
    alloc: Global,
    rt: &R,
    viewer: &mut Viewer,
    row: &Row,
    times: u64,
) -> Result<bool, NoMemory>
    requires { row.now.width ≡ width_of viewer.old }
{
    for _ in 0..times {
        let ahead = match_ahead(alloc, rt, viewer, &row.as_set())?;
        let is_odd = ahead.seen() % 2 == 1;
        let interfaces = ahead.route().interfaces();
        if is_odd != (interfaces == [65].as_slice()) || is_odd == interfaces.is_empty() {
            return Ok(false);
        }
    }
    Ok(true)
}

#[test]
fn a_thousand_matches_beside_a_hundred_publications(rt: HostRuntime) -> Result<(), Fail> {
    let alloc = rt.alloc();
    let row = matched(alloc)?;
    let (mut publisher, mut viewer) = pair(alloc, &rt)?;
    let (found, installed) = join_mut(
        &rt,
        &mut || match_often(alloc, &rt, &mut viewer, &row, 1000),
        &mut || publish_in_turn(&rt, &mut publisher, 100),
    );
    let count = publisher.count();
    publisher.end(&rt);
    installed?;
    assert!(rt; found? && count == 100);
    Ok(())
}

// What one viewer saw too early the other can tell, and has then seen what is installed.
fn early_and_late<R: Wait>(
    alloc: Global,
    rt: &R,
    publisher: &mut Publisher,
    first: &mut Viewer,
    second: &mut Viewer,
) -> Result<bool, Fail>
    requires first { IsViewerOf publisher.old first.old }
    requires second { IsViewerOf publisher.old second.old }
    requires forwarding { forwarding_of publisher.old ≡ record { width = 9; interfaces = 2 ∷ 65 ∷ []; pairs = [] } }
{
    let row = matched(alloc)?;
    publisher.stage(PUT)?;
    let early = match_ahead(alloc, rt, first, &row.as_set())?;
    publisher.publish(rt)?;
    let told = !agree(publisher, second, &early);
    let late = match_ahead(alloc, rt, second, &row.as_set())?;
    Ok(told && early.seen() == 0 && late.seen() == 1 && agree(publisher, first, &late))
}

#[test]
fn two_viewers_outlive_their_publisher(rt: HostRuntime) -> Result<(), Fail> {
    let alloc = rt.alloc();
    let (mut publisher, mut viewers) = versions(alloc, &rt, 9, &[2, 65], 2)?;
    let told = match viewers.as_mut_slice() {
        [first, second] => early_and_late(alloc, &rt, &mut publisher, first, second),
        _ => Ok(false),
    };
    publisher.end(&rt);
    assert!(rt; told? && viewers.len() == 2);
    Ok(())
}
