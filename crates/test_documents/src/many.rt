//! Prints catalogues of many filters: all the same, and each covering the next.
ghost use Rattle.std.specs.Prelude.{◌≡◌, IfOk};
ghost use Rattle.net_model.specs.Sound.{IsSound};

use crate::sound::net;
use base_bits::Row;
use base_order::Order;
use filter_covering::Sub;
use net_model::Net;
use net_tables::Catalogue;
use std::alloc::Global;
use test_support::Failure;

/// A document of one client with so many subscriptions to a number above some bound: above 0, or each above the next.
fn document(alloc: Global, count: u32, is_same: bool) -> Result<Vec<u8>, Failure> {
    let mut text = format!(in alloc;
        "siena 1\nsemantics subscription\nservers 1\nclient a 1\nscript a\n"
    )?;
    for k in 0..count {
        let bound = if is_same { 0 } else { k };
        let line = format!(in alloc; "subscribe x int > {bound}\n")?;
        text.push_str(&line)?;
    }
    Ok(text.into_bytes())
}

/// The row of all numbers below one.
fn all(alloc: Global, count: u32) -> Result<Row, Failure>
    ensures { IfOk result (λ row. row.width ≡ count) }
{
    let mut row = Row::new(alloc, count)?;
    for i in 0..count {
        row.insert(i);
    }
    Ok(row)
}

/// The roots of all items of an order.
fn roots_of(alloc: Global, order: &Order<Sub>) -> Result<Vec<u32>, Failure> {
    let need = all(alloc, order.count())?;
    let mut roots = Row::new(alloc, order.count())?;
    order.roots(&need, &mut roots);
    Ok(roots.members(alloc)?)
}

/// Prints how many filters there are, and the roots of all of them.
fn print_order(
    rt: &impl Print,
    alloc: Global,
    name: &str,
    order: &Order<Sub>,
) -> Result<(), Failure> {
    print!(rt; "{name}: {} filters, roots", order.count())?;
    for root in &roots_of(alloc, order)? {
        print!(rt; " {root}")?;
    }
    println!(rt)?;
    Ok(())
}

/// Prints the same of the filters of a net.
fn print_roots(rt: &impl Print, alloc: Global, name: &str, net: &Net) -> Result<(), Failure>
    requires { IsSound net.now }
{
    let catalogue = Catalogue::of(alloc, net)?;
    let order = catalogue.filter_order(alloc)?;
    print_order(rt, alloc, name, &order)
}

/// Prints the roots of 4,096 equal filters, and of 200 of which each covers the next.
pub fn print_many(rt: &impl Print, alloc: Global) -> Result<(), Failure> {
    let equal = document(alloc, 4096, true)?;
    print_roots(rt, alloc, "Equal filters", &net(alloc, &equal)?)?;
    let chain = document(alloc, 200, false)?;
    print_roots(rt, alloc, "Each covers the next", &net(alloc, &chain)?)?;
    println!(rt)?;
    Ok(())
}
