//! Makes changes in a forwarding table.
ghost use Rattle.std.specs.Prelude.{◌≡◌, nat_lt, fold};
ghost use Rattle.base.specs.Sets.{member, IsRising};
ghost use Rattle.match_routes.specs.Installed.{Pair};
ghost use Rattle.thread_versions.specs.Pairs.{is_known, made};

use match_routes::{Forwarding, TableChange};

/// Whether an interface is one of rising ones.
fn is_there(interfaces: &[u32], interface: u32) -> bool
    requires { IsRising nat_lt interfaces.now }
    ensures { result ≡ member nat_lt interface interfaces.now }
{
    interfaces.binary_search(&interface).is_ok()
}

/// Whether a number is below the width and an interface is one of the server's, which are these.
fn is_known_to(forwarding: &Forwarding, interfaces: &[u32], number: u32, interface: u32) -> bool
    requires { interfaces.now ≡ forwarding.now.interfaces }
    ensures { result ≡ is_known forwarding.now (interface, number) }
{
    forwarding.lemma_bounded();
    number < forwarding.width() && is_there(interfaces, interface)
}

/// Makes a change where it is known, and else nothing. It takes no memory.
fn make(forwarding: &mut Forwarding, interfaces: &[u32], change: TableChange)
    requires { interfaces.now ≡ forwarding.old.interfaces }
    ensures { forwarding.new ≡ made forwarding.old change }
{
    match change {
        TableChange::Put { number, interface } => {
            if is_known_to(forwarding, interfaces, number, interface) {
                forwarding.put(number, interface);
            }
        }
        TableChange::Take { number, interface } => {
            if is_known_to(forwarding, interfaces, number, interface) {
                forwarding.take(number, interface);
            }
        }
    }
}

/// Makes changes, one after the other, where they are known. It takes no memory.
pub(crate) fn make_all(forwarding: &mut Forwarding, interfaces: &[u32], changes: &[TableChange])
    requires { interfaces.now ≡ forwarding.old.interfaces }
    ensures made { forwarding.new ≡ fold made forwarding.old changes.now }
    ensures interfaces { forwarding.new.interfaces ≡ forwarding.old.interfaces }
{
    for change in changes {
        make(forwarding, interfaces, *change);
    }
}
