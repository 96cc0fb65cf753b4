//! What a server has installed from which interface, with a row of the interfaces' places for each number: a route joins the
//! rows of the matched numbers. Numbers that were ever installed are marked, so that a route looks at no other one.
use crate::places::{at_places, is_there, place};
use crate::route::Route;
use crate::table_change::TableChange;
use base::NoMemory;
use base_bits::{Grid, Row, Set};
use std::alloc::Global;
use std::marker::Model;

/// Which numbers are installed from which interface: a set of pairs.
#[derive(Drop)]
pub struct Forwarding {
    width: u32,
    interfaces: Vec<u32>,
    columns: Grid,
    present: Row,
}

impl Model for Forwarding {
    ghost use Rattle.std.specs.Prelude.{◌≡◌, length};
    ghost use Rattle.match_routes.specs.Installed.{Installed};
    ghost use Rattle.match_routes.specs.Columns.{installed_by, AreColumns, ArePresent};

    ghost Value = { Installed };

    ghost view = { λ f. installed_by f.width f.interfaces.items f.columns.rows };

    ghost invariant = { λ f. AreColumns f.width f.interfaces.items f.columns.rows × (f.columns.width ≡ length f.interfaces.items)
        × ArePresent f.width f.present f.columns.rows };
}

impl Forwarding {
    ghost use Rattle.std.specs.Prelude.{◌≡◌, ◌<◌, ◌∷◌, ◌^◌, [], true, not, nat_lt, length, IfOk};
    ghost use Rattle.base.specs.Sets.{member, put_in, minus, IsRising};
    ghost use Rattle.match_routes.specs.Installed.{pair_before, IsKnown, IsOfSame, IsInstalled, AreKnown};
    ghost use Rattle.match_routes.specs.Installed.{pair_in, changed, all_changed};
    ghost use Rattle.match_routes.specs.Routes.{IsRouteBy};

    /// Nothing is installed from these interfaces, which rise. Numbers will be below the width.
    pub fn new(alloc: Global, width: u32, interfaces: &[u32]) -> Result<Forwarding, NoMemory>
        requires rising { IsRising nat_lt interfaces.now }
        requires few { length interfaces.now < 2 ^ 32 }
        ensures width { IfOk result (λ f. f.width ≡ width) }
        ensures interfaces { IfOk result (λ f. f.interfaces ≡ interfaces.now) }
        ensures pairs { IfOk result (λ f. f.pairs ≡ []) }
    {
        let count = interfaces.len() as u32;
        let columns = Grid::new(alloc, width, count)?;
        let present = Row::new(alloc, width)?;
        let interfaces = Vec::from_slice(alloc, interfaces)?;
        Ok(Forwarding {
            width,
            interfaces,
            columns,
            present,
        })
    }

    /// Does nothing; its contract says what each forwarding keeps: its lists rise, and its pairs are of its interfaces and
    /// of numbers below its width.
    pub fn lemma_bounded(&self)
        ensures { IsInstalled self.now }
    {
        let _ = &self.columns;
    }

    /// Below which number all numbers are.
    pub fn width(&self) -> u32
        ensures { result ≡ self.now.width }
    {
        self.width
    }

    /// Whether the number is below the width and the interface is one of the server's.
    pub fn knows(&self, number: u32, interface: u32) -> bool
        ensures { result ≡ true → IsKnown self.now (interface, number) }
    {
        if number >= self.width {
            return false;
        }
        is_there(&self.interfaces, interface)
    }

    /// Installs a number from an interface, and answers whether it was not yet. It takes no memory.
    pub fn put(&mut self, number: u32, interface: u32) -> bool
        requires { IsKnown self.old (interface, number) }
        ensures fresh { result ≡ not (member pair_before (interface, number) self.old.pairs) }
        ensures same { IsOfSame self.new self.old }
        ensures pairs { self.new.pairs ≡ put_in pair_before (interface, number) self.old.pairs }
    {
        let place = place(&self.interfaces, interface) as u32;
        self.present.insert(number);
        self.columns.insert(number, place)
    }

    /// Removes a number that is installed from an interface, and answers whether it did. It takes no memory.
    pub fn take(&mut self, number: u32, interface: u32) -> bool
        requires { IsKnown self.old (interface, number) }
        ensures had { result ≡ member pair_before (interface, number) self.old.pairs }
        ensures same { IsOfSame self.new self.old }
        ensures pairs { self.new.pairs ≡ minus pair_before self.old.pairs ((interface, number) ∷ []) }
    {
        let place = place(&self.interfaces, interface) as u32;
        self.columns.remove(number, place)
    }

    /// Makes a change. It takes no memory.
    fn change(&mut self, change: TableChange)
        requires { IsKnown self.old (pair_in change) }
        ensures same { IsOfSame self.new self.old }
        ensures pairs { self.new.pairs ≡ changed change self.old.pairs }
    {
        match change {
            TableChange::Put { number, interface } => {
                self.put(number, interface);
            }
            TableChange::Take { number, interface } => {
                self.take(number, interface);
            }
        }
    }

    /// Makes changes, one after the other. It takes no memory.
    pub fn apply(&mut self, changes: &[TableChange])
        requires { AreKnown self.old changes.now }
        ensures same { IsOfSame self.new self.old }
        ensures pairs { self.new.pairs ≡ all_changed changes.now self.old.pairs }
    {
        for change in changes {
            self.change(*change);
        }
    }

    /// The interfaces from which some of these numbers is installed. It takes memory for its answer.
    pub fn route(&self, alloc: Global, matched: &Set<'_>) -> Result<Route, NoMemory>
        requires { matched.now.width ≡ self.now.width }
        ensures { IfOk result (IsRouteBy matched.now.members self.now.pairs) }
    {
        matched.lemma_sorted();
        let places = self.columns.joined(alloc, matched, &self.present)?;
        Ok(Route::to(at_places(&self.interfaces, places)))
    }
}
