//! Which clients have which filters within a phase, and whom a publication meets.
ghost use Rattle.std.specs.Prelude.{◌≡◌, ◌<◌, ◌≤◌, ◌↔◌, ◌⊎◌, ◌&&◌, ℕ, true, List, Some, [], length, slice_get, IfOk};
ghost use Rattle.std.specs.List.{range_with_len};
ghost use Rattle.base.specs.Sets.{Has};
ghost use Rattle.match_routes.specs.Installed.{IsOfSame};
ghost use Rattle.output_flood.specs.Tables.{ShowsRow, IsBrought, IsRoom, IsNone, AreAllNumbers, AreNoTables, IsReady, IsOfPhase, IsSteady, AreSteady, AreAll, AreTables};
ghost use Rattle.output_flood.specs.Numbers.{Steps};
ghost use Rattle.output_flood.specs.declared.filters.ClientFilters.{ClientFilters};

use crate::filters::ClientFilters;
use base::NoMemory;
use base_bits::Row;
use base_pool::Items;
use filter_covering::Sub;
use filter_text::Lists;
use match_filters::Scratch;
use match_routes::Forwarding;
use net_tables::NumberedCommand;
use std::alloc::Global;

/// The filters of all clients within a phase.
#[derive(Drop)]
pub(crate) struct Tables {
    /// The phase, once there is one.
    pub phase: Option<u32>,
    /// The numbers of those that a client has at every moment of it, each at the client's place.
    pub every: Forwarding,
    /// The same of those that it has at some moment of it.
    pub ever: Forwarding,
    /// The same for each client, as the tables have them.
    pub clients: Vec<ClientFilters>,
    /// Whether it is known that each client has the same filters all through the phase, so that both tables are alike.
    pub steady: bool,
}

/// Rows to work in, each as wide as there are filters.
#[derive(Drop)]
pub(crate) struct Room {
    /// What a client had at every moment, and at some moment.
    pub every: Row,
    pub ever: Row,
    /// What goes or comes.
    pub change: Row,
    /// What a publication matches.
    pub matched: Row,
    /// Where that is counted.
    pub counting: Scratch,
}

/// Room for so many filters.
pub(crate) fn make_room(alloc: Global, count: u32) -> Result<Room, NoMemory>
    ensures { IfOk result (IsRoom count) }
{
    Ok(Room {
        every: Row::new(alloc, count)?,
        ever: Row::new(alloc, count)?,
        change: Row::new(alloc, count)?,
        matched: Row::new(alloc, count)?,
        counting: Scratch::new(alloc),
    })
}

// The places of so many clients.
fn places(alloc: Global, count: u32) -> Result<Vec<u32>, NoMemory>
    ensures { IfOk result (λ places. places.items ≡ range_with_len 0 count) }
{
    let mut places = Vec::with_capacity(alloc, count as usize)?;
    for place in 0..count {
        places.push(place)?;
    }
    Ok(places)
}

// So many clients with no filters.
fn no_clients(alloc: Global, clients: u32, count: u32) -> Result<Vec<ClientFilters>, NoMemory>
    ensures count { IfOk result (λ list. length list.items ≡ clients) }
    ensures none { IfOk result (λ list. (client : ClientFilters) → Has client list.items → IsNone count client) }
{
    let mut list = Vec::with_capacity(alloc, clients as usize)?;
    for _ in 0..clients {
        list.push(ClientFilters::none(alloc, count)?)?;
    }
    Ok(list)
}

// Takes what is in a row out at a place.
fn take_all(table: &mut Forwarding, place: u32, row: &Row)
    requires width { row.now.width ≡ table.old.width }
    requires place { Has place table.old.interfaces }
    ensures same { IsOfSame table.new table.old }
    ensures pairs { (x : ℕ × ℕ) → Has x table.new.pairs ↔ (Has x table.old.pairs × (x.0 ≡ place → Has x.1 row.now.members → ⊥)) }
{
    row.lemma_sorted();
    let mut at = 0;
    while let Some(i) = row.first_from(at) {
        table.take(i, place);
        at = i + 1;
    }
}

// Puts what is in a row in at a place.
fn put_all(table: &mut Forwarding, place: u32, row: &Row)
    requires width { row.now.width ≡ table.old.width }
    requires place { Has place table.old.interfaces }
    ensures same { IsOfSame table.new table.old }
    ensures pairs { (x : ℕ × ℕ) → Has x table.new.pairs ↔ (Has x table.old.pairs ⊎ ((x.0 ≡ place) × Has x.1 row.now.members)) }
{
    row.lemma_sorted();
    let mut at = 0;
    while let Some(i) = row.first_from(at) {
        table.put(i, place);
        at = i + 1;
    }
}

// Brings what a table has at a place from old numbers to new ones.
fn bring(table: &mut Forwarding, place: u32, old: &Row, new: &Row, change: &mut Row)
    requires old { old.now.width ≡ table.old.width }
    requires new { new.now.width ≡ table.old.width }
    requires change { change.old.width ≡ table.old.width }
    requires place { Has place table.old.interfaces }
    requires shown { ShowsRow table.old.pairs place old.now.members }
    ensures same { IsOfSame table.new table.old }
    ensures change { change.new.width ≡ change.old.width }
    ensures brought { IsBrought place new.now.members table.old.pairs table.new.pairs }
{
    change.copy_from(old);
    change.remove_all(new);
    take_all(table, place, change);
    change.copy_from(new);
    change.remove_all(old);
    put_all(table, place, change);
}

// Whether a row has all that another one has.
fn has_all(row: &Row, other: &Row, change: &mut Row) -> bool
    requires row { row.now.width ≡ change.old.width }
    requires other { other.now.width ≡ change.old.width }
    ensures change { change.new.width ≡ change.old.width }
    ensures all { result ≡ true → (i : ℕ) → Has i other.now.members → Has i row.now.members }
{
    change.copy_from(other);
    change.remove_all(row);
    change.is_empty()
}

// Whether two rows have the same numbers.
fn are_same(one: &Row, other: &Row, change: &mut Row) -> bool
    requires one { one.now.width ≡ change.old.width }
    requires other { other.now.width ≡ change.old.width }
    ensures change { change.new.width ≡ change.old.width }
    ensures same { result ≡ true → (i : ℕ) → Has i one.now.members ↔ Has i other.now.members }
{
    has_all(one, other, change) && has_all(other, one, change)
}

// Tables of so many clients before any phase.
fn no_tables(alloc: Global, clients: u32, count: u32) -> Result<Tables, NoMemory>
    ensures { IfOk result (AreNoTables clients count) }
{
    let places = places(alloc, clients)?;
    Ok(Tables {
        phase: None,
        every: Forwarding::new(alloc, count, &places)?,
        ever: Forwarding::new(alloc, count, &places)?,
        clients: no_clients(alloc, clients, count)?,
        steady: false,
    })
}

/// Tables before any phase.
pub(crate) fn first_tables(
    alloc: Global,
    filters: &Items<Sub>,
    scripts: &[Lists<(u32, NumberedCommand)>],
) -> Result<Tables, NoMemory>
    requires few { length filters.now ≤ 4096 }
    requires few_scripts { length scripts.now ≤ 1024 }
    ensures { IfOk result (AreTables filters.now scripts.now) }
{
    no_tables(alloc, scripts.len() as u32, filters.len() as u32)
}

// Lets a client enter a phase, and answers whether it is known that it has the same filters all through it.
fn enter(
    tables: &mut Tables,
    filters: &Items<Sub>,
    scripts: &[Lists<(u32, NumberedCommand)>],
    place: usize,
    phase: u32,
    room: &mut Room,
) -> bool
    requires few_scripts { length scripts.now ≤ 1024 }
    requires numbers { AreAllNumbers (length filters.now) scripts.now }
    requires ready { IsReady filters.now scripts.now tables.old }
    requires place { place < length scripts.now }
    requires room { IsRoom (length filters.now) room.old }
    ensures room { IsRoom (length filters.now) room.new }
    ensures ready { IsReady filters.now scripts.now tables.new }
    ensures others { (q : ℕ) → (q ≡ place → ⊥) → slice_get tables.new.clients.items q ≡ slice_get tables.old.clients.items q }
    ensures mine { (client : ClientFilters) (steps : Steps) → slice_get tables.new.clients.items place ≡ Some client
        → slice_get scripts.now place ≡ Some steps → IsOfPhase filters.now phase steps client }
    ensures steady { result ≡ true → (client : ClientFilters) → slice_get tables.new.clients.items place ≡ Some client → IsSteady client }
{
    room.every.copy_from(&tables.clients[place].every);
    room.ever.copy_from(&tables.clients[place].ever);
    tables.clients[place].enter(filters, scripts[place].as_slice(), phase);
    let client = &tables.clients[place];
    let at = place as u32;
    bring(
        &mut tables.every,
        at,
        &room.every,
        &client.every,
        &mut room.change,
    );
    bring(
        &mut tables.ever,
        at,
        &room.ever,
        &client.ever,
        &mut room.change,
    );
    are_same(&client.every, &client.ever, &mut room.change)
}

/// Makes the tables those of a phase.
pub(crate) fn enter_phase(
    tables: &mut Tables,
    filters: &Items<Sub>,
    scripts: &[Lists<(u32, NumberedCommand)>],
    phase: u32,
    room: &mut Room,
)
    requires few_scripts { length scripts.now ≤ 1024 }
    requires numbers { AreAllNumbers (length filters.now) scripts.now }
    requires tables { AreTables filters.now scripts.now tables.old }
    requires room { IsRoom (length filters.now) room.old }
    ensures room { IsRoom (length filters.now) room.new }
    ensures phase { tables.new.phase ≡ Some phase }
    ensures tables { AreTables filters.now scripts.now tables.new }
{
    if tables.phase == Some(phase) {
        return;
    }
    let mut steady = true;
    for place in 0..scripts.len() {
        let own = enter(tables, filters, scripts, place, phase, room);
        steady &= own;
    }
    tables.steady = steady;
    tables.phase = Some(phase);
}
