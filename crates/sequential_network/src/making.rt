//! Makes the turns of a network, whatever its kind: each where it is permitted, and else nothing changes.
ghost use Rattle.std.specs.Prelude.{◌≡◌, ◌≤◌, ◌<◌, ◌↔◌, ℕ, true, false, length, Some, IfOk, OnOk, OnErr, IsTrue};
ghost use Rattle.base.specs.Sets.{Has};
ghost use Rattle.net_model.specs.Nets.{home_of};
ghost use Rattle.net_model.specs.declared.turn.Turn.TheVariants as turns;
ghost use Rattle.net_turns.specs.Sessions.{is_phase_below};
ghost use Rattle.sequential_network.specs.Ruling.{IsSessionAt, MayBegin, RulingLaws};
ghost use Rattle.sequential_network.specs.Seen.{seen, shown};

use crate::ruled::Networked;
use crate::servers::Servers;
use base::NoMemory;
use net_model::Net;
use server_session::Session;

/// Whether a number is in a list.
pub fn is_among(number: u32, list: &[u32]) -> bool
    ensures { IsTrue result ↔ Has number list.now }
{
    list.contains(&number)
}

/// A server receives the next message from another.
pub(crate) fn take<'a, P: Networked<'a>>(
    net: &Net,
    phase: u32,
    servers: &mut Servers<'a, P>,
    server: u32,
    from: u32,
) -> Result<bool, NoMemory>
    requires laws { RulingLaws P.stepping P.trying P.telling P.ruling }
    requires kept { P.ruling.IsKept net.now phase (seen servers.old) }
    ensures turn { IfOk result (λ made. P.trying.IsTurn made (turns.Receive server from) (shown net.now servers.old) (shown net.now servers.new)) }
    ensures kept { P.ruling.IsKept net.now phase (seen servers.new) }
    ensures err { OnErr result (servers.new.journal.entries ≡ servers.old.journal.entries) }
    ensures keeps { servers.new.journal.kept ≡ servers.old.journal.kept }
{
    if !servers.has_server(server) {
        return Ok(false);
    }
    let neighbours = net.tree(P::tree_phase(phase)).neighbours(server);
    if !is_among(from, neighbours) {
        return Ok(false);
    }
    servers.take(server, from, neighbours)
}

/// A server installs what it has pending.
pub(crate) fn update_table<'a, P: Networked<'a>>(
    net: &Net,
    phase: u32,
    servers: &mut Servers<'a, P>,
    server: u32,
) -> Result<bool, NoMemory>
    requires laws { RulingLaws P.stepping P.trying P.telling P.ruling }
    requires kept { P.ruling.IsKept net.now phase (seen servers.old) }
    ensures turn { IfOk result (λ made. P.trying.IsTurn made (turns.TableUpdate server) (shown net.now servers.old) (shown net.now servers.new)) }
    ensures kept { P.ruling.IsKept net.now phase (seen servers.new) }
    ensures err { OnErr result (servers.new.journal.entries ≡ servers.old.journal.entries) }
    ensures keeps { servers.new.journal.kept ≡ servers.old.journal.kept }
{
    if !servers.has_server(server) {
        return Ok(false);
    }
    if servers.places[server as usize - 1].is_calm() {
        return Ok(false);
    }
    servers.update_table(server)?;
    Ok(true)
}

/// The server of a client.
pub fn home(net: &Net, client: u32) -> u32
    requires { (1 ≤ client) × (client ≤ length net.now.clients) }
    ensures { result ≡ home_of net.now client }
{
    net.clients[client as usize - 1].home
}

/// The session of a client.
pub(crate) fn session<'s, 'a, P: Networked<'a>>(
    net: &Net,
    servers: &'s Servers<'a, P>,
    client: u32,
) -> &'s Session<'a>
    requires laws { RulingLaws P.stepping P.trying P.telling P.ruling }
    requires client { (1 ≤ client) × (client ≤ length net.now.clients) }
    requires kept { (phase : ℕ) × P.ruling.IsKept net.now phase (seen servers.now) }
    ensures { IsSessionAt net.now client (P.ruling.executed_by net.now servers.now.journal.entries client)
        (P.ruling.received_by net.now servers.now.journal.entries client) result.now.session }
{
    let home = home(net, client);
    servers.places[home as usize - 1].session(client)
}

/// The phase of a client's next command; `None` where it has none left.
pub(crate) fn next_phase<'a, P: Networked<'a>>(
    net: &Net,
    servers: &Servers<'a, P>,
    client: u32,
) -> Option<u32>
    requires laws { RulingLaws P.stepping P.trying P.telling P.ruling }
    requires client { (1 ≤ client) × (client ≤ length net.now.clients) }
    requires kept { (phase : ℕ) × P.ruling.IsKept net.now phase (seen servers.now) }
    ensures { result ≡ P.trying.next_phase_by net.now servers.now.journal.entries client }
{
    let (phase, _) = session(net, servers, client).next()?;
    Some(phase)
}

/// A client's next command.
pub(crate) fn command<'a, P: Networked<'a>>(
    net: &Net,
    phase: &mut u32,
    servers: &mut Servers<'a, P>,
    client: u32,
) -> Result<bool, NoMemory>
    requires laws { RulingLaws P.stepping P.trying P.telling P.ruling }
    requires kept { P.ruling.IsKept net.now phase.old (seen servers.old) }
    ensures turn { IfOk result (λ made. P.trying.IsTurn made (turns.Command client) (shown net.now servers.old) (shown net.now servers.new)) }
    ensures kept { P.ruling.IsKept net.now phase.new (seen servers.new) }
    ensures err { OnErr result (servers.new.journal.entries ≡ servers.old.journal.entries) }
    ensures keeps { servers.new.journal.kept ≡ servers.old.journal.kept }
{
    if client == 0 || client as usize > net.clients.len() {
        return Ok(false);
    }
    let Some(own) = next_phase(net, servers, client) else {
        return Ok(false);
    };
    if own == *phase {
        command_of_phase(net, own, servers, client)?;
        return Ok(true);
    }
    if own < *phase {
        return Ok(false);
    }
    if !servers.is_quiet() {
        return Ok(false);
    }
    if !none_below(net, servers, own) {
        return Ok(false);
    }
    first_command(net, *phase, servers, client, own)?;
    *phase = own;
    Ok(true)
}

/// A client's next command, which is of the phase in hand.
fn command_of_phase<'a, P: Networked<'a>>(
    net: &Net,
    phase: u32,
    servers: &mut Servers<'a, P>,
    client: u32,
) -> Result<(), NoMemory>
    requires kept { P.ruling.IsKept net.now phase (seen servers.old) }
    requires client { (1 ≤ client) × (client ≤ length net.now.clients) }
    requires next { P.trying.next_phase_by net.now servers.old.journal.entries client ≡ Some phase }
    ensures made { OnOk result (P.trying.IsTurn true (turns.Command client) (shown net.now servers.old) (shown net.now servers.new)) }
    ensures kept { P.ruling.IsKept net.now phase (seen servers.new) }
    ensures err { OnErr result (servers.new.journal.entries ≡ servers.old.journal.entries) }
    ensures keeps { servers.new.journal.kept ≡ servers.old.journal.kept }
{
    P::lemma_laws();
    let home = home(net, client);
    let neighbours = net.tree(P::tree_phase(phase)).neighbours(home);
    servers.command(home, client, neighbours)
}

/// A client's next command, which begins a later phase. All that is new for the phase is made first, and goes back where
/// the command finds no memory.
fn first_command<'a, P: Networked<'a>>(
    net: &Net,
    last: u32,
    servers: &mut Servers<'a, P>,
    client: u32,
    own: u32,
) -> Result<(), NoMemory>
    requires kept { P.ruling.IsKept net.now last (seen servers.old) }
    requires client { (1 ≤ client) × (client ≤ length net.now.clients) }
    requires next { P.trying.next_phase_by net.now servers.old.journal.entries client ≡ Some own }
    requires may { MayBegin P.stepping P.trying net.now last own (seen servers.old) }
    ensures made { OnOk result (P.trying.IsTurn true (turns.Command client) (shown net.now servers.old) (shown net.now servers.new)) }
    ensures kept { OnOk result (P.ruling.IsKept net.now own (seen servers.new)) }
    ensures err { OnErr result (P.ruling.IsKept net.now last (seen servers.new) × (servers.new.journal.entries ≡ servers.old.journal.entries)) }
    ensures keeps { servers.new.journal.kept ≡ servers.old.journal.kept }
{
    P::lemma_laws();
    let home = home(net, client);
    let before = P::begin(servers, last, own)?;
    let neighbours = net.tree(P::tree_phase(own)).neighbours(home);
    if let Err(fault) = servers.command(home, client, neighbours) {
        P::take_back(servers, before);
        return Err(fault);
    }
    Ok(())
}

/// Whether no client has a command of a lower phase left.
fn none_below<'a, P: Networked<'a>>(net: &Net, servers: &Servers<'a, P>, own: u32) -> bool
    requires laws { RulingLaws P.stepping P.trying P.telling P.ruling }
    requires kept { (phase : ℕ) × P.ruling.IsKept net.now phase (seen servers.now) }
    ensures { IsTrue result ↔ ((client : ℕ) → 1 ≤ client → client ≤ length net.now.clients
        → is_phase_below (P.trying.next_phase_by net.now servers.now.journal.entries client) own ≡ false) }
{
    for client in 1..=net.clients.len() as u32 {
        if is_below(next_phase(net, servers, client), own) {
            return false;
        }
    }
    true
}

/// Whether a next command is of a lower phase.
pub fn is_below(next: Option<u32>, own: u32) -> bool
    ensures { result ≡ is_phase_below next own }
{
    match next {
        Some(phase) => phase < own,
        None => false,
    }
}
