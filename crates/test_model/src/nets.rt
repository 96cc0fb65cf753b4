//! A net of three servers, in a line and from phase 1 on in a star around server 1, which is sound.
ghost use Rattle.std.specs.Prelude.{◌≡◌, ◌∷◌, [], IfOk};
ghost use Rattle.net_model.specs.Nets.{first_tree};
ghost use Rattle.net_model.specs.Parts.{client_parts};
ghost use Rattle.net_model.specs.Sound.{HasTrees, IsSound};

use base_tree::Tree;
use filter_text::{read_filter, read_notice};
use filter_values::Name;
use net_model::{Client, Command, Net, Semantics, Turn};
use std::alloc::Global;
use std::rt::HostRuntime;
use std::test::Fail;

// The line, and the star.
fn trees(alloc: Global) -> Result<Vec<(u32, Tree)>, Fail>
    ensures trees { IfOk result (λ v. HasTrees v.items) }
    ensures count { IfOk result (λ v. (first_tree v.items).count ≡ 3) }
{
    let line = Tree::build(alloc, 3, &[(1, 2), (2, 3)])?;
    let star = Tree::build(alloc, 3, &[(1, 2), (1, 3)])?;
    line.lemma_laws();
    star.lemma_laws();
    let mut trees = Vec::new(alloc);
    trees.push((0, line))?;
    trees.push((1, star))?;
    Ok(trees)
}

// A client with one command, in its phase.
fn client(
    alloc: Global,
    name: &[u8],
    home: u32,
    barriers: u32,
    step: (u32, Command),
) -> Result<Client, Fail>
    ensures { IfOk result (λ c. c ≡ client_parts name.now home barriers (step ∷ [])) }
{
    Ok(Client {
        name: Name::read(alloc, name)?,
        home,
        barriers,
        script: vec![in alloc; step]?,
    })
}

// Client a at server 1 subscribes, and client p at server 3 publishes in the next phase.
fn clients(alloc: Global, subscribes: Command, publishes: Command) -> Result<Vec<Client>, Fail>
    ensures { IfOk result (λ v. v.items ≡ client_parts (97 ∷ []) 1 0 ((0, subscribes) ∷ []) ∷ client_parts (112 ∷ []) 3 1 ((1, publishes) ∷ []) ∷ []) }
{
    let mut clients = Vec::new(alloc);
    clients.push(client(alloc, b"a", 1, 0, (0, subscribes))?)?;
    clients.push(client(alloc, b"p", 3, 1, (1, publishes))?)?;
    Ok(clients)
}

// The net of both, with one turn of a schedule.
fn star_net(alloc: Global) -> Result<Net, Fail>
    ensures { IfOk result (λ net. IsSound net) }
{
    let subscribes = Command::Subscribe(read_filter(alloc, b"x int any")?);
    let publishes = Command::Publish(read_notice(alloc, b"x int 1")?);
    let mut schedule = Vec::new(alloc);
    schedule.push((15, Turn::Receive { server: 2, from: 1 }))?;
    Ok(Net {
        version: 2,
        semantics: Semantics::Subscription,
        trees: trees(alloc)?,
        clients: clients(alloc, subscribes, publishes)?,
        schedule,
    })
}

#[test]
fn trees_by_phase(rt: HostRuntime) -> Result<(), Fail> {
    let alloc = rt.alloc();
    let net = star_net(alloc)?;
    assert_eq!(rt; net.phases(), 2);
    let first = net.tree(0);
    assert_eq!(rt; first.servers(), 3);
    let later = net.tree(4095);
    assert_eq!(rt; later.servers(), 3);
    Ok(())
}
