//! Collects the clients of a document with their scripts, found by name.
ghost use Rattle.std.specs.Prelude.{◌≡◌, ◌∷◌, ◌++◌, [], ◌<◌, ◌≤◌, None, OnOk, OnErr, IfOk, IfSome, length, map};
ghost use Rattle.filter_values.specs.Name.{IsName};
ghost use Rattle.document_reader.specs.Net.{client_of};
ghost use Rattle.document_reader.specs.Drafts.{barriers_at, begun, changed_at, client_at, has_script, scriptless, with_barrier, with_command};

use crate::draft::Draft;
use crate::names::Names;
use base::NoMemory;
use filter_text::{Command, known_name};
use net_model::Client;
use std::alloc::Global;
use std::marker::Model;

/// The clients so far, each with its script so far; contracts see the list. Names differ, and are found by their hash.
#[derive(Drop)]
pub struct Clients {
    names: Names,
    drafts: Vec<Draft>,
}

impl Model for Clients {
    ghost use Rattle.std.specs.Prelude.{List};
    ghost use Rattle.document_reader.specs.declared.draft.Draft.{Draft as Drafted};
    ghost use Rattle.document_reader.specs.Drafts.{AreNamesOf};

    ghost Value = { List Drafted };

    ghost view = { λ c. c.drafts.items };

    ghost invariant = { λ c. AreNamesOf c.names c.drafts.items };
}

// A client without a script.
fn scriptless(alloc: Global, name: &[u8], home: u32) -> Result<Draft, NoMemory>
    requires { IsName name.now }
    ensures { IfOk result (λ d. d ≡ scriptless name.now home) }
{
    Ok(Draft {
        client: Client {
            name: known_name(alloc, name)?,
            home,
            barriers: 0,
            script: Vec::new(alloc),
        },
        has_script: false,
    })
}

// One barrier more.
fn add_barrier(draft: &mut Draft)
    requires { draft.old.client.barriers < 4095 }
    ensures { draft.new ≡ with_barrier draft.old }
{
    draft.client.barriers += 1;
}

// One command more.
fn add_command(draft: &mut Draft, command: Command) -> Result<(), NoMemory>
    ensures ok { OnOk result (draft.new ≡ with_command command draft.old) }
    ensures err { OnErr result (draft.new ≡ draft.old) }
{
    draft.client.script.push((draft.client.barriers, command))?;
    Ok(())
}

// The clients in order.
fn clients_of(alloc: Global, drafts: Vec<Draft>) -> Result<Vec<Client>, NoMemory>
    ensures { IfOk result (λ clients. clients.items ≡ map client_of drafts.items) }
{
    let mut clients = Vec::with_capacity(alloc, drafts.len())?;
    for draft in drafts {
        clients.push(draft.client)?;
    }
    Ok(clients)
}

impl Clients {
    /// No client.
    pub fn new(alloc: Global) -> Clients
        ensures { result ≡ [] }
    {
        Clients {
            names: Names::new(alloc),
            drafts: Vec::new(alloc),
        }
    }

    /// How many there are.
    pub fn count(&self) -> usize
        ensures value { result ≡ length self.now }
        ensures few { result ≤ 1024 }
    {
        self.drafts.len()
    }

    /// The place of the client with this name, from 0.
    pub fn find(&self, name: &[u8]) -> Option<usize>
        ensures value { result ≡ client_at self.now name.now }
        ensures within { IfSome result (λ place. place < 1024) }
    {
        self.names.place(name)
    }

    /// One client more, without a script.
    pub fn add(&mut self, alloc: Global, name: &[u8], home: u32) -> Result<(), NoMemory>
        requires name { IsName name.now }
        requires new { client_at self.old name.now ≡ None }
        requires room { length self.old < 1024 }
        ensures { OnOk result (self.new ≡ self.old ++ scriptless name.now home ∷ []) }
    {
        let draft = scriptless(alloc, name, home)?;
        self.drafts.reserve(1)?;
        self.names.add(alloc, name)?;
        self.drafts.push(draft)?;
        Ok(())
    }

    /// Whether the client at this place has a script.
    pub fn has_script(&self, place: usize) -> bool
        ensures { result ≡ has_script self.now place }
    {
        match self.drafts.get(place) {
            Some(draft) => draft.has_script,
            None => false,
        }
    }

    /// How many barriers the script of the client at this place has.
    pub fn barriers(&self, place: usize) -> u32
        ensures { result ≡ barriers_at self.now place }
    {
        match self.drafts.get(place) {
            Some(draft) => draft.client.barriers,
            None => 0,
        }
    }

    /// The script of the client at this place begins.
    pub fn begin_script(&mut self, place: usize)
        ensures { self.new ≡ changed_at place begun self.old }
    {
        if place < self.drafts.len() {
            self.drafts[place].has_script = true;
        }
    }

    /// One barrier more in the script of the client at this place.
    pub fn add_barrier(&mut self, place: usize)
        requires { barriers_at self.old place < 4095 }
        ensures { self.new ≡ changed_at place with_barrier self.old }
    {
        if place < self.drafts.len() {
            add_barrier(&mut self.drafts[place]);
        }
    }

    /// One command more in the script of the client at this place.
    pub fn add_command(&mut self, place: usize, command: Command) -> Result<(), NoMemory>
        ensures { OnOk result (self.new ≡ changed_at place (with_command command) self.old) }
    {
        if place < self.drafts.len() {
            add_command(&mut self.drafts[place], command)?;
        }
        Ok(())
    }

    /// The clients in order, given away.
    pub fn into_clients(self, alloc: Global) -> Result<Vec<Client>, NoMemory>
        ensures { IfOk result (λ clients. clients.items ≡ map client_of self) }
    {
        clients_of(alloc, self.drafts)
    }
}
