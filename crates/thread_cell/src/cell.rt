//! The type of a cell: one server between two threads.
ghost use Rattle.std.specs.Prelude.{◌≡◌};

use crate::asked::turn_held;
use crate::choice::Matched;
use crate::coming::next_of;
use crate::held::{Root, ServerInHand};
use crate::link::Link;
use crate::looking::look_from;
use crate::naming::{are_neighbours, lives_at};
use crate::phases::is_through;
use crate::rehanging::put_on;
use crate::turned::Turned;
use base::NoMemory;
use net_journal::Journal;
use net_model::{Act, Entry, Net};
use net_tables::Tables;
use server_control::HeldLink;
use server_core::{Core, StepFault};
use server_flow::trees_come;
use std::alloc::Global;
use std::marker::Model;
use std::snapshot::Snapshot;
use std::sync::Wait;
use thread_lock::Standing;
use thread_versions::{Ahead, Publisher, Viewer, agree};

/// One server with everything that it needs between two threads: its core, its lanes, its publisher and its journal.
///
/// Contracts see what stays while a phase lasts, the journal, and what is in hand. What was in hand as the phase was
/// entered, with the entries since then replayed, is always what is in hand now. It isn't `Drop`: end it.
pub struct Cell<'a> {
    pub(crate) alloc: Global,
    pub(crate) tables: &'a Tables<'a>,
    pub(crate) root: Root<'a>,
    pub(crate) held: ServerInHand<'a>,
    pub(crate) journal: Journal,
}

impl<'a> Model for Cell<'a> {
    ghost use Rattle.std.specs.Prelude.{◌≡◌};
    ghost use Rattle.thread_cell.specs.Cell.{CellParts, IsKept, cell_parts};

    ghost Value = { CellParts };

    ghost view = { λ c. cell_parts c.root c.journal.entries c.held };

    ghost invariant = { λ c. IsKept c.tables.now c.root c.journal.entries c.held × (c.journal.kept ≡ c.root.keeps) };
}

impl<'a> Standing for Cell<'a> {
    type Root = Root<'a>;

    type Item = Entry;

    ghost root = { λ c. c.root };

    ghost list = { λ c. c.journal };
}

impl<'a> Cell<'a> {
    ghost use Rattle.std.specs.Prelude.{◌≡◌, ◌≤◌, ◌<◌, ◌^◌, ℕ, true, [], length, map, IfOk, IfSome, OnOk, OnErr, IsErrOf, IsTrue, ◌↔◌};
    ghost use Rattle.base_tree.specs.Tree.{links_of};
    ghost use Rattle.law_routing.specs.Routing.{empty_server};
    ghost use Rattle.law_phases.specs.Trees.{is_one_tree, net_at};
    ghost use Rattle.net_model.specs.Real.{real};
    ghost use Rattle.net_model.specs.Nets.{phased_net, topology_at};
    ghost use Rattle.net_model.specs.Sound.{IsSound};
    ghost use Rattle.server_core.specs.Core.{RepresentsServer};
    ghost use Rattle.server_control.specs.Held.{held_in, AreHeldIn};
    ghost use Rattle.thread_cell.specs.Kept.{IsWideFor};
    ghost use Rattle.thread_cell.specs.Cell.{IsKept, HasEntered, HasNoneBelow};
    ghost use Rattle.thread_cell.specs.Turns.{IsStill};
    ghost use Rattle.thread_versions.specs.Ends.{pending, installed, forwarding_of, IsAheadBy, IsSameViewer, IsViewerOf};
    ghost use Rattle.filter_text.specs.MessageText.{Each};
    ghost use Rattle.thread_cell.specs.Lanes.{IsNew};
    ghost use Rattle.thread_cell.specs.Started.{IsFreshCell};
    ghost use Rattle.thread_cell.specs.Asked.{Answers, IsWorn, Suits};
    ghost use Rattle.thread_cell.specs.Ahead.{AnswersAhead, AnswersBy, IsJudged};
    ghost use Rattle.thread_cell.specs.Looking.{IsLookedFor};
    ghost use Rattle.thread_cell.specs.Coming.{AreFrom, IsOfSome};
    ghost use Rattle.thread_cell.specs.Relinking.{CanMove, HasMoved};
    ghost use Rattle.thread_cell.specs.Entered.{IsSameCell};

    /// The cell of a server in phase 0 before its first step.
    pub(crate) fn fresh(
        alloc: Global,
        tables: &'a Tables<'a>,
        server: u32,
        core: Core<'a>,
        links: Vec<Link>,
        publisher: Publisher,
        viewer: &Viewer,
        keeps: bool,
    ) -> Cell<'a>
        requires sound { IsSound tables.now }
        requires server { core.server ≡ server }
        requires run { core.net ≡ tables.now }
        requires state { RepresentsServer (net_at real (phased_net tables.now) 0) core (empty_server real (net_at real (phased_net tables.now) 0)) }
        requires clock { core.clock ≡ 0 }
        requires names { map (λ link. link.neighbour) links.items ≡ links_of (topology_at tables.now 0) server }
        requires new { Each IsNew links.items }
        requires publisher { (pending publisher ≡ []) × (installed publisher ≡ []) }
        requires wide { IsWideFor core (forwarding_of publisher) }
        requires viewer { IsViewerOf publisher viewer.now }
        ensures fresh { IsFreshCell tables.now server links.items result }
        ensures keeps { result.root.keeps ≡ keeps }
        ensures viewer { result.root.viewer.value ≡ viewer.now }
    {
        let journal = Journal::new(alloc, keeps);
        let root = Root {
            net: Snapshot::of(tables.net()),
            server,
            phase: 0,
            keeps,
            before: Snapshot::of(&journal),
            core: Snapshot::of(&core),
            links: Snapshot::of(&links),
            viewer: Snapshot::of(viewer),
        };
        let held = ServerInHand {
            core,
            links,
            publisher,
            handed: Vec::new(alloc),
        };
        Cell {
            alloc,
            tables,
            root,
            held,
            journal,
        }
    }

    /// Ends the cell with its publisher. It may wait for a viewer that is inside a match.
    pub fn end<R: Wait>(self, rt: &R) {
        let _parts = self.into_parts(rt);
    }

    /// Its core and its journal, where nothing else is wanted any more. It ends the publisher as [`Cell::end`] does.
    pub fn into_parts<R: Wait>(self, rt: &R) -> (Core<'a>, Journal)
        ensures core { result.0 ≡ self.entry.held.core }
        ensures journal { result.1.entries ≡ self.entry.journal }
        ensures kept { result.1.kept ≡ self.entry.root.keeps }
    {
        let Cell {
            alloc: _,
            tables: _,
            root: _root,
            held,
            journal,
        } = self;
        let ServerInHand {
            core,
            links: _links,
            publisher,
            handed: _handed,
        } = held;
        publisher.end(rt);
        (core, journal)
    }

    /// What the type keeps: the entries since the cell entered its phase, replayed from what it had in hand then, lead
    /// to what it has in hand.
    pub fn lemma_kept(&self)
        ensures { IsKept self.now.root.net.value self.now.root self.now.journal self.now.held }
    {
        let _held = &self.held;
    }

    /// Its phase.
    pub fn phase(&self) -> u32
        ensures { result ≡ self.now.root.phase }
    {
        self.root.phase
    }

    /// Its net.
    pub(crate) fn net(&self) -> &'a Net
        ensures { result.now ≡ self.now.root.net.value }
    {
        self.tables.net()
    }

    /// The number of its server.
    pub(crate) fn number(&self) -> u32
        ensures { result ≡ self.now.root.server }
    {
        self.root.server
    }

    /// Its core.
    pub fn core(&self) -> &Core<'a>
        ensures { result.now ≡ self.now.held.core }
    {
        &self.held.core
    }

    /// Its journal.
    pub fn journal(&self) -> &Journal
        ensures entries { result.now.entries ≡ self.now.journal }
        ensures kept { result.now.kept ≡ self.now.root.keeps }
    {
        &self.journal
    }

    /// One step, where there is one to make. After a made step each putting end stands as a flush leaves it. After a fault the
    /// cell is as before, but that an unchanged part of a lane may have moved along it, and some of what is pending may have
    /// been handed to the publisher, which has installed none of it. It may wait as a table update or a reception may.
    pub fn turn<R: Wait>(&mut self, rt: &R, what: Act) -> Result<Turned, StepFault>
        requires suits { Suits what self.old.root }
        ensures root { self.new.root ≡ self.old.root }
        ensures answers { IfOk result (Answers self.old.root.phase what self.old.held self.new.held self.old.journal self.new.journal) }
        ensures still { OnErr result (IsStill self.old.held self.new.held self.old.journal self.new.journal) }
        ensures worn { (s : ℕ) → IsErrOf result (StepFault.StampsExhausted s) → IsWorn what s self.old.held self.new.held }
    {
        self.turn_by(rt, what, None)
    }

    /// The same with a route that was matched ahead, which is used exactly where its numbers are those that the
    /// step's publication matches, and it had seen all
    /// that is installed. The viewer and the match are of the cell's publisher.
    pub fn turn_ahead<R: Wait>(
        &mut self,
        rt: &R,
        what: Act,
        viewer: &mut Viewer,
        ahead: &Ahead,
    ) -> Result<Turned, StepFault>
        requires suits { Suits what self.old.root }
        requires viewer { IsSameViewer self.old.root.viewer.value viewer.old }
        requires ahead { IsAheadBy self.old.root.viewer.value ahead.now }
        ensures root { self.new.root ≡ self.old.root }
        ensures answers { IfOk result (AnswersAhead self.old.root.phase what ahead.now self.old.held self.new.held
            self.old.journal self.new.journal) }
        ensures still { OnErr result (IsStill self.old.held self.new.held self.old.journal self.new.journal) }
        ensures worn { (s : ℕ) → IsErrOf result (StepFault.StampsExhausted s) → IsWorn what s self.old.held self.new.held }
        ensures viewer { IsSameViewer viewer.old viewer.new }
    {
        let agreed = agree(&self.held.publisher, viewer, ahead);
        self.turn_by(rt, what, Some(Matched { ahead, agreed }))
    }

    /// One step, whose publication may have been matched ahead.
    fn turn_by<R: Wait>(
        &mut self,
        rt: &R,
        what: Act,
        matched: Option<Matched<'_>>,
    ) -> Result<Turned, StepFault>
        requires suits { Suits what self.old.root }
        requires judged { IfSome matched (IsJudged self.old.held.publisher) }
        ensures root { self.new.root ≡ self.old.root }
        ensures answers { IfOk result (AnswersBy self.old.root.phase what matched.entry self.old.held self.new.held self.old.journal self.new.journal) }
        ensures still { OnErr result (IsStill self.old.held self.new.held self.old.journal self.new.journal) }
        ensures worn { (s : ℕ) → IsErrOf result (StepFault.StampsExhausted s) → IsWorn what s self.old.held self.new.held }
    {
        turn_held(
            rt,
            self.alloc,
            &mut self.held,
            &mut self.journal,
            self.root.server,
            self.root.phase,
            what,
            matched,
        )
    }

    /// The number of the publication that the next reception from a neighbour gives. `None` only where the misses of that lane
    /// rose, or where what comes next is no publication of the run. It may wait as a reception may.
    pub fn look<R: Wait>(&mut self, rt: &R, from: u32) -> Option<u32>
        requires { Suits (Act.Receive from) self.old.root }
        ensures root { self.new.root ≡ self.old.root }
        ensures still { IsStill self.old.held self.new.held self.old.journal self.new.journal }
        ensures looked { IsLookedFor self.old.root.net.value from self.old.held.links.items self.new.held.links.items result }
    {
        look_from(rt, self.tables, &mut self.held.links, from)
    }

    /// Whether who is named is there: a client that lives at its server, or a neighbour.
    pub fn suits(&self, what: Act) -> bool
        ensures { IsTrue result ↔ Suits what self.now.root }
    {
        match what {
            Act::Command(client) => lives_at(self.tables.net(), client, self.root.server),
            Act::Receive(from) => are_neighbours(
                self.tables.net(),
                self.root.phase,
                self.root.server,
                from,
            ),
            Act::TableUpdate => true,
        }
    }

    /// Whether no client of its server has a command of a phase below this one left.
    pub fn is_through(&self, phase: u32) -> bool
        ensures { IsTrue result ↔ HasNoneBelow phase self.now.held.core.clients }
    {
        is_through(&self.held.core, self.tables.net(), self.root.server, phase)
    }

    /// The least phase of the next commands of its server's clients; `None` where none is left.
    pub fn next_phase(&self) -> Option<u32>
        ensures from { AreFrom result self.now.held.core.clients }
        ensures own { IsOfSome result self.now.held.core }
    {
        next_of(&self.held.core, self.tables.net(), self.root.server)
    }

    /// Whether the tree in force at a phase is that of the cell's phase.
    pub fn keeps_tree(&self, phase: u32) -> bool
        ensures { IsTrue result ↔ (is_one_tree real (phased_net self.now.root.net.value) self.now.root.phase phase ≡ true) }
    {
        let net = self.tables.net();
        trees_come(net, self.root.phase) == trees_come(net, phase)
    }

    /// The cell enters a phase with the same tree, with this clock. It is called outside a lock.
    pub fn enter_phase(&mut self, phase: u32, clock: u64)
        requires clock { self.old.held.core.clock ≤ clock }
        requires low { clock < 2 ^ 62 }
        requires phase { self.old.root.phase ≤ phase }
        requires through { HasNoneBelow phase self.old.held.core.clients }
        requires tree { is_one_tree real (phased_net self.old.root.net.value) self.old.root.phase phase ≡ true }
        ensures core { self.new.held.core ≡ record self.old.held.core { clock = clock } }
        ensures lanes { self.new.held.links ≡ self.old.held.links }
        ensures publisher { self.new.held.publisher ≡ self.old.held.publisher }
        ensures journal { self.new.journal ≡ self.old.journal }
        ensures entered { HasEntered self.old.root phase self.new }
    {
        self.held.core.raise(clock);
        self.root.enter(phase, &self.journal, &self.held);
    }

    /// The cell enters a phase on other links, of which this is given, over these lanes, with this clock. It is called outside
    /// a lock, and it may wait as a table update may.
    pub(crate) fn enter_on<R: Wait>(
        &mut self,
        rt: &R,
        phase: u32,
        clock: u64,
        given: &[HeldLink<'a>],
        links: Vec<Link>,
    ) -> Result<(), NoMemory>
        requires low { clock < 2 ^ 62 }
        requires net { AreHeldIn self.old.root.net.value given.now }
        requires can { CanMove phase clock (held_in given.now) links.items self.old }
        ensures same { IsSameCell self.old self.new }
        ensures moved { OnOk result (HasMoved phase clock (held_in given.now) links.items self.old self.new) }
    {
        put_on(rt, self.alloc, &mut self.held, given, links)?;
        self.held.core.raise(clock);
        self.root.enter(phase, &self.journal, &self.held);
        Ok(())
    }
}
