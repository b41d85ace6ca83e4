//! The stages of a running line: its nodes go on from the journals, its threads run, and its logs are printed.

ghost use Rattle.std.specs.Prelude.{◌≡◌, IfOk, List, map, OnOk, true, vec_len, ℕ};
ghost use Rattle.rbc_node.specs.Receipts.{ShareValue};
ghost use Rattle.serve_line.specs.Journaling.Resuming.{AreResumed, first_share};
ghost use Rattle.serve_line.specs.Lists.{Continues};
ghost use Rattle.serve_line.specs.Prints.{AddsGathered};

use crate::browsers::PageEndpoint;
use crate::journaling::{Journal, WriteTimes, times_of};
use crate::journals::{Record, resume_noted};
use crate::printing::print_noted;
use crate::running::{run_beside, shares_of};
use crate::state::{
    DirectedLink, Endpoint, Endpoints, ServeOptions, Server, State, connections_of, endpoints_of,
    journals_of, links_of, nodes_of, sinks_of, wakers_of,
};
use crate::status::MentionOrder;
use rbc_line::Line;
use rbc_node::{Node, Share, gather};
use serve_control::ServeFault;
use serve_journal::{DurableFile, JournalFile};
use serve_notes::{About, Kind, Notes};
use serve_workers::connections::TrainConnections;
use std::alloc::{AllocError, Global};
use std::io::Write;
use std::sync::{Mutex, Wait};
use std::thread::{Parker, Threads};
use std::time::Clock;

/// The line with its options, and the receiver of its notes.
#[derive(Drop)]
pub(super) struct Setting<'a, R, N> {
    pub rt: &'a R,
    pub alloc: Global,
    pub line: &'a Line,
    pub options: ServeOptions,
    pub notes: &'a N,
}

// The nodes before the threads begin, with the receipts of the journals' events.
#[derive(Drop)]
struct Begun<F: DurableFile + Drop> {
    nodes: Vec<Node>,
    receipts: Vec<Share>,
    /// The files of the journals, and the times of their events.
    files: Vec<JournalFile<F>>,
    times: Vec<WriteTimes>,
}

// The nodes after the threads have ended, with all receipts.
#[derive(Drop)]
struct Ended {
    nodes: Vec<Node>,
    receipts: Vec<Share>,
    /// The journals have all committed events.
    is_whole: bool,
}

/// The parts of the line that all threads share.
#[derive(Clone, Copy)]
struct Parts<'a> {
    nodes: &'a [Node],
    endpoints: &'a [Endpoint],
    links: &'a [DirectedLink],
    page: Option<&'a PageEndpoint>,
}

/// The ways of the answers to trains, and the journals for which they wait.
#[derive(Clone, Copy)]
struct Answering<'a> {
    wakers: &'a [Vec<Parker>],
    connections: &'a [TrainConnections<'a>],
    journals: &'a [Journal],
}

impl<R: Threads + Wait + Sync + Clock, N: Notes + Sync> Setting<'_, R, N> {
    /// Runs the centres from their start to the print of their events.
    pub fn serve<F: DurableFile + Drop + Send, O: Write>(
        &self,
        journals: Record<F>,
        endpoints: Endpoints,
        out: &mut O,
    ) -> Result<(), ServeFault>
        ensures { OnOk result (self.now.options.prints_events ≡ true
            → (count : ℕ) × (shares : List ShareValue) × AddsGathered count shares self.now.line.now
            (O.contents out.old) (O.contents out.new)) }
    {
        let begun = self.begin(journals)?;
        let ended = self.run(begun, endpoints)?;
        self.print(ended, out)
    }

    // The nodes, after the events of the journals.
    fn begin<F: DurableFile + Drop + Send>(
        &self,
        journals: Record<F>,
    ) -> Result<Begun<F>, ServeFault>
        ensures { IfOk result (λ begun. AreResumed begun.nodes.items journals.entries.items
            (map first_share begun.nodes.items) begun.receipts.items) }
    {
        let Record { files, entries } = journals;
        let nodes = nodes_of(self.alloc, self.line)?;
        let times = times_of(self.alloc, self.line.centre_count(), &entries)?;
        let receipts = resume_noted(self.rt, self.alloc, self.line, &nodes, entries, self.notes)?;
        Ok(Begun {
            nodes,
            receipts,
            files,
            times,
        })
    }

    // Runs all threads to their ends.
    fn run<F: DurableFile + Drop + Send>(
        &self,
        begun: Begun<F>,
        endpoints: Endpoints,
    ) -> Result<Ended, ServeFault>
        ensures nodes { IfOk result (λ ended. ended.nodes ≡ begun.nodes) }
        ensures receipts { IfOk result (λ ended. Continues begun.receipts.items ended.receipts.items) }
    {
        let Begun {
            nodes,
            receipts,
            files,
            times,
        } = begun;
        let (listening, socket, page) = endpoints.all();
        let endpoints = endpoints_of(self.alloc, self.line, &nodes, listening, socket)?;
        let page = match page {
            Some(port) => Some(PageEndpoint::new(
                self.rt,
                self.alloc,
                (self.line, &nodes),
                &endpoints,
                port,
            )?),
            None => None,
        };
        let links = links_of(self.alloc, self.line, &nodes)?;
        let parts = Parts {
            nodes: &nodes,
            endpoints: &endpoints,
            links: &links,
            page: page.as_ref(),
        };
        let is_whole = self.run_parts(parts, files, times)?;
        Ok(Ended {
            receipts: shares_of(receipts, endpoints, links)?,
            nodes,
            is_whole,
        })
    }

    // Runs all threads. The result is whether the journals have all committed events.
    fn run_parts<F: DurableFile + Drop + Send>(
        &self,
        parts: Parts<'_>,
        files: Vec<JournalFile<F>>,
        times: Vec<WriteTimes>,
    ) -> Result<bool, AllocError> {
        let has_journals = !files.is_empty();
        let wakers = wakers_of(self.alloc, self.line)?;
        let connections = connections_of(self.alloc, self.line, &wakers, has_journals)?;
        let journals = if has_journals {
            journals_of(self.rt, self.alloc, parts.nodes, times)?
        } else {
            Vec::new(self.alloc)
        };
        let answering = Answering {
            wakers: &wakers,
            connections: &connections,
            journals: &journals,
        };
        self.run_threads(parts, answering, files)
    }

    // The same, with the ways of the answers.
    fn run_threads<F: DurableFile + Drop + Send>(
        &self,
        parts: Parts<'_>,
        answering: Answering<'_>,
        files: Vec<JournalFile<F>>,
    ) -> Result<bool, AllocError> {
        let Answering {
            wakers,
            connections,
            journals,
        } = answering;
        let sinks = sinks_of(
            self.alloc,
            self.line,
            connections,
            parts.endpoints,
            journals,
            self.options,
        )?;
        let mentions = Mutex::new(MentionOrder::new(self.alloc, self.line)?);
        let state = State::new(self.line.centre_count());
        let server = Server {
            alloc: self.alloc,
            line: self.line,
            nodes: parts.nodes,
            sinks: &sinks,
            endpoints: parts.endpoints,
            links: parts.links,
            wakers,
            journals,
            mentions: &mentions,
            state: &state,
            options: self.options,
        };
        run_beside(self.rt, &server, parts.page, files, self.notes);
        if state.has_failed() {
            return Err(AllocError);
        }
        Ok(!state.has_lost())
    }

    // Gathers the logs, and prints their events, unless the options forbid it. If a journal lacks an event, that is
    // the fault.
    fn print<O: Write>(&self, ended: Ended, out: &mut O) -> Result<(), ServeFault>
        ensures whole { OnOk result (ended.is_whole ≡ true) }
        ensures print { OnOk result (self.now.options.prints_events ≡ true
            → AddsGathered (vec_len ended.nodes) ended.receipts.items self.now.line.now
            (O.contents out.old) (O.contents out.new)) }
    {
        let Ended {
            nodes,
            receipts,
            is_whole,
        } = ended;
        self.notes
            .note(About::of(Kind::Stop), "all sessions have ended");
        let family = gather(self.alloc, nodes, receipts)?;
        if self.options.prints_events {
            print_noted(self.alloc, self.line, &family, self.notes, out)?;
        }
        if is_whole {
            Ok(())
        } else {
            Err(ServeFault::Journal)
        }
    }
}
