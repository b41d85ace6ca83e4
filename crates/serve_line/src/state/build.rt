ghost use Rattle.std.specs.List.{AllZip, filter, range_with_len};
ghost use Rattle.std.specs.Prelude.{◌≡◌, IfOk, length, map, slice_get};
ghost use Rattle.rbc_node.specs.Node.{centre_of};
ghost use Rattle.text_script.specs.Print.Rows.{name_at};
ghost use Rattle.serve_line.specs.Building.{awaited_journal, direction_of, has_node, journal_in};
ghost use Rattle.serve_line.specs.Directions.{directions_of};
ghost use Rattle.serve_line.specs.Journaling.Beginning.{BeginsAfter};

use crate::directions::{Direction, directions_of};
use crate::journaling::{Journal, WriteTimes};
use crate::stamps::last_stamp;
use crate::state::build_slots::most_trains;
use crate::state::options::ServeOptions;
use crate::state::paces::Paces;
use crate::state::peer::DirectedLink;
use crate::state::queue::Queue;
use crate::state::sink::CentreSink;
use crate::state::slots::Endpoint;
use rbc_line::Line;
use rbc_node::{Node, Share};
use serve_workers::LinkEnds;
use serve_workers::connections::TrainConnections;
use serve_workers::reading::Rate;
use std::alloc::{AllocError, Global};
use std::sync::{Mutex, Wait};
use std::thread::Parker;
use text_script::print::name_of;

/// A node for each centre of the line, in the order of their numbers.
pub fn nodes_of(alloc: Global, line: &Line) -> Result<Vec<Node>, AllocError>
    ensures { IfOk result (λ nodes. map centre_of nodes.items
        ≡ map (λ c. c) (range_with_len 0 (length line.now.centres))) }
{
    let mut nodes = Vec::new(alloc);
    for centre in 0..line.centre_count() {
        let node = Node::new(alloc, line, centre)?;
        nodes.push(node)?;
    }
    Ok(nodes)
}

/// The links of the line, one for each direction. The nodes are in the order of the centres' numbers.
pub fn links_of(alloc: Global, line: &Line, nodes: &[Node]) -> Result<Vec<DirectedLink>, AllocError>
    ensures { IfOk result (λ links. map direction_of links.items
        ≡ filter (has_node nodes.now) (directions_of line.now)) }
{
    let directions = directions_of(alloc, line)?;
    links_in(alloc, nodes, &directions)
}

// The links of these directions. A direction is left out if its receiver has no node.
fn links_in(
    alloc: Global,
    nodes: &[Node],
    directions: &[Direction],
) -> Result<Vec<DirectedLink>, AllocError>
    ensures { IfOk result (λ links. map direction_of links.items ≡ filter (has_node nodes.now) directions.now) }
{
    let mut links = Vec::new(alloc);
    for direction in directions {
        if let Some(node) = nodes.get(direction.to as usize) {
            links.push(link_of(*direction, node.share()))?;
        }
    }
    Ok(links)
}

// The link of a direction, with the share of its receiver.
fn link_of(direction: Direction, share: Share) -> DirectedLink
    ensures { direction_of result ≡ direction }
{
    DirectedLink {
        from: direction.from,
        to: direction.to,
        ends: LinkEnds::new(),
        share: Mutex::new(share),
    }
}

/// For each centre the wakers of its outgoing links, indexed by the receiving centre's number.
pub fn wakers_of(alloc: Global, line: &Line) -> Result<Vec<Vec<Parker>>, AllocError>
    ensures { IfOk result (λ wakers. map (λ row. length row.items) wakers.items
        ≡ map (λ c. length line.now.centres) (range_with_len 0 (length line.now.centres))) }
{
    let mut wakers = Vec::new(alloc);
    for _ in 0..line.centre_count() {
        let row = wakers_from(alloc, line)?;
        wakers.push(row)?;
    }
    Ok(wakers)
}

// The wakers of the outgoing links of one centre.
fn wakers_from(alloc: Global, line: &Line) -> Result<Vec<Parker>, AllocError>
    ensures { IfOk result (λ wakers. length wakers.items ≡ length line.now.centres) }
{
    let mut wakers = Vec::new(alloc);
    for _ in 0..line.centre_count() {
        wakers.push(Parker::new())?;
    }
    Ok(wakers)
}

/// For each centre the connections of its trains. If the centres keep journals, each reply waits until the journal of
/// its own centre keeps its event.
pub fn connections_of<'a>(
    alloc: Global,
    line: &'a Line,
    wakers: &'a [Vec<Parker>],
    is_journaled: bool,
) -> Result<Vec<TrainConnections<'a>>, AllocError>
    ensures { IfOk result (λ all. map (λ connections. connections.journal) all.items
        ≡ map (awaited_journal is_journaled) (range_with_len 0 (length line.now.centres))) }
{
    let mut connections = Vec::new(alloc);
    for centre in 0..line.centre_count() {
        let links: &[Parker] = match wakers.get(centre as usize) {
            Some(links) => links.as_slice(),
            None => &[],
        };
        let own = TrainConnections::new(alloc, line, most_trains(line), links)?;
        connections.push(own.held(awaited_journal(is_journaled, centre)))?;
    }
    Ok(connections)
}

// The centre whose journal keeps the events of a centre's replies before they leave.
fn awaited_journal(is_journaled: bool, centre: u8) -> Option<u8>
    ensures { result ≡ awaited_journal is_journaled centre }
{
    if is_journaled { Some(centre) } else { None }
}

/// For each centre its journal. It begins after the events that the node has. The times are those of the last of these,
/// by the centres' numbers.
pub fn journals_of<R: Wait>(
    rt: &R,
    alloc: Global,
    nodes: &[Node],
    mut times: Vec<WriteTimes>,
) -> Result<Vec<Journal>, AllocError>
    ensures { IfOk result (λ journals. AllZip BeginsAfter nodes.now journals.items) }
{
    let mut journals = Vec::with_capacity(alloc, nodes.len())?;
    times.reverse();
    for node in nodes {
        let times = match times.pop() {
            Some(times) => times,
            None => WriteTimes::new(alloc),
        };
        journals.push(journal_of(rt, node, times))?;
    }
    Ok(journals)
}

// The journal of the centre of a node. It begins after the events that the node has.
fn journal_of<R: Wait>(rt: &R, node: &Node, times: WriteTimes) -> Journal
    ensures { BeginsAfter node.now result }
{
    let centre = node.share().centre();
    let look = node.look(rt);
    let entries = look.log().entries();
    Journal::new(centre, entries.len(), last_stamp(entries), times)
}

/// For each centre the sink of its answers.
pub fn sinks_of<'a>(
    alloc: Global,
    line: &'a Line,
    connections: &'a [TrainConnections<'a>],
    endpoints: &'a [Endpoint],
    journals: &'a [Journal],
    options: ServeOptions,
) -> Result<Vec<CentreSink<'a>>, AllocError>
    ensures centres { IfOk result (λ sinks. map (λ sink. sink.centre) sinks.items
        ≡ map (λ c. c) (range_with_len 0 (length sinks.items))) }
    ensures journals { IfOk result (λ sinks. map journal_in sinks.items
        ≡ map (slice_get journals.entry.now) (range_with_len 0 (length sinks.items))) }
    ensures names { IfOk result (λ sinks. map (λ sink. sink.name.now) sinks.items
        ≡ map (name_at line.entry.now) (range_with_len 0 (length sinks.items))) }
{
    let control = if options.is_telling {
        endpoints.last()
    } else {
        None
    };
    let parts = SinkParts {
        alloc,
        line,
        control,
        journals,
        rate: options.rate,
    };
    parts.sinks(connections)
}

/// The common parts of the sinks.
#[derive(Drop)]
struct SinkParts<'a> {
    alloc: Global,
    line: &'a Line,
    control: Option<&'a Endpoint>,
    journals: &'a [Journal],
    rate: Rate,
}

impl<'a> SinkParts<'a> {
    // The sinks of the centres with these connections.
    fn sinks(
        &self,
        connections: &'a [TrainConnections<'a>],
    ) -> Result<Vec<CentreSink<'a>>, AllocError>
        ensures centres { IfOk result (λ sinks. map (λ sink. sink.centre) sinks.items
            ≡ map (λ c. c) (range_with_len 0 (length sinks.items))) }
        ensures journals { IfOk result (λ sinks. map journal_in sinks.items
            ≡ map (slice_get self.now.journals.now) (range_with_len 0 (length sinks.items))) }
        ensures names { IfOk result (λ sinks. map (λ sink. sink.name.now) sinks.items
            ≡ map (name_at self.now.line.now) (range_with_len 0 (length sinks.items))) }
    {
        let mut sinks = Vec::new(self.alloc);
        for centre in 0..self.line.centre_count() {
            let Some(connections) = connections.get(centre as usize) else {
                break;
            };
            let sink = self.sink(centre, connections)?;
            sinks.push(sink)?;
        }
        Ok(sinks)
    }

    // The sink of a centre with these connections.
    fn sink(
        &self,
        centre: u8,
        connections: &'a TrainConnections<'a>,
    ) -> Result<CentreSink<'a>, AllocError>
        ensures journal { IfOk result (λ sink. journal_in sink ≡ slice_get self.now.journals.now centre) }
        ensures centre { IfOk result (λ sink. sink.centre ≡ centre) }
        ensures name { IfOk result (λ sink. sink.name.now ≡ name_at self.now.line.now centre) }
    {
        Ok(CentreSink {
            alloc: self.alloc,
            connections,
            control: self.control,
            journal: self.journals.get(centre as usize),
            queue: Queue::new(),
            paces: Paces::new(self.alloc, self.line, self.rate)?,
            centre,
            name: name_of(self.line, centre),
        })
    }
}
