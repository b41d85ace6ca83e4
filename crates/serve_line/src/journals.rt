ghost use Rattle.std.specs.Prelude.{◌≡◌, [], IfOk, IfSome, map, slice_get, Some};
ghost use Rattle.serve_line.specs.Journaling.Resuming.{AreResumed, first_share};

use crate::journaling::{JournalWriter, ResumeFault, keep_journal, resume};
use crate::state::Server;
use rbc_line::Line;
use rbc_node::{Node, Share};
use serve_control::ServeFault;
use serve_journal::{DurableFile, JournalFile};
use serve_notes::{About, Kind, Notes};
use std::alloc::{AllocError, Global};
use std::sync::Wait;
use std::time::Clock;
use text_journal::Entry;
use text_script::print::name_of;

/// The journals that the centres write, and the events that they resume from.
#[derive(Drop)]
pub struct Record<F: DurableFile + Drop> {
    /// The journals, in the order of the centres' numbers; empty if the centres keep none.
    pub files: Vec<JournalFile<F>>,
    /// The events of the journals that the centres resume from, in the order in which they happened.
    pub entries: Vec<Entry>,
}

impl<F: DurableFile + Drop> Record<F> {
    /// No journal is written, and the line begins again.
    pub fn none(alloc: Global) -> Record<F>
        ensures { result.entries.items ≡ [] }
    {
        Record {
            files: Vec::new(alloc),
            entries: Vec::new(alloc),
        }
    }
}

/// Resumes the centres from the events of their journals, and notes the count of each centre.
pub(crate) fn resume_noted<R: Wait, N: Notes>(
    rt: &R,
    alloc: Global,
    line: &Line,
    nodes: &[Node],
    entries: Vec<Entry>,
    notes: &N,
) -> Result<Vec<Share>, ServeFault>
    ensures { IfOk result (λ shares. AreResumed nodes.now entries.items (map first_share nodes.now) shares.items) }
{
    match resume(rt, alloc, nodes, &entries) {
        Ok(shares) => {
            for share in &shares {
                let count = share.receipts().len();
                if count > 0 {
                    let name = name_of(line, share.centre());
                    notes.note(
                        About::centre(Kind::Resumed, name),
                        format_args!("{name}: goes on after {count} events"),
                    );
                }
            }
            Ok(shares)
        }
        Err(ResumeFault::Memory) => Err(AllocError.into()),
        Err(ResumeFault::Unfit(centre, row)) => {
            let name = name_of(line, centre);
            notes.note(
                About::centre(Kind::Refused, name),
                format_args!("{name}: line {row} of the journal does not fit"),
            );
            Err(ServeFault::Journal)
        }
    }
}

/// Writes the journal of a centre until no further event can be committed.
pub(crate) fn keep<R: Wait + Clock, N: Notes, F: DurableFile + Drop>(
    rt: &R,
    server: &Server<'_>,
    notes: &N,
    centre: u8,
    mut file: JournalFile<F>,
) {
    let Some(writer) = writer_of(server, notes, centre) else {
        return;
    };
    if !keep_journal(rt, &writer, &mut file) {
        server.lose(rt, centre);
    }
}

// The writer of a centre's journal, if the centre keeps one.
fn writer_of<'a, N: Notes>(
    server: &'a Server<'_>,
    notes: &'a N,
    centre: u8,
) -> Option<JournalWriter<'a, N>>
    ensures line { IfSome result (λ writer. writer.line.now ≡ server.entry.now.line.now) }
    ensures node { IfSome result
        (λ writer. slice_get server.entry.now.nodes.now centre ≡ Some writer.node.now) }
    ensures journal { IfSome result
        (λ writer. slice_get server.entry.now.journals.now centre ≡ Some writer.journal.now) }
{
    let node = server.nodes.get(centre as usize)?;
    let journal = server.journal(centre)?;
    Some(JournalWriter {
        alloc: server.alloc,
        line: server.line,
        name: name_of(server.line, centre),
        node,
        journal,
        notes,
        is_stopped: &server.state.is_stopped,
        is_over: &server.state.is_done,
    })
}
