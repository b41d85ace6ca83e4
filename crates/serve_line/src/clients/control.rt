ghost use Rattle.std.specs.Prelude.{◌≡◌, ◌≢◌};
ghost use Rattle.serve_notes.specs.declared.about.PeerConnection.TheVariants.{Control};
ghost use Rattle.serve_line.specs.Answering.{IsNext, IsNextAfter, next_after, rests_after};
ghost use Rattle.serve_line.specs.declared.clients.sending.Sent.{Sent as SentPart};

use crate::clients::answer::{SCRIPT_FAULT, Served, answer, fixed};
use crate::clients::limits::{CONTROL_REST_MS, RESERVE_RESTS};
use crate::clients::rows::{Came, RowReader};
use crate::clients::sending::{Sent, send};
use crate::state::{PeerStream, Server, Slot};
use rbc_node::Share;
use serve_control::{Command, Meaning, meaning_of};
use serve_notes::{About, Kind, Notes, PeerConnection};
use std::io::Write;
use std::sync::Wait;
use std::sync::atomic::Ordering;
use std::time::{Clock, Duration};

/// The state of a connection of the interlocking after a line, and at its end.
#[derive(Clone, Copy, PartialEq, Eq)]
enum Next {
    /// The next line may arrive.
    Listen,
    /// No further line is read.
    End,
    /// The centres are to stop.
    Stop,
    /// The centres are to stop, and trains have no time to end their connections.
    StopNow,
}

/// A connection of the interlocking, and the receiver of its notes.
#[derive(Drop)]
struct Client<'a, 'h, N> {
    served: Served<'a, 'h>,
    stream: &'a PeerStream,
    notes: &'a N,
}

/// Serves a connection of the interlocking to its end.
pub(crate) fn serve_control<R: Wait + Clock, N: Notes>(
    rt: &R,
    server: &Server<'_>,
    notes: &N,
    slot: &Slot,
    stream: &PeerStream,
) {
    let number = slot.number;
    notes.note(
        about_slot(Kind::Begin, number),
        format_args!("control: connection {number} begins"),
    );
    let rest = Duration::from_millis(CONTROL_REST_MS);
    stream.set_waits(rest, rest);
    let mut shares = slot.shares.lock(rt);
    let client = Client {
        served: Served { server, slot },
        stream,
        notes,
    };
    match answer_rows(rt, &client, shares.as_mut_slice()) {
        Next::Stop => {
            notes.note(
                about_slot(Kind::Stop, number),
                format_args!("control: connection {number} says stop"),
            );
            server.stop();
        }
        Next::StopNow => {
            notes.note(
                about_slot(Kind::Stop, number),
                format_args!("control: connection {number} says stop now"),
            );
            server.stop_now();
        }
        Next::Listen | Next::End => {}
    }
    notes.note(
        about_slot(Kind::End, number),
        format_args!("control: connection {number} ends"),
    );
}

// The subject of a note about the connection with this number.
fn about_slot(kind: Kind, number: usize) -> About<'static>
    ensures { result ≡ record { kind = kind; centre = None; engine = None; peer = Some (Control number) } }
{
    About::of(kind).over(PeerConnection::Control(number))
}

// Answers the lines of a connection until it ends, or until all sessions have ended.
fn answer_rows<R: Wait + Clock, N: Notes>(
    rt: &R,
    client: &Client<'_, '_, N>,
    shares: &mut [Share],
) -> Next
    ensures stops { IsNext client.now.served.server.now.line.now result }
    ensures ended { result ≢ Next.Listen }
{
    let Served { server, slot } = client.served;
    let mut out = client.stream;
    let mut rows = RowReader::new(server.alloc, client.stream);
    let mut rests = 0u32;
    for _ in rt.forever() {
        let came = rows.next();
        rests = rests_after(rests, &came);
        let next = after_read(rt, client, shares, came);
        let told = send(rt, &mut out, &slot.take_told(rt, server.alloc));
        if next != Next::Listen {
            return next;
        }
        if told == Sent::Short || slot.is_reserve && is_over(server, rests) {
            return Next::End;
        }
    }
    unreachable!()
}

// The number of reads without a line since the last line.
fn rests_after(rests: u32, came: &Came) -> u32
    ensures { result ≡ rests_after rests came.now }
{
    match came {
        Came::Row(_) => 0,
        Came::Nothing | Came::End => rests.saturating_add(1),
    }
}

// Answers the line that was read, if there is one.
#[tactic(auto, using(crate::proofs::AnsweringLemmas::next_by))]
fn after_read<R: Wait + Clock, N: Notes>(
    rt: &R,
    client: &Client<'_, '_, N>,
    shares: &mut [Share],
    came: Came,
) -> Next
    ensures { IsNext client.now.served.server.now.line.now result }
{
    let Served { server, slot } = client.served;
    match came {
        Came::Row(row) => {
            slot.heard.store(server.state.hear(), Ordering::SeqCst);
            answer_row(rt, client, shares, &row)
        }
        Came::Nothing if server.state.is_empty() => Next::End,
        Came::Nothing => Next::Listen,
        Came::End => Next::End,
    }
}

// Whether the reserve connection ends. The thread of the endpoint serves it, and other connections wait.
fn is_over(server: &Server<'_>, rests: u32) -> bool {
    rests >= RESERVE_RESTS || server.state.is_stopped()
}

// Answers one line.
fn answer_row<R: Wait + Clock, N: Notes>(
    rt: &R,
    client: &Client<'_, '_, N>,
    shares: &mut [Share],
    row: &[u8],
) -> Next
    ensures { IsNextAfter client.now.served.server.now.line.now row.now result }
{
    let Client { served, notes, .. } = client;
    let Served { server, slot } = *served;
    let mut out = client.stream;
    let about = about_slot(Kind::Line, slot.number);
    let command = match meaning_of(server.alloc, server.line, row) {
        Meaning::Command(Command::Stop) => return Next::Stop,
        Meaning::Command(Command::StopNow) => return Next::StopNow,
        Meaning::Command(command) => command,
        Meaning::NoForm => {
            notes.note(about, "control: a line is refused, script fault");
            return refuse(rt, server, &mut out);
        }
        Meaning::Foreign => {
            notes.note(
                about,
                "control: a connection is ended, it speaks another protocol",
            );
            return Next::End;
        }
        Meaning::NoMemory => return Next::End,
    };
    match answer(rt, *served, shares, command) {
        Ok(text) => answered(send(rt, &mut out, &text)),
        Err(_) => Next::End,
    }
}

// Answers a line that has no valid form.
fn refuse<R: Wait + Clock, O: Write>(rt: &R, server: &Server<'_>, out: &mut O) -> Next
    ensures { (sent : SentPart) × (result ≡ next_after sent) }
{
    match fixed(server.alloc, SCRIPT_FAULT) {
        Ok(text) => answered(send(rt, out, &text)),
        Err(_) => Next::End,
    }
}

// Whether the connection continues after an answer.
fn answered(sent: Sent) -> Next
    ensures { result ≡ next_after sent }
{
    match sent {
        Sent::Whole => Next::Listen,
        Sent::Short => Next::End,
    }
}
