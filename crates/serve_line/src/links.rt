ghost use Rattle.std.specs.Prelude.{◌≡◌, option_and_then, option_map, slice_get};

use crate::journaling::Journaled;
use crate::state::{DirectedLink, Server};
use rbc_board::{Carrier, QueueCarrier};
use serve_workers::{InOrder, pass_over, receive_frames, send_kept_frames};
use std::alloc::AllocError;
use std::sync::Wait;
use std::thread;
use std::thread::{Parker, Threads};

/// Carries the frames of a link in a bounded queue until nothing new arrives. One worker sends the frames, another
/// receives them.
pub(crate) fn carry<R: Threads + Wait + Sync>(rt: &R, server: &Server<'_>, link: &DirectedLink) {
    if try_carry(rt, server, link).is_err() {
        server.fail();
    }
}

fn try_carry<R: Threads + Wait + Sync>(
    rt: &R,
    server: &Server<'_>,
    link: &DirectedLink,
) -> Result<(), AllocError> {
    let (carrier, writer, reader) = QueueCarrier::new(rt, server.alloc)?;
    carry_by(rt, server, link, &carrier, writer, reader);
    Ok(())
}

// Carries the frames by a carrier. They are sent in a thread of their own, and received in this one. If no thread can
// be made, the line of centres stops.
fn carry_by<R: Threads + Wait + Sync, C: Carrier + Sync>(
    rt: &R,
    server: &Server<'_>,
    link: &DirectedLink,
    carrier: &C,
    writer: C::Seen,
    reader: C::Seen,
)
    requires { C.is_of carrier.now writer × C.is_of carrier.now reader }
{
    thread::scope(
        thread::scope_env(),
        rt,
        move |scope|
            requires { C.is_of carrier.now writer × C.is_of carrier.now reader }
        {
            let sender = scope.spawn(
                move ||
                    requires { C.is_of carrier.now writer }
                { send(rt, server, link, carrier, writer) },
            );
            if sender.is_err() {
                server.fail();
                return;
            }
            receive(rt, server, link, carrier, reader);
        },
    );
}

// The waker of a link.
fn waker_of<'a>(server: &'a Server<'_>, link: &DirectedLink) -> Option<&'a Parker>
    ensures { option_map (λ waker. waker.now) result
        ≡ option_and_then (λ row. slice_get row.items link.now.to)
        (slice_get server.entry.now.wakers.now link.now.from) }
{
    let wakers = server.wakers.get(link.from as usize)?;
    wakers.get(link.to as usize)
}

// Sends the frames of a link until nothing new arrives.
fn send<R: Wait, C: Carrier>(
    rt: &R,
    server: &Server<'_>,
    link: &DirectedLink,
    carrier: &C,
    seen: C::Seen,
)
    requires { C.is_of carrier.now seen }
{
    let (Some(node), Some(waker)) = (server.nodes.get(link.from as usize), waker_of(server, link))
    else {
        return;
    };
    let signals = link.ends.of_sender(waker, &server.state.is_over);
    let journal = server.journal(link.from);
    send_kept_frames(
        rt,
        node,
        link.to,
        carrier,
        seen,
        signals,
        &Journaled { journal },
    );
}

// Receives the frames of a link until nothing new arrives. A centre that resumed from its journal skips the frames that
// it has taken.
fn receive<R: Wait, C: Carrier>(
    rt: &R,
    server: &Server<'_>,
    link: &DirectedLink,
    carrier: &C,
    seen: C::Seen,
)
    requires { C.is_of carrier.now seen }
{
    let (Some(committer), Some(waker)) = (server.committer(link.to), waker_of(server, link)) else {
        return;
    };
    let signals = link.ends.of_receiver(waker, &server.state.is_over);
    let taken = committer.node.look(rt).log().core().taken(link.from);
    let seen = pass_over(rt, carrier, seen, taken, signals);
    let mut order = InOrder::after(taken);
    let mut share = link.share.lock(rt);
    receive_frames(
        rt, &committer, &mut share, link.from, carrier, seen, &mut order, signals,
    );
}
