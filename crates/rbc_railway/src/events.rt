//! Events of the centres.

ghost use Rattle.std.specs.Prelude.{◌≡◌, ◌≢◌, ◌⊎◌, false, IfErr, OnErr, OnOk, true};
ghost use Rattle.rbc_spec.specs.World as world;
ghost use Rattle.rbc_msgs.specs.declared.fault.MsgFault.TheVariants as of_message;
ghost use Rattle.rbc_world.specs.Views.{event_of};
ghost use Rattle.rbc_world.specs.World.{line_of, state_of};
ghost use Rattle.rbc_railway.specs.History.{IsFree, IsTaken, obeys};
ghost use Rattle.rbc_railway.specs.Verdicts.{IsOfItsTrain, IsWhyNotTaken};
ghost use Rattle.rbc_railway.specs.declared.fault.RailwayFault.TheVariants.{Memory, Name};

use crate::answer::CentreAnswer;
use crate::fault::RailwayFault;
use crate::find::index_of;
use crate::railway::{Railway, known};
use crate::train::RunningTrain;
use rbc_line::Line;
use rbc_msgs::{MsgFault, decode_train};
use rbc_world::{World, WorldEvent};
use std::alloc::Global;

impl Railway {
    ghost use Rattle.std.specs.Prelude.{Err, None, slice_get, Some};
    ghost use Rattle.rbc_railway.specs.declared.fault.RailwayFault.TheVariants.{NotSent};
    ghost use Rattle.rbc_railway.specs.Railways.{Happened, IsSafeRailway, IsUnchanged};
    ghost use Rattle.rbc_world.specs.declared.event.WorldEvent.{WorldEvent as SentEvent};

    /// An event happens to the centres: of the interlocking, a frame between centres, or bytes. They are not in the
    /// name of a train of the railway. The answer is kept, and its messages to trains are on the way.
    pub fn happen(&mut self, event: &WorldEvent) -> Result<(), RailwayFault>
        ensures free { OnOk result (IsFree (obeys self.old.trains.items) (event_of event.now)) }
        ensures moment { OnOk result (Happened self.old self.new (event_of event.now)) }
        ensures why { IfErr result (λ fault. IsOfItsTrain (obeys self.old.trains.items) (event_of event.now) fault
            ⊎ IsWhyNotTaken self.old.line (state_of self.old.world) (event_of event.now) fault) }
        ensures safe { IsSafeRailway self.new }
        ensures err { OnErr result (IsUnchanged self.old self.new) }
    {
        known(&self.line);
        is_free(self.alloc, &self.trains, event)?;
        take(&self.line, &mut self.world, &mut self.told, event)
    }

    /// The message of this index, of all that trains have sent, arrives at its centre. It may do so in any order, and
    /// any number of times.
    pub fn arrive(&mut self, message: usize) -> Result<(), RailwayFault>
        ensures moment { OnOk result ((e : SentEvent) → slice_get self.old.sent.items message ≡ Some e
            → Happened self.old self.new (event_of e)) }
        ensures why { IfErr result (λ fault. (e : SentEvent) → slice_get self.old.sent.items message ≡ Some e
            → IsWhyNotTaken self.old.line (state_of self.old.world) (event_of e) fault) }
        ensures not_sent { slice_get self.old.sent.items message ≡ None → result ≡ Err NotSent }
        ensures safe { IsSafeRailway self.new }
        ensures err { OnErr result (IsUnchanged self.old self.new) }
    {
        known(&self.line);
        if message >= self.sent.len() {
            return Err(RailwayFault::NotSent);
        }
        take(
            &self.line,
            &mut self.world,
            &mut self.told,
            &self.sent[message],
        )
    }
}

// Refuses bytes in the name of a train of the railway.
fn is_free(alloc: Global, trains: &[RunningTrain], event: &WorldEvent) -> Result<(), RailwayFault>
    ensures free { OnOk result (IsFree (obeys trains.now) (event_of event.now)) }
    ensures why { IfErr result (λ fault. IsOfItsTrain (obeys trains.now) (event_of event.now) fault
        ⊎ (fault ≡ Memory)) }
{
    let WorldEvent::Train { bytes, .. } = event else {
        return Ok(());
    };
    match decode_train(alloc, bytes) {
        Ok(message) => is_foreign(trains, message.nid_engine()),
        Err(fault) => unread(fault),
    }
}

// Refuses the name of a train of the railway.
fn is_foreign(trains: &[RunningTrain], nid_engine: u32) -> Result<(), RailwayFault>
    ensures foreign { OnOk result (obeys trains.now nid_engine ≡ false) }
    ensures why { IfErr result (λ fault. (fault ≡ Name) × (obeys trains.now nid_engine ≡ true)) }
{
    match index_of(trains, nid_engine) {
        Some(_) => Err(RailwayFault::Name),
        None => Ok(()),
    }
}

// Bytes without a message are in no name, unless memory ran out.
fn unread(fault: MsgFault) -> Result<(), RailwayFault>
    ensures other { OnOk result (fault ≢ of_message.Memory) }
    ensures why { IfErr result (λ why. why ≡ Memory) }
{
    match fault {
        MsgFault::Memory => Err(RailwayFault::Memory),
        MsgFault::Short
        | MsgFault::Length
        | MsgFault::Padding
        | MsgFault::UnknownNumber
        | MsgFault::Packet
        | MsgFault::Missing
        | MsgFault::Value => Ok(()),
    }
}

// The centres take the event, and their answer is kept.
fn take(
    line: &Line,
    world: &mut World,
    told: &mut Vec<CentreAnswer>,
    event: &WorldEvent,
) -> Result<(), RailwayFault>
    ensures taken { OnOk result (line_of world.old ≡ line.now
        → IsTaken line.now (state_of world.old) (state_of world.new) told.old.items told.new.items
        (event_of event.now)) }
    ensures why { IfErr result (λ fault. line_of world.old ≡ line.now
        → IsWhyNotTaken line.now (state_of world.old) (event_of event.now) fault) }
    ensures line { line_of world.new ≡ line_of world.old }
    ensures world { OnErr result (state_of world.new ≡ state_of world.old) }
    ensures told { OnErr result (told.new.items ≡ told.old.items) }
{
    let centre = centre_of(event);
    if centre >= line.centre_count() {
        return Err(RailwayFault::NoCentre);
    }
    if told.reserve(1).is_err() {
        return Err(RailwayFault::Memory);
    }
    match world.step(event) {
        Ok(answer) => {
            told.push_reserved(CentreAnswer { centre, answer });
            Ok(())
        }
        Err(fault) => Err(RailwayFault::Step(fault)),
    }
}

// The centre at which the event happens.
fn centre_of(event: &WorldEvent) -> u8
    ensures { result ≡ world.centre_of (event_of event.now) }
{
    match event {
        WorldEvent::Train { centre, .. }
        | WorldEvent::Set { centre, .. }
        | WorldEvent::Unset { centre, .. } => *centre,
        WorldEvent::Deliver { to, .. } => *to,
    }
}
