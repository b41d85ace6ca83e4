//! The connections of trains to centres.

ghost use Rattle.std.specs.Prelude.{◌≡◌, ◌+◌, ◌++◌, ◌-◌, ◌<◌, if◌then◌else◌, nat_le, None, Some};
ghost use Rattle.std.specs.Prelude.{IfOk, map, OnOk};
ghost use Rattle.std.specs.Prelude.{Err};
ghost use Rattle.cli_drive.specs.Calls.{ports};
ghost use Rattle.cli_drive.specs.declared.trains.fault.TrainsFault.TheVariants.{Socket};

use crate::trains::connection::Connection;
use crate::trains::fault::TrainsFault;
use crate::trains::inbox::Came;
use crate::trains::radio::Letter;
use std::alloc::Global;
use std::net::{Net, TcpStream};

/// A connection for each train and each centre.
#[derive(Drop)]
pub(crate) struct Calls {
    centres: u8,
    connections: Vec<Connection>,
}

impl Calls {
    ghost use Rattle.cli_drive.specs.Calls.{place_of, ports_of_trains};
    ghost use Rattle.cli_drive.specs.Changes.{ChangesAt};
    ghost use Rattle.cli_drive.specs.Connections.{HasEnded, HasRead};
    ghost use Rattle.cli_drive.specs.Reports.{opened};
    ghost use Rattle.cli_drive.specs.Inboxes.{IsCut};

    /// No connection is open yet. The first centre listens at this port, and the others at the ports after it.
    pub(crate) fn new(
        alloc: Global,
        trains: usize,
        centres: u8,
        first: u16,
    ) -> Result<Calls, TrainsFault>
        ensures centres { IfOk result (λ calls. calls.centres ≡ centres) }
        ensures ports { IfOk result (λ calls. map (λ connection. connection.port) calls.connections.items
            ≡ ports_of_trains first centres trains) }
        ensures fits { result ≡ Err Socket → 65535 < first + (centres - 1) }
    {
        let mut connections = Vec::new(alloc);
        for _ in 0..trains {
            add_connections(alloc, &mut connections, centres, first)?;
        }
        Ok(Calls {
            centres,
            connections,
        })
    }

    // The place of the connection of a train to a centre.
    fn place_of(&self, train: usize, centre: u8) -> usize
        ensures { result ≡ place_of self.now.centres train centre }
    {
        let first = train.saturating_mul(usize::from(self.centres));
        first.saturating_add(usize::from(centre))
    }

    /// Sends a message to its centre. Without a connection, and if none can be opened now, the message is lost.
    pub(crate) fn send<R: Net<Stream = TcpStream>>(
        &mut self,
        rt: &R,
        letter: &Letter,
        now: u32,
    ) -> Result<(), TrainsFault>
        ensures { OnOk result (ChangesAt (λ old new. new.port ≡ old.port)
            (place_of self.old.centres letter.now.train letter.now.centre)
            self.old.connections.items self.new.connections.items) }
    {
        let place = self.place_of(letter.train, letter.centre);
        if let Some(connection) = self.connections.get_mut(place) {
            connection.say(rt, &letter.bytes, now)?;
        }
        Ok(())
    }

    /// Reads the bytes that have arrived from a centre for a train.
    pub(crate) fn read(&mut self, train: usize, centre: u8) -> Result<(), TrainsFault>
        ensures { OnOk result (ChangesAt HasRead (place_of self.old.centres train centre)
            self.old.connections.items self.new.connections.items) }
    {
        let place = self.place_of(train, centre);
        match self.connections.get_mut(place) {
            Some(connection) => connection.read(),
            None => Ok(()),
        }
    }

    /// Takes the first message of a centre to a train out of the bytes that have arrived.
    pub(crate) fn message(&mut self, train: usize, centre: u8) -> Result<Came, TrainsFault>
        ensures { IfOk result (λ came. ChangesAt
            (λ old new. IsCut old.inbox.bytes.items came new.inbox.bytes.items)
            (place_of self.old.centres train centre) self.old.connections.items self.new.connections.items) }
    {
        let place = self.place_of(train, centre);
        match self.connections.get_mut(place) {
            Some(connection) => Ok(connection.inbox.message()?),
            None => Ok(Came::Nothing),
        }
    }

    /// The connection of a train to a centre ends.
    pub(crate) fn end(&mut self, train: usize, centre: u8)
        ensures { ChangesAt (λ old new. HasEnded new) (place_of self.old.centres train centre)
            self.old.connections.items self.new.connections.items }
    {
        let place = self.place_of(train, centre);
        if let Some(connection) = self.connections.get_mut(place) {
            connection.end();
        }
    }

    /// How many connections were opened.
    pub(crate) fn opened(&self) -> u64
        ensures { result ≡ opened self.now }
    {
        let mut opened = 0u64;
        for connection in &self.connections {
            opened = opened.saturating_add(u64::from(connection.opened));
        }
        opened
    }
}

// Adds a connection to each centre.
fn add_connections(
    alloc: Global,
    connections: &mut Vec<Connection>,
    centres: u8,
    first: u16,
) -> Result<(), TrainsFault>
    ensures ports { OnOk result (map (λ connection. connection.port) connections.new.items
        ≡ map (λ connection. connection.port) connections.old.items ++ ports first centres) }
    ensures fits { result ≡ Err Socket → 65535 < first + (centres - 1) }
{
    for centre in 0..centres {
        let port = port_after(first, centre).ok_or(TrainsFault::Socket)?;
        connections.push(Connection::new(alloc, port))?;
    }
    Ok(())
}

/// The port that is this far after the first. None if it is not below 65 536.
pub(crate) fn port_after(first: u16, number: u8) -> Option<u16>
    ensures { result ≡ (if nat_le (first + number) 65535 then Some (first + number) else None) }
{
    first.checked_add(u16::from(number))
}
