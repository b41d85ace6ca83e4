//! A capture for Wireshark of the radio messages in a print.

use crate::connection::{By, Connection, Sender};
use crate::records::Records;
use crate::segment::End;
use hex::FromHexError;
use rbc_line::Line;
use std::alloc::{AllocError, Global};
use std::collections::HashMap;
use text_words::{Row, row_of};

/// The bytes of the capture of a print, and whether it has a message. The time of a packet is the number of its event,
/// in seconds. Centres have consecutive ports from the first one, in the order of the line file. Lines of other forms
/// are left out, and so are frames between centres and the interlocking.
pub fn capture_of(
    alloc: Global,
    line: &Line,
    printed: &str,
    first_port: u16,
) -> Result<(Vec<u8>, bool), AllocError> {
    let mut capture = Capture {
        alloc,
        first_port,
        records: Records::new(alloc)?,
        connections: HashMap::new(alloc),
        opened: 0,
        event: 0,
        sender: None,
        has_message: false,
    };
    for row in printed.split('\n') {
        capture.add_row(line, row)?;
    }
    let Capture {
        records,
        has_message,
        ..
    } = capture;
    Ok((records.into_bytes(), has_message))
}

/// A capture of the first lines of a print.
#[derive(Drop)]
struct Capture {
    alloc: Global,
    first_port: u16,
    records: Records,
    /// The open connections, by their centre and train.
    connections: HashMap<u64, Connection>,
    /// How many connections were opened.
    opened: u32,
    /// The number of the last event.
    event: u32,
    /// The connection of the train that sent the last event, if a train did.
    sender: Option<u64>,
    has_message: bool,
}

impl Capture {
    // Adds the packets of a line.
    fn add_row(&mut self, line: &Line, row: &str) -> Result<(), AllocError> {
        let words: Vec<&str> = row.split(' ').collect(self.alloc)?;
        match row_of(line, &words) {
            Some(Row::Train { centre, digits }) => {
                self.count();
                self.add_message(line, centre, digits, None)
            }
            Some(Row::Set { .. } | Row::Unset { .. } | Row::Deliver { .. }) => {
                self.count();
                Ok(())
            }
            Some(
                Row::Message {
                    centre,
                    nid_engine,
                    digits,
                },
            ) => self.add_message(line, centre, digits, Some(nid_engine)),
            Some(Row::Fault { .. }) => self.end(),
            _ => Ok(()),
        }
    }

    // Counts an event.
    fn count(&mut self) {
        self.event = self.event.saturating_add(1);
        self.sender = None;
        self.records.begin(self.event);
    }

    // Adds a message to a train, or of a train if none is given.
    fn add_message(
        &mut self,
        line: &Line,
        centre: &str,
        digits: &str,
        receiver: Option<u32>,
    ) -> Result<(), AllocError> {
        let Some(centre) = line.centre_named(centre) else {
            return Ok(());
        };
        let Some(bytes) = bytes_in(self.alloc, digits)? else {
            return Ok(());
        };
        let (by, nid_engine) = match receiver {
            Some(nid_engine) => (By::Centre, nid_engine),
            None => (By::Train, engine_of(&bytes)),
        };
        let key = key_of(centre, nid_engine);
        if by == By::Train {
            self.sender = Some(key);
        }
        self.has_message = true;
        self.send(key, by, &bytes)
    }

    // Sends bytes on a connection, which is opened before the first of them.
    fn send(&mut self, key: u64, by: By, bytes: &[u8]) -> Result<(), AllocError> {
        let known = self.connections.get(&key).copied();
        let mut connection = match known {
            Some(connection) => connection,
            None => self.open(key)?,
        };
        connection.send(&mut self.records, by, bytes)?;
        match self.connections.insert(key, connection) {
            Ok(_) => Ok(()),
            Err(_) => Err(AllocError),
        }
    }

    fn open(&mut self, key: u64) -> Result<Connection, AllocError> {
        let mut connection = connection_of(key, self.opened, self.first_port);
        self.opened = self.opened.saturating_add(1);
        connection.open(&mut self.records)?;
        Ok(connection)
    }

    // Ends the connection of the train whose bytes have a fault, as a centre does.
    fn end(&mut self) -> Result<(), AllocError> {
        let Some(key) = self.sender else {
            return Ok(());
        };
        match self.connections.remove(&key) {
            Some(connection) => {
                let mut connection = connection;
                connection.end(&mut self.records)
            }
            None => Ok(()),
        }
    }
}

// A connection that is not open. The address of train N is 10.x.y.z, whose last 24 bits are N.
fn connection_of(key: u64, opened: u32, first_port: u16) -> Connection {
    let centre = ((key >> 32) % 65_536) as u16;
    Connection {
        train: Sender {
            end: End {
                address: 0x0A00_0000 + (key % 16_777_216) as u32,
                port: 32_768 + (opened % 28_000) as u16,
            },
            next: 1_000,
        },
        centre: Sender {
            end: End {
                address: 0x7F00_0001,
                port: first_port.saturating_add(centre),
            },
            next: 5_000,
        },
    }
}

// The key of a connection.
fn key_of(centre: u8, nid_engine: u32) -> u64 {
    u64::from(centre) * 4_294_967_296 + u64::from(nid_engine)
}

// NID_ENGINE of a train's message: bits 50 to 73. 0 if the bytes have none.
fn engine_of(bytes: &[u8]) -> u32 {
    match *bytes {
        [number, _, _, _, _, _, first, second, third, fourth, ..] if number >= 128 => {
            let bits = u32::from_be_bytes([first, second, third, fourth]);
            (bits >> 6) % 16_777_216
        }
        _ => 0,
    }
}

// The bytes of hexadecimal digits, if they are such.
fn bytes_in(alloc: Global, digits: &str) -> Result<Option<Vec<u8>>, AllocError> {
    match hex::decode(alloc, digits) {
        Ok(bytes) => Ok(Some(bytes)),
        Err(FromHexError::OutOfMemory) => Err(AllocError),
        Err(_) => Ok(None),
    }
}
