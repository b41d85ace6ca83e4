ghost use Rattle.std.specs.Prelude.{◌≡◌, ◌≢◌, [], IfOk, IfErr};

use crate::opaque::Opaque;
use std::alloc::{AllocError, Global};
use std::marker::Model;

/// Packets of a train that are kept without being read, in their order. They are under one pointer, and none take no
/// memory.
#[derive(Debug, Drop)]
pub struct Packets {
    some: Option<Box<Vec<Opaque>>>,
}

impl Model for Packets {
    ghost use Rattle.std.specs.Prelude.{List};
    ghost use Rattle.rbc_packets.specs.Packet.{Packet};
    ghost use Rattle.rbc_packets.specs.PacketsView.{packets_of};

    ghost Value = { List Packet };

    ghost view = { packets_of };
}

impl Packets {
    /// No packet.
    pub fn none() -> Packets
        ensures { result ≡ [] }
    {
        Packets { some: None }
    }

    /// These packets.
    pub fn of(alloc: Global, packets: Vec<Opaque>) -> Result<Packets, AllocError>
        ensures ok { IfOk result (λ p. p ≡ packets.items) }
        // An empty list needs no memory.
        ensures memory { IfErr result (λ _. packets.items ≢ []) }
    {
        if packets.is_empty() {
            return Ok(Packets::none());
        }
        match Box::new(alloc, packets) {
            Ok(packets) => Ok(Packets {
                some: Some(packets),
            }),
            Err(_) => Err(AllocError),
        }
    }

    /// All of them.
    pub fn as_slice(&self) -> &[Opaque]
        ensures { result.now ≡ self.now }
    {
        match &self.some {
            Some(packets) => packets.as_slice(),
            None => &[],
        }
    }
}
