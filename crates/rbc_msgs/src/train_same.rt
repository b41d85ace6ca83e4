//! Whether two messages of trains are the same. They own the bits of packets, so no `==` is derived.

ghost use Rattle.std.specs.Prelude.{◌≡◌, ◌↔◌, ◌++◌, ◌<◌, ◌^◌, IsTrue, length, min};
ghost use Rattle.rbc_bits.specs.Bits.{field};

use crate::train::TrainMsg;
use crate::train_body::TrainBody;
use rbc_bits::BitReader;
use rbc_packets::{Location, Opaque, Position};

impl TrainMsg {
    /// Whether both messages are the same, their further packets too.
    pub fn is_same(&self, other: &TrainMsg) -> bool
        ensures { IsTrue result ↔ (self.now ≡ other.now) }
    {
        self.t_train() == other.t_train()
            && self.nid_engine() == other.nid_engine()
            && is_same_body(self.body(), other.body())
            && are_same_packets(self.further(), other.further())
    }
}

// Whether the bodies are the same.
fn is_same_body(a: &TrainBody, b: &TrainBody) -> bool
    ensures { IsTrue result ↔ (a.now ≡ b.now) }
{
    match a {
        TrainBody::TrainData { position, packet } => {
            matches!(b, TrainBody::TrainData { position: p, packet: q } if is_same_position(position, p) && is_same_packet(packet, q))
        }
        TrainBody::Request {
            q_marqstreason,
            position,
        } => {
            matches!(b, TrainBody::Request { q_marqstreason: q, position: p } if *q_marqstreason == *q && is_same_position(position, p))
        }
        TrainBody::Report { position } => {
            matches!(b, TrainBody::Report { position: p } if is_same_position(position, p))
        }
        TrainBody::ShorteningGranted { request, position } => {
            matches!(b, TrainBody::ShorteningGranted { request: r, position: p } if *request == *r && is_same_position(position, p))
        }
        TrainBody::ShorteningRejected { request, position } => {
            matches!(b, TrainBody::ShorteningRejected { request: r, position: p } if *request == *r && is_same_position(position, p))
        }
        TrainBody::EndOfMission { position } => {
            matches!(b, TrainBody::EndOfMission { position: p } if is_same_position(position, p))
        }
        TrainBody::InitiationOfSession => matches!(b, TrainBody::InitiationOfSession),
        TrainBody::TerminationOfSession => matches!(b, TrainBody::TerminationOfSession),
        TrainBody::StartOfMission { q_status, position } => {
            matches!(b, TrainBody::StartOfMission { q_status: q, position: p } if *q_status == *q && is_same_position(position, p))
        }
        TrainBody::SessionEstablished => matches!(b, TrainBody::SessionEstablished),
    }
}

fn is_same_position(a: &Position, b: &Position) -> bool
    ensures { IsTrue result ↔ (a.now ≡ b.now) }
{
    is_same_location(&a.location, &b.location)
        && a.train_length == b.train_length
        && a.v_train == b.v_train
        && a.q_dirtrain == b.q_dirtrain
        && a.m_mode == b.m_mode
        && a.level == b.level
}

fn is_same_location(a: &Location, b: &Location) -> bool
    ensures { IsTrue result ↔ (a.now ≡ b.now) }
{
    a.q_scale == b.q_scale
        && a.nid_lrbg == b.nid_lrbg
        && a.d_lrbg == b.d_lrbg
        && a.q_dirlrbg == b.q_dirlrbg
        && a.q_dlrbg == b.q_dlrbg
        && a.l_doubtover == b.l_doubtover
        && a.l_doubtunder == b.l_doubtunder
}

// Whether the packets are the same, one by one.
fn are_same_packets(a: &[Opaque], b: &[Opaque]) -> bool
    ensures { IsTrue result ↔ (a.now ≡ b.now) }
{
    if a.len() != b.len() {
        return false;
    }
    for (i, packet) in a.iter().enumerate() {
        if !is_same_packet(packet, &b[i]) {
            return false;
        }
    }
    true
}

fn is_same_packet(a: &Opaque, b: &Opaque) -> bool
    ensures { IsTrue result ↔ (a.now ≡ b.now) }
{
    a.nid_packet() == b.nid_packet() && are_same_bits(a.bits(), b.bits())
}

// Whether the bits are the same, word by word.
fn are_same_bits(mut a: BitReader, mut b: BitReader) -> bool
    ensures { IsTrue result ↔ (a.entry ≡ b.entry) }
{
    if a.remaining() != b.remaining() {
        return false;
    }
    while a.remaining() > 0 {
        if word(&mut a) != word(&mut b) {
            return false;
        }
    }
    true
}

// The next 64 bits, or all that are left.
fn word(reader: &mut BitReader) -> u64
    ensures taken { reader.old ≡ field (min 64 (length reader.old)) result ++ reader.new }
    ensures fits { result < 2 ^ min 64 (length reader.old) }
{
    let n = reader.remaining().min(64);
    match reader.take(n) {
        Ok(word) => word,
        Err(_) => unreachable!(),
    }
}
