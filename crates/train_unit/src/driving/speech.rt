//! The messages of a train, with its position by its odometry.

ghost use Rattle.std.specs.Prelude.{◌≡◌, IfOk};
ghost use Rattle.rbc_msgs.specs.TrainView.{HasItsPackets};

use crate::policy::NextMessage;
use rbc_bits::BitReader;
use rbc_line::Section;
use rbc_msgs::{TrainBody, TrainMsg};
use rbc_packets::{Level, Location, Opaque, Packets, Position, TrainLength};
use rbc_vars::{
    DLrbg, Direction, LDoubtover, LDoubtunder, LTrainint, MMode, NidLrbg, QMarqstreason, QScale,
    QStatus, TTrain, VTrain,
};
use std::alloc::{AllocError, Global};

/// The length of each train, in decimetres.
pub const LENGTH: u32 = 800;

/// The doubt of its odometry in both directions, in decimetres.
pub(crate) const DOUBT: u32 = 10;

/// The length that it reports, in metres.
const REPORTED_LENGTH: u64 = 81;

/// A message that a train is about to send.
#[derive(Clone, Copy, Debug)]
pub enum Speech {
    /// A message that the policy of the on-board unit proposes.
    Next(NextMessage),
    /// Message 136, Train Position Report.
    Report,
    /// Message 150, End of Mission, at standstill.
    EndOfMission,
    /// Message 156, Termination of a communication session.
    EndOfSession,
}

/// The message of a train.
pub fn message(
    alloc: Global,
    t_train: u32,
    nid_engine: u32,
    speech: Speech,
    position: Position,
) -> Result<TrainMsg, AllocError> {
    let body = body(alloc, speech, position)?;
    let t_train = t_train.min(4_000_000_000);
    let nid_engine = nid_engine.min(16_777_215);
    Ok(TrainMsg::new(t_train, nid_engine, body, Packets::none()))
}

fn body(alloc: Global, speech: Speech, position: Position) -> Result<TrainBody, AllocError>
    ensures { IfOk result HasItsPackets }
{
    match speech {
        Speech::Report => Ok(TrainBody::Report { position }),
        Speech::EndOfMission => Ok(TrainBody::EndOfMission { position }),
        Speech::EndOfSession => Ok(TrainBody::TerminationOfSession),
        Speech::Next(next) => next_body(alloc, next, position),
    }
}

fn next_body(alloc: Global, next: NextMessage, position: Position) -> Result<TrainBody, AllocError>
    ensures { IfOk result HasItsPackets }
{
    Ok(match next {
        NextMessage::TrainData => TrainBody::TrainData {
            position,
            packet: train_data(alloc)?,
        },
        NextMessage::Request => TrainBody::Request {
            q_marqstreason: QMarqstreason::new(1),
            position,
        },
        NextMessage::ShorteningGranted(request) => TrainBody::ShorteningGranted {
            request: TTrain::new(u64::from(request)),
            position,
        },
        NextMessage::ShorteningRejected(request) => TrainBody::ShorteningRejected {
            request: TTrain::new(u64::from(request)),
            position,
        },
        NextMessage::InitiationOfSession => TrainBody::InitiationOfSession,
        NextMessage::StartOfMission => TrainBody::StartOfMission {
            q_status: QStatus::Valid,
            position,
        },
        NextMessage::SessionEstablished => TrainBody::SessionEstablished,
    })
}

// Packet 11, of which no bit is read.
fn train_data(alloc: Global) -> Result<Opaque, AllocError>
    ensures { IfOk result (λ p. p.nid_packet ≡ 11) }
{
    let none = BitReader::new(&[]);
    if none.remaining() > 0 {
        return Err(AllocError);
    }
    match Opaque::new(alloc, 11, none) {
        Ok(packet) => Ok(packet),
        Err(_) => Err(AllocError),
    }
}

/// The position report of a train whose front end is in this section.
pub fn position(nid_c: u16, section: Section, front: u32, is_still: bool) -> Position {
    let group = u64::from(nid_c) * 16_384 + u64::from(section.balise);
    let start = 10 * u64::from(section.start);
    Position {
        location: Location {
            q_scale: QScale::Decimetre,
            nid_lrbg: NidLrbg::new(group.min(16_777_215)),
            d_lrbg: DLrbg::new(u64::from(front).saturating_sub(start).min(32_000)),
            q_dirlrbg: Direction::Nominal,
            q_dlrbg: Direction::Nominal,
            l_doubtover: LDoubtover::new(u64::from(DOUBT)),
            l_doubtunder: LDoubtunder::new(u64::from(DOUBT)),
        },
        train_length: TrainLength::ConfirmedByDevice(LTrainint::new(REPORTED_LENGTH)),
        v_train: VTrain::new(if is_still { 0 } else { 20 }),
        q_dirtrain: Direction::Nominal,
        m_mode: MMode::new(0),
        level: Level::Level2,
    }
}
