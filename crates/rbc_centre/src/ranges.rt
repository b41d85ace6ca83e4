//! The ranges of the fields of a train's message: each value is one of its type.

ghost use Rattle.rbc_msgs.specs.StepMessage.{step_message, position_of};
ghost use Rattle.law_invariants.specs.Ranges.Ranges.{HasMessageRanges, HasPositionRanges};

use rbc_msgs::{TrainBody, TrainMsg};
use rbc_packets::{Position, TrainLength};

/// A message of a train has its ranges.
#[inline(always)]
pub(crate) fn look_at_ranges(message: &TrainMsg)
    ensures { HasMessageRanges (step_message message.now) }
{
    let _t_train = message.t_train();
    match message.body() {
        TrainBody::StartOfMission { position, .. } => look_at_report(position),
        TrainBody::TrainData { position, .. } => look_at_report(position),
        TrainBody::Request { position, .. } => look_at_report(position),
        TrainBody::Report { position } => look_at_report(position),
        TrainBody::ShorteningGranted { position, .. } => look_at_report(position),
        TrainBody::ShorteningRejected { position, .. } => look_at_report(position),
        TrainBody::EndOfMission { position } => look_at_report(position),
        TrainBody::InitiationOfSession
        | TrainBody::TerminationOfSession
        | TrainBody::SessionEstablished => {}
    }
}

// A report has its ranges.
#[inline(always)]
fn look_at_report(position: &Position)
    ensures { HasPositionRanges (position_of position.now) }
{
    match position.train_length {
        TrainLength::ConfirmedByDevice(l) => {
            let _length = l.value();
        }
        TrainLength::ConfirmedByDriver(l) => {
            let _length = l.value();
        }
        TrainLength::NoInformation | TrainLength::Lost => {}
    }
}
