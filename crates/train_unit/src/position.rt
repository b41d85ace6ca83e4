//! Whether a position report is true of a train.

ghost use Rattle.std.specs.Prelude.{◌≡◌, true, int_le};
ghost use Rattle.std.specs.Option.{option_map_or};
ghost use Rattle.rbc_spec.specs.Place as spec;
ghost use Rattle.rbc_msgs.specs.StepMessage.{position_of, step_body};
ghost use Rattle.rbc_place.specs.Places.{place_of};
ghost use Rattle.law_trains.specs.Trains as rules;
ghost use Rattle.train_unit.specs.Units.{train_of};
ghost use Rattle.train_unit.specs.declared.unit.OnBoardUnit.{OnBoardUnit};

use crate::ends::Ends;
use rbc_line::Line;
use rbc_msgs::TrainBody;
use rbc_packets::Position;
use rbc_place::{Place, extent};

/// Whether the position report of a message, if it has one, is true of a train with these safe ends (3.6).
pub(crate) fn is_true_of(line: &Line, ends: Ends, body: &TrainBody) -> bool
    ensures { (unit : OnBoardUnit) → result ≡ rules.is_true_of line.now (train_of unit ends) (step_body body.now) }
{
    match body {
        TrainBody::TrainData { position, .. }
        | TrainBody::Request { position, .. }
        | TrainBody::Report { position }
        | TrainBody::ShorteningGranted { position, .. }
        | TrainBody::ShorteningRejected { position, .. }
        | TrainBody::EndOfMission { position }
        | TrainBody::StartOfMission { position, .. } => is_true_report(line, ends, position),
        TrainBody::InitiationOfSession
        | TrainBody::TerminationOfSession
        | TrainBody::SessionEstablished => true,
    }
}

// Whether a report has no place, or one at which the train is.
fn is_true_report(line: &Line, ends: Ends, position: &Position) -> bool
    ensures { (unit : OnBoardUnit) → result ≡ option_map_or (rules.is_in_place (train_of unit ends))
        (spec.extent line.now (position_of position.now)) true }
{
    match extent(line, position) {
        Some(place) => is_in_place(ends, &place),
        None => true,
    }
}

// Whether a train with these safe ends is within the safe ends of the place.
fn is_in_place(ends: Ends, place: &Place) -> bool
    ensures { (unit : OnBoardUnit) → result ≡ rules.is_in_place (train_of unit ends) (place_of place.now) }
{
    place.track == ends.track && ends.front <= place.front && is_past(ends, place.rear)
}

// Whether the rear end is not in rear of that of a place, if that is known.
fn is_past(ends: Ends, rear: Option<i32>) -> bool
    ensures { result ≡ option_map_or (λ r. int_le r ends.rear) rear true }
{
    match rear {
        Some(rear) => rear <= ends.rear,
        None => true,
    }
}
