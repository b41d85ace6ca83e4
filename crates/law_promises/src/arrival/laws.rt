//! The laws of the messages that arrive at trains.

ghost use Rattle.law_promises.specs.Arrival.Arrival.{ArrivalTheorem};
ghost use Rattle.law_promises.specs.Arrival.Received.{ReceivedTheorem};
ghost use Rattle.law_promises.specs.Arrival.Meeting.{WithinTheorem, MeetingTheorem};

/// Some part of the messages to trains arrives, in order. If the trains are safe by all messages, they are safe by that
/// part. No two may run over one section, and none over a section that is not released. Each message may be lost,
/// except that a train is accepted. A train grants a request to shorten its authority only if that has arrived. This
/// holds of any centres whose answers are safe.
pub fn what_comes_is_safe()
    ensures { ArrivalTheorem }
{}

/// Some part of the messages of the centres of a line arrives at the trains. By that part no two trains may run over
/// one section, and none over a section that is not released. Any message may be lost. Trains grant only requests that
/// arrived, and no authority arrives at a train whose last acceptance was lost.
pub fn received_messages_are_safe()
    ensures { ReceivedTheorem }
{}

/// So let each train be within the stretch by which it runs. Then no two trains are on one section, and none is on a
/// section that is not released.
pub fn trains_do_not_meet()
    ensures within { WithinTheorem }
    ensures meeting { MeetingTheorem }
{}
