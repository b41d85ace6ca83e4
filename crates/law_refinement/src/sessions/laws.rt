//! Laws of messages with an answer.

ghost use Rattle.std.specs.Prelude.{ℕ, Bool};
ghost use Rattle.rbc_spec.specs.Place.{Position};
ghost use Rattle.rbc_spec.specs.Message.{TrainData, ShorteningRejected, SessionEstablished, InitiationOfSession};
ghost use Rattle.rbc_spec.specs.Message.{TerminationOfSession, StartOfMission};
ghost use Rattle.law_refinement.specs.Sessions.Heard.{IsHeardAs};

/// A session that is established is up on the line too.
pub fn a_session_is_established()
    ensures { IsHeardAs SessionEstablished }
{}

/// Train data are known of the train's mission, and acknowledged.
pub fn train_data_are_heard()
    ensures { (position : Position) → IsHeardAs (TrainData position) }
{}

/// After its rejection a request to shorten is not pending, and nothing is freed.
pub fn a_rejection_is_heard()
    ensures { (asked : ℕ) (position : Position) → IsHeardAs (ShorteningRejected asked position) }
{}

/// A session that begins or ends also ends a waiting start of mission here. It ends a pending request to shorten, if
/// the centre supervises the train. The sections of that start are freed, and those that are wished back are reported.
/// The mark of a given section does not change.
pub fn a_session_begins_and_ends()
    ensures begins { IsHeardAs InitiationOfSession }
    ensures ends { IsHeardAs TerminationOfSession }
{}

/// A start of mission has one of four answers. It is rejected, or goes on within the train's hand. It begins at the
/// registrar if the right is there, or waits for the right elsewhere.
pub fn a_start_is_answered()
    ensures { (is_valid : Bool) (position : Position) → IsHeardAs (StartOfMission is_valid position) }
{}
