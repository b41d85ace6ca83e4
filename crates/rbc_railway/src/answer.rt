use rbc_world::Answer;

/// An answer of the centres, whose messages to trains are on the way from then on.
#[derive(Debug, Drop)]
pub struct CentreAnswer {
    /// The centre that took the event.
    pub centre: u8,
    /// Its answer.
    pub answer: Answer,
}
