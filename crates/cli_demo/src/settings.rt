/// The settings of a demo.
#[derive(Clone, Copy)]
pub struct Settings {
    /// The most trains. The line file and the tracks may have room for fewer.
    pub trains: u8,
    /// The probability that a message is lost, in per cent.
    pub loss: u8,
    /// The seed of all that is drawn by lot.
    pub seed: u64,
    /// The most events at the centres, and the most seconds.
    pub events: u32,
    /// The events are printed as a script, in place of the table.
    pub is_script: bool,
}
