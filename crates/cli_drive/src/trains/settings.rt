/// The settings of trains over TCP.
#[derive(Clone, Copy)]
pub struct Settings {
    /// The port of the first centre. The others listen at the ports after it, and then the control endpoint.
    pub port: u16,
    /// The most trains. The line file and the tracks may have room for fewer.
    pub trains: u8,
    /// The probability that a message is lost, in per cent.
    pub loss: u8,
    /// The probability that a message is late, in per cent.
    pub late: u8,
    /// The seed of all that is drawn by lot.
    pub seed: u64,
    /// The most seconds of the trains.
    pub seconds: u32,
    /// How long a second of the trains takes, in milliseconds.
    pub second_ms: u64,
    /// The trains' sections are released over the control endpoint.
    pub is_releasing: bool,
}
