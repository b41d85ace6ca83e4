/// The two ends of a train on its track, in decimetres from the start of the track. As safe ends, by its odometry: its
/// front end is not in advance of `front`, and its rear end is not in rear of `rear`.
#[derive(Clone, Copy, Debug, PartialEq, Eq)]
pub struct Ends {
    /// Number of the track in the line file, from 0.
    pub track: u8,
    /// The front end.
    pub front: u32,
    /// The rear end. It may be before the start of the track.
    pub rear: i32,
}
