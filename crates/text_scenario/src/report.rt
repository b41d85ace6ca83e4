ghost use Rattle.std.specs.Prelude.{◌≡◌, ◌^◌, ◌<◌, IfOk};
ghost use Rattle.text_scenario.specs.Named.{position_of, unit_of, units_of, usual};

use crate::fault::SentFault;
use rbc_packets::{Level, Location, Position, TrainLength};
use rbc_vars::{
    DLrbg, Direction, LDoubtover, LDoubtunder, LTrainint, MMode, NidLrbg, QScale, VTrain,
};

/// A position report in words: distances are in decimetres, whatever the scale.
#[derive(Clone, Copy)]
pub struct Report {
    pub nid_lrbg: NidLrbg,
    pub q_scale: QScale,
    /// From the balise group to the estimated front end.
    pub distance: u32,
    pub q_dirlrbg: Direction,
    pub q_dlrbg: Direction,
    /// How far the front end may be in rear of that.
    pub in_rear: u32,
    /// How far it may be in advance of that.
    pub in_advance: u32,
    pub v_train: VTrain,
    pub train_length: TrainLength,
    pub q_dirtrain: Direction,
    pub m_mode: MMode,
    pub level: Level,
}

impl Report {
    /// A train of 200 m at standstill, in full supervision under level 2. Its group is not known.
    pub fn usual() -> Report
        ensures { result ≡ usual }
    {
        Report {
            nid_lrbg: NidLrbg::new(16_777_215),
            q_scale: QScale::Metre,
            distance: 0,
            q_dirlrbg: Direction::Nominal,
            q_dlrbg: Direction::Nominal,
            in_rear: 100,
            in_advance: 200,
            v_train: VTrain::new(0),
            train_length: TrainLength::ConfirmedByDevice(LTrainint::new(200)),
            q_dirtrain: Direction::Nominal,
            m_mode: MMode::new(0),
            level: Level::Level2,
        }
    }

    /// The packet of this report.
    #[tactic(auto, unfolding(crate::specs::Named::position_of))]
    pub fn position(&self) -> Result<Position, SentFault>
        ensures { result ≡ position_of self.now }
    {
        let d_lrbg = DLrbg::new(units(self.q_scale, self.distance)?);
        let l_doubtover = LDoubtover::new(units(self.q_scale, self.in_rear)?);
        let l_doubtunder = LDoubtunder::new(units(self.q_scale, self.in_advance)?);
        Ok(Position {
            location: Location {
                nid_lrbg: self.nid_lrbg,
                q_scale: self.q_scale,
                d_lrbg,
                q_dirlrbg: self.q_dirlrbg,
                q_dlrbg: self.q_dlrbg,
                l_doubtover,
                l_doubtunder,
            },
            v_train: self.v_train,
            train_length: self.train_length,
            q_dirtrain: self.q_dirtrain,
            m_mode: self.m_mode,
            level: self.level,
        })
    }
}

// The number of units in a distance.
fn units(q_scale: QScale, distance: u32) -> Result<u64, SentFault>
    ensures exact { result ≡ units_of q_scale distance }
    ensures range { IfOk result (λ n. n < 2 ^ 15) }
{
    let unit = unit_of(q_scale);
    if distance % unit != 0 {
        return Err(SentFault::Unit);
    }
    let count = distance / unit;
    if count < 1 << 15 {
        Ok(u64::from(count))
    } else {
        Err(SentFault::Unit)
    }
}

// The unit of a scale in decimetres.
fn unit_of(q_scale: QScale) -> u32
    ensures value { result ≡ unit_of q_scale }
    ensures range { 0 < result }
{
    match q_scale {
        QScale::Decimetre => 1,
        QScale::Metre => 10,
        QScale::Decametre => 100,
    }
}
