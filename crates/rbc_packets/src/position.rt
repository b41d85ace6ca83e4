ghost use Rattle.std.specs.Prelude.{◌≡◌, ◌+◌, ◌<◌, ◌≤◌, ◌++◌, ◌∷◌, [], length, IfOk, IfSome, Bool, List, Ok};
ghost use Rattle.rbc_bits.specs.Bits.{field};
ghost use Rattle.rbc_packets.specs.Layout.{joined, widths, train_packet};
ghost use Rattle.rbc_packets.specs.Steps.{Takes};
ghost use Rattle.rbc_packets.specs.PositionSpelling.{position_fields, running_fields, RunningFits, PositionFits};
ghost use Rattle.rbc_packets.specs.PositionReading.{position_at, position_part_at, position_fields_at};

use crate::fault::PacketFault;
use crate::level::Level;
use crate::location::Location;
use crate::reading::{direction, end, take, train_part};
use crate::train_length::TrainLength;
use crate::writing::put_header;
use rbc_bits::{BitPart, BitReader, BitRow, BitWord};
use rbc_vars::{Direction, MMode, VTrain};

/// Packet 0, position report (7.4.3.1).
#[derive(Clone, Copy, Debug, PartialEq, Eq)]
pub struct Position {
    /// The position of the train.
    pub location: Location,
    /// Its speed.
    pub v_train: VTrain,
    /// Its integrity and length.
    pub train_length: TrainLength,
    /// Which way it moves.
    pub q_dirtrain: Direction,
    /// The mode of its equipment.
    pub m_mode: MMode,
    /// The level under which it runs.
    pub level: Level,
}

// The bits of the header and of the fields that each report has, but for Q_LENGTH and M_LEVEL.
const FIXED_BITS: u64 = 109;

// The bits after the header of a report with L_TRAININT and without NID_NTC.
const USUAL_BITS: u32 = 108;

// The fewest bits after the header.
const LEAST_BITS: u32 = 93;

impl Position {
    /// NID_PACKET of a position report.
    pub const NID_PACKET: u64 = 0;

    /// Reads the packet after its NID_PACKET.
    #[inline(always)]
    pub fn read_packet(reader: &mut BitReader) -> Result<Self, PacketFault>
        // The bits spell the value that is read.
        ensures found { IfOk result
            (λ p. (reader.old ≡ joined (train_packet (position_fields p)) ++ reader.new) × PositionFits p) }
        // A spelled value is read.
        ensures only { (p : Position) (rest : List Bool) → PositionFits p
            → reader.old ≡ joined (train_packet (position_fields p)) ++ rest → (result ≡ Ok p) × (reader.new ≡ rest) }
        // Which fault it is.
        ensures exact { Takes (λ x. x) result reader.new (position_at reader.old) }
    {
        Position::read(reader)
    }

    #[tactic(auto, unfolding(crate::specs::PositionReading::position_at))]
    #[inline(always)]
    fn read(reader: &mut BitReader) -> Result<Self, PacketFault>
        ensures exact { Takes (λ x. x) result reader.new (position_at reader.old) }
        ensures taken { IfOk result (λ p. reader.old ≡ joined (train_packet (position_fields p)) ++ reader.new) }
        ensures fits { IfOk result PositionFits }
    {
        let bits = train_part(reader)?;
        let position = match in_word(&bits) {
            Some(part) => Position::whole(part)?,
            None => Position::far(bits)?,
        };
        Ok(position)
    }

    /// The bits after the header of a packet of the usual length: that of a train with a known length and without a
    /// national system. `None` if it has fewer or more bits, or if they do not fit in one word.
    #[inline(always)]
    pub fn usual_bits(reader: &mut BitReader) -> Option<BitWord>
        ensures taken { IfSome result (λ bits. reader.old ≡ field 13 129 ++ (bits ++ reader.new)) }
        ensures length { IfSome result (λ bits. length bits ≡ 108) }
    {
        let Ok(bits) = train_part(reader) else {
            return None;
        };
        if bits.remaining() != USUAL_BITS {
            return None;
        }
        bits.word()
    }

    /// The position report of these bits. `None` if they have no train length, or if a value is refused. The positions
    /// of its fields are known, so only values are tested.
    #[tactic(auto, unfolding(crate::specs::Layout::joined))]
    #[inline(always)]
    pub fn of_usual(mut bits: BitWord) -> Option<Self>
        requires { length bits ≡ 108 }
        ensures found { IfSome result (λ p. (bits ≡ joined (position_fields p)) × PositionFits p) }
    {
        let location = Location::usual(&mut bits)?;
        let train_length = TrainLength::usual(&mut bits)?;
        let v_train = VTrain::new(bits.next(7));
        let q_dirtrain = Direction::of(bits.next(2))?;
        let m_mode = MMode::new(bits.next(4));
        let level = Level::usual(&mut bits)?;
        Some(Position {
            location,
            train_length,
            v_train,
            q_dirtrain,
            m_mode,
            level,
        })
    }

    // All bits after the header, if they do not fit in one word. It is a function of its own, so that the fields of the
    // others are read without a test of their positions.
    #[inline(never)]
    fn far(bits: BitReader) -> Result<Self, PacketFault>
        ensures exact { (rest : List Bool) → Takes (λ x. x) result rest (position_part_at bits.entry rest) }
        ensures taken { IfOk result (λ p. bits.entry ≡ joined (position_fields p)) }
        ensures fits { IfOk result PositionFits }
    {
        Position::whole(bits.part())
    }

    // All bits after the header. It is a call, and the only one of `fields`, so that the part stays in registers from
    // field to field.
    #[inline(never)]
    fn whole(mut part: BitPart) -> Result<Self, PacketFault>
        ensures exact { (rest : List Bool) → Takes (λ x. x) result rest (position_part_at part.entry rest) }
        ensures taken { IfOk result (λ p. part.entry ≡ joined (position_fields p)) }
        ensures fits { IfOk result PositionFits }
    {
        let position = Position::fields(&mut part)?;
        end(part)?;
        Ok(position)
    }

    #[tactic(auto, unfolding(crate::specs::PositionReading::position_fields_at, crate::specs::Layout::joined))]
    #[inline(always)]
    fn fields(part: &mut BitPart) -> Result<Self, PacketFault>
        ensures exact { Takes (λ x. x) result part.new (position_fields_at part.old) }
        ensures taken { IfOk result (λ p. part.old ≡ joined (position_fields p) ++ part.new) }
        ensures fits { IfOk result PositionFits }
    {
        let location = Location::read(part)?;
        let train_length = TrainLength::read(part)?;
        let v_train = VTrain::new(take(part, 7)?);
        let q_dirtrain = direction(part)?;
        let m_mode = MMode::new(take(part, 4)?);
        let level = Level::read(part)?;
        Ok(Position {
            location,
            train_length,
            v_train,
            q_dirtrain,
            m_mode,
            level,
        })
    }

    /// Writes the packet.
    #[inline(always)]
    pub fn write_packet(&self, row: &mut BitRow)
        requires room { length row.old + 137 ≤ 256 }
        ensures ok { row.new ≡ row.old ++ joined ((8, 0) ∷ train_packet (position_fields self.now)) }
        ensures length { length row.new ≤ length row.old + 137 }
        ensures fits { PositionFits self.now }
    {
        put_header(row, Position::NID_PACKET, self.l_packet());
        self.location.write(row);
        self.train_length.write(row);
        self.write_running(row);
        self.level.write(row);
    }

    /// L_PACKET: how many bits the packet has.
    #[inline(always)]
    pub fn l_packet(&self) -> u64
        ensures value { result ≡ 21 + widths (position_fields self.now) }
        ensures range { result ≤ 137 }
    {
        FIXED_BITS + self.train_length.bits() + self.level.bits()
    }

    #[tactic(auto, unfolding(crate::specs::Layout::joined))]
    #[inline(always)]
    fn write_running(&self, row: &mut BitRow)
        requires room { length row.old + 13 ≤ 256 }
        ensures ok { row.new ≡ row.old ++ joined (running_fields self.now) }
        ensures length { length row.new ≡ length row.old + 13 }
        ensures fits { RunningFits self.now }
    {
        row.put(self.v_train.value(), 7);
        row.put(self.q_dirtrain.value(), 2);
        row.put(self.m_mode.value(), 4);
    }
}

// All bits after the header in one word, if that may suffice.
#[inline(always)]
fn in_word<'a>(bits: &BitReader<'a>) -> Option<BitPart<'a>>
    ensures { IfSome result (λ part. part ≡ bits.now) }
{
    if bits.remaining() < LEAST_BITS {
        return None;
    }
    bits.word_part()
}
