//! The meanings of the values of a field.

ghost use Rattle.std.specs.Prelude.{◌≡◌};
ghost use Rattle.text_fields.specs.Refused.{has, refuses};
ghost use Rattle.text_fields.specs.Senses.{listed};
ghost use Rattle.text_fields.specs.Words.{words_or};

/// The values of a field with their meaning.
pub type Words = &'static [(u64, &'static str)];

/// The meanings of the values of a field, and the values that a decoder refuses.
#[derive(Clone, Copy)]
pub enum Kind {
    /// A number that means no more than itself.
    Number,
    /// NID_MESSAGE.
    Message,
    /// NID_PACKET.
    Packet,
    /// A count of this unit.
    Count(&'static str),
    /// Each value has a meaning. Any other is refused.
    Words(Words),
    /// Only this value is read: its meaning.
    Only(u64, &'static str),
    /// A number from the first to the last. Any other is refused.
    Range(u64, u64),
    /// The T_TRAIN of a train's header, in units of 10 ms. The greatest value is unknown, and refused.
    TrainTime,
    /// The T_TRAIN of a centre's header: the count of its messages to the train. The greatest value is refused.
    CentreTime,
    /// The T_TRAIN of another message. The greatest value is unknown.
    OtherTime,
    /// A balise group: NID_C in 10 bits, and NID_BG in 14.
    Group,
    /// A distance in the unit of Q_SCALE. The greatest value is unknown.
    Distance,
    /// A distance in decimetres in two's complement.
    Decimetres,
    /// A speed in steps of 5 km/h, up to 600 km/h.
    Speed,
    /// Bits with a meaning each, or without any.
    Bits,
    /// The bits that fill the last byte. They are zero.
    Filling,
}

// The greatest number of 32 bits.
const UNKNOWN_TIME: u64 = 4_294_967_295;

impl Kind {
    /// Whether a decoder refuses this value of the field.
    pub fn refuses(self, value: u64) -> bool
        ensures { result ≡ refuses self value }
    {
        match self {
            Kind::Words(words) => !has(words, value),
            Kind::Only(only, _) => value != only,
            Kind::Range(least, most) => value < least || value > most,
            Kind::TrainTime | Kind::CentreTime => value == UNKNOWN_TIME,
            Kind::Filling => value != 0,
            Kind::Number
            | Kind::Message
            | Kind::Packet
            | Kind::Count(_)
            | Kind::OtherTime
            | Kind::Group
            | Kind::Distance
            | Kind::Decimetres
            | Kind::Speed
            | Kind::Bits => false,
        }
    }
}

// Whether a table has a meaning of the value.
fn has(words: Words, value: u64) -> bool
    ensures { result ≡ has words.entry.now value }
{
    words.iter().any(|row| row.0 == value)
}

/// The meaning of a value by a table, or other words.
pub(crate) fn words_or(words: Words, value: u64, other: &'static str) -> &'static str
    ensures { result.now ≡ words_or (listed words.entry.now) value other.entry.now }
{
    for (one, meaning) in words {
        if *one == value {
            return *meaning;
        }
    }
    other
}
