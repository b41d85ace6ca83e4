//! The bodies of the messages that decoders read (SUBSET-026 8.6 and 8.7).

ghost use Rattle.std.specs.Prelude.{◌≡◌};
ghost use Rattle.text_fields.specs.Walks.{body_at};

/// The body of a message after its header.
#[derive(Clone, Copy)]
pub(crate) struct Body {
    /// NID_MESSAGE.
    pub number: u64,
    pub own: Own,
    pub packets: Required,
}

/// The field of a message before its packets.
#[derive(Clone, Copy)]
pub(crate) enum Own {
    None,
    /// Q_MARQSTREASON.
    Reason,
    /// T_TRAIN of the message that it answers.
    Time,
    /// Q_STATUS.
    Status,
    /// M_VERSION.
    Version,
}

/// The packets that a message must have.
#[derive(Clone, Copy)]
pub(crate) enum Required {
    None,
    /// Packet 0.
    Position,
    /// Packets 0 and 11.
    PositionAndData,
    /// Packet 15.
    Authority,
    /// Packet 131 or packet 42.
    Order,
}

/// The bodies of the messages that decoders read.
const BODIES: &[Body] = &[
    Body {
        number: 3,
        own: Own::None,
        packets: Required::Authority,
    },
    Body {
        number: 8,
        own: Own::Time,
        packets: Required::None,
    },
    Body {
        number: 9,
        own: Own::None,
        packets: Required::Authority,
    },
    Body {
        number: 24,
        own: Own::None,
        packets: Required::Order,
    },
    Body {
        number: 32,
        own: Own::Version,
        packets: Required::None,
    },
    Body {
        number: 39,
        own: Own::None,
        packets: Required::None,
    },
    Body {
        number: 40,
        own: Own::None,
        packets: Required::None,
    },
    Body {
        number: 41,
        own: Own::None,
        packets: Required::None,
    },
    Body {
        number: 129,
        own: Own::None,
        packets: Required::PositionAndData,
    },
    Body {
        number: 132,
        own: Own::Reason,
        packets: Required::Position,
    },
    Body {
        number: 136,
        own: Own::None,
        packets: Required::Position,
    },
    Body {
        number: 137,
        own: Own::Time,
        packets: Required::Position,
    },
    Body {
        number: 138,
        own: Own::Time,
        packets: Required::Position,
    },
    Body {
        number: 150,
        own: Own::None,
        packets: Required::Position,
    },
    Body {
        number: 155,
        own: Own::None,
        packets: Required::None,
    },
    Body {
        number: 156,
        own: Own::None,
        packets: Required::None,
    },
    Body {
        number: 157,
        own: Own::Status,
        packets: Required::Position,
    },
    Body {
        number: 159,
        own: Own::None,
        packets: Required::None,
    },
];

/// The body of the message of this NID_MESSAGE. None if decoders read no such message.
pub(crate) fn body_of(number: u64) -> Option<Body>
    ensures { result ≡ body_at number BODIES.now }
{
    body_in(BODIES, number)
}

fn body_in(bodies: &[Body], number: u64) -> Option<Body>
    ensures { result ≡ body_at number bodies.now }
{
    for body in bodies {
        if body.number == number {
            return Some(*body);
        }
    }
    None
}
