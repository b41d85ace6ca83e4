ghost use Rattle.std.specs.Prelude.{◌≡◌, IfNone, IfSome, false, slice_set, true};
ghost use Rattle.serve_line.specs.Heads.{first_fields, is_whole, l_message, nid_engine, with_byte};

/// The bytes of the first fields of a message: NID_MESSAGE (8 bits), L_MESSAGE (10), T_TRAIN (32) and NID_ENGINE (24).
const HEAD: usize = 10;

/// The kind of a message, and its engine.
#[derive(Clone, Copy)]
pub(crate) struct Head {
    pub nid_message: u8,
    pub nid_engine: u32,
}

/// Finds the last byte of each message of a stream, and the first fields of the message. In faulty bytes it may find no
/// end: then the stream reports the fault.
#[derive(Clone, Copy)]
pub(crate) struct Cutter {
    // The bytes of the message so far, at most its first fields.
    head: [u8; HEAD],
    // The number of bytes of the message so far.
    count: usize,
}

impl Cutter {
    /// Before the first byte of a message.
    pub const FIRST: Cutter = Cutter {
        head: [0; HEAD],
        count: 0,
    };

    /// Takes the next byte. If the byte ends a message, the result is its first fields.
    pub fn take(&mut self, byte: u8) -> Option<Head>
        ensures some { IfSome result (λ head. (is_whole (with_byte self.old byte) ≡ true)
            × (head ≡ first_fields (with_byte self.old byte)) × (self.new ≡ Cutter.FIRST)) }
        ensures none { IfNone result ((is_whole (with_byte self.old byte) ≡ false)
            × (self.new ≡ with_byte self.old byte)) }
    {
        self.add(byte);
        if !self.is_whole() {
            return None;
        }
        let head = self.first_fields();
        *self = Cutter::FIRST;
        Some(head)
    }

    fn add(&mut self, byte: u8)
        ensures { self.new ≡ with_byte self.old byte }
    {
        put(&mut self.head, self.count, byte);
        self.count = self.count.saturating_add(1);
    }

    // Whether the bytes are a whole message.
    fn is_whole(&self) -> bool
        ensures { result ≡ is_whole self.now }
    {
        self.count >= HEAD && self.count == self.l_message()
    }

    fn first_fields(&self) -> Head
        ensures { result ≡ first_fields self.now }
    {
        Head {
            nid_message: self.head[0],
            nid_engine: self.nid_engine(),
        }
    }

    fn l_message(&self) -> usize
        ensures { result ≡ l_message self.now.head }
    {
        usize::from(u16::from_be_bytes([self.head[1], self.head[2]]) >> 6)
    }

    fn nid_engine(&self) -> u32
        ensures { result ≡ nid_engine self.now.head }
    {
        let [_, _, _, _, _, _, first, second, third, fourth] = self.head;
        (u32::from_be_bytes([first, second, third, fourth]) >> 6) & 0xFF_FFFF
    }
}

// Puts a byte at a place, if the bytes have the place.
fn put(bytes: &mut [u8], place: usize, byte: u8)
    ensures { bytes.new ≡ slice_set bytes.old place byte }
{
    if place < bytes.len() {
        bytes[place] = byte;
    }
}
