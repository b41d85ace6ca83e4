//! Shows any bytes as a radio message, or as a frame between centres, field by field. Each field has its bits, its name
//! in the standard, its value, and the meaning of that. The fields are shown also if a decoder refuses the bytes.
//!
//! [`message_of`] is the way back: the bytes of a message whose shown fields are given.
//!
//! [`fields_of`] shows one message, and [`fields_of_frame`] one frame. The files `messages.rt`, `packets.rt` and
//! `packet_fields.rt` name all fields of messages, and `frames.rt` those of frames. For example the first field of
//! `9B 02 80 00 00 00 40 00 00 40` is NID_MESSAGE, 155, in bits 0 to 7.
//!
//! Bodies are free. docs/FORMATS.md fixes the printed text. The clauses of public functions have to stay.
#![tactic(auto)]

mod bodies;
mod encode;
mod fault;
mod frames;
mod hexadecimal;
mod kind;
mod layout;
mod look;
mod meaning;
mod messages;
mod names;
mod object;
mod packet_fields;
mod packets;
mod print;
mod printer;
mod reading;
mod seen;
mod shown;
mod walk;
mod written;

pub use encode::{EncodeFault, print_bytes};
pub use hexadecimal::bytes_in;
pub use kind::Kind;
pub use layout::Field;
pub use print::{Form, PrintFault, print_frame, print_messages};
pub use seen::{Notes, Seen};
pub use shown::Shown;
pub use walk::{fields_of, fields_of_frame, first_message};
pub use written::{Written, WrittenFault, frame_of, message_of};
