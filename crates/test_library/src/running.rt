//! Tests of running centres: trains and the interlocking as threads of one process, over loopback; and the files of
//! their journals. The lines of `drive` and `tell` are tested over bytes in memory.
mod client;
mod driving;
mod files;
mod initiations;
mod interlocking;
mod journals;
mod line;
mod notes;
mod options;
mod order;
mod play;
mod plays;
mod railway;
mod refusing;
mod sheet;
mod sinks;
mod slots;
mod sockets;
mod telling;
mod trains;
