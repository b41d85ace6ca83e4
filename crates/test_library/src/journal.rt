//! Tests of journals, over texts in memory. They are of the bytes of a journal, and of the reading of a text that is
//! damaged or of another line. Tests of journal files are in `running`.
//!
//! Digests and checksums are those of `sha256sum` over the line file, and over the text after the checksum.
mod line;
mod reading;
mod writing;
