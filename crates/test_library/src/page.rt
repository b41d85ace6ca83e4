//! Tests of the pages of a line, over bytes in memory. They are of bytes that do not form a request, of the contents of
//! each answer, of the health and the metrics, and of the page of a print. A person can read the page without a script.
//! The expected answers are those of HTTP/1.1 (RFC 9110, RFC 9112).
pub mod line;
mod requests;
mod run;
mod shown;
mod wanted;
