//! The commands of `rbcline`. Each is a function from its arguments and files to a print and an exit status.
//!
//! Bodies are free. docs/FORMATS.md fixes the printed text and each exit status.
#![tactic(auto)]

mod audit;
pub mod command;
mod decode;
pub mod demo;
mod diagram;
pub mod disk;
mod encode;
mod explain;
pub mod explaining;
pub mod files;
mod forms;
mod in_words;
pub mod inspecting;
pub mod journal;
mod journal_faults;
pub mod line_file;
mod margin;
mod matching;
mod nearest;
mod numbers;
mod options;
mod output;
mod over_time;
mod pcap;
mod picture;
mod printed;
mod requests;
pub mod rerunning;
pub mod run;
pub mod running;
mod scenarios;
mod script_faults;
mod serve_options;
mod storm;
mod time_range;
mod watch;
pub mod words;
