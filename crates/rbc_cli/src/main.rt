//! `rbcline`, the program of the radio block centres (RBCs). It runs a script of events on a line, or runs the
//! centres of the line for trains that connect to them. It prints the results.
//!
//! Bodies are free. docs/FORMATS.md fixes the printed text and each exit status.
#![tactic(auto)]

mod centres;
mod live_page;
mod ports;
mod record;
mod tell;
mod train;
mod trains;

use crate::centres::run_centres;
use crate::live_page::run_live_page;
use crate::tell::run_tell;
use crate::train::run_train;
use crate::trains::run_trains;
use cli_commands::command::command;
use cli_commands::disk::{Disk, words_of};
use cli_commands::words::{Request, requested};
use std::io;
use std::process::ExitCode;
use text_script::status::{ended, report};

fn main(rt: HostRuntime) -> ExitCode {
    let mut out = io::writer(&rt);
    let mut err = rt.stderr();
    let words = match words_of(&rt) {
        Ok(words) => words,
        Err(fault) => return ExitCode::from(report(&fault, &mut out, &mut err)),
    };
    let status = match requested(rt.alloc(), &words) {
        Ok(Request::Serve { file, port, words }) => run_centres(
            &rt, file, port, &words, &mut out, &mut err,
        ),
        Ok(
            Request::Drive {
                port,
                file,
                timeout_s,
            },
        ) => {
            let done = run_train(&rt, port, file, timeout_s, &mut out);
            ended(done, &mut out, &mut err)
        }
        Ok(Request::Tell(tell)) => run_tell(&rt, &words, tell, &mut out, &mut err),
        Ok(Request::Trains { port, file, words }) => {
            run_trains(&rt, port, file, &words, &mut out, &mut err)
        }
        Ok(Request::LivePage { file, page, words }) => {
            run_live_page(&rt, file, page, &words, &mut out, &mut err)
        }
        _ => command(rt.alloc(), &words, &Disk(&rt), &mut out, &mut err),
    };
    ExitCode::from(status)
}
