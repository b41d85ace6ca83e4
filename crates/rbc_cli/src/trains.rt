//! Runs trains over running centres.

ghost use Rattle.std.specs.Prelude.{◌≡◌, false, IsErrOf, not, Ok, OnOk, true, unwrap_or};
ghost use Rattle.text_script.specs.declared.status.fault.Fault.TheVariants.{Differs};

use crate::ports::{first_at, report_port};
use cli_commands::disk::Disk;
use cli_commands::line_file::{LineFile, line_file_in};
use cli_commands::words::TrainsWords;
use cli_drive::trains::{NoObserver, Observer, Settings, TrainsFault, run};
use std::alloc::AllocError;
use std::fs::File;
use std::io::Write;
use std::net::{Net, TcpStream};
use std::rt::Files;
use std::time::Clock;
use text_script::status::{Fault, ended, report};

/// How long a second of the trains takes, in milliseconds.
const SECOND_MS: u64 = 50;

/// Runs trains on the line of a file over its centres, which listen on this host, and returns the exit status. If two
/// trains were on one section, the print has that, and the fault is `Differs`.
pub fn run_trains<
    R: Net<Stream = TcpStream> + Clock + Files<File = File> + AllocGlobal,
    O: Write,
    E: Write,
>(rt: &R, port: u16, file: &str, words: &TrainsWords, out: &mut O, err: &mut E) -> u8 {
    let given = match line_file_in(rt.alloc(), file, &Disk(rt)) {
        Ok(given) => given,
        Err(fault) => return report(&fault, out, err),
    };
    let port = match first_at(port, given.line.centre_count()) {
        Ok(port) => port,
        Err(most) => return report_port(err, "PORT", port, most),
    };
    let settings = settings_of(port, words, SECOND_MS);
    let done = run_on(rt, &given, settings, &NoObserver, out);
    ended(done, out, err)
}

/// Runs trains on a line over its centres. The observer gets their true places.
pub fn run_on<R: Net<Stream = TcpStream> + Clock + AllocGlobal, P: Observer, O: Write>(
    rt: &R,
    given: &LineFile,
    settings: Settings,
    observer: &P,
    out: &mut O,
) -> Result<(), Fault<'static>> {
    result_of(run(rt, &given.line, settings, observer, out))
}

// The result of the command, by that of the trains: whether no two of them were on one section.
fn result_of(done: Result<bool, TrainsFault>) -> Result<(), Fault<'static>>
    ensures ok { OnOk result (done ≡ Ok true) }
    ensures differs { done ≡ Ok false → IsErrOf result Differs }
{
    match done {
        Ok(true) => Ok(()),
        Ok(false) => Err(Fault::Differs),
        Err(TrainsFault::Memory) => Err(AllocError.into()),
        Err(TrainsFault::Socket) => Err(Fault::Socket),
        Err(TrainsFault::Write) => Err(Fault::Write),
    }
}

/// The settings of the arguments. A second of the trains takes this many milliseconds.
pub fn settings_of(port: u16, words: &TrainsWords, second_ms: u64) -> Settings
    ensures trains { result.trains ≡ unwrap_or words.now.trains 64 }
    ensures loss { result.loss ≡ unwrap_or words.now.loss 0 }
    ensures late { result.late ≡ unwrap_or words.now.late 0 }
    ensures release { result.is_releasing ≡ not words.now.is_shut }
{
    Settings {
        port,
        trains: words.trains.unwrap_or(64),
        loss: words.loss.unwrap_or(0),
        late: words.late.unwrap_or(0),
        seed: words.seed.unwrap_or(0),
        seconds: words.seconds.unwrap_or(20_000),
        second_ms,
        is_releasing: !words.is_shut,
    }
}
