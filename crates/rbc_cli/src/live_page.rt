//! Runs trains over centres in this process, with the page of the line.

ghost use Rattle.std.specs.Prelude.{◌≡◌, false, None, Some, true};

use crate::centres::{opened, refused};
use crate::ports::{first_after, report_port};
use crate::trains::{run_on, settings_of};
use cli_commands::demo::line_of_demo;
use cli_commands::disk::Disk;
use cli_commands::line_file::LineFile;
use cli_commands::words::{ServeWords, TrainsWords};
use cli_drive::trains;
use cli_drive::trains::Observer;
use serve_journal::SystemFile;
use serve_line::{
    Endpoints, NoNotes, NoteForm, Record, ServeFault, ServeOptions, StderrNotes, TruePlace,
    TruePlaces, serve,
};
use std::alloc::AllocError;
use std::fs::File;
use std::io::{Eprint, Write};
use std::net::{IpAddr, Ipv4Addr, Net, SocketAddr, TcpListener, TcpStream};
use std::rt::Files;
use std::sync::Wait;
use std::thread::Threads;
use std::time::{Clock, Duration};
use std::{io, thread};
use text_script::status::{Fault, ended, report};

/// How long a second of the trains takes, in milliseconds.
const SECOND_MS: u64 = 250;

/// How often `stop now` is sent, if the centres accept no connection.
const STOPS: u32 = 100;

/// The arguments of centres with a page at this port.
const fn served_at(page: u16) -> ServeWords<'static>
    ensures page { result.page ≡ Some page }
    ensures local { (result.page_address ≡ None) × (result.address ≡ None) × (result.control ≡ None) }
    ensures quiet { (result.is_quiet ≡ true) × (result.is_unprinted ≡ true) × (result.journal ≡ None) }
    ensures usual { (result.is_bound ≡ false) × (result.per_second ≡ None) × (result.burst ≡ None) }
{
    ServeWords {
        is_quiet: true,
        page: Some(page),
        page_address: None,
        address: None,
        control: None,
        is_bound: false,
        is_telling: false,
        shows_life: false,
        per_second: None,
        burst: None,
        is_unprinted: true,
        is_for_journald: false,
        notes_as_json: false,
        journal: None,
    }
}

/// Runs the centres of a line, and trains that obey over them, until all trains have ended their missions. Browsers on
/// this host see the line at the port `page`, with the true places of the trains. The centres listen at the ports after
/// it. Returns the exit status.
pub fn run_live_page<
    R: Threads
        + Wait
        + Sync
        + Net<Stream = TcpStream, Listener = TcpListener>
        + Clock
        + Files<File = File>
        + Eprint
        + AllocGlobal,
    O: Write,
    E: Write,
>(rt: &R, file: Option<&str>, page: u16, words: &TrainsWords, out: &mut O, err: &mut E) -> u8 {
    let given = match line_of_demo(rt.alloc(), file, &Disk(rt)) {
        Ok(given) => given,
        Err(fault) => return report(&fault, out, err),
    };
    match first_after(page, given.line.centre_count()) {
        Ok(first) => run_at(rt, &given, Ports { page, first }, words, out, err),
        Err(most) => report_port(err, "--page", page, most),
    }
}

/// The ports of the page and of the first centre.
#[derive(Clone, Copy)]
struct Ports {
    page: u16,
    first: u16,
}

// Opens the ports, shows the address of the page, and runs the centres and the trains.
fn run_at<
    R: Threads
        + Wait
        + Sync
        + Net<Stream = TcpStream, Listener = TcpListener>
        + Clock
        + Files<File = File>
        + Eprint
        + AllocGlobal,
    O: Write,
    E: Write,
>(rt: &R, given: &LineFile, ports: Ports, words: &TrainsWords, out: &mut O, err: &mut E) -> u8 {
    let endpoints = match endpoints_at(rt, given, ports) {
        Ok(endpoints) => endpoints,
        Err(fault) => return refused(&fault, out, err),
    };
    if writeln!(err, "page: http://127.0.0.1:{}/", ports.page).is_err() {
        return 6;
    }
    let done = run_all(rt, given, endpoints, ports.first, words, out);
    ended(done, out, err)
}

// Opens the ports. The reason of a refusal is written.
fn endpoints_at<
    R: Net<Stream = TcpStream, Listener = TcpListener>
        + Clock
        + Files<File = File>
        + Eprint
        + AllocGlobal,
>(rt: &R, given: &LineFile, ports: Ports) -> Result<Endpoints, ServeFault> {
    let notes = StderrNotes {
        rt,
        form: NoteForm::TEXT,
    };
    opened(rt, given, ports.first, &served_at(ports.page), &notes)
}

/// Shows the true places of trains on the page.
#[derive(Drop)]
struct PagePlaces<'a, R> {
    rt: &'a R,
    places: TruePlaces,
}

impl<R: Wait + AllocGlobal> Observer for PagePlaces<'_, R> {
    fn see(&self, places: &[trains::TruePlace]) -> Result<(), AllocError> {
        let mut shown = Vec::new(self.rt.alloc());
        for place in places {
            shown.push(TruePlace {
                nid_engine: place.nid_engine,
                track: place.track,
                rear: u32::try_from(place.rear).unwrap_or(0),
                front: place.front,
            })?;
        }
        self.places.replace(self.rt, shown);
        Ok(())
    }
}

// Serves in a thread of its own, runs the trains, and stops the centres.
fn run_all<
    R: Threads
        + Wait
        + Sync
        + Net<Stream = TcpStream, Listener = TcpListener>
        + Clock
        + AllocGlobal,
    O: Write,
>(
    rt: &R,
    given: &LineFile,
    endpoints: Endpoints,
    port: u16,
    words: &TrainsWords,
    out: &mut O,
) -> Result<(), Fault<'static>> {
    let places = TruePlaces::new(rt.alloc())?;
    let endpoints = endpoints.and_true_places(places.share()?);
    let observer = PagePlaces { rt, places };
    thread::scope(thread::scope_env(), rt, |scope| {
        if scope
            .spawn(move || serve_unprinted(rt, given, endpoints))
            .is_err()
        {
            return Err(AllocError.into());
        }
        let settings = settings_of(port, words, SECOND_MS);
        let done = run_on(rt, given, settings, &observer, out);
        let control = port.saturating_add(u16::from(given.line.centre_count()));
        stop(rt, control);
        done
    })
}

// Serves until `stop`, without a print of the run.
fn serve_unprinted<R: Threads + Wait + Sync + Clock + AllocGlobal>(
    rt: &R,
    given: &LineFile,
    endpoints: Endpoints,
) {
    let record: Record<SystemFile> = Record::none(rt.alloc());
    let options = ServeOptions {
        prints_events: false,
        ..ServeOptions::default()
    };
    let _ = serve(
        rt,
        rt.alloc(),
        &given.line,
        endpoints,
        record,
        options,
        &NoNotes,
        &mut io::sink(),
    );
}

// Sends `stop now` to the centres at the port of their interlocking: the trains have ended their sessions.
fn stop<R: Net<Stream = TcpStream> + Clock>(rt: &R, control: u16) {
    let address = SocketAddr::new(IpAddr::V4(Ipv4Addr::LOCALHOST), control);
    for _ in 0..STOPS {
        if let Ok(mut stream) = TcpStream::connect(rt, address)
            && stream.write_all(b"stop now\n").is_ok()
        {
            return;
        }
        thread::sleep(rt, Duration::from_millis(SECOND_MS));
    }
}
