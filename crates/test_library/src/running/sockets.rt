//! The Unix socket of the interlocking: its file, the files that are removed for it, and a run over it.

use crate::line::line_of;
use crate::running::client::{Done, Missed};
use crate::running::files::name_of;
use crate::running::line::THREE_CENTRES;
use rbc_line::Line;
use serve_journal::SystemFile;
use serve_line::state::listen_at_path;
use serve_line::{Endpoints, NoNotes, Record, ServeOptions, SocketFault, free_path, serve};
use std::alloc::Global;
use std::io::{Read, Write};
use std::net::{IpAddr, Ipv4Addr, SocketAddr};
use std::os::unix::fs::MetadataExt;
use std::os::unix::net::UnixStream;
use std::sync::Wait;
use std::test::*;
use std::thread::Threads;
use std::time::{Clock, Duration};
use std::{fs, thread};

// The permission bits of a mode.
const PERMISSIONS: u32 = 0o777;

// Whether only the owner may connect.
fn is_for_its_owner(rt: &HostRuntime, path: &str) -> Result<bool, Fail> {
    let listener = listen_at_path(rt, path).ok().ok_or("the path is free")?;
    let mode = fs::metadata(rt, path)?.mode();
    drop(listener);
    fs::remove_file(rt, path)?;
    Ok(mode & PERMISSIONS == 0o600)
}

// Listens at the path. The result is whether another listener, and one that would free the path, find it busy.
fn are_busy(rt: &HostRuntime, path: &str) -> Result<(bool, bool), Fail> {
    let first = listen_at_path(rt, path).ok().ok_or("the path is free")?;
    let second = listen_at_path(rt, path);
    let freed = free_path(rt, path);
    drop(first);
    Ok((
        matches!(second, Err(SocketFault::Busy)),
        matches!(freed, Err(SocketFault::Busy)),
    ))
}

// Whether the socket of a listener that has ended is replaced by another one, and its path is freed after that.
fn are_replaced_and_freed(rt: &HostRuntime, path: &str) -> (bool, bool) {
    let listener = listen_at_path(rt, path);
    let is_replaced = listener.is_ok();
    drop(listener);
    (is_replaced, free_path(rt, path).is_ok())
}

// Whether a socket has one listener, and no file is left after it.
fn is_one_listener(rt: &HostRuntime, path: &str) -> Result<bool, Fail> {
    let during = are_busy(rt, path)?;
    let after = are_replaced_and_freed(rt, path);
    let is_there = fs::exists(rt, path)?;
    Ok((during, after, is_there) == ((true, true), (true, true), false))
}

// Whether a file that is not a socket stays.
fn is_plain_file_kept(rt: &HostRuntime, path: &str) -> Result<bool, Fail> {
    fs::write(rt, path, "text")?;
    let refused = listen_at_path(rt, path);
    let text = fs::read_to_string(rt, path)?;
    fs::remove_file(rt, path)?;
    let is_refused = matches!(refused, Err(SocketFault::NotSocket));
    Ok((is_refused, text.as_str()) == (true, "text"))
}

#[test]
fn a_socket_has_one_listener_and_is_for_its_owner(rt: HostRuntime) -> Result<(), Fail> {
    let path = name_of(&rt, "test.socket")?;
    let path = path.as_str();
    let seen = [
        is_for_its_owner(&rt, path)?,
        is_one_listener(&rt, path)?,
        is_plain_file_kept(&rt, path)?,
    ];
    assert!(rt; seen == [true; 3], "{seen:?}");
    Ok(())
}

// The interlocking releases a section, and is answered. Then it sends `stop`, and its connection ends.
fn ask(host: &HostRuntime, path: &str) -> Done<()> {
    let mut stream = UnixStream::connect(host, path)
        .ok()
        .ok_or(Missed::Endpoint)?;
    let _ = stream.set_read_timeout(Some(Duration::from_secs(20)));
    let answered = release(&mut stream);
    stream.write_all(b"stop\n").ok().ok_or(Missed::Taking)?;
    answered?;
    let mut piece = [0u8; 1];
    match stream.read(&mut piece) {
        Ok(0) => Ok(()),
        _ => Err(Missed::StillOpen),
    }
}

fn release(stream: &mut UnixStream) -> Done<()> {
    stream.write_all(b"set A 1\n").ok().ok_or(Missed::Taking)?;
    let mut answer = [0u8; 18];
    stream.read_exact(&mut answer).ok().ok_or(Missed::NoAnswer)?;
    if answer != *b"> set A 1\nA 1 Done" {
        return Err(Missed::OtherAnswer);
    }
    let mut end = [0u8; 1];
    stream.read_exact(&mut end).ok().ok_or(Missed::NoAnswer)
}

// The centres and the socket of the interlocking, at any ports and at this path.
fn opened(host: &HostRuntime, line: &Line, path: &str) -> Done<Endpoints> {
    let any_port = SocketAddr::new(IpAddr::V4(Ipv4Addr::LOCALHOST), 0);
    let alloc = host.alloc();
    let Ok(endpoints) = Endpoints::open_centres(host, alloc, line, any_port, &NoNotes) else {
        return Err(Missed::Endpoint);
    };
    match endpoints.and_socket(host, alloc, path, &NoNotes) {
        Ok(endpoints) => Ok(endpoints),
        Err(_) => Err(Missed::Endpoint),
    }
}

fn printed_over_a_socket<R: Threads + Wait + Sync + Clock>(
    rt: &R,
    host: &HostRuntime,
    line: &Line,
    path: &str,
) -> Done<Vec<u8>> {
    let endpoints = opened(host, line, path)?;
    let alloc = host.alloc();
    let (printed, asked) = thread::join(
        rt,
        || printed(rt, alloc, line, endpoints),
        || ask(host, path),
    );
    if free_path(host, path).is_err() {
        return Err(Missed::Endpoint);
    }
    match asked {
        Ok(()) => printed,
        Err(missed) => Err(missed),
    }
}

fn printed<R: Threads + Wait + Sync + Clock>(
    rt: &R,
    alloc: Global,
    line: &Line,
    endpoints: Endpoints,
) -> Done<Vec<u8>> {
    let none: Record<SystemFile> = Record::none(alloc);
    let mut out = Vec::new(alloc);
    serve(
        rt,
        alloc,
        line,
        endpoints,
        none,
        ServeOptions::default(),
        &NoNotes,
        &mut out,
    )
    .ok()
    .ok_or(Missed::Print)?;
    Ok(out)
}

#[test]
fn the_interlocking_is_served_over_a_socket(rt: HostRuntime) -> Result<(), Fail> {
    let path = name_of(&rt, "served.socket")?;
    let line = line_of(rt.alloc(), THREE_CENTRES)?;
    let printed = printed_over_a_socket(&rt, &rt, &line, path.as_str())?;
    let wanted =
        "> set A 1\nA 1 Done\nsection 0 A shut\nsection 1 A open\nsection 2 B shut\nsection 3 C shut\n";
    let is_there = fs::exists(&rt, path.as_str())?;
    assert!(rt; (printed.as_slice(), is_there) == (wanted.as_bytes(), false));
    Ok(())
}
