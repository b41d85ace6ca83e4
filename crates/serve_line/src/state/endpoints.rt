ghost use Rattle.std.specs.Prelude.{◌≡◌, ◌++◌, ◌+◌, ◌<◌, ◌^◌, ◌∷◌, [], IfOk, length, option_map, slice_get};
ghost use Rattle.serve_line.specs.Listening.{page_with, socket_path};

use crate::state::control_socket::listen_at_path;
use crate::state::hosts::{port_of, this_host};
use crate::state::streams::bound_accept;
use crate::true_places::TruePlaces;
use rbc_line::Line;
use serve_control::ServeFault;
use serve_notes::{About, Kind, Notes};
use std::alloc::Global;
use std::io;
use std::io::ErrorKind;
use std::net::{IpAddr, Net, SocketAddr, TcpListener, TcpStream};
use std::os::fd::OwnedFd;
use std::os::unix::net::UnixListener;
use std::rt::Files;
use text_script::print::name_of;

/// The listening ports of the centres, the port or the Unix socket of the interlocking, and the page's port, if there
/// is one. That of the interlocking is of this host only.
#[derive(Drop)]
pub struct Endpoints {
    ports: Vec<Listening>,
    socket: Option<ListeningAt>,
    page: Option<PagePort>,
}

/// A listening port.
#[derive(Drop)]
pub struct Listening {
    /// The listener; `accept` on it waits for `ENDPOINT_REST_MS` at most.
    pub listener: TcpListener,
    /// Its address. If port 0 was asked for, the system picked the port.
    pub address: SocketAddr,
}

/// The port of the page, and the true places that it shows.
#[derive(Drop)]
pub struct PagePort {
    pub listening: Listening,
    /// The true places of the trains, if they run in this process.
    pub true_places: Option<TruePlaces>,
}

/// A Unix socket that listens.
#[derive(Drop)]
pub struct ListeningAt {
    /// The listener; `accept` on it waits for `ENDPOINT_REST_MS` at most.
    pub listener: UnixListener,
    /// Its path.
    pub path: String,
}

impl Endpoints {
    /// Listens on 127.0.0.1: centre i at port `first` + i, the control endpoint at the port after those. If `first` is
    /// 0, the system picks each port. If a port can't be listened on, a note names it.
    pub fn open<R: Net<Stream = TcpStream, Listener = TcpListener>, N: Notes>(
        rt: &R,
        alloc: Global,
        line: &Line,
        first: u16,
        notes: &N,
    ) -> Result<Endpoints, ServeFault>
        ensures ports { IfOk result (λ all. length all.ports.items ≡ length line.now.centres + 1) }
        ensures others { IfOk result (λ all. (all.socket ≡ None) × (all.page ≡ None)) }
    {
        let host = SocketAddr::new(this_host(), first);
        let endpoints = Endpoints::open_centres(rt, alloc, line, host, notes)?;
        endpoints.and_control(rt, line, first, notes)
    }

    /// Listens at the address of `first`, without a control endpoint: centre i at its port + i. If its port is 0, the
    /// system picks each port.
    pub fn open_centres<R: Net<Stream = TcpStream, Listener = TcpListener>, N: Notes>(
        rt: &R,
        alloc: Global,
        line: &Line,
        first: SocketAddr,
        notes: &N,
    ) -> Result<Endpoints, ServeFault>
        ensures ports { IfOk result (λ all. length all.ports.items ≡ length line.now.centres) }
        ensures others { IfOk result (λ all. (all.socket ≡ None) × (all.page ≡ None)) }
    {
        let mut ports = Vec::new(alloc);
        for centre in 0..line.centre_count() {
            let name = name_of(line, centre);
            let port = port_of(first.port(), centre);
            let about = About::centre(Kind::Refused, name);
            ports.push(listen_noted(rt, about, name, (first.ip(), port), notes)?)?;
        }
        Ok(Endpoints {
            ports,
            socket: None,
            page: None,
        })
    }

    /// Listens on 127.0.0.1 for the interlocking, at the port after the centres of which the first is at `first`.
    pub fn and_control<R: Net<Stream = TcpStream, Listener = TcpListener>, N: Notes>(
        mut self,
        rt: &R,
        line: &Line,
        first: u16,
        notes: &N,
    ) -> Result<Endpoints, ServeFault>
        ensures ports { IfOk result
            (λ all. (port : Listening) × (all.ports.items ≡ self.ports.items ++ port ∷ [])) }
        ensures others { IfOk result (λ all. (all.socket ≡ self.socket) × (all.page ≡ self.page)) }
    {
        let port = port_of(first, line.centre_count());
        let about = About::of(Kind::Refused);
        self.ports.push(listen_noted(rt, about, "control", (this_host(), port), notes)?)?;
        Ok(self)
    }

    /// Listens at this path for the interlocking. The path is to be freed at the end. If that fails, a note reports it.
    pub fn and_socket<R: Net + Files, N: Notes>(
        self,
        rt: &R,
        alloc: Global,
        path: &str,
        notes: &N,
    ) -> Result<Endpoints, ServeFault>
        ensures socket { IfOk result (λ all. socket_path all.socket ≡ Some path.now) }
        ensures others { IfOk result (λ all. (all.ports ≡ self.ports) × (all.page ≡ self.page)) }
    {
        let name = String::from_str(alloc, path)?;
        match listen_at_path(rt, path) {
            Ok(listener) => Ok(Endpoints {
                socket: Some(ListeningAt {
                    listener,
                    path: name,
                }),
                ..self
            }),
            Err(fault) => {
                notes.note(
                    About::of(Kind::Refused),
                    format_args!("control: {path} can't be listened on: {fault}"),
                );
                Err(ServeFault::Socket)
            }
        }
    }

    /// Listens at this address for browsers too, for the page of the line. If that fails, a note reports it.
    pub fn and_page<R: Net<Stream = TcpStream, Listener = TcpListener>, N: Notes>(
        self,
        rt: &R,
        address: SocketAddr,
        notes: &N,
    ) -> Result<Endpoints, ServeFault>
        ensures page { IfOk result (λ all. option_map (λ page. page.true_places) all.page ≡ Some None) }
        ensures others { IfOk result (λ all. (all.ports ≡ self.ports) × (all.socket ≡ self.socket)) }
    {
        let place = (address.ip(), u32::from(address.port()));
        let listening = listen_noted(rt, About::of(Kind::Refused), "page", place, notes)?;
        Ok(Endpoints {
            page: Some(PagePort {
                listening,
                true_places: None,
            }),
            ..self
        })
    }

    /// The page shows these true places of trains too, if there is a page.
    pub fn and_true_places(mut self, places: TruePlaces) -> Endpoints
        ensures { result ≡ record self { page = option_map (page_with places) self.page } }
    {
        if let Some(page) = &mut self.page {
            page.true_places = Some(places);
        }
        self
    }

    /// The address of centre `number`; after the centres, that of the control endpoint, if it is a port.
    pub fn address(&self, number: usize) -> Option<SocketAddr>
        ensures { result ≡ option_map (λ listening. listening.address) (slice_get self.now.ports.items number) }
    {
        self.ports.get(number).map(|listening| listening.address)
    }

    /// The address of the page, if there is one.
    pub fn page_address(&self) -> Option<SocketAddr>
        ensures { result ≡ option_map (λ page. page.listening.address) self.now.page }
    {
        self.page.as_ref().map(|page| page.listening.address)
    }

    /// The ports of the centres, in the order of their numbers, and then that of the control endpoint, if it has one.
    /// After those the socket of the control endpoint and the port of the page, if there are any.
    pub fn all(self) -> (Vec<Listening>, Option<ListeningAt>, Option<PagePort>)
        ensures { result ≡ (self.ports, self.socket, self.page) }
    {
        (self.ports, self.socket, self.page)
    }
}

// Listens at a port of an address. If that fails, a note with this subject reports it, by this name.
fn listen_noted<R: Net<Stream = TcpStream, Listener = TcpListener>, N: Notes>(
    rt: &R,
    about: About<'_>,
    name: &str,
    place: (IpAddr, u32),
    notes: &N,
) -> Result<Listening, ServeFault>
    ensures { IfOk result (λ listening. place.1 < 2 ^ 16) }
{
    let (ip, port) = place;
    match listen_at(rt, ip, port) {
        Ok(listening) => Ok(listening),
        Err(error) => {
            notes.note(
                about,
                format_args!("{name}: port {port} can't be listened on: {error}"),
            );
            Err(ServeFault::Socket)
        }
    }
}

fn listen_at<R: Net<Stream = TcpStream, Listener = TcpListener>>(
    rt: &R,
    ip: IpAddr,
    port: u32,
) -> io::Result<Listening>
    ensures { IfOk result (λ listening. port < 2 ^ 16) }
{
    let Ok(port) = u16::try_from(port) else {
        return Err(io::Error::from(ErrorKind::InvalidInput));
    };
    let listener = TcpListener::bind(rt, SocketAddr::new(ip, port))?;
    let address = listener.local_addr()?;
    bound_accept(OwnedFd::from(listener.try_clone()?))?;
    Ok(Listening { listener, address })
}
