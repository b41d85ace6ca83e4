ghost use Rattle.std.specs.Prelude.{◌≡◌, false, IfOk, IfSome, length, map};
ghost use Rattle.serve_line.specs.Addresses.{port_number};
ghost use Rattle.serve_line.specs.Browsers.{IsPlaceOf};

use crate::looking::PageSnapshot;
use crate::moments::milliseconds_of;
use crate::state::{ENDPOINT_REST_MS, Endpoint, PagePort, Room, SlotState, room_for};
use crate::true_places::TruePlaces;
use rbc_line::Line;
use rbc_node::Node;
use std::alloc::{AllocError, Global};
use std::net::{Shutdown, SocketAddr, TcpListener, TcpStream};
use std::sync::atomic::{AtomicBool, AtomicU64, Ordering};
use std::sync::{Arc, Mutex, Wait};
use std::thread::Parker;
use std::time::{Clock, Duration, Instant, SystemTime, UNIX_EPOCH};
use text_script::status::Fault;

/// The most browsers that are answered at the same time.
const BROWSERS: usize = 8;

/// The time for a connection to leave its place for another, in rests of the endpoint: 0.2 seconds.
const LEAVING_RESTS: u32 = 10;

/// The port at which browsers request the page of the line.
#[derive(Drop)]
pub(crate) struct PageEndpoint {
    pub listener: TcpListener,
    pub address: SocketAddr,
    places: Vec<Place>,
    // The number of connections so far.
    came: AtomicU64,
    waker: Parker,
    pub seen: Mutex<Seen>,
    /// The true places of the trains, if they run in this process.
    pub true_places: Option<TruePlaces>,
}

/// A place for one browser's connection.
#[derive(Drop)]
pub(crate) struct Place {
    is_taken: AtomicBool,
    // The number of the connection that has the place, or had it last, in order of arrival.
    number: AtomicU64,
    stream: Mutex<Option<Arc<TcpStream, Global>>>,
}

/// The last view of the line, and its time.
#[derive(Drop)]
pub(crate) struct Seen {
    pub at: Option<Instant>,
    /// The version of the view: it changes whenever anything that is shown changes.
    pub version: u64,
    pub page_snapshot: PageSnapshot,
}

impl PageEndpoint {
    /// A page endpoint with a first view of the centres of a line. At the call, the centres' journals have all events
    /// that the centres have taken.
    pub fn new<R: Wait + Clock>(
        rt: &R,
        alloc: Global,
        centres: (&Line, &[Node]),
        endpoints: &[Endpoint],
        port: PagePort,
    ) -> Result<PageEndpoint, Fault<'static>>
        ensures places { IfOk result (λ endpoint. length endpoint.places.items ≡ 8) }
        ensures port { IfOk result (λ endpoint. (endpoint.listener ≡ port.listening.listener)
            × (endpoint.address ≡ port.listening.address) × (endpoint.true_places ≡ port.true_places)) }
    {
        let (line, nodes) = centres;
        let places = free_places(alloc)?;
        let mut page_snapshot = PageSnapshot::new(alloc, line, ports_of(alloc, endpoints)?)?;
        let found = page_snapshot.look(rt, alloc, line, nodes)?;
        page_snapshot.show(found);
        let version = first_version(rt);
        Ok(PageEndpoint {
            listener: port.listening.listener,
            address: port.listening.address,
            places,
            came: AtomicU64::new(0),
            waker: Parker::new(),
            seen: Mutex::new(Seen {
                at: None,
                version,
                page_snapshot,
            }),
            true_places: port.true_places,
        })
    }

    /// Rests for at most `ENDPOINT_REST_MS`.
    pub fn rest<R: Wait>(&self, rt: &R) {
        self.waker
            .park_timeout(rt, Duration::from_millis(ENDPOINT_REST_MS));
    }

    /// A place for a new connection. If all are taken, the earliest connection ends. Only the thread of the endpoint
    /// calls it.
    pub fn place_for<R: Wait>(&self, rt: &R, stream: &Arc<TcpStream, Global>) -> Option<&Place>
        ensures { IfSome result (λ place. IsPlaceOf self.now place.now) }
    {
        let shared = Arc::try_clone(stream).ok()?;
        let place = self.free_place(rt)?;
        let number = self.came.fetch_add(1, Ordering::SeqCst);
        place.number.store(number, Ordering::SeqCst);
        *place.stream.lock(rt) = Some(shared);
        place.is_taken.store(true, Ordering::SeqCst);
        Some(place)
    }

    fn free_place<R: Wait>(&self, rt: &R) -> Option<&Place>
        ensures { IfSome result (λ place. IsPlaceOf self.now place.now) }
    {
        let mut slots = [Place::FREE; BROWSERS];
        for (slot, place) in slots.iter_mut().zip(self.places.iter()) {
            *slot = place.state();
        }
        let first = match room_for(&slots, true, false) {
            Room::Take(place) => return self.places.get(place),
            Room::Leave(place) => self.places.get(place)?,
            Room::Reserve(_) | Room::Wait | Room::Full => return None,
        };
        first.shut(rt);
        for _ in 0..LEAVING_RESTS {
            if !first.is_taken.load(Ordering::SeqCst) {
                return Some(first);
            }
            self.rest(rt);
        }
        None
    }
}

// The places of a page endpoint that no browser has asked yet.
fn free_places(alloc: Global) -> Result<Vec<Place>, AllocError>
    ensures { IfOk result (λ places. length places.items ≡ 8) }
{
    let mut places = Vec::new(alloc);
    for _ in 0..BROWSERS {
        places.push(Place::new())?;
    }
    Ok(places)
}

// The ports of these endpoints, in their order.
fn ports_of(alloc: Global, endpoints: &[Endpoint]) -> Result<Vec<u16>, AllocError>
    ensures { IfOk result (λ ports. ports.items ≡ map (λ e. port_number e.address) endpoints.now) }
{
    let mut ports = Vec::new(alloc);
    for endpoint in endpoints {
        ports.push(endpoint.address.port())?;
    }
    Ok(ports)
}

impl Place {
    // A place that no connection has.
    const FREE: SlotState = SlotState {
        is_reserve: false,
        is_taken: false,
        is_leaving: false,
        is_serving: false,
        heard: 0,
    };

    fn new() -> Place {
        Place {
            is_taken: AtomicBool::new(false),
            number: AtomicU64::new(0),
            stream: Mutex::new(None),
        }
    }

    // Shuts the connection that has the place.
    fn shut<R: Wait>(&self, rt: &R) {
        if let Some(stream) = &*self.stream.lock(rt) {
            let _ = stream.shutdown(Shutdown::Both);
        }
    }

    /// Frees the place: its connection has ended.
    pub fn leave<R: Wait>(&self, rt: &R) {
        *self.stream.lock(rt) = None;
        self.is_taken.store(false, Ordering::SeqCst);
    }

    // The state of the place now. A connection is active only when it arrives.
    fn state(&self) -> SlotState
        ensures { (result.is_reserve ≡ false) × (result.is_leaving ≡ false) × (result.is_serving ≡ false) }
    {
        SlotState {
            is_reserve: false,
            is_taken: self.is_taken.load(Ordering::SeqCst),
            is_leaving: false,
            is_serving: false,
            heard: self.number.load(Ordering::SeqCst),
        }
    }
}

// The version of the first view: the milliseconds of the clock, so that it differs after each start. It is 0 if the
// clock fails.
fn first_version<R: Clock>(rt: &R) -> u64 {
    let Ok(now) = SystemTime::now(rt) else {
        return 0;
    };
    match now.duration_since(UNIX_EPOCH) {
        Ok(since) => milliseconds_of(since),
        Err(_) => 0,
    }
}
