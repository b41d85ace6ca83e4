//! The meaning of a browser's request.

ghost use Rattle.std.specs.Prelude.{◌≡◌, ◌≤◌, ℕ, List, ◌∷◌, ◌++◌, [], length};
ghost use Rattle.httparse.specs.declared.spans.HeaderSpan.{HeaderSpan};
ghost use Rattle.httparse.specs.Grammar.{RequestHead, ReadsRequest};
ghost use Rattle.httparse.specs.Spans.{span_bytes, IsRequestAt};
ghost use Rattle.serve_page.specs.Requests.{names_host, has_name, is_address, is_here, is_reading, is_for_us, is_ours};
ghost use Rattle.serve_page.specs.Requests.{before_colon, colon_in, is_digit_or_dot, is_dotted};
ghost use Rattle.serve_page.specs.Requests.{address_in, slash_in, named_in, path_of, query_of, AreHosts, AreHostsOf};
ghost use Rattle.serve_page.specs.Requests.{IsAsked, IsAskedAt, IsAskedBy, IsNumber, IsSince};

use form_urlencoded::raw_pairs;
use httparse::Status;
use httparse::spans::{EMPTY_HEADER_SPAN, HeaderSpan, RequestSpans, Span, parse_request};

/// The most bytes of a request that are awaited.
pub const MOST_REQUEST: usize = 8_192;

/// The most header fields of a request.
const MOST_FIELDS: usize = 64;

/// The beginning of a target in absolute form.
const SCHEME: &[u8] = b"http://";

/// The meaning of a request.
#[derive(Clone, Copy)]
pub enum Asked {
    /// The head of the request is not complete yet.
    More,
    /// The page.
    Page,
    /// The layout of the line.
    Line,
    /// The current state; nothing, if version `since` is still shown.
    Now { since: Option<u64> },
    /// Whether each centre answers.
    Health,
    /// The metrics of the line.
    Metrics,
    /// The request is refused.
    Refused(Refusal),
}

/// The reason why a request is refused.
#[derive(Clone, Copy)]
pub enum Refusal {
    /// It is not a request of HTTP/1.0 or HTTP/1.1, or does not have exactly one field for the host.
    Form,
    /// It is for another host than this one.
    Host,
    /// It has another method than GET or HEAD.
    Method,
    /// It is for an unknown address.
    Address,
    /// It is too long, or has too many fields.
    Size,
    /// It arrives too slowly.
    Time,
    /// Too many requests are pending.
    Crowd,
}

/// The meaning of the bytes received so far.
pub fn asked_of(bytes: &[u8]) -> Asked
    ensures whole { (h : RequestHead) (rest : List ℕ) → ReadsRequest bytes.now h rest → length h.fields ≤ 64
        → IsAskedBy h result }
    ensures asked { IsAsked bytes.now result }
{
    let mut fields = [EMPTY_HEADER_SPAN; MOST_FIELDS];
    match parse_request(bytes, &mut fields) {
        Ok(Status::Complete(head)) => asked_by(bytes, &head, &fields),
        Ok(Status::Partial) if bytes.len() < MOST_REQUEST => Asked::More,
        Ok(Status::Partial) | Err(httparse::Error::TooManyHeaders) => Asked::Refused(Refusal::Size),
        Err(_) => Asked::Refused(Refusal::Form),
    }
}

// The meaning of the request with this head.
fn asked_by(bytes: &[u8], head: &RequestSpans, fields: &[HeaderSpan]) -> Asked
    ensures { (h : RequestHead) → IsRequestAt bytes.now fields.now head.now h → IsAskedBy h result }
{
    let host = match hosts_of(bytes, head, fields) {
        Hosts::One(field) => field.value,
        Hosts::Nothing | Hosts::Several => return Asked::Refused(Refusal::Form),
    };
    let target = part(bytes, head.path);
    if !is_for_us(part(bytes, host), target) {
        return Asked::Refused(Refusal::Host);
    }
    if !is_reading(part(bytes, head.method)) {
        return Asked::Refused(Refusal::Method);
    }
    asked_at(address_in(target))
}

// Whether a host is this one, and the target names no other.
fn is_for_us(host: &[u8], target: &[u8]) -> bool
    ensures { result ≡ is_for_us host.now target.now }
{
    is_here(host) && is_ours(target)
}

// Whether a target names no host, or this one.
fn is_ours(target: &[u8]) -> bool
    ensures { result ≡ is_ours target.now }
{
    let Some(rest) = target.strip_prefix(SCHEME) else {
        return true;
    };
    match slash_in(rest) {
        Some(end) => is_here(&rest[..end]),
        None => is_here(rest),
    }
}

// The address in a target.
fn address_in(target: &[u8]) -> &[u8]
    ensures { result.now ≡ address_in target.now }
{
    let Some(rest) = target.strip_prefix(SCHEME) else {
        return target;
    };
    match slash_in(rest) {
        Some(end) => &rest[end..],
        None => b"/",
    }
}

// The place of the first slash.
fn slash_in(bytes: &[u8]) -> Option<usize>
    ensures { result ≡ slash_in bytes.now }
{
    bytes.iter().position(|byte| *byte == b'/')
}

// The meaning of an address: its path, and for the current state a parameter of its query.
fn asked_at(address: &[u8]) -> Asked
    ensures { IsAskedAt address.now result }
{
    let (path, query) = path_and_query(address);
    if path == b"/".as_slice() {
        return Asked::Page;
    }
    if path == b"/line.json".as_slice() {
        return Asked::Line;
    }
    if path == b"/now".as_slice() {
        return Asked::Now {
            since: since_in(query),
        };
    }
    if path == b"/health".as_slice() {
        return Asked::Health;
    }
    if path == b"/metrics".as_slice() {
        return Asked::Metrics;
    }
    Asked::Refused(Refusal::Address)
}

// The bytes before the first question mark, and those after it.
fn path_and_query(address: &[u8]) -> (&[u8], &[u8])
    ensures path { result.0.now ≡ path_of address.now }
    ensures query { result.1.now ≡ query_of address.now }
{
    match address.iter().position(|byte| *byte == b'?') {
        Some(end) => (&address[..end], &address[end + 1..]),
        None => (address, &[]),
    }
}

// The number of the first parameter `since` of a query.
fn since_in(query: &[u8]) -> Option<u64>
    ensures { IsSince query.now result }
{
    for (name, value) in raw_pairs(query) {
        if name == b"since".as_slice() {
            return number_of(value);
        }
    }
    None
}

// The number in decimal digits, if it fits in 64 bits. A sign is not a digit.
fn number_of(digits: &[u8]) -> Option<u64>
    ensures { IsNumber digits.now result }
{
    if digits.first() == Some(&b'+') {
        return None;
    }
    match std::str::from_utf8(digits) {
        Ok(text) => text.parse().ok(),
        Err(_) => None,
    }
}

/// The fields of a head that name a host.
#[derive(Clone, Copy)]
enum Hosts {
    Nothing,
    One(HeaderSpan),
    Several,
}

// The fields of a head that name a host.
fn hosts_of(bytes: &[u8], head: &RequestSpans, fields: &[HeaderSpan]) -> Hosts
    ensures { (h : RequestHead) → IsRequestAt bytes.now fields.now head.now h → AreHostsOf bytes.now h result }
{
    match fields.get(..head.headers) {
        Some(front) => hosts_in(bytes, front),
        None => hosts_in(bytes, fields),
    }
}

// The fields that name a host, of these fields.
fn hosts_in(bytes: &[u8], fields: &[HeaderSpan]) -> Hosts
    ensures { AreHosts (named_in bytes.now fields.now) result }
{
    let mut hosts = Hosts::Nothing;
    for field in fields {
        hosts = further(bytes, hosts, *field);
    }
    hosts
}

// The fields that name a host, with a further field.
fn further(bytes: &[u8], hosts: Hosts, field: HeaderSpan) -> Hosts
    ensures { (before : List HeaderSpan) → AreHosts (named_in bytes.now before) hosts
        → AreHosts (named_in bytes.now (before ++ field ∷ [])) result }
{
    if !is_host(part(bytes, field.name)) {
        return hosts;
    }
    match hosts {
        Hosts::Nothing => Hosts::One(field),
        Hosts::One(_) | Hosts::Several => Hosts::Several,
    }
}

// Whether a field of this name names a host.
fn is_host(name: &[u8]) -> bool
    ensures { result ≡ names_host name.now }
{
    name.eq_ignore_ascii_case(b"host")
}

// Whether a method only reads.
fn is_reading(method: &[u8]) -> bool
    ensures { result ≡ is_reading method.now }
{
    method == b"GET".as_slice() || method == b"HEAD".as_slice()
}

// Whether a host is `localhost` or has the form of an address, with a port or without. A page of another host has that
// host's name as its host, also if the name leads to this host.
fn is_here(host: &[u8]) -> bool
    ensures { result ≡ is_here host.now }
{
    is_named(host, b"localhost") || is_address(host)
}

// Whether a host has the form of an address of IPv6 in brackets, or of IPv4. The name of a host has neither.
fn is_address(host: &[u8]) -> bool
    ensures { result ≡ is_address host.now }
{
    match host {
        [] => false,
        [first, ..] => *first == b'[' || first.is_ascii_digit() && is_dotted(before_colon(host)),
    }
}

// The bytes before the first colon.
fn before_colon(host: &[u8]) -> &[u8]
    ensures { result.now ≡ before_colon host.now }
{
    match colon_in(host) {
        Some(end) => &host[..end],
        None => host,
    }
}

// The place of the first colon.
fn colon_in(bytes: &[u8]) -> Option<usize>
    ensures { result ≡ colon_in bytes.now }
{
    bytes.iter().position(|byte| *byte == b':')
}

// Whether a text has only digits and dots.
fn is_dotted(text: &[u8]) -> bool
    ensures { result ≡ is_dotted text.now }
{
    text.iter().all(|byte| is_digit_or_dot(*byte))
}

fn is_digit_or_dot(byte: u8) -> bool
    ensures { result ≡ is_digit_or_dot byte }
{
    byte.is_ascii_digit() || byte == b'.'
}

// Whether a host has this name, with a port or without.
fn is_named(host: &[u8], name: &[u8]) -> bool
    ensures { result ≡ has_name name.now host.now }
{
    match host.strip_prefix(name) {
        Some([]) => true,
        Some([first, ..]) => *first == b':',
        None => false,
    }
}

// The bytes of a part of the head.
fn part(bytes: &[u8], span: Span) -> &[u8]
    ensures { result.now ≡ span_bytes bytes.now span }
{
    let rest = match bytes.get(span.start..) {
        Some(rest) => rest,
        None => &[],
    };
    match rest.get(..span.end.saturating_sub(span.start)) {
        Some(part) => part,
        None => rest,
    }
}
