//! The bytes of an answer.

ghost use Rattle.std.specs.Prelude.{◌≡◌, string_bytes, IfOk};
ghost use Rattle.serve_page.specs.Replies.{refusal_text, IsAnswer, IsMetrics, HasBody, answer_of};

use crate::request::{Asked, Refusal};
use std::alloc::{AllocError, Global};
use text_page::{
    Layout, LineCounts, LineNow, causes_of, line_json, live_page, metrics_of, now_json,
};

const HTML: &str =
    "HTTP/1.1 200 OK\r\nContent-Type: text/html; charset=utf-8\r\nContent-Security-Policy: default-src 'none'; style-src 'unsafe-inline'; script-src 'unsafe-inline'; connect-src 'self'; img-src data:; base-uri 'none'; form-action 'none'; frame-ancestors 'none'\r\nReferrer-Policy: no-referrer\r\nX-Content-Type-Options: nosniff\r\nCross-Origin-Resource-Policy: same-origin\r\nCache-Control: no-store\r\nConnection: close\r\nContent-Length: ";

const JSON: &str =
    "HTTP/1.1 200 OK\r\nContent-Type: application/json\r\nX-Content-Type-Options: nosniff\r\nCross-Origin-Resource-Policy: same-origin\r\nCache-Control: no-store\r\nConnection: close\r\nContent-Length: ";

const METRICS: &str =
    "HTTP/1.1 200 OK\r\nContent-Type: text/plain; version=0.0.4; charset=utf-8\r\nX-Content-Type-Options: nosniff\r\nCross-Origin-Resource-Policy: same-origin\r\nCache-Control: no-store\r\nConnection: close\r\nContent-Length: ";

const HEALTHY: &str =
    "HTTP/1.1 200 OK\r\nContent-Type: text/plain\r\nX-Content-Type-Options: nosniff\r\nCross-Origin-Resource-Policy: same-origin\r\nCache-Control: no-store\r\nConnection: close\r\nContent-Length: 3\r\n\r\nok\n";

const UNHEALTHY: &str =
    "HTTP/1.1 503 Service Unavailable\r\nContent-Type: text/plain\r\nX-Content-Type-Options: nosniff\r\nCross-Origin-Resource-Policy: same-origin\r\nCache-Control: no-store\r\nConnection: close\r\nContent-Length: ";

const END: &str = "\r\n\r\n";

const SAME: &str =
    "HTTP/1.1 304 Not Modified\r\nCache-Control: no-store\r\nConnection: close\r\n\r\n";

const FORM: &str =
    "HTTP/1.1 400 Bad Request\r\nContent-Type: text/plain\r\nConnection: close\r\nContent-Length: 12\r\n\r\nbad request\n";

const ADDRESS: &str =
    "HTTP/1.1 404 Not Found\r\nContent-Type: text/plain\r\nConnection: close\r\nContent-Length: 10\r\n\r\nnot found\n";

const METHOD: &str =
    "HTTP/1.1 405 Method Not Allowed\r\nAllow: GET, HEAD\r\nContent-Type: text/plain\r\nConnection: close\r\nContent-Length: 9\r\n\r\nonly GET\n";

const TIME: &str =
    "HTTP/1.1 408 Request Timeout\r\nContent-Type: text/plain\r\nConnection: close\r\nContent-Length: 9\r\n\r\ntoo slow\n";

const HOST: &str =
    "HTTP/1.1 421 Misdirected Request\r\nContent-Type: text/plain\r\nConnection: close\r\nContent-Length: 19\r\n\r\nnot for that host \n";

const SIZE: &str =
    "HTTP/1.1 431 Request Header Fields Too Large\r\nContent-Type: text/plain\r\nConnection: close\r\nContent-Length: 9\r\n\r\ntoo long\n";

const CROWD: &str =
    "HTTP/1.1 503 Service Unavailable\r\nContent-Type: text/plain\r\nConnection: close\r\nContent-Length: 22\r\n\r\ntoo many ask at once \n";

/// The answer to a refused request.
pub fn refusal(why: Refusal) -> &'static str
    ensures { result.now ≡ refusal_text why }
{
    match why {
        Refusal::Form => FORM,
        Refusal::Host => HOST,
        Refusal::Method => METHOD,
        Refusal::Address => ADDRESS,
        Refusal::Size => SIZE,
        Refusal::Time => TIME,
        Refusal::Crowd => CROWD,
    }
}

/// The answer to a request, if the line is shown in this state and version. It is empty if the request is not complete.
/// The metrics are those without counts (`answer_metrics`).
pub fn answer(
    alloc: Global,
    layout: &Layout,
    now: &LineNow,
    version: u64,
    asked: Asked,
) -> Result<String, AllocError>
    ensures { IfOk result (λ text. IsAnswer now.now version asked (string_bytes text)) }
{
    match asked {
        Asked::More => Ok(String::new(alloc)),
        Asked::Refused(why) => String::from_str(alloc, refusal(why)),
        Asked::Page => found(alloc, HTML, live_page(alloc, layout, now)?.as_str()),
        Asked::Line => found(alloc, JSON, line_json(alloc, layout)?.as_str()),
        Asked::Now { since: Some(seen) } if seen == version => String::from_str(alloc, SAME),
        Asked::Now { .. } => found(alloc, JSON, now_json(alloc, layout, now, version)?.as_str()),
        Asked::Health if now.is_healthy() => String::from_str(alloc, HEALTHY),
        Asked::Health => found(alloc, UNHEALTHY, causes_of(alloc, layout, now)?.as_str()),
        Asked::Metrics => answer_metrics(alloc, layout, now, None),
    }
}

/// The answer to a request for the metrics, with the counts of running centres, if there are any.
pub fn answer_metrics(
    alloc: Global,
    layout: &Layout,
    now: &LineNow,
    counts: Option<&LineCounts>,
) -> Result<String, AllocError>
    ensures { IfOk result (λ text. IsMetrics (string_bytes text)) }
{
    found(
        alloc,
        METRICS,
        metrics_of(alloc, layout, now, counts)?.as_str(),
    )
}

// The answer with this head and this body.
fn found(alloc: Global, head: &str, body: &str) -> Result<String, AllocError>
    ensures exact { IfOk result (λ text. string_bytes text ≡ answer_of head.now body.now) }
    ensures whole { IfOk result (λ text. HasBody head.now (string_bytes text)) }
{
    let length = body.len();
    let mut text = String::from_str(alloc, head)?;
    write!(text, "{length}")?;
    text.push_str(END)?;
    text.push_str(body)?;
    Ok(text)
}
