//! The bytes of a TCP segment in an IP packet.

ghost use Rattle.std.specs.Prelude.{◌≡◌, ◌≤◌, ◌++◌, ◌%◌, IfOk, OnOk, length};
ghost use Rattle.text_prints.specs.Capture.{all_bytes, checksum, ip_header, packet, pseudo_header, sum_of, tcp_header};
ghost use Rattle.text_prints.specs.Capture.{tcp_sum};

use std::alloc::{AllocError, Global};

/// An end of a connection: its address in IP version 4, and its port.
#[derive(Clone, Copy)]
pub(crate) struct End {
    pub address: u32,
    pub port: u16,
}

/// A segment from one end to the other.
#[derive(Clone, Copy)]
pub(crate) struct Segment<'a> {
    pub source: End,
    pub target: End,
    /// The number of its first byte.
    pub number: u32,
    /// The number of the next byte that its sender expects.
    pub acknowledged: u32,
    /// FIN 1, SYN 2, PSH 8, ACK 16.
    pub flags: u8,
    pub data: &'a [u8],
}

/// Adds parts in their order.
pub(crate) fn add(out: &mut Vec<u8>, parts: &[&[u8]]) -> Result<(), AllocError>
    ensures { OnOk result (out.new.items ≡ out.old.items ++ all_bytes parts.now) }
{
    for part in parts {
        out.extend_from_slice(part)?;
    }
    Ok(())
}

/// The checksum of the Internet protocols.
pub(crate) fn checksum(bytes: &[u8]) -> u16
    ensures { result ≡ checksum bytes.now }
{
    let sum = sum_of(bytes);
    ((65_535 - sum) % 65_535) as u16
}

// The sum of words of 16 bits, less a multiple of 65 535.
fn sum_of(bytes: &[u8]) -> u32
    ensures { result ≡ sum_of bytes.now % 65535 }
{
    match bytes {
        [] => 0,
        [high] => u32::from(*high) * 256,
        [high, low, rest @ ..] => {
            (u32::from(*high) * 256 + u32::from(*low) + sum_of(rest)) % 65_535
        }
    }
}

fn add_tcp_header(out: &mut Vec<u8>, segment: Segment<'_>, sum: u16) -> Result<(), AllocError>
    ensures { OnOk result (out.new.items ≡ out.old.items ++ tcp_header segment.entry sum) }
{
    add(
        out,
        &[
            &segment.source.port.to_be_bytes(),
            &segment.target.port.to_be_bytes(),
            &segment.number.to_be_bytes(),
            &segment.acknowledged.to_be_bytes(),
            &[80, segment.flags],
            &65_535u16.to_be_bytes(),
            &sum.to_be_bytes(),
            &0u16.to_be_bytes(),
        ],
    )
}

fn add_pseudo_header(out: &mut Vec<u8>, segment: Segment<'_>) -> Result<(), AllocError>
    requires { length segment.data.now ≤ 1024 }
    ensures { OnOk result (out.new.items ≡ out.old.items ++ pseudo_header segment.entry) }
{
    let length = 20 + segment.data.len() as u16;
    add(
        out,
        &[
            &segment.source.address.to_be_bytes(),
            &segment.target.address.to_be_bytes(),
            &[0, 6],
            &length.to_be_bytes(),
        ],
    )
}

// The checksum of its header and its data.
fn tcp_sum(alloc: Global, segment: Segment<'_>) -> Result<u16, AllocError>
    requires { length segment.data.now ≤ 1024 }
    ensures { IfOk result (λ sum. sum ≡ tcp_sum segment.entry) }
{
    let mut covered = Vec::new(alloc);
    add_pseudo_header(&mut covered, segment)?;
    add_tcp_header(&mut covered, segment, 0)?;
    covered.extend_from_slice(segment.data)?;
    Ok(checksum(&covered))
}

fn add_ip_header(out: &mut Vec<u8>, segment: Segment<'_>, sum: u16) -> Result<(), AllocError>
    requires { length segment.data.now ≤ 1024 }
    ensures { OnOk result (out.new.items ≡ out.old.items ++ ip_header segment.entry sum) }
{
    let length = 40 + segment.data.len() as u16;
    add(
        out,
        &[
            &[69, 0],
            &length.to_be_bytes(),
            &[0, 0, 64, 0, 64, 6],
            &sum.to_be_bytes(),
            &segment.source.address.to_be_bytes(),
            &segment.target.address.to_be_bytes(),
        ],
    )
}

// The checksum of its IP header.
fn ip_sum(alloc: Global, segment: Segment<'_>) -> Result<u16, AllocError>
    requires { length segment.data.now ≤ 1024 }
    ensures { IfOk result (λ sum. sum ≡ checksum (ip_header segment.entry 0)) }
{
    let mut header = Vec::new(alloc);
    add_ip_header(&mut header, segment, 0)?;
    Ok(checksum(&header))
}

/// The packet of a segment of 1 024 bytes at most.
pub(crate) fn packet(alloc: Global, segment: Segment<'_>) -> Result<Vec<u8>, AllocError>
    requires { length segment.data.now ≤ 1024 }
    ensures { IfOk result (λ bytes. bytes.items ≡ packet segment.entry) }
{
    let mut out = Vec::new(alloc);
    let sum = ip_sum(alloc, segment)?;
    add_ip_header(&mut out, segment, sum)?;
    let sum = tcp_sum(alloc, segment)?;
    add_tcp_header(&mut out, segment, sum)?;
    out.extend_from_slice(segment.data)?;
    Ok(out)
}
