ghost use Rattle.std.specs.Net.Addr.{IsLoopbackV4, IsLoopbackV6, MatchIp};
ghost use Rattle.std.specs.Prelude.{◌+◌, ◌==◌, ◌≡◌, if◌then◌else◌};

use std::net::{IpAddr, Ipv4Addr};

/// The address of this host that only this host can connect to.
pub(crate) fn this_host() -> IpAddr
    ensures { MatchIp result IsLoopbackV4 IsLoopbackV6 }
{
    IpAddr::V4(Ipv4Addr::new(127, 0, 0, 1))
}

/// The port of an endpoint: `first` + `number`, or 0 if the system picks each.
pub(crate) fn port_of(first: u16, number: u8) -> u32
    ensures { result ≡ (if first == 0 then 0 else first + number) }
{
    match first {
        0 => 0,
        _ => u32::from(first) + u32::from(number),
    }
}
