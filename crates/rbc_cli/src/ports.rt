//! The ports of the centres of a line, which follow one another, and then that of the interlocking.

ghost use Rattle.std.specs.Prelude.{◌≡◌, ◌⊎◌};
ghost use Rattle.rbc_cli.specs.Ports.{first_after, first_at};

use std::io::Write;

/// The port of the first centre: the one after the page's. If the ports after the page's do not all fit below 65 536,
/// the error is the greatest port that the page can have.
pub fn first_after(page: u16, centres: u8) -> Result<u16, u16>
    ensures { result ≡ first_after page centres }
{
    let most = 65_534 - u16::from(centres);
    if page <= most {
        Ok(page + 1)
    } else {
        Err(most)
    }
}

/// The port of the first centre. If the ports after it do not all fit below 65 536, the error is the greatest port
/// that it can have.
pub fn first_at(port: u16, centres: u8) -> Result<u16, u16>
    ensures { result ≡ first_at port centres }
{
    let most = u16::MAX - u16::from(centres);
    if port <= most { Ok(port) } else { Err(most) }
}

/// Reports that an argument is a port with no room after it, and gives the exit status.
pub fn report_port<E: Write>(err: &mut E, argument: &str, port: u16, most: u16) -> u8
    ensures { (result ≡ 2) ⊎ (result ≡ 6) }
{
    let written = writeln!(
        err,
        "rbcline: {argument} {port}: ports of centres and of the interlocking follow it: give a port up to {most}"
    );
    match written {
        Ok(()) => 2,
        Err(_) => 6,
    }
}
