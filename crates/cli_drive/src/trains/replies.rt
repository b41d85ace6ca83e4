//! The replies of the control endpoint.

ghost use Rattle.std.specs.Prelude.{◌≡◌, IfSome, IsSome};
ghost use Rattle.rbc_line.specs.Views.{placed_section};
ghost use Rattle.cli_drive.specs.Replies.{said, section_of};

use rbc_line::Line;

/// A reply to a command, or a report.
#[derive(Clone, Copy)]
pub(crate) enum Reply {
    /// The section is released.
    Released(u16),
    /// The section was wished back, and is shut.
    Shut(u16),
}

/// The reply of a line of the control endpoint. A `Done` answers a `set`, since no `unset` is sent.
pub(crate) fn reply_of(line: &Line, row: &str) -> Option<Reply>
    ensures { IfSome result (λ reply. IsSome (placed_section line.now (section_of reply))) }
{
    let (name, rest) = row.split_once(' ')?;
    let (number, word) = rest.split_once(' ')?;
    let section = number.parse::<u16>().ok()?;
    let home = line.section(section)?.home;
    if line.centre_name(home) != Some(name) {
        return None;
    }
    said(word, section)
}

// The reply of this word for a section.
fn said(word: &str, section: u16) -> Option<Reply>
    ensures { result ≡ said word.now section }
{
    match word {
        "Done" => Some(Reply::Released(section)),
        "Told" => Some(Reply::Shut(section)),
        _ => None,
    }
}
