//! The order of the homes along each track.
ghost use Rattle.std.specs.Prelude.{◌≡◌, ◌==◌, ◌&&◌, MatchBool};
ghost use Rattle.std.specs.List.{list_any};
ghost use Rattle.rbc_line.specs.Homes.{IsAscending, IsSplit, IsUnsplit};

use crate::parts::Section;

/// Whether one of the sections has the track and the home of this one.
fn stands_before(sections: &[Section], section: Section) -> bool
    ensures { result ≡ list_any (λ p. (p.track == section.track) && (p.home == section.home)) sections.now }
{
    sections
        .iter()
        .any(|p| p.track == section.track && p.home == section.home)
}

/// Whether on one track a section of another home is between two sections of one home. Until one is found, each home
/// begins at most once on a track. So the sections before are searched at most eight times a track.
pub(crate) fn has_split_home(sections: &[Section]) -> bool
    requires { IsAscending sections.now }
    ensures { MatchBool result (IsSplit sections.now) (IsUnsplit sections.now) }
{
    for i in 1..sections.len() {
        let previous = sections[i - 1];
        let section = sections[i];
        if previous.track == section.track
            && previous.home != section.home
            && stands_before(&sections[..i - 1], section)
        {
            return true;
        }
    }
    false
}
