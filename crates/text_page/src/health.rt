//! Whether the centres answer, for a program that watches them.

ghost use Rattle.std.specs.List.{list_all};
ghost use Rattle.std.specs.Prelude.{◌≡◌};
ghost use Rattle.text_page.specs.Health.{is_healthy, takes_events};

use crate::view::{CentreNow, End, Layout, LineNow};
use std::alloc::{AllocError, Global};

impl CentreNow {
    /// Whether the centre takes events: its journal can be written, and it has reached no end.
    pub fn takes_events(&self) -> bool
        ensures { result ≡ takes_events self.now }
    {
        !self.is_stuck && self.end.is_none()
    }
}

impl LineNow {
    /// Whether connections are accepted, and each centre takes events.
    pub fn is_healthy(&self) -> bool
        ensures { result ≡ is_healthy self.now }
    {
        !self.is_stopped && all_take_events(&self.centres)
    }
}

fn all_take_events(centres: &[CentreNow]) -> bool
    ensures { result ≡ list_all takes_events centres.now }
{
    centres.iter().all(|centre| centre.takes_events())
}

/// Writes for each centre why it does not answer, a line for each cause. The text is empty if each centre answers.
pub fn causes_of(alloc: Global, layout: &Layout, now: &LineNow) -> Result<String, AllocError> {
    let mut text = String::new(alloc);
    for (name, centre) in layout.centres.iter().zip(now.centres.iter()) {
        if now.is_stopped {
            text.push_str(name.as_str())?;
            text.push_str(": the centres are stopped, and accept no new connection\n")?;
        }
        if centre.is_stuck {
            text.push_str(name.as_str())?;
            text.push_str(": its journal cannot be written\n")?;
        }
        if let Some(end) = centre.end {
            text.push_str(name.as_str())?;
            text.push_str(words_of(end))?;
        }
    }
    Ok(text)
}

// The end of a centre, in words.
fn words_of(end: End) -> &'static str {
    match end {
        End::Log => ": its log is full\n",
        End::Clock => ": its clock is at the last stamp\n",
        End::Link => ": a link from it has fewer than four frame numbers left\n",
    }
}
