//! The homes of the sections along a track.

ghost use Rattle.std.specs.Prelude.{[], ◌++◌, ◌≡◌, ◌∷◌, IfOk, List, OnOk, ℕ};
ghost use Rattle.cli_commands.specs.Inspecting.Homes.{comes_again, IsAfter};

use std::alloc::{AllocError, Global};
use std::collections::HashSet;

/// The homes along one track so far.
#[derive(Drop)]
pub(crate) struct Homes<'a> {
    begun: HashSet<&'a str>,
    last: Option<&'a str>,
}

impl<'a> Homes<'a> {
    /// Before the first section.
    pub(crate) fn new(alloc: Global) -> Homes<'a>
        ensures { IsAfter [] result }
    {
        Homes {
            begun: HashSet::new(alloc),
            last: None,
        }
    }

    /// Adds a section of this home. Returns whether the home appears again, after another home.
    pub(crate) fn comes_again(&mut self, home: &'a str) -> Result<bool, AllocError>
        ensures again { (homes : List (List ℕ)) → IsAfter homes self.old
            → IfOk result (λ again. again ≡ comes_again homes home.now) }
        ensures added { (homes : List (List ℕ)) → IsAfter homes self.old
            → OnOk result (IsAfter (homes ++ (home.now ∷ [])) self.new) }
    {
        if self.last == Some(home) {
            return Ok(false);
        }
        self.last = Some(home);
        Ok(!self.begun.insert(home)?)
    }
}
