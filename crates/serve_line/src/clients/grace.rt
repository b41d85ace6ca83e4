ghost use Rattle.std.specs.Prelude.{◌≡◌};
ghost use Rattle.serve_line.specs.Grace.{grace_of};

/// The time of an endpoint's connections after the stop.
#[derive(Clone, Copy)]
pub(crate) enum Grace {
    /// No connection is left.
    Over,
    /// They have time to end.
    Wait,
    /// They are ended.
    Cut,
}

/// The time of an endpoint's connections after this many rests of at most `most`. A hasty stop leaves none.
pub(crate) fn grace_of(rests: u32, most: u32, is_empty: bool, is_hasty: bool) -> Grace
    ensures { result ≡ grace_of rests most is_empty is_hasty }
{
    if is_empty {
        Grace::Over
    } else if is_hasty || rests >= most {
        Grace::Cut
    } else {
        Grace::Wait
    }
}
