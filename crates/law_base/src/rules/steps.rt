//! Laws of the frames, messages and replies of a step.

ghost use Rattle.std.specs.Prelude.{◌≡◌, ℕ, ◌≤◌, true, None, length, map, All};
ghost use Rattle.rbc_spec.specs.Line.{Line, is_linked};
ghost use Rattle.rbc_spec.specs.Frame.{Frame};
ghost use Rattle.rbc_spec.specs.Centre.{Centre};
ghost use Rattle.rbc_spec.specs.Step.{Event, refusal, taken};
ghost use Rattle.law_base.specs.Rules.Sending.{HoldsFew, TakesFew, GoInOrder, IsCountedInRange};

/// A step sends at most three frames on a link, two messages to trains and 64 replies to the interlocking. Premises: at
/// most 64 sections are in a hand with its pool, in a waiting start, and in a returned run.
pub fn a_step_sends_few()
    ensures frames { (line : Line) (c d : ℕ) (k : Centre) (event : Event) → HoldsFew line k → TakesFew event
        → length ((taken line c event k).0.frames d) ≤ 3 }
    ensures sayings { (line : Line) (c : ℕ) (k : Centre) (event : Event) → HoldsFew line k → TakesFew event
        → length (taken line c event k).0.sayings ≤ 2 }
    ensures words { (line : Line) (c : ℕ) (k : Centre) (event : Event) → HoldsFew line k → TakesFew event
        → length (taken line c event k).0.words ≤ 64 }
{}

/// The frames of a step on a link are in the order returned runs (the lower first), Yield, Cancel, ReturnRight,
/// Announce, RouteAsk, any other. Between two returned runs is a section that is not returned, so each run is as long
/// as it can be.
pub fn a_step_sends_in_order()
    ensures { (line : Line) (c d : ℕ) (k : Centre) (event : Event) → HoldsFew line k → TakesFew event
        → GoInOrder (map (λ (f : Frame). f.body) ((taken line c event k).0.frames d)) }
{}

/// Each frame of a step that is not refused has its number and its stamp in the ranges of their fields.
pub fn each_frame_is_counted_in_range()
    ensures { (line : Line) (c d : ℕ) (k : Centre) (event : Event) → HoldsFew line k → TakesFew event
        → is_linked line c d ≡ true
        → refusal line c k event ≡ None → All IsCountedInRange ((taken line c event k).0.frames d) }
{}
