ghost use Rattle.std.specs.Prelude.{◌≡◌, ℕ, OnOk, IfErr, IfSome, Option, None, Some};
ghost use Rattle.rbc_spec.specs.Frame.{Frame};

use rbc_linkmsg::Frame;

/// Carries the frames of one directed link, each under its number.
pub trait Carrier {
    /// The frames of the link that one caller knows.
    type Seen: Drop + Send;

    /// A caller's notes are of this link.
    ghost is_of: { Self → Self.Seen → Type 0 };

    /// The frame that the notes know under a number.
    ghost known: { Self.Seen → ℕ → Option Frame };

    /// Puts a frame under its number.
    ///
    /// # Errors
    ///
    /// The frame is returned in four cases. Its own number is another; a frame is under that number already; the link
    /// has no room for the number; or memory runs out. The caller still knows the frames that it knew.
    fn put(&self, seen: &mut Self::Seen, number: u32, frame: Frame) -> Result<(), Frame>
        requires { is_of self.now seen.old }
        ensures link { is_of self.now seen.new }
        ensures ok { OnOk result (known seen.new number ≡ Some frame) }
        ensures own { OnOk result (frame.number ≡ number) }
        ensures anew { OnOk result (known seen.old number ≡ None) }
        ensures back { IfErr result (λ f. f ≡ frame) }
        ensures keeps { (n : ℕ) (f : Frame) → known seen.old n ≡ Some f → known seen.new n ≡ Some f };

    /// The frame under a number, if one was put. A frame that the caller knows can be read again.
    fn get(&self, seen: &mut Self::Seen, number: u32) -> Option<Frame>
        requires { is_of self.now seen.old }
        ensures link { is_of self.now seen.new }
        ensures some { IfSome result (λ f. known seen.new number ≡ Some f) }
        ensures again { (f : Frame) → known seen.old number ≡ Some f → result ≡ Some f }
        ensures keeps { (n : ℕ) (f : Frame) → known seen.old n ≡ Some f → known seen.new n ≡ Some f };

    /// Two callers of one link know the same frame under a number that both know. It does nothing.
    fn compare(&self, mine: &mut Self::Seen, other: Self::Seen, number: u32)
        requires { is_of self.now mine.old × is_of self.now other }
        ensures link { is_of self.now mine.new }
        ensures keeps { (n : ℕ) (f : Frame) → known mine.old n ≡ Some f → known mine.new n ≡ Some f }
        ensures same { (f g : Frame) → known mine.old number ≡ Some f → known other number ≡ Some g → f ≡ g };
}
