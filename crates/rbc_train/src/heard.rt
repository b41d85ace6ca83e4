ghost use Rattle.std.specs.Prelude.{◌≡◌, [], None};
ghost use Rattle.rbc_train.specs.Letters.{mail_of};

use crate::mail::Mail;
use crate::saying::Saying;
use rbc_mission::Told;

/// The effect of an answered message, or of a frame: the reply to the train, an order after it, and mail for other
/// centres. `told` are the sections that were wished back and are shut now, in rising order; they are reported to the
/// interlocking.
#[derive(Debug, Drop)]
pub struct Heard {
    pub saying: Option<Saying>,
    /// The order to contact the next centre (packet 131), or to end the session with this one (packet 42).
    pub order: Option<Saying>,
    pub mail: Mail,
    pub told: Told,
}

impl Heard {
    /// No effect on the train, on other centres or on the interlocking.
    #[inline(always)]
    pub fn nothing() -> Heard
        ensures { result ≡ record { saying = None; order = None; mail = mail_of None; told = [] } }
    {
        Heard {
            saying: None,
            order: None,
            mail: Mail::of(None),
            told: Told::nothing(),
        }
    }
}
