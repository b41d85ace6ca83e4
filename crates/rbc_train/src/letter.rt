//! One body for one other centre.

ghost use Rattle.std.specs.Prelude.{◌≡◌, Some, None, option_map};
ghost use Rattle.rbc_spec.specs.Line.{registrar};
ghost use Rattle.rbc_train.specs.Homes.{GoesHome};
ghost use Rattle.rbc_train.specs.Letters.{bodies_in, letters};

use rbc_line::Line;
use rbc_linkmsg::Body;
use rbc_mission::HeldRight;
use rbc_right::{Registrar, Right};

/// A body for another centre, before its frame has a number.
#[derive(Clone, Copy, Debug, PartialEq, Eq)]
pub struct Letter {
    /// The number of the centre that it goes to.
    pub to: u8,
    pub body: Body,
}

impl Letter {
    /// The body for this centre, if the letter is to it.
    pub fn to_centre(self, centre: u8) -> Option<Body>
        ensures { bodies_in result ≡ letters (Some self) centre }
    {
        if self.to == centre {
            Some(self.body)
        } else {
            None
        }
    }
}

/// A letter to the registrar of a train; `None` if the train is not of the line.
pub(crate) fn to_registrar(line: &Line, nid_engine: u32, body: Body) -> Option<Letter>
    ensures { result ≡ option_map (λ r. record { to = r; body = body }) (registrar line.now nid_engine) }
{
    let to = line.registrar(nid_engine)?;
    Some(Letter { to, body })
}

/// Returns the right of a train that its mission or its registrar has handed out, if there is one. It goes to the
/// registrar: directly if that is this centre, else by a letter.
#[inline(always)]
pub(crate) fn go_home(
    line: &Line,
    centre: u8,
    nid_engine: u32,
    right: HeldRight,
    registrar: &mut Registrar,
    letter: &mut Option<Letter>,
)
    requires { letter.old ≡ None }
    ensures { GoesHome line.now centre nid_engine right letter.new registrar.old registrar.new }
{
    match right {
        HeldRight::Nothing => {}
        HeldRight::Held(right) => *letter = send_home(line, centre, nid_engine, right, registrar),
    }
}

// Returns a right to its registrar.
#[inline(never)]
fn send_home(
    line: &Line,
    centre: u8,
    nid_engine: u32,
    right: Right,
    registrar: &mut Registrar,
) -> Option<Letter>
    ensures { GoesHome line.now centre nid_engine (HeldRight.Held right) result registrar.old registrar.new }
{
    if line.registrar(nid_engine) == Some(centre) {
        registrar.back(right);
        return None;
    }
    right.send();
    to_registrar(line, nid_engine, Body::ReturnRight { engine: nid_engine })
}
