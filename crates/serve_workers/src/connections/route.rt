ghost use Rattle.std.specs.Prelude.{◌≡◌, ◌↔◌, IsTrue};
ghost use Rattle.rbc_spec.specs.Message.{SystemVersion};
ghost use Rattle.rbc_msgs.specs.Bodies.{track_body};
ghost use Rattle.serve_workers.specs.Connections.Routes.{route_of};

use rbc_centre::Saying;
use rbc_line::Line;
use rbc_msgs::TrackBody;

/// The train of a message from the centre, by its place in the line file. `begins` is the connection that begins to
/// serve the train with this message, if one does.
#[derive(Clone, Copy, Debug, PartialEq, Eq)]
pub(crate) struct Route {
    pub train: usize,
    pub begins: Option<usize>,
}

/// The route of a message that answers the connection `own`, or no connection. There is no route if no train of the
/// line has this engine.
pub(crate) fn route_of(line: &Line, own: Option<usize>, saying: &Saying) -> Option<Route>
    ensures { result ≡ route_of line.now own saying.now.nid_engine saying.now.message.body }
{
    let train = line.train_number(saying.nid_engine)? as usize;
    let begins = if is_version(saying.message.body()) {
        own
    } else {
        None
    };
    Some(Route { train, begins })
}

// Whether it is message 32, which begins a session.
fn is_version(body: TrackBody) -> bool
    ensures { IsTrue result ↔ (track_body body ≡ SystemVersion) }
{
    matches!(body, TrackBody::SystemVersion)
}
