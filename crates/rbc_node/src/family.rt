use rbc_log::CentreLog;
use std::marker::Model;

/// The logs of a line's centres that ran side by side: one for each, in the order of the centres. Each replays, and
/// each delivered frame is in its sender's log.
#[derive(Drop)]
pub struct Family {
    logs: Vec<CentreLog>,
}

impl Model for Family {
    ghost use Rattle.std.specs.Prelude.{List};
    ghost use Rattle.rbc_log.specs.Log.{LogValue};
    ghost use Rattle.rbc_node.specs.Gather.{IsFamily};

    ghost Value = { List LogValue };

    ghost view = { λ f. f.logs.items };

    ghost invariant = { λ f. IsFamily f.logs.items };
}

impl Family {
    ghost use Rattle.std.specs.Prelude.{◌≡◌};
    ghost use Rattle.rbc_node.specs.Gather.{IsFamily};

    /// These logs, which are a family.
    pub(crate) fn of(logs: Vec<CentreLog>) -> Family
        requires { IsFamily logs.items }
        ensures { result ≡ logs.items }
    {
        Family { logs }
    }

    /// The logs, each at the place of its centre's number.
    pub fn logs(&self) -> &[CentreLog]
        ensures value { result.now ≡ self.now }
        ensures family { IsFamily self.now }
    {
        self.logs.as_slice()
    }
}
