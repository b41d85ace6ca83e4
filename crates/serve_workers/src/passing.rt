use crate::signals::{Patience, Signals};
use rbc_board::Carrier;
use std::sync::Wait;

/// Takes the first `count` frames off a link. The receiving centre has taken them before, so no event is committed for
/// them. It ends as the receiving worker does.
pub fn pass_over<R: Wait, C: Carrier>(
    rt: &R,
    carrier: &C,
    mut seen: C::Seen,
    count: u32,
    signals: Signals<'_>,
) -> C::Seen
    requires { C.is_of carrier.now seen }
    ensures { C.is_of carrier.now result }
{
    if count == 0 {
        return seen;
    }
    let mut patience = Patience::new();
    for _ in rt.forever() {
        let stage = signals.stage();
        if carrier.get(&mut seen, count).is_some() {
            break;
        }
        signals.pass_on();
        if !patience.rests(rt, &signals, stage) {
            break;
        }
    }
    signals.pass_on();
    seen
}
