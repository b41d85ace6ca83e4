ghost use Rattle.std.specs.Prelude.{◌≡◌, IfOk, IfErr, OnErr};
ghost use Rattle.rbc_centre.specs.Views.{outcome_of};
ghost use Rattle.rbc_node.specs.Node.{centre_of, CommitsAt, RefusesAt};

use crate::sink::AnswerSink;
use rbc_centre::{Event, Outcome};
use rbc_node::{Gate, Node, Share, ShareFault};
use std::sync::Wait;

/// A centre as its workers see it: its node, its gate, which is notified of each commit, and the sink of its answers.
#[derive(Drop)]
pub struct Committer<'a, G, O> {
    pub node: &'a Node,
    pub gate: &'a G,
    pub sink: &'a O,
}

impl<G: Gate, O: AnswerSink> Committer<'_, G, O> {
    /// Commits an event with the share as the node does, and passes the answer to the sink.
    pub fn commit<R: Wait>(
        &self,
        rt: &R,
        share: &mut Share,
        event: Event,
    ) -> Result<Outcome, ShareFault>
        ensures commits { IfOk result
            (λ o. CommitsAt (centre_of self.now.node.now) share.old share.new event (outcome_of o)) }
        ensures refused { IfErr result (RefusesAt (centre_of self.now.node.now) share.old event) }
        ensures err { OnErr result (share.new ≡ share.old) }
    {
        let outcome = self.node.commit(rt, self.gate, share, event)?;
        self.sink.answered(rt, &outcome);
        Ok(outcome)
    }
}
