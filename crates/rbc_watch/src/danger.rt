//! The dangers in a view: the promise is broken there.

ghost use Rattle.std.specs.Prelude.{◌≡◌, IfErr, IfOk, IfSome, OnOk, true};
ghost use Rattle.law_outside.specs.Outside as spec;
ghost use Rattle.rbc_watch.specs.Dangers.{Breaks, IsFoundAt, IsFoundTrain, IsSafeIn};
ghost use Rattle.rbc_watch.specs.Seen.{view_of};

use crate::view::View;
use rbc_line::Line;

/// A break of the promise. Trains are named by NID_ENGINE.
#[derive(Clone, Copy, Debug, PartialEq, Eq)]
pub enum Danger {
    /// Two trains may run over one section.
    TwoTrains { one: u32, other: u32, section: u16 },
    /// A train may run over a section that the interlocking has not released, or has taken back.
    NotReleased { nid_engine: u32, section: u16 },
    /// Some train was sent a message that it cannot place.
    Stray,
}

impl View {
    /// Finds a danger in the view. Ok if and only if there is none.
    pub(crate) fn check(&self, line: &Line) -> Result<(), Danger>
        ensures safe { OnOk result (spec.IsSafeOutside line.now (view_of self.now)) }
        ensures danger { IfErr result (Breaks line.now (view_of self.now)) }
    {
        if self.has_strayed() {
            return Err(Danger::Stray);
        }
        for s in 0..line.section_count() {
            self.check_section(line, s)?;
        }
        Ok(())
    }

    /// Finds a danger in a section.
    #[tactic(auto, using(crate::proofs::Dangers::none_found, crate::proofs::Dangers::safe_in, crate::proofs::Dangers::found_more))]
    fn check_section(&self, line: &Line, s: u16) -> Result<(), Danger>
        ensures safe { OnOk result (IsSafeIn line.now (view_of self.now) s) }
        ensures danger { IfErr result (Breaks line.now (view_of self.now)) }
    {
        let mut found = None;
        for i in 0..self.stretches.len() {
            found = self.found_at(line, s, i, found)?;
        }
        Ok(())
    }

    /// The train that may run over the section, after the stretch at this place is looked at too.
    #[tactic(auto, using(crate::proofs::Dangers::train_at, crate::proofs::Dangers::none_at))]
    fn found_at(
        &self,
        line: &Line,
        s: u16,
        i: usize,
        found: Option<u32>,
    ) -> Result<Option<u32>, Danger>
        requires { IfSome found (λ u. spec.may_run_over line.now (view_of self.now) u s ≡ true) }
        ensures found { IfOk result (IsFoundAt line.now self.now s i found) }
        ensures danger { IfErr result (Breaks line.now (view_of self.now)) }
    {
        match self.stretches.get_index(i) {
            Some((nid_engine, _)) => self.found_train(line, s, *nid_engine, found),
            None => Ok(found),
        }
    }

    /// The train that may run over the section, after this train is looked at too.
    fn found_train(
        &self,
        line: &Line,
        s: u16,
        nid_engine: u32,
        found: Option<u32>,
    ) -> Result<Option<u32>, Danger>
        requires { IfSome found (λ u. spec.may_run_over line.now (view_of self.now) u s ≡ true) }
        ensures found { IfOk result (IsFoundTrain line.now self.now s nid_engine found) }
        ensures danger { IfErr result (Breaks line.now (view_of self.now)) }
    {
        if !self.may_run_over(line, nid_engine, s) {
            return Ok(found);
        }
        if !self.is_released(s) {
            return Err(Danger::NotReleased {
                nid_engine,
                section: s,
            });
        }
        match found {
            Some(one) if one != nid_engine => Err(Danger::TwoTrains {
                one,
                other: nid_engine,
                section: s,
            }),
            _ => Ok(Some(nid_engine)),
        }
    }

    /// Whether a train may run over a section.
    fn may_run_over(&self, line: &Line, nid_engine: u32, s: u16) -> bool
        ensures { result ≡ spec.may_run_over line.now (view_of self.now) nid_engine s }
    {
        match self.stretch(nid_engine) {
            Some(x) => x.has(line, s),
            None => false,
        }
    }
}
