ghost use Rattle.std.specs.Prelude.{◌≡◌, ℕ, ◌+◌, ◌<◌, false, if◌then◌else◌, Some, None, is_some, option_map};
ghost use Rattle.std.specs.Option.{option_map_or};
ghost use Rattle.rbc_spec.specs.Maps.{has};
ghost use Rattle.rbc_spec.specs.SectionRuns.{is_empty};
ghost use Rattle.rbc_spec.specs.Line as track;
ghost use Rattle.rbc_spec.specs.Centre as spec;
ghost use Rattle.rbc_spec.specs.Acts as acts;
ghost use Rattle.rbc_spec.specs.Rules as rules;
ghost use Rattle.rbc_spec.specs.Links as links;
ghost use Rattle.rbc_spec.specs.Frame.{last_stamp};

use crate::count::HandoverCount;
use crate::handing::{Handing, HandoverName};
use std::mem;

/// The handover of a train that a centre supervises. It can't be copied or dropped.
#[must_use]
#[derive(Debug)]
pub enum Handover {
    /// None was announced, or it was cancelled.
    None,
    /// It was announced.
    Announced(Handing),
}

impl Handover {
    ghost use Rattle.rbc_handover.specs.Handings.{handing_of, handover_name, kept_as};
    ghost use Rattle.rbc_handover.specs.Giving.{begun, is_due, HasMission, with_handover, with_count, announcing};
    ghost use Rattle.rbc_handover.specs.Giving.{cancelling};

    /// The name of the pending handover; `None` if and only if none is pending.
    pub fn name(&self) -> Option<HandoverName>
        ensures { result ≡ option_map handover_name (handing_of self.now) }
    {
        match self {
            Handover::None => None,
            Handover::Announced(handing) => Some(handing.name()),
        }
    }

    /// Whether one is pending: it was announced, and neither cancelled nor yielded.
    pub fn stands(&self) -> bool
        ensures { result ≡ is_some (handing_of self.now) }
    {
        self.name().is_some()
    }

    /// Announces a handover to this centre (3.15.1), if none is pending, and returns its number, which is the next one.
    /// `None` if and only if one is pending; then nothing changes.
    pub fn announce(&mut self, count: &mut HandoverCount, to: u8) -> Option<u32>
        requires { count.old < last_stamp }
        ensures number { result ≡ (if is_some (handing_of self.old) then None else Some (count.old + 1)) }
        ensures handover { handing_of self.new
            ≡ (if is_some (handing_of self.old) then handing_of self.old else Some (begun to (count.old + 1))) }
        ensures count { count.new ≡ (if is_some (handing_of self.old) then count.old else count.old + 1) }
        // By the rules, if the hand has a section of that centre.
        ensures exact { (line : track.Line) (t : ℕ) (m : spec.Mission) (k : spec.Centre)
            → HasMission t k m (handing_of self.old) → k.announced ≡ count.old
            → is_empty (acts.part_at line to m.place.track m.hand) ≡ false
            → rules.announce_if_due line t to k
            ≡ announcing line t to m result (with_handover t (handing_of self.new) (with_count count.new k)) }
    {
        if self.stands() {
            return None;
        }
        let number = count.take_next();
        hold(self, Handover::Announced(Handing::begin(number, to)));
        Some(number)
    }

    /// The centre takes over under this number. Takes the handover out, if it is pending under this number to that
    /// centre, so that the supervision is yielded (3.15.1). `None` if and only if it is not; then nothing changes.
    pub fn claim(&mut self, from: u8, number: u32) -> Option<Handing>
        ensures due { option_map kept_as result
            ≡ (if has (is_due from number) (handing_of self.old) then handing_of self.old else None) }
        ensures handover { handing_of self.new ≡ (if is_some result then None else handing_of self.old) }
        ensures exact { (line : track.Line) (c t : ℕ) (m : spec.Mission) (k : spec.Centre)
            → HasMission t k m (handing_of self.old)
            → links.taking_over line c from number t k
            ≡ option_map_or (λ handing. acts.yield line c t m (kept_as handing) k) result (acts.rest k) }
    {
        match mem::replace(self, Handover::None) {
            Handover::Announced(handing) => {
                if handing.number() == number && handing.to() == from {
                    Some(handing)
                } else {
                    hold(self, Handover::Announced(handing));
                    None
                }
            }
            Handover::None => None,
        }
    }

    /// Cancels the pending handover and returns its name; `None` if and only if none is pending.
    pub fn cancel(&mut self) -> Option<HandoverName>
        ensures name { result ≡ option_map handover_name (handing_of self.old) }
        ensures handover { handing_of self.new ≡ None }
        ensures exact { (t : ℕ) (m : spec.Mission) (k : spec.Centre) → m.handing ≡ handing_of self.old
            → acts.cancel t m k ≡ cancelling t result k }
    {
        match mem::replace(self, Handover::None) {
            Handover::None => None,
            Handover::Announced(handing) => Some(handing.cancel()),
        }
    }

    /// Ends it when its centre ends.
    pub fn end(self) {
        match self {
            Handover::None => {}
            Handover::Announced(handing) => {
                handing.cancel();
            }
        }
    }
}

// Holds a handover. One that was held ends.
fn hold(held: &mut Handover, handover: Handover)
    ensures { held.new ≡ handover }
{
    let before = mem::replace(held, handover);
    before.end();
}
