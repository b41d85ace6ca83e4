//! Laws of rules, and of the wrong rules beside them.

ghost use Rattle.std.specs.Prelude.{◌≡◌, ◌≢◌, ◌⊎◌, ℕ, true, false, Some};
ghost use Rattle.law_base.specs.Counting.Network.{took, TakesHead, IsCounted};
ghost use Rattle.law_base.specs.Counting.Resource.{IsWithinCap};
ghost use Rattle.rbc_spec.specs.SectionRuns.{SectionRun, all_of};
ghost use Rattle.rbc_spec.specs.Line.{Line, IsLine, is_centre};
ghost use Rattle.rbc_spec.specs.Place.{Place, covered};
ghost use Rattle.rbc_spec.specs.Message.{is_stale};
ghost use Rattle.rbc_spec.specs.Frame.Body.{RouteReturn};
ghost use Rattle.rbc_spec.specs.Centre.{Centre, Mission, is_free};
ghost use Rattle.rbc_spec.specs.Acts.{yield, return_pool, begun};
ghost use Rattle.rbc_spec.specs.Rules.{start_waiting};
ghost use Rattle.rbc_spec.specs.Links.{route_asked, route_returned, may_take, take_mission, cancelled};
ghost use Rattle.rbc_spec.specs.Step.{unset};
ghost use Rattle.law_invariants.specs.Flow.Counts.{rights, tokens};
ghost use Rattle.law_invariants.specs.Flow.Flow.{Flow, centre_count};
ghost use Rattle.law_invariants.specs.Flow.Leads.{replied};
ghost use Rattle.law_mutants.specs.Small.{small, only, in_section_0, in_section_1, flow, at_the_other, pooled};
ghost use Rattle.law_mutants.specs.Small.{returning, taking, expecting};
ghost use Rattle.law_mutants.specs.Past.{GoesPast};
ghost use Rattle.law_mutants.specs.Rules.{lending_again, shutting_at_once, giving_back_all, keeping_pool};
ghost use Rattle.law_mutants.specs.Rules.{starting_at_once, keeping_yield, keeping_older, cancelling_any};
ghost use Rattle.law_mutants.specs.Rules.{handed_over_by, sent_home_by};

/// After each request for sections, no section is held for a train more often than its home allows. The wrong rule
/// lends a section that is out again, to another train. The first train still has it in a pool, and its home does not
/// allow that.
pub fn no_section_is_lent_twice()
    ensures the_rule_keeps { (line : Line) (w : Flow) (c d u first most t s : ℕ) → IsLine line → IsCounted w
        → is_centre line c ≡ true
        → IsWithinCap (tokens line t s) (centre_count line) w
        → IsWithinCap (tokens line t s) (centre_count line) (replied w c (route_asked line c d u first most (w.at c))) }
    ensures the_wrong_rule_breaks { GoesPast (tokens small 1 1) small (flow pooled)
        (replied (flow pooled) 1 (lending_again small 1 0 2 1 1 ((flow pooled).at 1))) }
{}

/// After each handover, a train has its right at most once. If the mission stays at the centre that yields, the train
/// has its right there and in the Yield.
pub fn no_yield_keeps_its_mission()
    ensures the_rule_keeps { (line : Line) (w : Flow) (c u t : ℕ) → IsCounted w → is_centre line c ≡ true
        → IsWithinCap (rights line t) (centre_count line) w
        → IsWithinCap (rights line t) (centre_count line) (replied w c (handed_over_by (yield line c u) u (w.at c))) }
    ensures the_wrong_rule_breaks { GoesPast (rights small 1) small (flow taking)
        (replied (flow taking) 0 (handed_over_by (keeping_yield small 0 1) 1 ((flow taking).at 0))) }
{}

/// A mission is taken over. A message that was old to this centre or to the one that yields stays old. If the older of
/// both stamps were kept, a message that was received here would be accepted again.
pub fn no_older_stamp_is_kept()
    ensures the_rule_keeps { (line : Line) (c d t heard stamp : ℕ) (m : Mission) (k : Centre)
        → (is_stale stamp (k.heard t) ≡ true) ⊎ (is_stale stamp (Some heard) ≡ true)
        → is_stale stamp ((take_mission line c d t heard m k).state.heard t) ≡ true }
    ensures the_wrong_rule_breaks { (is_stale 9 (((flow taking).at 1).heard 1) ≡ true)
        × (is_stale 9 ((keeping_older small 1 0 1 6 (begun small in_section_1) ((flow taking).at 1)).state.heard 1)
        ≡ false) }
{}

/// A start of mission in released sections waits, and each train then has its right at most once. If the mission begins
/// while the right is asked for, the right is in the mission and at the registrar.
pub fn no_start_begins_before_its_right()
    ensures the_rule_keeps { (line : Line) (w : Flow) (c u t : ℕ) (place : Place) → IsCounted w
        → is_centre line c ≡ true
        → all_of (is_free line c (w.at c)) (covered line place) ≡ true
        → IsWithinCap (rights line t) (centre_count line) w
        → IsWithinCap (rights line t) (centre_count line) (replied w c (start_waiting line u place (w.at c))) }
    ensures the_wrong_rule_breaks { GoesPast (rights small 1) small (flow at_the_other)
        (replied (flow at_the_other) 1 (starting_at_once small 1 in_section_1 ((flow at_the_other).at 1))) }
{}

/// After each return of sections at the head of a link, no section is held more often than its home allows. If all
/// sections that are out for the train are given back, one is open that is still in a pool there.
pub fn no_section_opens_before_its_return()
    ensures the_rule_keeps { (line : Line) (w : Flow) (a c u t s : ℕ) (r : SectionRun) → IsLine line → IsCounted w
        → is_centre line a ≡ true → is_centre line c ≡ true → TakesHead w a c (RouteReturn u r)
        → IsWithinCap (tokens line t s) (centre_count line) w
        → IsWithinCap (tokens line t s) (centre_count line)
        (replied (took w a c) c (route_returned line c u r (w.at c))) }
    ensures the_wrong_rule_breaks { TakesHead (flow returning) 0 1 (RouteReturn 1 (only 2))
        × GoesPast (tokens small 1 1) small (flow returning)
        (replied (took (flow returning) 0 1) 1 (giving_back_all small 1 1 (only 2) ((flow returning).at 1))) }
{}

/// The same holds for a section that the interlocking wishes back: it stays in use until it is returned. By a wrong
/// rule it is shut as soon as it is asked for, and is still in a pool elsewhere.
pub fn no_section_shuts_as_it_is_asked_back()
    ensures the_rule_keeps { (line : Line) (w : Flow) (c e t s : ℕ) → IsLine line → IsCounted w
        → is_centre line c ≡ true
        → IsWithinCap (tokens line t s) (centre_count line) w
        → IsWithinCap (tokens line t s) (centre_count line) (replied w c (unset line c e (w.at c))) }
    ensures the_wrong_rule_breaks { GoesPast (tokens small 1 1) small (flow pooled)
        (replied (flow pooled) 1 (shutting_at_once small 1 1 ((flow pooled).at 1))) }
{}

/// After each return of a pool, no section is held more often than its home allows. If the pool stays too, its sections
/// are in it and on their way home.
pub fn no_pool_is_returned_and_kept()
    ensures the_rule_keeps { (line : Line) (w : Flow) (c u t s : ℕ) → IsLine line → IsCounted w
        → is_centre line c ≡ true
        → IsWithinCap (tokens line t s) (centre_count line) w
        → IsWithinCap (tokens line t s) (centre_count line)
        (replied w c (sent_home_by (return_pool line c u) u (w.at c))) }
    ensures the_wrong_rule_breaks { GoesPast (tokens small 1 1) small (flow pooled)
        (replied (flow pooled) 0 (sent_home_by (keeping_pool small 0 1) 1 ((flow pooled).at 0))) }
{}

/// A handover that may be taken under one number may be taken after a Cancel under another. If a Cancel ends the
/// handover with any number, the Yield under the newer number is not accepted, and the train has no supervisor.
pub fn no_older_cancel_ends_a_newer_handover()
    ensures the_rule_keeps { (line : Line) (c d older number t : ℕ) (place : Place) (hand : SectionRun) (k : Centre)
        → older ≢ number
        → may_take line c k d number t place hand ≡ true
        → may_take line c (cancelled d older t k).state d number t place hand ≡ true }
    ensures the_wrong_rule_breaks { (may_take small 1 expecting 0 2 1 in_section_0 (only 0) ≡ true)
        × (may_take small 1 (cancelling_any 0 1 1 expecting).state 0 2 1 in_section_0 (only 0) ≡ false) }
{}
