//! Laws of the state that the one line centre shows.

ghost use Rattle.std.specs.Prelude.{◌≡◌, ◌≢◌, ◌≤◌, ◌<◌, ℕ, ◌+◌, Bool, true, false, List, [], ◌∷◌, ◌++◌, Option, Some};
ghost use Rattle.std.specs.Prelude.{None, Contains};
ghost use Rattle.law_base.specs.Counting.Network.{way, took, acted, to_one, TakesHead, IsCounted};
ghost use Rattle.law_base.specs.Counting.Resource.{Resource, placed, sent_by};
ghost use Rattle.rbc_spec.specs.SectionRuns.{SectionRun};
ghost use Rattle.rbc_spec.specs.Line.{Line, is_centre, is_home};
ghost use Rattle.rbc_spec.specs.Place.{Place};
ghost use Rattle.rbc_spec.specs.Frame.{Body, YieldedPlace, yielded_place};
ghost use Rattle.rbc_spec.specs.Frame.Body.{Yield};
ghost use Rattle.rbc_spec.specs.Centre as centre;
ghost use Rattle.rbc_spec.specs.Centre.{Centre, Phase, Mission, is_used_for};
ghost use Rattle.rbc_spec.specs.Acts.{returned};
ghost use Rattle.rbc_spec.specs.LineCentre as line_centre;
ghost use Rattle.rbc_spec.specs.LineCentre.{LineState, LineMission, Mark, is_given_to, IsHand};
ghost use Rattle.rbc_spec.specs.LineCentre.Mark.{Given, Kept};
ghost use Rattle.rbc_spec.specs.ReadOff.{StandsFor, read_off};
ghost use Rattle.rbc_spec.specs.World.{World};
ghost use Rattle.law_base.specs.Local.Local.{hand_has};
ghost use Rattle.law_invariants.specs.Flow.Flow.{Flow, flow_of, centre_count};
ghost use Rattle.law_invariants.specs.Flow.Counts.{tokens, hands, missions};
ghost use Rattle.law_invariants.specs.Flow.Keeping.{nothing_came, came_with};
ghost use Rattle.law_invariants.specs.Flow.Sound.{IsFlowSound};
ghost use Rattle.law_invariants.specs.Flow.Shows.{Shows, shown, is_in_hand, parted};
ghost use Rattle.law_refinement.specs.Abstraction.Acts.{IsAct, SendsNone, IsMissionHere, hand_before, hand_after};
ghost use Rattle.law_refinement.specs.Abstraction.Acts.{rights_alone, tokens_aside};
ghost use Rattle.law_refinement.specs.Abstraction.After.{IsUnseen, PartAfter, PartStays, PartChanges, MarkAfter};
ghost use Rattle.law_refinement.specs.Abstraction.After.{ShowsMission, MissionAfter, ShowsAfter};

/// An act of one centre by itself, and one at the head of a link, are acts of one centre (`IsAct`).
pub fn an_act_of_one_centre()
    ensures by_itself { (line : Line) (w : Flow) (c : ℕ) (y : Centre) (frames : ℕ → List Body) → IsCounted w
        → is_centre line c ≡ true
        → IsAct line w c nothing_came y frames (acted w c y frames) }
    ensures at_head { (line : Line) (w : Flow) (a c : ℕ) (f : Body) (y : Centre) (frames : ℕ → List Body) → IsCounted w
        → is_centre line a ≡ true → is_centre line c ≡ true → TakesHead w a c f
        → IsAct line w c (came_with a c f) y frames (acted (took w a c) c y frames) }
{}

/// The act changes only the state of its centre.
pub fn where_an_act_is()
    ensures here { (line : Line) (w : Flow) (c : ℕ) (came : Resource Centre Body → ℕ) (y : Centre)
        (frames : ℕ → List Body) (new : Flow)
        → IsAct line w c came y frames new → new.at c ≡ y }
    ensures elsewhere { (line : Line) (w : Flow) (c : ℕ) (came : Resource Centre Body → ℕ) (y : Centre)
        (frames : ℕ → List Body) (new : Flow) (d : ℕ)
        → IsAct line w c came y frames new → d ≢ c → new.at d ≡ w.at d }
    ensures entry { (line : Line) (w : Flow) (c : ℕ) (came : Resource Centre Body → ℕ) (y : Centre)
        (frames : ℕ → List Body) (new : Flow) (s d : ℕ)
        → IsAct line w c came y frames new → is_home line d s ≡ true → is_home line c s ≡ true
        → (new.at d).book s ≡ y.book s }
    ensures other_entry { (line : Line) (w : Flow) (c : ℕ) (came : Resource Centre Body → ℕ) (y : Centre)
        (frames : ℕ → List Body) (new : Flow) (s d : ℕ)
        → IsAct line w c came y frames new → is_home line d s ≡ true → is_home line c s ≡ false
        → (new.at d).book s ≡ (w.at d).book s }
    ensures kept_entry { (line : Line) (w : Flow) (c : ℕ) (came : Resource Centre Body → ℕ) (y : Centre)
        (frames : ℕ → List Body) (new : Flow) (s d : ℕ)
        → IsAct line w c came y frames new → is_home line d s ≡ true → y.book s ≡ (w.at c).book s
        → (new.at d).book s ≡ (w.at d).book s }
{}

/// The amount of a resource in frames. If each carries nothing, nothing is sent; each frame among them is counted.
/// Returned sections carry no hand and no mission.
pub fn what_frames_carry()
    ensures none { (r : Resource Centre Body) (n c : ℕ) (frames : ℕ → List Body) → SendsNone r c frames
        → sent_by r n c frames ≡ 0 }
    ensures some { (r : Resource Centre Body) (n c d : ℕ) (frames : ℕ → List Body) (f : Body) → d < n
        → Contains (frames d) f → r.inside c d f ≤ sent_by r n c frames }
    ensures silent { (r : Resource Centre Body) (c : ℕ) → SendsNone r c (λ d. []) }
    ensures both { (r : Resource Centre Body) (c : ℕ) (first second : ℕ → List Body) → SendsNone r c first
        → SendsNone r c second → SendsNone r c (λ d. first d ++ second d) }
    ensures single { (r : Resource Centre Body) (c d : ℕ) (f : Body) → r.inside c d f ≡ 0
        → SendsNone r c (to_one d (f ∷ [])) }
    ensures home { (line : Line) (c u t s track : ℕ) (run : SectionRun) (k : Centre)
        → SendsNone (hands t s) c (returned line c u track run k).frames
        × SendsNone (missions t) c (returned line c u track run k).frames }
{}

/// An act changes the count of a section in the hands of a train as much as in the centre's own hand and its frames. So
/// the section is in a hand as before if these amounts are equal. It is in one if the centre has it or sends it. It is
/// in none if the centre had it and no longer has it.
pub fn hands_after()
    ensures counted { (line : Line) (w : Flow) (c : ℕ) (came : Resource Centre Body → ℕ) (y : Centre)
        (frames : ℕ → List Body) (new : Flow) (t s : ℕ)
        → IsAct line w c came y frames new
        → placed (hands t s) (centre_count line) new + hand_before t s (w.at c) came
        ≡ placed (hands t s) (centre_count line) w + hand_after line c t s y frames }
    ensures same { (line : Line) (w : Flow) (c : ℕ) (came : Resource Centre Body → ℕ) (y : Centre)
        (frames : ℕ → List Body) (new : Flow) (t s : ℕ)
        → IsAct line w c came y frames new → hand_after line c t s y frames ≡ hand_before t s (w.at c) came
        → is_in_hand line new s t ≡ is_in_hand line w s t }
    ensures unchanged { (line : Line) (w : Flow) (c : ℕ) (came : Resource Centre Body → ℕ) (y : Centre)
        (frames : ℕ → List Body) (new : Flow) (t s : ℕ)
        → IsAct line w c came y frames new → hand_has (y.mission t) s ≡ hand_has ((w.at c).mission t) s
        → came (hands t s) ≡ 0
        → SendsNone (hands t s) c frames → is_in_hand line new s t ≡ is_in_hand line w s t }
    ensures was { (line : Line) (w : Flow) (c : ℕ) (came : Resource Centre Body → ℕ) (y : Centre)
        (frames : ℕ → List Body) (new : Flow) (t s : ℕ)
        → IsAct line w c came y frames new → 0 < hand_before t s (w.at c) came → is_in_hand line w s t ≡ true }
    ensures given { (line : Line) (w : Flow) (c : ℕ) (came : Resource Centre Body → ℕ) (y : Centre)
        (frames : ℕ → List Body) (new : Flow) (t s : ℕ)
        → IsAct line w c came y frames new → 0 < hand_after line c t s y frames → is_in_hand line new s t ≡ true }
    ensures left { (line : Line) (w : Flow) (c : ℕ) (came : Resource Centre Body → ℕ) (y : Centre)
        (frames : ℕ → List Body) (new : Flow) (t s : ℕ)
        → IsFlowSound line w → IsAct line w c came y frames new → 0 < hand_before t s (w.at c) came
        → hand_after line c t s y frames ≡ 0
        → is_in_hand line new s t ≡ false }
{}

/// The mark of a section follows from its home's book and the hands, before and after an act. It stays if the acting
/// centre keeps its entry, and keeps the count of it in the hand of its train.
pub fn mark_after()
    ensures shown { (line : Line) (w new : Flow) (s d : ℕ) (old mark : Mark) → MarkAfter line w new s d old mark
        → old ≡ shown ((w.at d).book s) (is_in_hand line w s)
        → mark ≡ shown ((new.at d).book s) (is_in_hand line new s) }
    ensures stays { (line : Line) (w : Flow) (c : ℕ) (came : Resource Centre Body → ℕ) (y : Centre)
        (frames : ℕ → List Body) (new : Flow) (s d : ℕ) (old : Mark)
        → IsAct line w c came y frames new → y.book s ≡ (w.at c).book s
        → ((t : ℕ) → is_used_for t ((w.at d).book s) ≡ true
        → hand_after line c t s y frames ≡ hand_before t s (w.at c) came)
        → MarkAfter line w new s d old old }
{}

/// A section that enters a hand of the acting centre is given, if its home has it in use for the train. That holds of
/// each section whose token the centre has. A section that leaves the hand has the mark of the book if it is the
/// centre's own. Else it is kept for the train.
pub fn a_section_enters_or_leaves_a_hand()
    ensures enters { (line : Line) (w : Flow) (c : ℕ) (came : Resource Centre Body → ℕ) (y : Centre)
        (frames : ℕ → List Body) (new : Flow) (s d t : ℕ) (old : Mark)
        → IsAct line w c came y frames new → is_home line d s ≡ true → is_home line c s ≡ true
        → is_used_for t (y.book s) ≡ true → 0 < hand_after line c t s y frames
        → MarkAfter line w new s d old (Given t) }
    ensures enters_lent { (line : Line) (w : Flow) (c : ℕ) (came : Resource Centre Body → ℕ) (y : Centre)
        (frames : ℕ → List Body) (new : Flow) (s d t : ℕ) (old : Mark)
        → IsAct line w c came y frames new → is_home line d s ≡ true → IsFlowSound line w → is_home line c s ≡ false
        → 0 < (tokens line t s).held c (w.at c) + came (tokens line t s) → 0 < hand_after line c t s y frames
        → MarkAfter line w new s d old (Given t) }
    ensures token { (line : Line) (w : Flow) (c : ℕ) (came : Resource Centre Body → ℕ) (y : Centre)
        (frames : ℕ → List Body) (new : Flow) (s d t : ℕ)
        → IsAct line w c came y frames new → is_home line d s ≡ true → IsFlowSound line w
        → 0 < (tokens line t s).held c (w.at c) + came (tokens line t s) → is_used_for t ((w.at d).book s) ≡ true }
    ensures opened { (line : Line) (w : Flow) (c : ℕ) (came : Resource Centre Body → ℕ) (y : Centre)
        (frames : ℕ → List Body) (new : Flow) (s d : ℕ) (old : Mark)
        → IsAct line w c came y frames new → is_home line d s ≡ true → is_home line c s ≡ true → y.book s ≡ centre.Open
        → MarkAfter line w new s d old line_centre.Open }
    ensures shut { (line : Line) (w : Flow) (c : ℕ) (came : Resource Centre Body → ℕ) (y : Centre)
        (frames : ℕ → List Body) (new : Flow) (s d : ℕ) (old : Mark)
        → IsAct line w c came y frames new → is_home line d s ≡ true → is_home line c s ≡ true → y.book s ≡ centre.Shut
        → MarkAfter line w new s d old line_centre.Shut }
    ensures leaves_lent { (line : Line) (w : Flow) (c : ℕ) (came : Resource Centre Body → ℕ) (y : Centre)
        (frames : ℕ → List Body) (new : Flow) (s d t : ℕ) (old : Mark)
        → IsAct line w c came y frames new → is_home line d s ≡ true → IsFlowSound line w → is_home line c s ≡ false
        → 0 < hand_before t s (w.at c) came → hand_after line c t s y frames ≡ 0
        → MarkAfter line w new s d old (Kept t) }
{}

/// The mission of a train is at no other place if the acting centre supervises it, or if its Yield arrived. The train
/// has no mission if its right is at the centre or arrived without a mission.
pub fn where_a_mission_is()
    ensures supervised { (line : Line) (w : Flow) (c : ℕ) (came : Resource Centre Body → ℕ) (y : Centre)
        (frames : ℕ → List Body) (new : Flow) (t : ℕ) (m : Mission)
        → IsFlowSound line w → IsAct line w c came y frames new → (w.at c).mission t ≡ Some m
        → IsMissionHere line w c came t }
    ensures came { (line : Line) (w : Flow) (c : ℕ) (came : Resource Centre Body → ℕ) (y : Centre)
        (frames : ℕ → List Body) (new : Flow) (t : ℕ)
        → IsFlowSound line w → IsAct line w c came y frames new → 0 < came (missions t)
        → IsMissionHere line w c came t × ((w.at c).mission t ≡ None) }
    ensures none { (line : Line) (w : Flow) (c : ℕ) (came : Resource Centre Body → ℕ) (y : Centre)
        (frames : ℕ → List Body) (new : Flow) (t : ℕ)
        → IsFlowSound line w → IsAct line w c came y frames new
        → 0 < (rights_alone t).held c (w.at c) + came (rights_alone t)
        → IsMissionHere line w c came t × (placed (missions t) (centre_count line) w ≡ 0) }
{}

/// After an act, the mission shown for a train is the one shown before, that of the centre, that of the centre's Yield,
/// or none.
pub fn mission_after()
    ensures { (line : Line) (w : Flow) (c : ℕ) (came : Resource Centre Body → ℕ) (y : Centre) (frames : ℕ → List Body)
        (new : Flow) (t : ℕ) (old mission : Option LineMission)
        → IsFlowSound line w → is_centre line c ≡ true → IsAct line w c came y frames new
        → MissionAfter line w c came y frames t old mission
        → ShowsMission line w t old → ShowsMission line new t mission }
{}

/// The mission is on the way if the centre had it, and its Yield is the only frame that the centre sends of it.
pub fn a_yield_hands_over()
    ensures { (line : Line) (w : Flow) (c : ℕ) (came : Resource Centre Body → ℕ) (y : Centre) (others : ℕ → List Body)
        (d number t heard : ℕ) (has_data is_ended : Bool)
        (place : Place) (hand : SectionRun) (m : Mission) (old : Option LineMission) → is_centre line d ≡ true
        → (w.at c).mission t ≡ Some m → y.mission t ≡ None → SendsNone (missions t) c others
        → MissionAfter line w c came y
        (λ e. others e ++ to_one d (Yield number t heard has_data is_ended (yielded_place place) hand ∷ []) e) t old
        (Some (parted heard has_data is_ended place)) }
{}

/// A value that is shown for each train and centre does not change if the centre's own value does not. It changes at
/// one pair if the centre changed it for one train.
pub fn one_part_after()
    ensures phase { PartStays Phase × PartChanges Phase }
    ensures heard { PartStays (Option ℕ) × PartChanges (Option ℕ) }
    ensures said { PartStays ℕ × PartChanges ℕ }
    ensures wait { PartStays (Option Place) × PartChanges (Option Place) }
{}

/// Take a state that shows a sound flow, with each field changed by the act of one centre. It shows the flow after the
/// act: by itself, and at the head of a link.
pub fn what_an_act_shows()
    ensures act { (line : Line) (w : Flow) (c : ℕ) (came : Resource Centre Body → ℕ) (y : Centre)
        (frames : ℕ → List Body) (new : Flow) (v after : LineState)
        → IsFlowSound line w → Shows line w v → is_centre line c ≡ true → IsAct line w c came y frames new
        → ShowsAfter line w c came y frames new v after → Shows line new after }
    ensures by_itself { (line : Line) (w : Flow) (c : ℕ) (y : Centre) (frames : ℕ → List Body) (v after : LineState)
        → IsFlowSound line w → Shows line w v → is_centre line c ≡ true
        → ShowsAfter line w c nothing_came y frames (acted w c y frames) v after
        → Shows line (acted w c y frames) after }
    ensures at_head { (line : Line) (w : Flow) (a c : ℕ) (f : Body) (y : Centre) (frames : ℕ → List Body)
        (v after : LineState)
        → IsFlowSound line w → Shows line w v → is_centre line a ≡ true → is_centre line c ≡ true → TakesHead w a c f
        → ShowsAfter line w c (came_with a c f) y frames (acted (took w a c) c y frames) v after
        → Shows line (acted (took w a c) c y frames) after }
{}

/// The state that shows the flow of a world is the one that is read off it, and no other shows it. So that state
/// represents the world.
pub fn what_is_shown_is_read_off()
    ensures stands { (line : Line) (w : World) (v : LineState) → IsFlowSound line (flow_of w) → Shows line (flow_of w) v
        → StandsFor line w (read_off line w) }
    ensures same { (line : Line) (w : World) (v : LineState) → IsFlowSound line (flow_of w) → Shows line (flow_of w) v
        → v ≡ read_off line w }
{}

/// The meaning of a mark for the flow that it shows. A section is given to a train if and only if it is in a hand of
/// the train. Then its home has it in use. Else it is kept for the train for which it is in use. A section is in no
/// hand if its token is in a waiting start, in a pool, or in a RouteInfo or RouteReturn.
pub fn what_a_mark_tells()
    ensures given { (line : Line) (w : Flow) (v : LineState) (t s : ℕ) → IsFlowSound line w → Shows line w v
        → is_given_to t (v.mark s) ≡ is_in_hand line w s t }
    ensures mark { (line : Line) (w : Flow) (v : LineState) (t s : ℕ) → IsFlowSound line w → Shows line w v
        → is_in_hand line w s t ≡ true → v.mark s ≡ Given t }
    ensures kept { (line : Line) (w : Flow) (v : LineState) (t s d : ℕ) → IsFlowSound line w → Shows line w v
        → is_home line d s ≡ true
        → is_used_for t ((w.at d).book s) ≡ true → is_in_hand line w s t ≡ false → v.mark s ≡ Kept t }
    ensures used { (line : Line) (w : Flow) (t s d : ℕ) → IsFlowSound line w → is_in_hand line w s t ≡ true
        → is_home line d s ≡ true
        → is_used_for t ((w.at d).book s) ≡ true }
    ensures aside { (line : Line) (w : Flow) (c : ℕ) (came : Resource Centre Body → ℕ) (y : Centre)
        (frames : ℕ → List Body) (new : Flow) (t s : ℕ)
        → IsFlowSound line w → IsAct line w c came y frames new
        → 0 < (tokens_aside line t s).held c (w.at c) + came (tokens_aside line t s)
        → is_in_hand line w s t ≡ false }
{}

/// The hand of a mission, at a centre or in a Yield, is the shown hand: exactly the sections that are given to its
/// train.
pub fn a_hand_is_what_is_given()
    ensures at_centre { (line : Line) (w : Flow) (v : LineState) (t c : ℕ) (m : Mission) → IsFlowSound line w
        → Shows line w v
        → (w.at c).mission t ≡ Some m → IsHand v t m.hand }
    ensures on_way { (line : Line) (w : Flow) (v : LineState) (t a b number heard : ℕ) (has_data is_ended : Bool)
        (place : YieldedPlace) (hand : SectionRun)
        → IsFlowSound line w → Shows line w v → Contains (way w a b) (Yield number t heard has_data is_ended place hand)
        → IsHand v t hand }
{}

/// An act changes only sessions, stamps received and counts of messages sent. Then the one line centre's state changes
/// only in these.
pub fn what_is_unseen_changes_nothing_else()
    ensures { (line : Line) (w : Flow) (c : ℕ) (came : Resource Centre Body → ℕ) (y : Centre) (frames : ℕ → List Body)
        (new : Flow) (v : LineState)
        (phase : ℕ → ℕ → Phase) (heard : ℕ → ℕ → Option ℕ) (said : ℕ → ℕ → ℕ)
        → IsFlowSound line w → Shows line w v → is_centre line c ≡ true
        → IsAct line w c came y frames new → IsUnseen c (w.at c) came y frames
        → PartAfter c v.phase y.phase phase → PartAfter c v.heard y.heard heard → PartAfter c v.said y.said said
        → Shows line new (record v { phase = phase; heard = heard; said = said }) }
{}
