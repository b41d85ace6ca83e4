ghost use Rattle.std.specs.Prelude.{◌≡◌, ℕ, ◌<◌, ◌≤◌, None, length, map, slice_get, is_some, option_map};
ghost use Rattle.std.specs.Prelude.{option_and_then, IfOk};
ghost use Rattle.std.specs.List.{list_any};
ghost use Rattle.rbc_spec.specs.Maps.{put};
ghost use Rattle.rbc_spec.specs.Line as track;
ghost use Rattle.rbc_spec.specs.Centre as spec;
ghost use Rattle.rbc_spec.specs.Acts as acts;
ghost use Rattle.rbc_spec.specs.Rules as rules;
ghost use Rattle.rbc_spec.specs.Links as links;
ghost use Rattle.rbc_handover.specs.Acceptings as accepting;
ghost use Rattle.rbc_handover.specs.Expectations as expected;

use crate::accepting::AcceptingState;
use crate::announcers::Announcers;
use rbc_line::Line;
use std::alloc::{AllocError, Global};
use std::marker::Model;

/// The handovers of one train that other centres have announced to a centre: at most one from each centre of the line.
/// Room is made at the beginning, and no call takes memory after that. It can't be copied or dropped.
#[must_use]
#[derive(Debug)]
pub struct Expectations {
    /// Of each centre of the line, itself too.
    states: Vec<AcceptingState>,
}

impl Model for Expectations {
    ghost use Rattle.std.specs.Prelude.{◌≤◌, List, Option, map, length};
    ghost use Rattle.rbc_spec.specs.Centre.{Expectation};
    ghost use Rattle.rbc_handover.specs.Acceptings.{expectation_of};

    ghost Value = { List (Option Expectation) };

    ghost view = { λ e. map expectation_of e.states.items };

    ghost invariant = { λ e. length e.states.items ≤ 8 };
}

impl Expectations {
    ghost use Rattle.rbc_handover.specs.Expectations.{expected_from, announced_as, ended_under, is_taking_under};
    ghost use Rattle.rbc_handover.specs.Expectations.{is_to_be_told, is_told, HasExpectations, with_expectations};
    ghost use Rattle.rbc_handover.specs.Expectations.{telling};

    /// Of a train on this line: nothing is expected.
    pub fn new(alloc: Global, line: &Line) -> Result<Expectations, AllocError>
        ensures count { IfOk result (λ e. length e ≡ length line.now.centres) }
        ensures none { IfOk result (λ e. (d : ℕ) → expected_from e d ≡ None) }
    {
        let count = line.centre_count();
        let mut states = Vec::with_capacity(alloc, count as usize)?;
        for _ in 0..count {
            states.push_reserved(AcceptingState::Nothing);
        }
        Ok(Expectations { states })
    }

    /// Whether some centre has announced the train.
    pub fn is_expected(&self) -> bool
        ensures value { result ≡ list_any is_some self.now }
        ensures exact { (line : track.Line) (t : ℕ) (k : spec.Centre) → HasExpectations line t k self.now
            → result ≡ spec.is_expected line k t }
    {
        some_stands(self.states.as_slice())
    }

    /// The centre has announced the train under this number. If the train is expected from there already, that stays as
    /// it was.
    pub fn announced(&mut self, from: u8, number: u32)
        requires { from < length self.old }
        ensures count { length self.new ≡ length self.old }
        ensures expected { (d : ℕ) → expected_from self.new d
            ≡ put (expected_from self.old) from (announced_as number (expected_from self.old from)) d }
        ensures exact { (line : track.Line) (t : ℕ) (k : spec.Centre) → HasExpectations line t k self.old
            → links.announced from number t k ≡ acts.rest (with_expectations t self.new k) }
    {
        self.states[from as usize].announced(number);
    }

    /// The centre has cancelled the handover of this number: the train is not expected from there any more. If it is
    /// expected under another number, or not at all, nothing changes.
    pub fn cancelled(&mut self, from: u8, number: u32)
        ensures count { length self.new ≡ length self.old }
        ensures expected { (d : ℕ) → expected_from self.new d
            ≡ put (expected_from self.old) from (ended_under number (expected_from self.old from)) d }
        ensures exact { (line : track.Line) (t : ℕ) (k : spec.Centre) → HasExpectations line t k self.old
            → links.cancelled from number t k ≡ acts.rest (with_expectations t self.new k) }
    {
        if from as usize >= self.states.len() {
            return;
        }
        self.states[from as usize].cancelled(number);
    }

    /// The number under which the train is expected from the centre; `None` if and only if it is not expected from
    /// there.
    pub fn number(&self, from: u8) -> Option<u32>
        ensures { result ≡ option_map (λ e. e.number) (expected_from self.now from) }
    {
        number_at(self.states.as_slice(), from as usize)
    }

    /// The train has reported in this centre's area (3.15.1). The result is the centres that get a TakingOver now, each
    /// under the number that it gave. They are those that have announced the train, and have had none before.
    pub fn take_over(&mut self) -> Announcers
        ensures told { (d : ℕ) → is_told result d ≡ is_to_be_told (expected_from self.old d) }
        ensures count { length self.new ≡ length self.old }
        ensures expected { (d : ℕ) → expected_from self.new d ≡ option_map rules.taking (expected_from self.old d) }
        ensures exact { (line : track.Line) (t : ℕ) (k : spec.Centre) → HasExpectations line t k self.old
            → rules.take_over line t k ≡ telling t result (expected_from self.new) (with_expectations t self.new k) }
    {
        take_over_each(&mut self.states)
    }

    /// Whether a handover from the centre may be taken under this number. The train is expected from there under it,
    /// and the centre has had a TakingOver.
    pub fn may_take(&self, from: u8, number: u32) -> bool
        ensures value { result ≡ is_taking_under number (expected_from self.now from) }
        ensures exact { (line : track.Line) (t : ℕ) (k : spec.Centre) → HasExpectations line t k self.now
            → result ≡ is_taking_under number (k.expects from t) }
    {
        may_take_at(self.states.as_slice(), from as usize, number)
    }

    /// The handover from the centre was taken: the train is not expected from there any more.
    pub fn taken(&mut self, from: u8)
        ensures count { length self.new ≡ length self.old }
        ensures expected { (d : ℕ) → expected_from self.new d ≡ put (expected_from self.old) from None d }
        ensures exact { (line : track.Line) (t : ℕ) (k : spec.Centre) → HasExpectations line t k self.old
            → links.expect from t None k ≡ acts.rest (with_expectations t self.new k) }
    {
        if from as usize >= self.states.len() {
            return;
        }
        self.states[from as usize].forget();
    }

    /// Ends it when its centre ends.
    pub fn end(self) {
        let Expectations { mut states } = self;
        while let Some(state) = states.pop() {
            state.end();
        }
        states.destroy_empty();
    }
}

// Whether some centre has announced the train.
fn some_stands(states: &[AcceptingState]) -> bool
    ensures { result ≡ list_any (λ state. is_some (accepting.expectation_of state)) states.now }
{
    states.iter().any(|state| state.stands())
}

// Whether a handover from the centre at this place may be taken under this number.
fn may_take_at(states: &[AcceptingState], i: usize, number: u32) -> bool
    ensures { result ≡ expected.is_taking_under number
        (option_and_then accepting.expectation_of (slice_get states.now i)) }
{
    match states.get(i) {
        Some(state) => state.may_take(number),
        None => false,
    }
}

// The number under which the train is expected from the centre at this place.
fn number_at(states: &[AcceptingState], i: usize) -> Option<u32>
    ensures { result ≡ option_map (λ e. e.number) (option_and_then accepting.expectation_of (slice_get states.now i)) }
{
    match states.get(i) {
        Some(state) => state.number(),
        None => None,
    }
}

// This centre takes over. The result is each centre that has announced the train, and had no TakingOver before.
fn take_over_each(states: &mut Vec<AcceptingState>) -> Announcers
    requires { length states.old.items ≤ 8 }
    ensures told { (d : ℕ)
        → expected.is_told result d
        ≡ expected.is_to_be_told (expected.expected_from (map accepting.expectation_of states.old.items) d) }
    ensures count { length states.new.items ≡ length states.old.items }
    ensures expected { (d : ℕ) → expected.expected_from (map accepting.expectation_of states.new.items) d
        ≡ option_map rules.taking (expected.expected_from (map accepting.expectation_of states.old.items) d) }
{
    let mut are_told = [false; 8];
    for i in 0..states.len() {
        are_told[i] = states[i].take_over();
    }
    Announcers { are_told }
}
