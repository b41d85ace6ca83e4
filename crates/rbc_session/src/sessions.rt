ghost use Rattle.std.specs.Prelude.{◌≡◌, ℕ, true, ◌==◌, if◌then◌else◌, Some, None, IsOk, IsSome, IfOk, OnOk, OnErr};
ghost use Rattle.std.specs.Prelude.{MatchOption};
ghost use Rattle.slab.specs.Slab.{get, Updates};
ghost use Rattle.rbc_spec.specs.Centre as spec;

use crate::session::{Opened, Session, SessionState, Up};
use slab::Slab;
use std::alloc::{AllocError, Global};
use std::marker::Model;

/// The record of a session.
#[derive(Clone, Copy, Debug, PartialEq, Eq)]
pub(crate) struct Record {
    pub(crate) nid_engine: u32,
    /// The train has confirmed the session.
    pub(crate) is_up: bool,
}

/// The sessions of one centre, at most one a train.
#[derive(Debug, Drop)]
pub struct Sessions {
    records: Slab<Record>,
}

impl Model for Sessions {
    ghost use Rattle.rbc_session.specs.Sessions.{Records, IsOneATrain};

    ghost Value = { Records };

    ghost view = { λ s. s.records };

    ghost invariant = { λ s. IsOneATrain s.records };
}

impl Sessions {
    ghost use Rattle.rbc_session.specs.Sessions.{phase_at, train_at, HasRoom, AtMostOneATrain};
    ghost use Rattle.rbc_session.specs.Session.{key_of, is_of};
    ghost use Rattle.rbc_session.specs.SessionStates.{stands_with, has_key};

    /// No session. It takes no memory.
    #[tactic(auto, unfolding(crate::specs::Sessions::phase_at, crate::specs::Sessions::train_at))]
    pub fn new(alloc: Global) -> Sessions
        ensures phases { (u : ℕ) → phase_at result u ≡ spec.Closed }
        ensures keys { (k : ℕ) → train_at result k ≡ None }
    {
        Sessions {
            records: Slab::new(alloc),
        }
    }

    /// NID_ENGINE of the train of a session; `None` if its key is not that of a session here. No two keys are of one
    /// train.
    #[tactic(auto, unfolding(crate::specs::Sessions::train_at))]
    pub fn train<S>(&self, session: &Session<S>) -> Option<u32>
        ensures train { result ≡ train_at self.now (key_of session.now) }
        ensures one { AtMostOneATrain self.now }
    {
        record_at(&self.records, session.key).map(|record| record.nid_engine)
    }

    /// Makes room for one more session, so that opening one takes no memory.
    #[tactic(auto, unfolding(crate::specs::Sessions::HasRoom, crate::specs::Sessions::phase_at, crate::specs::Sessions::train_at))]
    pub fn reserve(&mut self) -> Result<(), AllocError>
        ensures room { OnOk result (HasRoom self.new) }
        ensures succeeds { HasRoom self.old → IsOk result }
        ensures phases { (u : ℕ) → phase_at self.new u ≡ phase_at self.old u }
        ensures keys { (k : ℕ) → train_at self.new k ≡ train_at self.old k }
    {
        self.records.reserve(1)
    }

    /// Opens a session with a train that has none.
    pub fn open(&mut self, nid_engine: u32) -> Result<Session<Opened>, AllocError>
        requires { phase_at self.old nid_engine ≡ spec.Closed }
        ensures phases { IfOk result (λ _. (u : ℕ) → phase_at self.new u
            ≡ (if u == nid_engine then spec.Opened else phase_at self.old u)) }
        ensures keys { IfOk result (λ session. (k : ℕ) → train_at self.new k
            ≡ (if k == key_of session then Some nid_engine else train_at self.old k)) }
        ensures fresh { IfOk result (λ session. train_at self.old (key_of session) ≡ None) }
        ensures succeeds { HasRoom self.old → IsOk result }
        ensures err_phases { OnErr result ((u : ℕ) → phase_at self.new u ≡ phase_at self.old u) }
        ensures err_keys { OnErr result ((k : ℕ) → train_at self.new k ≡ train_at self.old k) }
    {
        self.reserve()?;
        Ok(self.open_reserved(nid_engine))
    }

    /// `open` with room made before, which takes no memory.
    pub fn open_reserved(&mut self, nid_engine: u32) -> Session<Opened>
        requires room { HasRoom self.old }
        requires closed { phase_at self.old nid_engine ≡ spec.Closed }
        ensures phases { (u : ℕ) → phase_at self.new u
            ≡ (if u == nid_engine then spec.Opened else phase_at self.old u) }
        ensures keys { (k : ℕ) → train_at self.new k
            ≡ (if k == key_of result then Some nid_engine else train_at self.old k) }
        ensures fresh { train_at self.old (key_of result) ≡ None }
    {
        let key = self.records.insert_reserved(Record {
            nid_engine,
            is_up: false,
        });
        Session { key, phase: Opened }
    }

    /// The train has confirmed the session (3.5.3). A session whose key is that of none here changes nothing.
    pub fn establish(&mut self, session: Session<Opened>) -> Session<Up>
        ensures key { key_of result ≡ key_of session }
        ensures phases { (u : ℕ) → phase_at self.new u
            ≡ (if is_of self.old session u then spec.Up else phase_at self.old u) }
        ensures keys { (k : ℕ) → train_at self.new k ≡ train_at self.old k }
    {
        let Session { key, phase: Opened } = session;
        confirm(&mut self.records, key);
        Session { key, phase: Up }
    }

    /// Ends a session (3.5.5). Nothing of it is kept, and there is room for another. A session whose key is that of
    /// none here changes nothing.
    pub fn close<S: Drop>(&mut self, session: Session<S>)
        ensures phases { (u : ℕ) → phase_at self.new u
            ≡ (if is_of self.old session u then spec.Closed else phase_at self.old u) }
        ensures keys { (k : ℕ) → train_at self.new k
            ≡ (if k == key_of session then None else train_at self.old k) }
        ensures room { IsSome (train_at self.old (key_of session)) → HasRoom self.new }
        ensures had_room { HasRoom self.old → HasRoom self.new }
    {
        let Session { key, phase: _ } = session;
        let _ = self.records.try_remove(key);
    }

    /// Ends the session, if there is one.
    pub fn end(&mut self, session_state: SessionState)
        ensures phases { (u : ℕ) → phase_at self.new u
            ≡ (if stands_with self.old session_state u then spec.Closed else phase_at self.old u) }
        ensures keys { (k : ℕ) → train_at self.new k
            ≡ (if has_key session_state k then None else train_at self.old k) }
        ensures had_room { HasRoom self.old → HasRoom self.new }
    {
        match session_state {
            SessionState::Closed => {}
            SessionState::Opened(session) => self.close(session),
            SessionState::Up(session) => self.close(session),
        }
    }
}

fn record_at(records: &Slab<Record>, key: usize) -> Option<Record>
    ensures { result ≡ get records.now key }
{
    records.get(key).copied()
}

// Notes that the train has confirmed the session, if there is one under this key.
fn confirm(records: &mut Slab<Record>, key: usize)
    ensures { MatchOption (get records.old key) (records.new ≡ records.old)
        (λ r. Updates records.old records.new key (Some (record r { is_up = true }))) }
{
    if let Some(record) = records.get_mut(key) {
        record.is_up = true;
    }
}
