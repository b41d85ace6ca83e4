ghost use Rattle.std.specs.Prelude.{◌≡◌, ℕ, false, Some, length, nat_lt, IfOk};
ghost use Rattle.rbc_spec.specs.Maps.{put};
ghost use Rattle.rbc_spec.specs.Line.{train_number};
ghost use Rattle.rbc_spec.specs.Centre.{is_registrar_of};

use crate::right::Right;
use rbc_line::Line;
use std::alloc::{AllocError, Global};
use std::marker::Model;

/// The answer of a registrar to a request for a right.
#[must_use]
#[derive(Debug)]
pub enum Asked {
    Given(Right),
    /// The right was handed out, or is registered elsewhere.
    NotHere,
}

/// The supervision rights that are at one centre, and in no mission. Trains are identified by their positions in the
/// line file.
#[derive(Debug, Drop)]
pub struct Registrar {
    /// Of each train of the line.
    rights: Vec<bool>,
}

impl Model for Registrar {
    ghost use Rattle.rbc_right.specs.Rights.{Rights};

    ghost Value = { Rights };

    ghost view = { λ r. r.rights.items };
}

impl Registrar {
    ghost use Rattle.rbc_right.specs.Rights.{is_here, is_registered_at, number_of_right};
    ghost use Rattle.rbc_right.specs.Answers.{answer};

    /// The initial rights at a centre of the line: those of the trains whose registrar it is.
    pub fn new(alloc: Global, line: &Line, centre: u8) -> Result<Registrar, AllocError>
        ensures count { IfOk result (λ r. length r ≡ length line.now.trains) }
        ensures here { IfOk result (λ r. (j : ℕ) → is_here r j ≡ is_registered_at line.now centre j) }
        ensures engines { IfOk result
            (λ r. (t j : ℕ) → train_number line.now t ≡ Some j → is_here r j ≡ is_registrar_of line.now centre t) }
    {
        let count = line.train_count();
        let mut rights = Vec::with_capacity(alloc, count as usize)?;
        for i in 0..count {
            let is_here = match line.train(i) {
                Some(train) => train.registrar == centre,
                None => false,
            };
            rights.push(is_here)?;
        }
        Ok(Registrar { rights })
    }

    /// Whether the right of the train is here.
    #[tactic(auto, unfolding(crate::specs::Rights::is_here))]
    pub fn has(&self, train: u8) -> bool
        ensures { result ≡ is_here self.now train }
    {
        self.rights.get(train as usize).copied().unwrap_or(false)
    }

    /// Hands the right of a train out. `NotHere` if and only if it is not here; then nothing changes.
    pub fn ask(&mut self, train: u8) -> Asked
        ensures answer { result ≡ answer (is_here self.old train) train }
        ensures here { (j : ℕ) → is_here self.new j ≡ put (is_here self.old) train false j }
        ensures count { length self.new ≡ length self.old }
    {
        if !self.has(train) {
            return Asked::NotHere;
        }
        self.rights[train as usize] = false;
        Asked::Given(Right::arrive(train))
    }

    /// Takes a right back. One of a train past the last of the line ends without effect.
    pub fn back(&mut self, right: Right)
        ensures here { (j : ℕ) → is_here self.new j
            ≡ put (is_here self.old) (number_of_right right) (nat_lt (number_of_right right) (length self.old)) j }
        ensures count { length self.new ≡ length self.old }
    {
        let train = right.send() as usize;
        if train < self.rights.len() {
            self.rights[train] = true;
        }
    }
}
