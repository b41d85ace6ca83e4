//! The interlocking of the trains: it releases sections over the control endpoint of the centres.

ghost use Rattle.std.specs.Prelude.{◌+◌, ◌-◌, ◌^◌, ◌≡◌, ◌≢◌, ℕ, false, if◌then◌else◌, IfOk, map, min};
ghost use Rattle.std.specs.Prelude.{option_map, Some, slice_get, string_bytes};
ghost use Rattle.rbc_line.specs.Views.{placed_section};
ghost use Rattle.cli_drive.specs.Commands.{may_ask, set_command};

use crate::trains::connection::Connection;
use crate::trains::fault::TrainsFault;
use crate::trains::replies::{Reply, reply_of};
use rbc_line::{Line, Section};
use std::alloc::{AllocError, Global};
use std::net::{Net, TcpStream};
use std::str::from_utf8;

/// After this time without a reply a command is sent again, in units of 10 ms.
const AGAIN: u32 = 500;

/// A section as the interlocking knows it.
#[derive(Clone, Copy)]
struct Known {
    is_released: bool,
    /// When a command for it may be sent, in units of 10 ms.
    next: u32,
}

impl Known {
    ghost use Rattle.cli_drive.specs.Commands.{is_due};

    // Whether a command to release it may be sent.
    fn is_due(self, now: u32) -> bool
        ensures { result ≡ is_due self now }
    {
        !self.is_released && self.next <= now
    }
}

/// The sections of a line, and the connection to the control endpoint.
#[derive(Drop)]
pub(crate) struct Interlocking {
    alloc: Global,
    pub(crate) sections: Vec<Section>,
    known: Vec<Known>,
    connection: Connection,
}

impl Interlocking {
    /// The interlocking of a line whose control endpoint listens at this port.
    pub(crate) fn new(alloc: Global, line: &Line, port: u16) -> Result<Interlocking, AllocError>
        ensures known { IfOk result (λ it. it.known.items
            ≡ map (λ section. record { is_released = false; next = 0 }) it.sections.items) }
        ensures sections { IfOk result (λ it. (s : ℕ) → slice_get it.sections.items s ≡ placed_section line.now s) }
        ensures port { IfOk result (λ it. it.connection.port ≡ port) }
    {
        let sections = sections_of(alloc, line)?;
        let known = none_released(alloc, &sections)?;
        Ok(Interlocking {
            alloc,
            sections,
            known,
            connection: Connection::new(alloc, port),
        })
    }

    /// Releases a section, unless it is released or a command for it has just been sent.
    pub(crate) fn release<R: Net<Stream = TcpStream>>(
        &mut self,
        rt: &R,
        line: &Line,
        section: usize,
        now: u32,
    ) -> Result<(), TrainsFault>
        ensures sections { self.new.sections ≡ self.old.sections }
        ensures released { map (λ known. known.is_released) self.new.known.items
            ≡ map (λ known. known.is_released) self.old.known.items }
        ensures others { (s : ℕ) → s ≢ section → slice_get self.new.known.items s ≡ slice_get self.old.known.items s }
    {
        match self.command(line, section, now)? {
            Some(command) => self.connection.say(rt, command.as_bytes(), now),
            None => Ok(()),
        }
    }

    // The command to release a section, if it may be sent now.
    fn command(
        &mut self,
        line: &Line,
        section: usize,
        now: u32,
    ) -> Result<Option<String>, AllocError>
        ensures sections { self.new.sections ≡ self.old.sections }
        ensures released { map (λ known. known.is_released) self.new.known.items
            ≡ map (λ known. known.is_released) self.old.known.items }
        ensures others { (s : ℕ) → s ≢ section → slice_get self.new.known.items s ≡ slice_get self.old.known.items s }
    {
        let Some(part) = self.sections.get(section).copied() else {
            return Ok(None);
        };
        if !take_turn(&mut self.known, section, now) {
            return Ok(None);
        }
        let command = set_command(self.alloc, line, part.home, section)?;
        Ok(Some(command))
    }

    /// Reads the replies that have arrived.
    pub(crate) fn read(&mut self, line: &Line) -> Result<(), TrainsFault>
        ensures sections { self.new.sections ≡ self.old.sections }
        ensures next { map (λ known. known.next) self.new.known.items
            ≡ map (λ known. known.next) self.old.known.items }
    {
        self.connection.read()?;
        for _ in 0..u64::MAX {
            let Some(row) = self.connection.inbox.row()? else {
                break;
            };
            match reply_of(line, from_utf8(&row).unwrap_or("")) {
                Some(Reply::Released(section)) => self.mark(section, true),
                Some(Reply::Shut(section)) => self.mark(section, false),
                None => {}
            }
        }
        Ok(())
    }

    // The section is released, or is not.
    #[tactic(auto, using(crate::proofs::OneChange::map_kept))]
    fn mark(&mut self, section: u16, is_released: bool)
        ensures sections { self.new.sections ≡ self.old.sections }
        ensures marked { option_map (λ known. known.is_released) (slice_get self.new.known.items section)
            ≡ option_map (λ known. is_released) (slice_get self.old.known.items section) }
        ensures next { map (λ known. known.next) self.new.known.items
            ≡ map (λ known. known.next) self.old.known.items }
        ensures others { (s : ℕ) → s ≢ section → slice_get self.new.known.items s ≡ slice_get self.old.known.items s }
    {
        if let Some(known) = self.known.get_mut(section as usize) {
            known.is_released = is_released;
        }
    }
}

// The sections of a line.
fn sections_of(alloc: Global, line: &Line) -> Result<Vec<Section>, AllocError>
    ensures { IfOk result (λ sections. (s : ℕ) → slice_get sections.items s ≡ placed_section line.now s) }
{
    let mut sections = Vec::new(alloc);
    for s in 0..line.section_count() {
        if let Some(section) = line.section(s) {
            sections.push(section)?;
        }
    }
    Ok(sections)
}

// None of the sections is released, and a command for each may be sent.
fn none_released(alloc: Global, sections: &[Section]) -> Result<Vec<Known>, AllocError>
    ensures { IfOk result (λ known. known.items
        ≡ map (λ section. record { is_released = false; next = 0 }) sections.now) }
{
    sections
        .iter()
        .map(|_| Known {
            is_released: false,
            next: 0,
        })
        .collect(alloc)
}

// Whether a command to release a section may be sent. The next may then be sent after `AGAIN`.
#[tactic(auto, using(crate::proofs::OneChange::map_kept))]
fn take_turn(known: &mut Vec<Known>, section: usize, now: u32) -> bool
    ensures turn { result ≡ may_ask (slice_get known.old.items section) now }
    ensures released { map (λ known. known.is_released) known.new.items
        ≡ map (λ known. known.is_released) known.old.items }
    ensures next { option_map (λ known. known.next) (slice_get known.new.items section)
        ≡ (if result then Some (min (now + AGAIN) (2 ^ 32 - 1))
        else option_map (λ known. known.next) (slice_get known.old.items section)) }
    ensures others { (s : ℕ) → s ≢ section → slice_get known.new.items s ≡ slice_get known.old.items s }
{
    let Some(known) = known.get_mut(section) else {
        return false;
    };
    if !known.is_due(now) {
        return false;
    }
    known.next = now.saturating_add(AGAIN);
    true
}

// The command to release a section, to its home.
fn set_command(alloc: Global, line: &Line, home: u8, section: usize) -> Result<String, AllocError>
    ensures { IfOk result (λ text. string_bytes text ≡ set_command line.now home section) }
{
    let name = line.centre_name(home).unwrap_or("?");
    format!(in alloc; "set {name} {section}\n")
}
