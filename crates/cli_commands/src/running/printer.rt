//! Prints a script while it is played.

ghost use Rattle.std.specs.Prelude.{◌≡◌, OnOk};
ghost use Rattle.std.specs.Io.KnownBytes.{Appends};
ghost use Rattle.text_script.specs.rbc_world.World.{line_of, state_of};
ghost use Rattle.text_script.specs.Print.Shown.{line_text};
ghost use Rattle.rbc_spec.specs.World.{new_world};
ghost use Rattle.cli_commands.specs.Running.Printed.{PrintsAll};

use rbc_line::Line;
use std::alloc::Global;
use std::io::Write;
use text_script::play::{Observer, PlayFault, play};
use text_script::print::{print_answer, print_event, print_line, print_show};
use text_script::script::Entry;
use text_script::status::PrintFault;
use text_script::{Answer, World, WorldEvent};

/// Prints each event of a script, and then its answer.
#[derive(Drop)]
pub struct Printer<'a, W> {
    pub alloc: Global,
    pub line: &'a Line,
    pub out: &'a mut W,
}

impl<W: Write> Printer<'_, W> {
    /// Prints the line as the centres supervise it.
    pub fn show_line(&mut self, world: &World) -> Result<(), PrintFault>
        ensures writer { self.new.out.ghost_name ≡ self.old.out.ghost_name }
        ensures line { self.new.line.now ≡ self.old.line.now }
        ensures shown { OnOk result (self.old.line.now ≡ line_of world.now
            → Appends (W.contents self.old.out.now) (W.contents self.new.out.now)
            (line_text self.old.line.now (state_of world.now))) }
    {
        print_line(self.alloc, self.out, self.line, world)
    }

    /// Plays the entries of a script on a world. Prints each entry, its answer, and at the end the line.
    pub(crate) fn print_all(
        &mut self,
        world: &mut World,
        entries: &[Entry],
    ) -> Result<(), PlayFault<PrintFault>>
        ensures { self.old.line.now ≡ line_of world.old → state_of world.old ≡ new_world self.old.line.now
            → PrintsAll self.old.line.now entries.now result self.old.out.ghost_name self.new.out.ghost_name
            (W.contents self.old.out.now) (W.contents self.new.out.now) }
    {
        if let Err(fault) = play(world, entries, self) {
            return Err(fault);
        }
        match self.show_line(world) {
            Ok(()) => Ok(()),
            Err(fault) => Err(PlayFault::Untold(fault)),
        }
    }
}

impl<W: Write> Observer for Printer<'_, W> {
    ghost use Rattle.std.specs.Prelude.{◌≡◌};
    ghost use Rattle.cli_commands.specs.Running.Printed.{IsTold};

    type Fault = PrintFault;

    ghost tells = { λ t telling u. (u.out.ghost_name ≡ t.out.ghost_name) × (u.line.now ≡ t.line.now)
        × IsTold t.line.now telling (W.contents t.out.now) (W.contents u.out.now) };

    fn show(&mut self, world: &World) -> Result<(), PrintFault> {
        print_show(self.out)?;
        self.show_line(world)
    }

    fn comes(&mut self, event: &WorldEvent) -> Result<(), PrintFault> {
        print_event(self.alloc, self.out, self.line, event)
    }

    fn answered(&mut self, event: &WorldEvent, answer: &Answer) -> Result<(), PrintFault> {
        print_answer(self.alloc, self.out, self.line, event, answer)
    }
}
