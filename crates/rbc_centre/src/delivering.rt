//! The step of a frame from another centre. If it is the next, room is made. The link decides whether it is the next,
//! and then its train takes it.

ghost use Rattle.std.specs.Prelude.{◌≡◌, OnOk, OnErr};
ghost use Rattle.rbc_spec.specs.Step as spec;
ghost use Rattle.rbc_centre.specs.Answer.{TakesMemory};
ghost use Rattle.rbc_centre.specs.States.{state_of, IsSame};
ghost use Rattle.rbc_centre.specs.Taken.{HasRoomToSend, HasTaken, KeepsPlace, MayTake};

use crate::centre::Centre;
use crate::outcome::Outcome;
use crate::posted::Dispatch;
use rbc_link::LinkAnswer;
use rbc_linkmsg::Frame;
use std::alloc::AllocError;
use std::cmp::max;

impl Centre {
    /// The step of a frame, at a centre that does not refuse it. If the frame is the next, room for the frames in
    /// return is made first.
    pub(crate) fn deliver(
        &mut self,
        from: u8,
        frame: &Frame,
        out: &mut Outcome,
    ) -> Result<(), AllocError>
        requires allowed { MayTake self.old (spec.Deliver from frame.now) }
        ensures place { KeepsPlace self.old self.new }
        ensures exact { OnOk result (HasTaken (spec.Deliver from frame.now) self.old self.new out.new) }
        ensures memory { OnErr result (TakesMemory (state_of self.old) (spec.Deliver from frame.now)) }
        ensures err { OnErr result (state_of self.new ≡ state_of self.old) }
    {
        self.make_room_for(from, frame)?;
        self.take_frame(from, frame, out);
        Ok(())
    }

    // Makes room for the frames in return, if the frame is the next of its sender. Nothing else changes.
    #[inline(always)]
    fn make_room_for(&mut self, from: u8, frame: &Frame) -> Result<(), AllocError>
        ensures same { IsSame self.old self.new }
        ensures room { OnOk result
            (TakesMemory (state_of self.new) (spec.Deliver from frame.now) → HasRoomToSend self.new) }
        ensures memory { OnErr result (TakesMemory (state_of self.old) (spec.Deliver from frame.now)) }
    {
        if frame.number() - 1 != self.taken(from) {
            return Ok(());
        }
        self.reserve_frames()
    }

    // The step of a frame. There is room for the frames in return, if it is the next.
    fn take_frame(&mut self, from: u8, frame: &Frame, out: &mut Outcome)
        requires allowed { MayTake self.old (spec.Deliver from frame.now) }
        requires room { TakesMemory (state_of self.old) (spec.Deliver from frame.now) → HasRoomToSend self.old }
        ensures place { KeepsPlace self.old self.new }
        ensures exact { HasTaken (spec.Deliver from frame.now) self.old self.new out.new }
    {
        let body = frame.body();
        self.clock = max(self.clock, frame.stamp()) + 1;
        let answer = self.links.offer(from, frame.number());
        let LinkAnswer::Next = answer else {
            out.write_nothing(self.clock, Some(answer), None);
            return;
        };
        let Some(i) = self.line.train_number(body.engine()) else {
            out.write_nothing(self.clock, Some(answer), None);
            return;
        };
        let train = &mut self.trains[i as usize];
        train.receive(
            &self.line,
            self.number,
            &mut self.book,
            &mut self.desk.registrar,
            from,
            body,
            &mut self.heard,
        );
        let dispatch = Dispatch {
            line: &self.line,
            centre: self.number,
            nid_engine: body.engine(),
            stamp: self.clock,
            expectations: &train.expectations,
            mail: &self.heard.mail,
        };
        dispatch.post(&mut self.links, &mut self.room, &mut out.frames);
        out.write_heard(self.clock, Some(answer), &self.heard);
    }
}
