ghost use Rattle.std.specs.Prelude.{◌≡◌, ◌≤◌};
ghost use Rattle.rbc_spec.specs.Frame.{HasBodyRange, last_stamp};
ghost use Rattle.rbc_linkmsg.specs.Bodies.{body_of};

use crate::body::Body;
use std::marker::Model;

/// A frame of a link between two centres. Its fields are in their ranges, so that each frame has a spelling.
#[derive(Clone, Copy, Debug, PartialEq, Eq)]
pub struct Frame {
    number: u32,
    stamp: u32,
    body: Body,
}

impl Model for Frame {
    ghost use Rattle.rbc_spec.specs.Frame as spec;

    ghost Value = { spec.Frame };

    ghost use Rattle.rbc_linkmsg.specs.FrameView.{frame_of, frame_inside, IsInRange, frame_back};

    ghost view = { frame_of };

    ghost invariant = { IsInRange };

    ghost inverse = { frame_inside };

    ghost inverse_ok = { frame_back };
}

impl Default for Frame {
    /// The value of unused positions in a list of frames.
    fn default() -> Frame {
        Frame::new(1, 1, Body::AskRight { engine: 0 })
    }
}

impl Frame {
    /// A frame of this number on its link, counted from 1, with the stamp of its step.
    pub fn new(number: u32, stamp: u32, body: Body) -> Frame
        requires number { (1 ≤ number) × (number ≤ 65536) }
        requires stamp { (1 ≤ stamp) × (stamp ≤ last_stamp) }
        requires body { HasBodyRange (body_of body) }
        ensures { result ≡ record { number = number; stamp = stamp; body = body_of body } }
    {
        Frame {
            number,
            stamp,
            body,
        }
    }

    /// Its number on its link, counted from 1.
    pub fn number(&self) -> u32
        ensures value { result ≡ self.now.number }
        ensures range { (1 ≤ result) × (result ≤ 65536) }
    {
        self.number
    }

    /// The stamp of the step that sent it.
    pub fn stamp(&self) -> u32
        ensures value { result ≡ self.now.stamp }
        ensures range { (1 ≤ result) × (result ≤ last_stamp) }
    {
        self.stamp
    }

    /// Its body.
    pub fn body(&self) -> Body
        ensures value { body_of result ≡ self.now.body }
        ensures range { HasBodyRange (body_of result) }
    {
        self.body
    }
}
