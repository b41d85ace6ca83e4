//! The kinds of frames, by the byte that names them, and how many bytes a frame of each has (profile).

ghost use Rattle.std.specs.Prelude.{◌≡◌, IfOk, IfErr};
ghost use Rattle.rbc_linkmsg.specs.declared.fault.FrameFault.TheVariants as faults;
ghost use Rattle.rbc_linkmsg.specs.Kinds.{kind_with, kind_number, kind_length};

use crate::fault::FrameFault;

/// Which body a frame has.
#[derive(Clone, Copy, Debug, PartialEq, Eq)]
pub(crate) enum FrameKind {
    AskRight = 1,
    GiveRight = 2,
    RefuseRight = 3,
    ReturnRight = 4,
    RouteAsk = 5,
    RouteInfo = 6,
    RouteWithdraw = 7,
    RouteReturn = 8,
    Announce = 9,
    Cancel = 10,
    TakingOver = 11,
    Yield = 12,
}

impl FrameKind {
    #[inline(always)]
    #[tactic(auto, unfolding(crate::specs::Kinds::kind_with))]
    pub(crate) fn of(number: u8) -> Result<FrameKind, FrameFault>
        ensures exact { result ≡ kind_with number }
        ensures value { IfOk result (λ k. kind_number k ≡ number) }
        ensures fault { IfErr result (λ e. e ≡ faults.Kind) }
    {
        match number {
            1 => Ok(FrameKind::AskRight),
            2 => Ok(FrameKind::GiveRight),
            3 => Ok(FrameKind::RefuseRight),
            4 => Ok(FrameKind::ReturnRight),
            5 => Ok(FrameKind::RouteAsk),
            6 => Ok(FrameKind::RouteInfo),
            7 => Ok(FrameKind::RouteWithdraw),
            8 => Ok(FrameKind::RouteReturn),
            9 => Ok(FrameKind::Announce),
            10 => Ok(FrameKind::Cancel),
            11 => Ok(FrameKind::TakingOver),
            12 => Ok(FrameKind::Yield),
            _ => Err(FrameFault::Kind),
        }
    }

    /// How many bytes the frame has.
    #[inline(always)]
    pub(crate) fn length(self) -> usize
        ensures { result ≡ kind_length self }
    {
        match self {
            FrameKind::AskRight
            | FrameKind::GiveRight
            | FrameKind::RefuseRight
            | FrameKind::ReturnRight => 13,
            FrameKind::RouteAsk | FrameKind::RouteInfo | FrameKind::RouteReturn => 16,
            FrameKind::RouteWithdraw => 15,
            FrameKind::Announce => 18,
            FrameKind::Cancel | FrameKind::TakingOver => 17,
            FrameKind::Yield => 38,
        }
    }
}
