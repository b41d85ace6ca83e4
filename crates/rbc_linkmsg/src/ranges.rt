//! The ranges of the fields of a frame (profile).

ghost use Rattle.std.specs.Prelude.{◌≢◌, ◌≤◌, ◌↔◌, IsTrue};
ghost use Rattle.rbc_spec.specs.Frame.{HasBodyRange, HasRunRange, IsEngine, last_stamp};
ghost use Rattle.rbc_line.specs.SectionRuns.{run_of};
ghost use Rattle.rbc_linkmsg.specs.Bodies.{body_of};
ghost use Rattle.rbc_linkmsg.specs.Spelling.{kind_of};
ghost use Rattle.rbc_linkmsg.specs.declared.kind.FrameKind.TheVariants as kinds;

use crate::body::Body;
use rbc_line::SectionRun;

/// Whether a link's frame may have this number, stamp and body.
pub(crate) fn is_header(number: u32, stamp: u32) -> bool
    ensures { IsTrue result ↔ (((1 ≤ number) × (number ≤ 65536)) × ((1 ≤ stamp) × (stamp ≤ last_stamp))) }
{
    number >= 1 && number <= 65_536 && stamp >= 1 && stamp <= 1_073_741_823
}

/// Whether the fields of the body are in their ranges. Those of a Yield are looked at as they are read.
#[inline(always)]
pub(crate) fn is_in_range(body: Body) -> bool
    requires { kind_of (body_of body) ≢ kinds.Yield }
    ensures { IsTrue result ↔ HasBodyRange (body_of body) }
{
    match body {
        Body::AskRight { engine }
        | Body::GiveRight { engine }
        | Body::RefuseRight { engine }
        | Body::ReturnRight { engine } => is_engine(engine),
        Body::RouteAsk {
            engine,
            first,
            most,
        } => is_engine(engine) && is_run(SectionRun { first, count: most }, 1, 31),
        Body::RouteInfo { engine, run } => is_engine(engine) && is_run(run, 0, 31),
        Body::RouteWithdraw { engine, section } => is_engine(engine) && section <= 511,
        Body::RouteReturn { engine, run } => is_engine(engine) && is_run(run, 1, 63),
        Body::Announce {
            handover,
            engine,
            track,
        } => handover >= 1 && is_engine(engine) && track <= 3,
        Body::Cancel { handover, engine } | Body::TakingOver { handover, engine } => handover >= 1
            && is_engine(engine),
        Body::Yield { .. } => unreachable!(),
    }
}

#[inline(always)]
pub(crate) fn is_engine(engine: u32) -> bool
    ensures { IsTrue result ↔ IsEngine engine }
{
    engine <= 16_777_215
}

fn is_run(run: SectionRun, least: u16, most: u16) -> bool
    requires { most ≤ 511 }
    ensures { IsTrue result ↔ HasRunRange least most (run_of run) }
{
    run.first <= 511 && run.count >= least && run.count <= most && run.first + run.count <= 512
}
