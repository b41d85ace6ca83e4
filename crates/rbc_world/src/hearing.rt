//! The first mention of a train of the line.

ghost use Rattle.std.specs.Prelude.{◌≡◌, ◌<◌, length, IfSome, OnOk, OnErr, IsSome};
ghost use Rattle.indexmap.specs.IndexSet.{spare};
ghost use Rattle.rbc_world.specs.Named.{AreOfLine, mentioned, NamesFirst, with_first};

use indexmap::IndexSet;
use rbc_centre::Event;
use rbc_line::Line;
use std::alloc::AllocError;

/// The train of the line that an event is the first to name. Once all have been named, none is looked up.
#[inline(always)]
pub(crate) fn first_mention(line: &Line, trains: &IndexSet<u32>, event: &Event) -> Option<u32>
    requires { AreOfLine line.now trains.now.keys }
    ensures exact { with_first result trains.now.keys ≡ mentioned line.now event.now trains.now.keys }
    ensures some { IfSome result (λ t. NamesFirst line.now event.now trains.now.keys) }
{
    if trains.len() >= line.train_count() as usize {
        return None;
    }
    let Event::Train(message) = event else {
        return None;
    };
    let nid_engine = message.nid_engine();
    if trains.contains(&nid_engine) {
        return None;
    }
    line.train_number(nid_engine)?;
    Some(nid_engine)
}

/// Room for a first mention.
#[inline(always)]
pub(crate) fn make_room(trains: &mut IndexSet<u32>, first: Option<u32>) -> Result<(), AllocError>
    ensures keys { trains.new.keys ≡ trains.old.keys }
    ensures room { OnOk result (IsSome first → 0 < spare trains.new) }
    ensures wanted { OnErr result (IsSome first) }
{
    if first.is_some() {
        trains.reserve(1)?;
    }
    Ok(())
}

/// Notes a first mention.
#[inline(always)]
pub(crate) fn add_mention(trains: &mut IndexSet<u32>, first: Option<u32>)
    requires { IsSome first → 0 < spare trains.old }
    ensures { trains.new.keys ≡ with_first first trains.old.keys }
{
    if let Some(nid_engine) = first {
        let Ok(_) = trains.insert(nid_engine) else {
            unreachable!()
        };
    }
}
