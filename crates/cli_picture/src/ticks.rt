//! Draws the axis of time: its ticks with their times, and the descriptions of events as far as there is room.

use crate::events::{draw_line, draw_words};
use crate::run::Run;
use crate::scale::Scale;
use crate::time::{DAY_MS, TimeAxis};
use std::alloc::{AllocError, Global};
use text_page::Utc;

// The right end of the ticks' times.
const TIMES: u64 = 58;

// The least distance of descriptions.
const WORDS_ROOM: u64 = 18;

pub fn draw_time(
    alloc: Global,
    svg: &mut String,
    scale: &Scale<'_>,
    run: &Run<'_>,
    axis: &TimeAxis<'_>,
) -> Result<(), AllocError> {
    for tick in axis.first_tick..=axis.last_tick {
        draw_tick(alloc, svg, scale, axis, tick.saturating_mul(axis.step_ms))?;
    }
    draw_described(svg, scale, run)
}

/// Draws the time of a tick, and a line through all tracks.
fn draw_tick(
    alloc: Global,
    svg: &mut String,
    scale: &Scale<'_>,
    axis: &TimeAxis<'_>,
    time_ms: u64,
) -> Result<(), AllocError> {
    let y = scale.at(axis, time_ms);
    draw_line(svg, y)?;
    let time = Utc(time_ms);
    let text = format!(in alloc; "{time}")?;
    let label = label_of(text.as_str(), axis.step_ms);
    let y = y.saturating_add(4);
    writeln!(
        svg,
        "<text x=\"{TIMES}\" y=\"{y}\" class=\"small\" text-anchor=\"end\">{label}</text>"
    )
}

/// The shown part of a tick's time: the time of the day, or the day if ticks are a day apart or more.
fn label_of(time: &str, step_ms: u64) -> &str {
    let label = if step_ms < DAY_MS {
        time.get(11..19)
    } else {
        time.get(..10)
    };
    label.unwrap_or(time)
}

/// Draws the description of each event that is far enough below the one before. Event 0 is the beginning of the axis.
fn draw_described(svg: &mut String, scale: &Scale<'_>, run: &Run<'_>) -> Result<(), AllocError> {
    let mut next: u64 = 0;
    for (e, event) in run.events.iter().enumerate().skip(1) {
        let y = scale.y(e);
        if y >= next {
            draw_words(svg, scale, e, event)?;
            next = y.saturating_add(WORDS_ROOM);
        }
    }
    Ok(())
}
