//! The page of a line, for a running line or for a print. Its parts are the types of its contents, their tables in JSON
//! and in HTML, the style, and the drawing script. For programs that watch the line there are its health and its
//! metrics. All are functions of their arguments only: they use no line, no centre, no socket and no clock.
//!
//! Bodies are free. docs/FORMATS.md fixes the contents of the page.
#![tactic(auto)]

mod counters;
mod draw;
mod follow;
mod heads;
mod health;
mod metrics;
mod page;
mod replay;
mod rows;
mod run;
mod sections;
mod sheet;
mod style;
mod utc;
mod view;

pub use health::causes_of;
pub use metrics::metrics_of;
pub use page::{line_json, live_page, now_json};
pub use run::{Changes, Part, RunSheet};
pub use utc::Utc;
pub use view::{
    CentreCounts, CentreNow, End, EventNow, Layout, Limits, LineCounts, LineNow, LinkNow,
    MissionNow, SessionNow, TruePlace,
};
