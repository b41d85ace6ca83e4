//! A line that lives: the centres of a line, an interlocking, and trains that obey, in one process without a clock. All
//! that is drawn by lot comes from one seed.
//!
//! [`Demo::new`] puts trains on a line ([`Settings`]). [`Demo::run`] lets seconds pass until each train has arrived. It
//! writes a table of the trains, or a script of the events. Trains, centres and messages are a `Railway`, so no two
//! accepted trains are ever on one section (`IsSafeRailway`). The module `check` looks at the true places again. It
//! does without the centres.
//!
//! ```
//! let line = Line::from_toml(alloc, BUILT_IN)?;
//! let mut demo = Demo::new(alloc, &line, settings)?;
//! let is_safe = demo.run(out)?;
//! ```
//!
//! Bodies are free. docs/FORMATS.md fixes the printed text.
#![tactic(auto)]

mod built_in;
mod check;
mod demo;
mod fault;
mod interlocking;
mod links;
mod radio;
mod releasing;
mod report;
mod seconds;
mod settings;
mod speaking;

pub use built_in::BUILT_IN;
pub use demo::Demo;
pub use fault::DemoFault;
pub use settings::Settings;
