ghost use Rattle.std.specs.Prelude.{◌≡◌, false, true};

use crate::state::limits::{BURST, PER_SECOND};
use serve_notes::NoteForm;
use serve_workers::reading::Rate;

/// The options of running centres, apart from their ports.
#[derive(Clone, Copy)]
pub struct ServeOptions {
    /// The rate at which a centre takes messages of each train, and of all other engines together.
    pub rate: Rate,
    /// Whether each control connection is notified when a section whose return was requested is shut.
    pub is_telling: bool,
    /// Whether `show` reports the usage of each log, clock and link.
    pub shows_life: bool,
    /// Whether a train's messages are taken only over the connection that serves the train.
    pub is_bound: bool,
    /// Whether all events are printed at the end.
    pub prints_events: bool,
    /// The form of the notes.
    pub note_form: NoteForm,
}

impl Default for ServeOptions {
    /// The defaults: 50 messages per second, 100 at once, no notifications and no usage. A train's messages are taken
    /// over any connection, and all events are printed at the end.
    fn default() -> ServeOptions
        ensures { result
            ≡ record {
              rate = record { per_second = 50; burst = 100 };
              is_telling = false;
              shows_life = false;
              is_bound = false;
              prints_events = true;
              note_form = record { has_level = false; is_json = false };
            } }
    {
        ServeOptions {
            rate: Rate {
                per_second: PER_SECOND,
                burst: BURST,
            },
            is_telling: false,
            shows_life: false,
            is_bound: false,
            prints_events: true,
            note_form: NoteForm::TEXT,
        }
    }
}
