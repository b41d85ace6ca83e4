//! The words for a person of tables and of their columns, by their names in JSON.

static TITLES: [(&str, &str); 7] = [
    ("trains", "Trains"),
    ("sections", "Sections"),
    ("sessions", "Sessions"),
    ("centres", "Centres"),
    ("links", "Links"),
    ("true_places", "True places (demo only)"),
    ("last", "Last events"),
];

static WORDS: [(&str, &str); 32] = [
    ("train", "Train"),
    ("supervisor", "Supervisor"),
    ("handover_to", "Handover to"),
    ("track", "Track"),
    ("rear_m", "Rear end, m"),
    ("front_m", "Front end, m"),
    ("first", "First section"),
    ("last", "Last section"),
    ("lent_first", "First lent section"),
    ("lent_last", "Last lent section"),
    ("asked_to_keep", "Asked to keep up to section"),
    ("ended", "Mission ended"),
    ("from_m", "From, m"),
    ("to_m", "To, m"),
    ("home", "Home centre"),
    ("state", "State"),
    ("wished", "Wished back"),
    ("centre", "Centre"),
    ("port", "Port"),
    ("entries", "Log entries"),
    ("clock", "Stamp"),
    ("connections", "Connections"),
    ("seats", "Seats"),
    ("stuck", "Journal not written"),
    ("from", "From"),
    ("to", "To"),
    ("sent", "Frames sent"),
    ("taken", "Frames taken"),
    ("event", "Event"),
    ("time", "Time in UTC"),
    ("words", "In words"),
    ("section", "Section"),
];

/// The title of a table.
pub(crate) fn title_of(name: &str) -> &str {
    found_in(&TITLES, name)
}

/// The words for a column.
pub(crate) fn words_of(name: &str) -> &str {
    found_in(&WORDS, name)
}

// The words beside a name, or the name itself.
fn found_in<'a>(words: &[(&'a str, &'a str)], name: &'a str) -> &'a str {
    for (known, words) in words {
        if *known == name {
            return words;
        }
    }
    name
}
