//! The options of `trains` and of `demo`.

ghost use Rattle.std.specs.Prelude.{◌≡◌, IfSome, None, codes, false, unwrap_or};
ghost use Rattle.cli_commands.specs.Words.{AreTrains, IsFlag, IsNumber, command_of};

use crate::requests::{Request, TrainsWords};
use clap::ArgMatches;
use cli_demo::Settings;

/// The request `trains` of its arguments.
pub(super) fn named_trains<'a>(words: &ArgMatches<'a>) -> Option<Request<'a>>
    ensures { IfSome result (λ request. command_of request ≡ codes "trains") }
{
    Some(Request::Trains {
        port: words.get_one("PORT")?,
        file: words.get_str("FILE")?,
        words: trains_words(words),
    })
}

// The options of `trains`.
fn trains_words(words: &ArgMatches<'_>) -> TrainsWords
    ensures trains { AreTrains words.now result }
    ensures late { IsNumber 8 words.now (codes "late") result.late }
    ensures seconds { IsNumber 32 words.now (codes "seconds") result.seconds }
    ensures release { IsFlag words.now (codes "no-release") result.is_shut }
{
    TrainsWords {
        trains: words.get_one("trains"),
        loss: words.get_one("loss"),
        late: words.get_one("late"),
        seed: words.get_one("seed"),
        seconds: words.get_one("seconds"),
        is_shut: words.get_flag("no-release"),
    }
}

/// The request `demo` of its arguments.
pub(super) fn named_demo<'a>(words: &ArgMatches<'a>) -> Request<'a>
    ensures { command_of result ≡ codes "demo" }
{
    let file = words.get_str("FILE");
    match words.get_one("page") {
        Some(page) => Request::LivePage {
            file,
            page,
            words: live_words(words),
        },
        None => Request::Demo {
            file,
            settings: demo_settings(words),
        },
    }
}

// The options of `demo`.
fn live_words(words: &ArgMatches<'_>) -> TrainsWords
    ensures trains { AreTrains words.now result }
    ensures late { result.late ≡ None }
    ensures seconds { IsNumber 32 words.now (codes "events") result.seconds }
    ensures release { result.is_shut ≡ false }
{
    TrainsWords {
        trains: words.get_one("trains"),
        loss: words.get_one("loss"),
        late: None,
        seed: words.get_one("seed"),
        seconds: words.get_one("events"),
        is_shut: false,
    }
}

// The options of `demo` without `--page`.
fn demo_settings(words: &ArgMatches<'_>) -> Settings
    ensures { IsFlag words.now (codes "script") result.is_script }
{
    settings_of(live_words(words), words.get_flag("script"))
}

// The settings of `demo` without `--page`.
fn settings_of(trains: TrainsWords, is_script: bool) -> Settings
    ensures { result ≡ record {
      trains = unwrap_or trains.trains 64;
      loss = unwrap_or trains.loss 0;
      seed = unwrap_or trains.seed 0;
      events = unwrap_or trains.seconds 20000;
      is_script = is_script;
    } }
{
    Settings {
        trains: trains.trains.unwrap_or(64),
        loss: trains.loss.unwrap_or(0),
        seed: trains.seed.unwrap_or(0),
        events: trains.seconds.unwrap_or(20_000),
        is_script,
    }
}
