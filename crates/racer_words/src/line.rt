//! What stands on a command line, as `clap` reads it.
ghost use Rattle.std.specs.Prelude.{◌≡◌, map, string_bytes, option_map, IfOk};
ghost use Rattle.racer_words.specs.Uses.{line};
ghost use Rattle.clap.specs.Matches.{found_of};
ghost use Rattle.clap.specs.Walk.{rows_of};
ghost use Rattle.racer_words.specs.Lines.{IsOf, line_view};
ghost use Rattle.racer_words.specs.Words.{containers_of, mode_of};

use crate::command::matched;
use clap::ArgMatches;
use container_cells::Containers;
use race_report_modes::{Format, Mode};
use racer_base::Memory;
use std::alloc::Global;

/// The folder, the values of the options, and whether the flags are given.
#[derive(Clone, Copy)]
pub struct GivenLine<'a> {
    pub folder: Option<&'a str>,
    pub workers: Option<&'a str>,
    pub replay: Option<&'a str>,
    pub made: Option<&'a str>,
    pub edits: Option<&'a str>,
    pub json: bool,
    pub summaries: bool,
    pub history: bool,
    pub containers: bool,
    pub typed: bool,
}

impl GivenLine<'_> {
    /// How the report is to be written.
    pub fn mode(&self) -> Mode
        ensures { result ≡ mode_of (line_view self.now) }
    {
        Mode {
            format: if self.json {
                Format::Json
            } else {
                Format::Text
            },
            summaries: self.summaries,
        }
    }

    /// What containers are to the code of the folder.
    pub fn containers(&self) -> Containers
        ensures { result ≡ containers_of (line_view self.now).containers }
    {
        if self.containers {
            Containers::WithCells
        } else {
            Containers::Opaque
        }
    }
}

fn line_of<'a>(matches: &ArgMatches<'a>) -> GivenLine<'a>
    ensures { IsOf (rows_of (found_of matches.now)) (line_view result) }
{
    GivenLine {
        folder: matches.get_str("FOLDER"),
        workers: matches.get_str("workers"),
        replay: matches.get_str("replay"),
        made: matches.get_str("made"),
        edits: matches.get_str("edits"),
        json: matches.get_flag("json"),
        summaries: matches.get_flag("summaries"),
        history: matches.get_flag("history"),
        containers: matches.get_flag("containers"),
        typed: matches.get_flag("typed"),
    }
}

/// What stands on the line, where the words are those of a command line.
pub fn given_line<'a>(alloc: Global, words: &'a [String]) -> Result<Option<GivenLine<'a>>, Memory>
    ensures { IfOk result (λ r. option_map line_view r ≡ line (map string_bytes words.now)) }
{
    match matched(alloc, words) {
        Ok(Some(matches)) => Ok(Some(line_of(&matches))),
        Ok(None) => Ok(None),
        Err(error) => Err(error),
    }
}
