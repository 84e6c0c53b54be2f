//! The words as `clap` reads them.
ghost use Rattle.std.specs.Prelude.{◌≡◌, ◌∷◌, ◌++◌, map, string_bytes, IfOk, OnOk, IfSome, IfNone, true, []};
ghost use Rattle.clap.specs.Matches.{found_of};
ghost use Rattle.clap.specs.Walk.{rows_of};
ghost use Rattle.clap.specs.Simple.{app_of, matches_of};
ghost use Rattle.clap.specs.Faults.{fault_of};
ghost use Rattle.racer_words.specs.Command as spec;

use clap::error::ErrorKind;
use clap::{Arg, ArgAction, ArgMatches, Command};
use racer_base::Memory;
use std::alloc::Global;

/// The options with a value.
const OPTIONS: &[&str] = &["workers", "replay", "made", "edits"];

/// The flags.
const FLAGS: &[&str] = &["json", "summaries", "history", "containers", "typed"];

/// Puts options or flags of these names behind the arguments that there are.
fn push_named<'a>(
    alloc: Global,
    arguments: &mut Vec<Arg<'a>>,
    names: &[&'a str],
    action: ArgAction,
) -> Result<(), Memory>
    ensures { OnOk result (spec.rules_of arguments.new.items
        ≡ spec.rules_of arguments.old.items ++ map (λ name. spec.local (spec.named_rule name.now action)) names.now) }
{
    for name in names {
        arguments.push(Arg::new(alloc, *name).long(*name).action(action))?;
    }
    Ok(())
}

/// Puts an optional folder, four options with a value and five flags behind the arguments that there are.
fn push_arguments<'a>(alloc: Global, arguments: &mut Vec<Arg<'a>>) -> Result<(), Memory>
    ensures { OnOk result (spec.rules_of arguments.new.items ≡ spec.with_all (spec.rules_of arguments.old.items)) }
{
    arguments.push(Arg::new(alloc, "FOLDER").action(ArgAction::Set))?;
    push_named(alloc, arguments, OPTIONS, ArgAction::Set)?;
    push_named(alloc, arguments, FLAGS, ArgAction::SetTrue)
}

/// The command with its arguments.
fn command<'a>(alloc: Global) -> Result<Command<'a>, Memory>
    ensures { IfOk result (λ c. app_of c ≡ spec.command) }
{
    let mut arguments = Vec::new(alloc);
    push_arguments(alloc, &mut arguments)?;
    let command = Command::new(alloc, "racer")
        .no_binary_name(true)
        .disable_help_flag(true);
    match command.args(arguments) {
        Ok(command) => Ok(command),
        Err(_) => Err(Memory),
    }
}

/// The words as the command reads them, where it takes them.
#[tactic(auto, using(crate::proofs::GivenLines::among_fails))]
pub fn matched<'a>(alloc: Global, words: &'a [String]) -> Result<Option<ArgMatches<'a>>, Memory>
    ensures rows { IfOk result (λ r. IfSome r (λ m. rows_of (found_of m)
        ≡ matches_of spec.command (map string_bytes words.now))) }
    ensures taken { IfOk result (λ r. IfSome r (λ m. fault_of spec.command (map string_bytes words.now) ≡ [])) }
    ensures none { IfOk result (λ r. IfNone r (spec.fails (fault_of spec.command (map string_bytes words.now))
        ≡ true)) }
{
    let Ok(command) = command(alloc) else {
        return Err(Memory);
    };
    match command.try_get_matches_from(words) {
        Ok(matches) => Ok(Some(matches)),
        Err(error) => match error.kind() {
            ErrorKind::OutOfMemory => Err(Memory),
            _ => Ok(None),
        },
    }
}
