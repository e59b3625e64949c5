ghost use Rattle.std.specs.Prelude.{◌≡◌, IfOk, IsSome, Some};
ghost use Rattle.std.specs.List.{filter_map};
ghost use Rattle.sp_run.specs.Words.{words_of};
ghost use Rattle.sp_run.specs.Options.{options_of};
ghost use Rattle.sp_run.specs.Settings.{setting_of};
ghost use Rattle.sp_run.specs.Matches.{HasGiven};

use crate::settings::{Options, Setting, Settings};
use crate::targets::setting_of;
use crate::values::{count_value, word_value};
use clap::{Arg, ArgAction, ArgMatches, Command};
use sp_base::Memory;
use std::alloc::Global;

/// The most steps of a run whose words don't say it.
const STEPS: u32 = 10_000;

/// What a command line's parser finds in option words.
fn parse<'a>(alloc: Global, words: &'a [String]) -> Result<ArgMatches<'a>, Memory>
    ensures { IfOk result (λ m. HasGiven (words_of words.entry.now) m) }
{
    let pc = Arg::new(alloc, "pc").long("pc").action(ArgAction::Set);
    let steps = Arg::new(alloc, "steps")
        .long("steps")
        .action(ArgAction::Set);
    let set = Arg::new(alloc, "set").long("set").action(ArgAction::Append);
    let command = Command::new(alloc, "run")
        .no_binary_name(true)
        .disable_help_flag(true)
        .disable_version_flag(true)
        .arg(pc)?
        .arg(steps)?
        .arg(set)?;
    match command.try_get_matches_from(words) {
        Ok(matches) => Ok(matches),
        Err(_) => Err(Memory),
    }
}

fn setting_in(text: &str) -> Option<Setting>
    ensures { result ≡ setting_of text.now }
{
    setting_of(text.as_bytes())
}

/// The settings that texts stand for.
fn settings_of(alloc: Global, texts: &[&str]) -> Result<Vec<Setting>, Memory>
    ensures { IfOk result (λ settings. settings.items ≡ filter_map (λ text. setting_of text.now) texts.now) }
{
    let settings = texts.iter().filter_map(|text| setting_in(text));
    Ok(settings.collect(alloc)?)
}

/// The options of option words that are in their form, `--steps` being 10,000 where it isn't given. A parse that fails
/// is answered as want of memory.
pub fn read_options(alloc: Global, words: &[String]) -> Result<Options, Memory>
    requires { IsSome (options_of (words_of words.now)) }
    ensures { IfOk result (λ options. options_of (words_of words.now) ≡ Some options) }
{
    let matches = parse(alloc, words)?;
    let texts = matches.get_strs("set").unwrap_or(&[]);
    let settings = settings_of(alloc, texts)?;
    let pc = matches
        .get_str("pc")
        .and_then(|text| word_value(text.as_bytes()));
    let steps = matches
        .get_str("steps")
        .and_then(|text| count_value(text.as_bytes()));
    Ok(Options {
        pc,
        steps: steps.unwrap_or(STEPS),
        settings: Settings::from_vec(settings),
    })
}
