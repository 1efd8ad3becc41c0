//! What the words after a verb give.

ghost use Rattle.std.specs.Prelude.{◌≡◌, ◌≢◌, ◌<◌, ◌≤◌, IfOk, IsErrOf, None, OnOk, Some, [], bytes_eq, codes, drop, length, map, string_bytes};
ghost use Rattle.std.specs.List.{list_all, list_any};
ghost use Rattle.clap.specs.Words.{first_value, found_of, rows_of};
ghost use Rattle.vip_words.specs.Command.{command_faults, command_rows};
ghost use Rattle.vip_words.specs.Given.{given_of, positional_of, seen_given, words_in};
ghost use Rattle.vip_words.specs.Rules.{is_known, is_plain};

use crate::command::{FIRST, FOURTH, SECOND, THIRD, make_command};
use crate::flag::Flag;
use crate::table::Usage;
use clap::ArgMatches;
use clap::error::ErrorKind;
use std::alloc::Global;
use thiserror::Error;

/// Why words give no request.
#[derive(Clone, Copy, Debug, Error)]
pub enum WordsFail {
    /// The rules refuse the words.
    #[error("Refused")]
    Refused,
    /// There was no memory to read them.
    #[error("NoMemory")]
    NoMemory,
}

/// The positional words, in order.
#[derive(Clone, Copy)]
pub enum Positional<'a> {
    Empty,
    One(&'a str),
    Two(&'a str, &'a str),
    Three(&'a str, &'a str, &'a str),
    Four(&'a str, &'a str, &'a str, &'a str),
}

/// What the words after a verb give.
#[derive(Drop)]
pub struct Given<'a> {
    pub positional: Positional<'a>,
    /// The word after `--keys`.
    pub keys: Option<&'a str>,
    matches: ArgMatches<'a>,
}

impl Given<'_> {
    ghost use Rattle.vip_words.specs.Given.{seen_given};

    /// Whether a flag is among the words: its value is then the text `true`.
    pub fn has(&self, flag: Flag) -> bool
        ensures { result ≡ (seen_given self.now).has flag }
    {
        matches!(self.matches.get_str(flag.name()), Some("true"))
    }

    /// Whether one of some flags is among the words.
    pub fn has_any(&self, flags: &[Flag]) -> bool
        ensures { result ≡ list_any (seen_given self.now).has flags.now }
    {
        flags.iter().any(|flag| self.has(*flag))
    }
}

/// Neither empty nor begun by `-`.
pub fn is_plain(word: &str) -> bool
    ensures { result ≡ is_plain word.now }
{
    !matches!(word.as_bytes().first(), None | Some(b'-'))
}

fn is_among(options: &[&str], word: &str) -> bool
    ensures { result ≡ list_any (λ option. bytes_eq word.now option.now) options.now }
{
    options.iter().any(|option| word == *option)
}

/// Plain, or one of these options.
pub fn is_known(options: &[&str], word: &str) -> bool
    ensures { result ≡ is_known (map (λ option. option.now) options.now) word.now }
{
    is_plain(word) || is_among(options, word)
}

fn are_known(options: &[&str], words: &[String]) -> bool
    ensures { result ≡ list_all (λ word. is_known (map (λ option. option.now) options.now) (string_bytes word)) words.now }
{
    words.iter().all(|word| is_known(options, word.as_str()))
}

// What `clap` makes of the words, the verb first.
fn matches_of<'a>(
    alloc: Global,
    verb: &'a str,
    places: usize,
    words: &'a [String],
) -> Result<ArgMatches<'a>, WordsFail>
    requires { places ≤ 4 }
    ensures taken { OnOk result (command_faults verb.entry.now places (map string_bytes words.entry.now) ≡ []) }
    ensures rows { IfOk result (λ matches. rows_of (found_of matches)
        ≡ command_rows verb.entry.now places (map string_bytes words.entry.now)) }
    ensures refused { IsErrOf result WordsFail.Refused
        → command_faults verb.entry.now places (map string_bytes words.entry.now) ≢ [] }
{
    let Ok(command) = make_command(alloc, verb, places) else {
        return Err(WordsFail::NoMemory);
    };
    match command.try_get_matches_from(words) {
        Ok(matches) => Ok(matches),
        Err(error) => {
            if error.kind() == ErrorKind::OutOfMemory {
                Err(WordsFail::NoMemory)
            } else {
                Err(WordsFail::Refused)
            }
        }
    }
}

// A place that the command doesn't have is as one that was left out.
fn positional_of<'a>(matches: &ArgMatches<'a>) -> Positional<'a>
    ensures { positional_of result ≡ words_in
        (first_value (found_of matches.now) (codes "first"))
        (first_value (found_of matches.now) (codes "second"))
        (first_value (found_of matches.now) (codes "third"))
        (first_value (found_of matches.now) (codes "fourth")) }
{
    let Some(first) = matches.get_str(FIRST) else {
        return Positional::Empty;
    };
    let Some(second) = matches.get_str(SECOND) else {
        return Positional::One(first);
    };
    let Some(third) = matches.get_str(THIRD) else {
        return Positional::Two(first, second);
    };
    match matches.get_str(FOURTH) {
        None => Positional::Three(first, second, third),
        Some(fourth) => Positional::Four(first, second, third, fourth),
    }
}

/// What the words after the first give, which spells a verb with this usage. Refused are exactly those that the rules refuse. Where
/// there was no memory, nothing is known of the words.
pub fn read_given<'a>(
    alloc: Global,
    usage: &Usage,
    words: &'a [String],
) -> Result<Given<'a>, WordsFail>
    requires { 0 < length words.now }
    ensures ok { IfOk result (λ given. given_of usage.now (map string_bytes (drop 1 words.entry.now)) ≡ Some (seen_given given)) }
    ensures refused { IsErrOf result WordsFail.Refused
        → given_of usage.now (map string_bytes (drop 1 words.entry.now)) ≡ None }
{
    if !are_known(usage.options, &words[1..]) {
        return Err(WordsFail::Refused);
    }
    let matches = match matches_of(alloc, words[0].as_str(), usage.places, words) {
        Ok(matches) => matches,
        Err(fail) => return Err(fail),
    };
    Ok(Given {
        positional: positional_of(&matches),
        keys: matches.get_str("keys"),
        matches,
    })
}
