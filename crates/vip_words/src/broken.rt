//! The rules by which words are refused, and the first of them that words break.

ghost use Rattle.std.specs.Prelude.{◌≡◌, ◌<◌, IfOk, bytes_eq, drop, false, find, length, map, not, option_map, string_bytes};
ghost use Rattle.std.specs.List.{list_any};
ghost use Rattle.vip_words.specs.Broken.{RefusedByRule, alone, both_given, broken_form, broken_given, broken_of_verb, broken_words, dues, first_broken, is_due, miscounted, misread, names_of, pairs, same_register, unknown};
ghost use Rattle.vip_words.specs.Given.{positional_of, seen_given};
ghost use Rattle.vip_words.specs.Rules.{every_option, has_values, is_given, is_known, is_once, positional_words};
ghost use Rattle.vip_words.specs.Spelled.{broken_of, rule_of};
ghost use Rattle.vip_words.specs.Usage.{row_of};
ghost use Rattle.vip_words.specs.declared.broken.Broken.TheVariants as broken;

use crate::flag::Flag;
use crate::given::{Given, Positional, WordsFail, is_known, is_plain, read_given};
use crate::moves::Moves;
use crate::place::Place;
use crate::runs::lacks_source;
use crate::table::{ABOUT, Row, Verb};
use crate::values::{isa_by, read_entry, read_register, read_seed};
use asm_lex::Isa;
use std::alloc::{AllocError, Global};
use vip_text::Limit;

/// What is due in the place of a word.
#[derive(Clone, Copy)]
pub enum Due {
    /// The name of a file.
    File,
    /// A number of machine cycles.
    Cycles,
    /// The number of a demonstration game or of a schedule.
    Number,
    /// A number of moves of joined boards.
    Moves,
    /// An address of an instruction set's programs.
    At(Isa),
    /// Where a routine is entered.
    Entry,
    /// The register that is the program counter of a routine.
    P,
    /// The register that counts.
    K,
    /// The name of a verb.
    Verb,
}

/// A rule of the words behind a verb. A word is an `N`: itself, or the reference to it.
#[derive(Clone, Copy)]
pub enum Rule<N> {
    /// A word is empty.
    Empty,
    /// A word is `--`, which ends no options here.
    Ends,
    /// This word begins with `-` and is no option of the verb.
    NoOption(N),
    /// `--keys` has no file behind it.
    NoFile,
    /// This option stands twice.
    Twice(N),
    /// The word of this name is lacking.
    Lacks(N),
    /// This word is one too many.
    TooMany(N),
    /// This word isn't what is due there.
    Misread(Due, N),
    /// The program counter and the counter are the register of this word.
    Same(N),
    /// The first of these two options stands without the second.
    Needs(Flag, Flag),
    /// These two options don't go together.
    Apart(Flag, Flag),
}

/// A rule by which the words of a command line are refused.
#[derive(Clone, Copy)]
pub enum Broken<N> {
    /// There is no word.
    NoVerb,
    /// The first word spells no verb.
    NoSuchVerb(N),
    /// The words behind this verb break a rule.
    Of(Verb, Rule<N>),
}

impl Due {
    ghost use Rattle.std.specs.Prelude.{◌≡◌};
    ghost use Rattle.vip_words.specs.Broken.{is_due};

    /// Whether a word is what is due.
    fn is_met_by(self, word: &str) -> bool
        ensures { result ≡ is_due self word.now }
    {
        match self {
            Due::File => true,
            Due::Cycles => Limit::read(word.as_bytes()).is_some(),
            Due::Number => read_seed(word).is_some(),
            Due::Moves => Moves::read(word.as_bytes()).is_some(),
            Due::At(isa) => Place::read(isa, word.as_bytes()).is_some(),
            Due::Entry => read_entry(word.as_bytes()).is_some(),
            Due::P | Due::K => read_register(word).is_some(),
            Due::Verb => Verb::of(word).is_some(),
        }
    }
}

/// What is due behind a verb, in order; the addresses are those of an instruction set.
fn dues(verb: Verb, isa: Isa) -> &'static [Due]
    ensures { result.now ≡ dues verb isa }
{
    match (verb, isa) {
        (Verb::Trace | Verb::Play | Verb::Save | Verb::Profile | Verb::Resume | Verb::Digest, _) =>
            &[Due::File, Due::Cycles],
        (Verb::Debug, _) => &[Due::File, Due::Cycles, Due::File],
        (Verb::Demo, _) => &[Due::Number, Due::Cycles],
        (Verb::Link, _) => &[Due::File, Due::Moves, Due::Number],
        (Verb::Dis, Isa::Cdp1802) => &[Due::File, Due::At(Isa::Cdp1802)],
        (Verb::Dis, Isa::Chip8) => &[Due::File, Due::At(Isa::Chip8)],
        (Verb::Timing, _) => &[Due::File, Due::Entry, Due::P, Due::K],
        (Verb::Help, _) => &[Due::Verb],
        _ => &[],
    }
}

/// The first of these words that isn't what is due there.
fn misread_in<'a>(dues: &[Due], words: &[&'a str]) -> Option<Rule<&'a str>>
    ensures { option_map rule_of result ≡ misread dues.now (map (λ word. word.now) words.now) }
{
    let mut dues = dues;
    for word in words {
        match dues {
            [] => return None,
            [due, behind @ ..] => {
                if !due.is_met_by(word) {
                    return Some(Rule::Misread(*due, *word));
                }
                dues = behind;
            }
        }
    }
    None
}

/// The first of a verb's words that isn't what is due there.
fn misread<'a>(dues: &[Due], positional: Positional<'a>) -> Option<Rule<&'a str>>
    ensures { option_map rule_of result ≡ misread dues.now (positional_of positional.entry) }
{
    match positional {
        Positional::Empty => misread_in(dues, &[]),
        Positional::One(first) => misread_in(dues, &[first]),
        Positional::Two(first, second) => misread_in(dues, &[first, second]),
        Positional::Three(first, second, third) => misread_in(dues, &[first, second, third]),
        Positional::Four(first, second, third, fourth) => misread_in(
            dues,
            &[first, second, third, fourth],
        ),
    }
}

/// Two words that are to be two registers and are one.
fn same_register<'a>(verb: Verb, positional: Positional<'a>) -> Option<Rule<&'a str>>
    ensures { option_map rule_of result ≡ same_register verb (positional_of positional.entry) }
{
    match (verb, positional) {
        (Verb::Timing, Positional::Four(_, _, p, k)) => {
            if read_register(p)? == read_register(k)? {
                Some(Rule::Same(k))
            } else {
                None
            }
        }
        _ => None,
    }
}

/// An option of a verb that stands without the one that it needs: lines of a source are told where there is one.
fn alone<'a>(verb: Verb, given: &Given<'a>) -> Option<Rule<&'a str>>
    ensures { option_map rule_of result ≡ alone verb (seen_given given.now) }
{
    match verb {
        Verb::Trace | Verb::Play | Verb::Debug | Verb::Save | Verb::Profile
            if lacks_source(given) => { Some(Rule::Needs(Flag::Source, Flag::Asm)) }
        _ => None,
    }
}

/// The pairs of a verb's options that don't go together: a program has one memory, and is no game; a saved state has its own edition, and is no source; and
/// the programs of joined boards have no editions.
fn pairs(verb: Verb) -> &'static [(Flag, Flag)]
    ensures { result.now ≡ pairs verb }
{
    match verb {
        Verb::Trace | Verb::Play | Verb::Profile => &[
            (Flag::Rom, Flag::Ram),
            (Flag::Rom, Flag::State),
            (Flag::Rom, Flag::Tall),
            (Flag::Rom, Flag::Screen),
            (Flag::Rom, Flag::Words),
            (Flag::Rom, Flag::At),
            (Flag::Ram, Flag::State),
            (Flag::Ram, Flag::Tall),
            (Flag::Ram, Flag::Screen),
            (Flag::Ram, Flag::Words),
            (Flag::Ram, Flag::At),
            (Flag::State, Flag::Tall),
            (Flag::State, Flag::Asm),
        ],
        Verb::Debug | Verb::Save => &[
            (Flag::Rom, Flag::Ram),
            (Flag::Rom, Flag::Tall),
            (Flag::Rom, Flag::Screen),
            (Flag::Rom, Flag::Words),
            (Flag::Rom, Flag::At),
            (Flag::Ram, Flag::Tall),
            (Flag::Ram, Flag::Screen),
            (Flag::Ram, Flag::Words),
            (Flag::Ram, Flag::At),
            (Flag::State, Flag::Tall),
            (Flag::State, Flag::Asm),
        ],
        Verb::Source => &[
            (Flag::Sender, Flag::Receiver),
            (Flag::Sender, Flag::Tall),
            (Flag::Receiver, Flag::Tall),
        ],
        _ => &[],
    }
}

/// The first of some pairs of options that are both given.
fn pair_given(pairs: &[(Flag, Flag)], given: &Given) -> Option<(Flag, Flag)>
    ensures { result ≡ find (both_given (seen_given given.now)) pairs.now }
{
    pairs
        .iter()
        .copied()
        .find(|pair| given.has(pair.0) && given.has(pair.1))
}

/// The first rule of a verb that what its words give breaks.
fn broken_given<'a>(verb: Verb, given: &Given<'a>) -> Option<Rule<&'a str>>
    ensures { option_map rule_of result ≡ broken_given verb (seen_given given.now) }
{
    let isa = isa_by(given.has(Flag::Chip8));
    if let Some(rule) = misread(dues(verb, isa), given.positional) {
        return Some(rule);
    }
    if let Some(rule) = same_register(verb, given.positional) {
        return Some(rule);
    }
    if let Some(rule) = alone(verb, given) {
        return Some(rule);
    }
    let (first, second) = pair_given(pairs(verb), given)?;
    Some(Rule::Apart(first, second))
}

/// Which rule a word breaks that no verb with its options knows.
fn unknown<'a>(word: &'a str) -> Rule<&'a str>
    ensures { rule_of result ≡ unknown word.now }
{
    match word {
        "" => Rule::Empty,
        "--" => Rule::Ends,
        _ => Rule::NoOption(word),
    }
}

/// The first word that a verb with these options doesn't know.
fn unknown_word<'a>(options: &[&str], words: &'a [String]) -> Option<Rule<&'a str>>
    ensures { option_map rule_of result
        ≡ option_map unknown (find (λ word. not (is_known (map (λ option. option.now) options.now) word)) (map string_bytes words.entry.now)) }
{
    for word in words {
        let word = word.as_str();
        if !is_known(options, word) {
            return Some(unknown(word));
        }
    }
    None
}

/// Whether each `--keys` has its file behind it.
fn has_values(words: &[String]) -> bool
    ensures { result ≡ has_values false (map string_bytes words.now) }
{
    let mut is_after = false;
    for word in words {
        let word = word.as_str();
        if is_after && !is_plain(word) {
            return false;
        }
        is_after = word == "--keys";
    }
    !is_after
}

/// Whether an option is among the words.
fn is_given(option: &str, words: &[String]) -> bool
    ensures { result ≡ list_any (λ word. bytes_eq (string_bytes word) option.now) words.now }
{
    words.iter().any(|word| word.as_str() == option)
}

/// Whether an option is among the words at most once.
fn is_once(words: &[String], option: &str) -> bool
    ensures { result ≡ is_once (map string_bytes words.now) option.now }
{
    for i in 0..words.len() {
        if words[i].as_str() == option {
            return !is_given(option, &words[i + 1..]);
        }
    }
    true
}

/// The first of some options, each with what is said of it, that is among the words twice.
fn twice_of(
    words: &[String],
    options: &[(&'static str, &'static str)],
) -> Option<(&'static str, &'static str)>
    ensures { result ≡ find (λ line. not (is_once (map string_bytes words.now) line.0.now)) options.now }
{
    options.iter().copied().find(|line| !is_once(words, line.0))
}

/// The first option that is among the words twice.
fn twice(words: &[String]) -> Option<&'static str>
    ensures { option_map (λ option. option.now) result ≡ find (λ option. not (is_once (map string_bytes words.now) option)) every_option }
{
    match twice_of(words, &ABOUT) {
        Some((option, _)) => Some(option),
        None => None,
    }
}

/// The first of these names that lacks its word, or the first plain word, but for that of `--keys`, without a name.
fn miscounted<'a>(names: &[&'a str], words: &'a [String]) -> Option<Rule<&'a str>>
    ensures { option_map rule_of result
        ≡ miscounted (map (λ name. name.now) names.now) (positional_words false (map string_bytes words.entry.now)) }
{
    let mut names = names;
    let mut is_after = false;
    for word in words {
        let word = word.as_str();
        if is_plain(word) && !is_after {
            match names {
                [] => return Some(Rule::TooMany(word)),
                [_, behind @ ..] => names = behind,
            }
            is_after = false;
        } else {
            is_after = word == "--keys";
        }
    }
    match names {
        [] => None,
        [name, ..] => Some(Rule::Lacks(*name)),
    }
}

/// The names of the words that are due behind a verb that stands alone or not.
fn names_of(row: &Row, is_alone: bool) -> &'static [&'static str]
    ensures { map (λ name. name.now) result.now ≡ names_of (row_of row.now) is_alone }
{
    if is_alone && row.may_stand_alone {
        &[]
    } else {
        row.words
    }
}

/// The first rule of their form that the words behind a verb break.
fn broken_form<'a>(
    options: &[&str],
    names: &[&'static str],
    words: &'a [String],
) -> Option<Rule<&'a str>>
    ensures { option_map rule_of result
        ≡ broken_form (map (λ option. option.now) options.now) (map (λ name. name.now) names.now) (map string_bytes words.entry.now) }
{
    if let Some(rule) = unknown_word(options, words) {
        return Some(rule);
    }
    if !has_values(words) {
        return Some(Rule::NoFile);
    }
    if let Some(option) = twice(words) {
        return Some(Rule::Twice(option));
    }
    miscounted(names, words)
}

/// The first rule that the words behind the first, which spells this verb, break.
fn broken_words<'a>(
    alloc: Global,
    verb: Verb,
    words: &'a [String],
) -> Result<Option<Rule<&'a str>>, AllocError>
    requires { 0 < length words.now }
    ensures { IfOk result (λ rule. option_map rule_of rule ≡ broken_words verb (map string_bytes (drop 1 words.entry.now))) }
{
    let row = verb.row();
    let is_alone = words.len() == 1;
    match read_given(alloc, &row.usage(is_alone), words) {
        Ok(given) => Ok(broken_given(verb, &given)),
        Err(WordsFail::Refused) => {
            let names = names_of(&row, is_alone);
            Ok(broken_form(row.options, names, &words[1..]))
        }
        Err(WordsFail::NoMemory) => Err(AllocError),
    }
}

/// A rule that the words behind a verb break, with the verb.
fn of_verb<'a>(verb: Verb, rule: Option<Rule<&'a str>>) -> Option<Broken<&'a str>>
    ensures { option_map broken_of result ≡ option_map (broken.Of verb) (option_map rule_of rule.entry) }
{
    match rule {
        Some(rule) => Some(Broken::Of(verb, rule)),
        None => None,
    }
}

/// The first rule that words break whose first one spells this verb; those behind `why` aren't judged.
fn broken_of_verb<'a>(
    alloc: Global,
    verb: Verb,
    words: &'a [String],
) -> Result<Option<Broken<&'a str>>, AllocError>
    requires { 0 < length words.now }
    ensures { IfOk result (λ found. option_map broken_of found ≡ broken_of_verb verb (map string_bytes (drop 1 words.entry.now))) }
{
    if verb.is_why() {
        return Ok(None);
    }
    match broken_words(alloc, verb, words) {
        Ok(rule) => Ok(of_verb(verb, rule)),
        Err(error) => Err(error),
    }
}

/// The first rule by which the words of a command line are refused, without the program's name; nothing where they aren't. It fails only where memory is
/// refused.
pub fn first_broken<'a>(
    alloc: Global,
    words: &'a [String],
) -> Result<Option<Broken<&'a str>>, AllocError>
    ensures { IfOk result (λ found. option_map broken_of found ≡ first_broken (map string_bytes words.entry.now)) }
{
    let Some(first) = words.first() else {
        return Ok(Some(Broken::NoVerb));
    };
    let word = first.as_str();
    match Verb::of(word) {
        None => Ok(Some(Broken::NoSuchVerb(word))),
        Some(verb) => broken_of_verb(alloc, verb, words),
    }
}

/// The law of the rules: words are refused exactly where one is named.
pub fn refused_by_rule()
    ensures { RefusedByRule }
{}
