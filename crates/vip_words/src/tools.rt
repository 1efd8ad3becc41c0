//! What the words of the verbs that run no board ask for: those of sources, those of certificates, and those of the program's own texts. The function of a verb
//! gives nothing where its positional words or its options are refused.

ghost use Rattle.std.specs.Prelude.{◌≡◌, IfOk, option_map};
ghost use Rattle.vip_words.specs.Asked.{asked_of_verb, built_in_by};
ghost use Rattle.vip_words.specs.Given.{seen_given};
ghost use Rattle.vip_words.specs.Request.{asked_of};
ghost use Rattle.vip_words.specs.declared.table.Verb.TheVariants as verb;

use crate::flag::Flag;
use crate::given::{Given, Positional};
use crate::place::Place;
use crate::request::{BuiltIn, FileName, OwnText, Request, TextVerb};
use crate::table::Verb;
use crate::values::{code_by, edition_by, isa_by, read_entry, read_register};
use std::alloc::{AllocError, Global};

pub(crate) fn asm_request<'a>(given: &Given<'a>) -> Option<Request<&'a str>>
    ensures { option_map asked_of result ≡ asked_of_verb verb.Asm (seen_given given.now) }
{
    match given.positional {
        Positional::One(file) => Some(Request::Text {
            verb: TextVerb::Asm {
                isa: isa_by(given.has(Flag::Chip8)),
                raw: given.has(Flag::Raw),
            },
            file,
        }),
        _ => None,
    }
}

/// The check of a source, with a copy of its file's name.
pub(crate) fn check_request<'a>(
    alloc: Global,
    given: &Given<'a>,
) -> Result<Option<Request<&'a str>>, AllocError>
    ensures { IfOk result (λ request. option_map asked_of request ≡ asked_of_verb verb.Check (seen_given given.now)) }
{
    let Positional::One(file) = given.positional else {
        return Ok(None);
    };
    let name = FileName::of(alloc, file)?;
    let isa = isa_by(given.has(Flag::Chip8));
    Ok(Some(Request::Text {
        verb: TextVerb::Check { name, isa },
        file,
    }))
}

pub(crate) fn list_request<'a>(given: &Given<'a>) -> Option<Request<&'a str>>
    ensures { option_map asked_of result ≡ asked_of_verb verb.List (seen_given given.now) }
{
    match given.positional {
        Positional::One(file) => Some(Request::Text {
            verb: TextVerb::List {
                isa: isa_by(given.has(Flag::Chip8)),
            },
            file,
        }),
        _ => None,
    }
}

pub(crate) fn dis_request<'a>(given: &Given<'a>) -> Option<Request<&'a str>>
    ensures { option_map asked_of result ≡ asked_of_verb verb.Dis (seen_given given.now) }
{
    let Positional::Two(file, address) = given.positional else {
        return None;
    };
    let isa = isa_by(given.has(Flag::Chip8));
    let place = Place::read(isa, address.as_bytes())?;
    Some(Request::Text {
        verb: TextVerb::Dis { place },
        file,
    })
}

/// The source that the options name. The two programs of joined boards have no editions.
fn built_in_by(given: &Given<'_>) -> Option<BuiltIn>
    ensures { result ≡ built_in_by (seen_given given.now) }
{
    if given.has(Flag::Sender) {
        if given.has(Flag::Receiver) || given.has(Flag::Tall) {
            None
        } else {
            Some(BuiltIn::Sender)
        }
    } else if given.has(Flag::Receiver) {
        if given.has(Flag::Tall) {
            None
        } else {
            Some(BuiltIn::Receiver)
        }
    } else {
        Some(BuiltIn::Interpreter(edition_by(given.has(Flag::Tall))))
    }
}

pub(crate) fn source_request<'a>(given: &Given<'a>) -> Option<Request<&'a str>>
    ensures { option_map asked_of result ≡ asked_of_verb verb.Source (seen_given given.now) }
{
    match given.positional {
        Positional::Empty => Some(Request::Own(OwnText::Source(built_in_by(given)?))),
        _ => None,
    }
}

pub(crate) fn bounds_request<'a>(given: &Given<'a>) -> Option<Request<&'a str>>
    ensures { option_map asked_of result ≡ asked_of_verb verb.Bounds (seen_given given.now) }
{
    match given.positional {
        Positional::Empty => Some(Request::Own(OwnText::Bounds)),
        _ => None,
    }
}

pub(crate) fn cycles_request<'a>(given: &Given<'a>) -> Option<Request<&'a str>>
    ensures { option_map asked_of result ≡ asked_of_verb verb.Cycles (seen_given given.now) }
{
    match given.positional {
        Positional::Two(source, certificate) => Some(Request::Cycles {
            source,
            certificate,
            exits: given.has(Flag::Exits),
        }),
        _ => None,
    }
}

pub(crate) fn timing_request<'a>(given: &Given<'a>) -> Option<Request<&'a str>>
    ensures { option_map asked_of result ≡ asked_of_verb verb.Timing (seen_given given.now) }
{
    let Positional::Four(file, entry, p, k) = given.positional else {
        return None;
    };
    let entry = read_entry(entry.as_bytes())?;
    let p = read_register(p)?;
    let k = read_register(k)?;
    if p == k {
        return None;
    }
    Some(Request::Text {
        verb: TextVerb::Timing { entry, p, k },
        file,
    })
}

pub(crate) fn safe_request<'a>(given: &Given<'a>) -> Option<Request<&'a str>>
    ensures { option_map asked_of result ≡ asked_of_verb verb.Safe (seen_given given.now) }
{
    match given.positional {
        Positional::Two(game, certificate) => Some(Request::Safe {
            game: code_by(given.has(Flag::Asm), false, game),
            certificate,
            edition: edition_by(given.has(Flag::Tall)),
        }),
        _ => None,
    }
}

pub(crate) fn certify_request<'a>(given: &Given<'a>) -> Option<Request<&'a str>>
    ensures { option_map asked_of result ≡ asked_of_verb verb.Certify (seen_given given.now) }
{
    match given.positional {
        Positional::One(game) => Some(Request::Certify {
            game: code_by(given.has(Flag::Asm), false, game),
            edition: edition_by(given.has(Flag::Tall)),
        }),
        _ => None,
    }
}

pub(crate) fn help_request<'a>(given: &Given<'a>) -> Option<Request<&'a str>>
    ensures { option_map asked_of result ≡ asked_of_verb verb.Help (seen_given given.now) }
{
    match given.positional {
        Positional::Empty => Some(Request::Own(OwnText::Help(None))),
        Positional::One(word) => {
            let verb = Verb::of(word)?;
            Some(Request::Own(OwnText::Help(Some(verb))))
        }
        _ => None,
    }
}

pub(crate) fn version_request<'a>(given: &Given<'a>) -> Option<Request<&'a str>>
    ensures { option_map asked_of result ≡ asked_of_verb verb.Version (seen_given given.now) }
{
    match given.positional {
        Positional::Empty => Some(Request::Own(OwnText::Version)),
        _ => None,
    }
}
