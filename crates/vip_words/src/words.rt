//! The words of a command line, read: what the verb asks for that the first of them spells.

ghost use Rattle.std.specs.Prelude.{◌≡◌, IfErr, IfOk, IsErrOf, None, Some, map, option_map, string_bytes};
ghost use Rattle.vip_words.specs.Asked.{asked_by, asked_of_verb, why_of};
ghost use Rattle.vip_words.specs.Given.{seen_given};
ghost use Rattle.vip_words.specs.Request.{asked_of};

use crate::given::{Given, WordsFail, read_given};
use crate::request::{OwnText, Request, Words};
use crate::runs::{
    debug_request, demo_request, digest_request, link_request, play_request, profile_request,
    resume_request, save_request, trace_request,
};
use crate::table::Verb;
use crate::tools::{
    asm_request, bounds_request, certify_request, check_request, cycles_request, dis_request,
    help_request, list_request, safe_request, source_request, timing_request, version_request,
};
use std::alloc::{AllocError, Global};

/// What a verb asks for, where its words give this, or nothing where they are refused. It fails only where memory is refused.
fn request_of<'a>(
    alloc: Global,
    verb: Verb,
    given: &Given<'a>,
) -> Result<Option<Request<&'a str>>, AllocError>
    ensures { IfOk result (λ request. option_map asked_of request ≡ asked_of_verb verb (seen_given given.now)) }
{
    let request = match verb {
        Verb::Check => return check_request(alloc, given),
        Verb::Trace => trace_request(given),
        Verb::Play => play_request(given),
        Verb::Debug => debug_request(given),
        Verb::Save => save_request(given),
        Verb::Profile => profile_request(given),
        Verb::Resume => resume_request(given),
        Verb::Demo => demo_request(given),
        Verb::Digest => digest_request(given),
        Verb::Link => link_request(given),
        Verb::Asm => asm_request(given),
        Verb::List => list_request(given),
        Verb::Dis => dis_request(given),
        Verb::Source => source_request(given),
        Verb::Bounds => bounds_request(given),
        Verb::Cycles => cycles_request(given),
        Verb::Timing => timing_request(given),
        Verb::Safe => safe_request(given),
        Verb::Certify => certify_request(given),
        Verb::Help => help_request(given),
        Verb::Version => version_request(given),
        // (its words aren't read as those of the others)
        Verb::Why => None,
    };
    Ok(request)
}

/// What is made of these words is asked for. It fails only where memory is refused.
fn why_request<'a>(alloc: Global, words: &[String]) -> Result<Request<&'a str>, WordsFail>
    ensures ok { IfOk result (λ request. asked_of request ≡ why_of (map string_bytes words.now)) }
    ensures memory { IfErr result (λ fail. fail ≡ WordsFail.NoMemory) }
{
    match Words::of(alloc, words) {
        Ok(words) => Ok(Request::Own(OwnText::Why(words))),
        Err(_) => Err(WordsFail::NoMemory),
    }
}

/// Reads the words of a command line, without the program's name. The answer is exactly the request that the rules read in them, and
/// `Refused` comes exactly where they read none. Where there was no memory, nothing is known of the words.
pub fn read_words<'a>(alloc: Global, words: &'a [String]) -> Result<Request<&'a str>, WordsFail>
    ensures ok { IfOk result (λ request. asked_by (map string_bytes words.entry.now) ≡ Some (asked_of request)) }
    ensures refused { IsErrOf result WordsFail.Refused → asked_by (map string_bytes words.entry.now) ≡ None }
{
    let Some(word) = words.first() else {
        return Err(WordsFail::Refused);
    };
    let Some(verb) = Verb::of(word.as_str()) else {
        return Err(WordsFail::Refused);
    };
    if verb.is_why() {
        return why_request(alloc, &words[1..]);
    }
    let usage = verb.row().usage(words.len() == 1);
    let given = match read_given(alloc, &usage, words) {
        Ok(given) => given,
        Err(fail) => return Err(fail),
    };
    match request_of(alloc, verb, &given) {
        Ok(request) => request.ok_or(WordsFail::Refused),
        Err(_) => Err(WordsFail::NoMemory),
    }
}
