//! What a caller gives: the words, and the files.

ghost use Rattle.std.specs.Prelude.{◌≡◌, option_map, IfOk};
ghost use Rattle.vip_c.specs.Given.{FilesAnswer, NameAnswer, WordsAnswer, part};

use crate::VipFile;
use std::alloc::{AllocError, Global};
use std::str;
use vip_outside::MemFiles;

/// The words in these bytes, each in UTF-8 and ended by a byte 00, where they are so.
pub(crate) fn words_of(alloc: Global, bytes: &[u8]) -> Result<Option<Vec<String>>, AllocError>
    ensures { IfOk result (WordsAnswer bytes.now) }
{
    let mut words = Vec::new(alloc);
    let mut word = Vec::new(alloc);
    for byte in bytes {
        if *byte != 0x00 {
            word.push(*byte)?;
            continue;
        }
        let Ok(text) = str::from_utf8(word.as_slice()) else {
            return Ok(None);
        };
        words.push(String::from_str(alloc, text)?)?;
        word.clear();
    }
    if word.is_empty() {
        Ok(Some(words))
    } else {
        Ok(None)
    }
}

/// So many bytes from this place on, where they are there.
fn part(bytes: &[u8], start: usize, length: usize) -> Option<&[u8]>
    ensures { option_map (λ part. part.now) result ≡ part bytes.now start length }
{
    let end = start.checked_add(length)?;
    bytes.get(start..end)
}

/// The name of a file.
fn name_in<'a>(bytes: &'a [u8], file: &VipFile) -> Option<&'a str>
    ensures { NameAnswer bytes.now file.now result }
{
    str::from_utf8(part(bytes, file.name, file.name_length)?).ok()
}

/// The files at these places, where each is there, its name is UTF-8, and no name stands twice.
pub(crate) fn files_of(
    alloc: Global,
    places: &[VipFile],
    bytes: &[u8],
) -> Result<Option<MemFiles>, AllocError>
    ensures { IfOk result (FilesAnswer bytes.now places.now) }
{
    let mut files = MemFiles::new(alloc)?;
    let mut names = Vec::new(alloc);
    for place in places {
        let Some(name) = name_in(bytes, place) else {
            return Ok(None);
        };
        let Some(content) = part(bytes, place.content, place.content_length) else {
            return Ok(None);
        };
        if names.contains(&name) {
            return Ok(None);
        }
        names.push(name)?;
        files.add(name, content)?;
    }
    Ok(Some(files))
}
