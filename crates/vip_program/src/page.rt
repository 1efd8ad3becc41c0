//! The room for the text of a profile.

ghost use Rattle.std.specs.Prelude.{◌≡◌, ◌≤◌, ◌<◌, ℕ, IfOk, IfSome, List, vec_capacity};
ghost use Rattle.asm_core.specs.Labels.{label_lines};
ghost use Rattle.vip_outside.specs.Sink.{PutAnswers};
ghost use Rattle.vip_program.specs.declared.counts.Point.{Point};
ghost use Rattle.vip_program.specs.Counts.{Counted, IsCount};
ghost use Rattle.vip_program.specs.Profile.{Code, profile_text};
ghost use Rattle.vip_program.specs.Sums.{AreWithin, IsRoomy, IsShown, lines_room, row_room};

use crate::counts::{ADDRESSES, Counts};
use crate::profile_text::{Codes, write_text};
use asm_core::{Labels, Origins};
use std::alloc::{AllocError, Global};
use std::marker::Model;
use vip_outside::{Failed, Sink};

/// The most bytes of the text before the rows, those of a row, and those of what a label's line says of its rows.
const HEAD_SIZE: usize = 1_024;

const ROW_SIZE: usize = 69;

const SUMS_SIZE: usize = 96;

/// And those of a source's line at the end of a row.
const END_SIZE: usize = 320;

/// Room for the text of a profile, with the labels of a source, by which its rows are summed up.
#[derive(Drop)]
pub struct Page {
    origins: Origins,
    text: Vec<u8>,
}

impl Model for Page {
    ghost use Rattle.std.specs.Prelude.{ℕ, vec_capacity};
    ghost use Rattle.asm_core.specs.Origins.{Origins, origins_code};
    ghost use Rattle.vip_program.specs.Sums.{IsRoomy};

    ghost Value = { Origins };

    ghost coded = { origins_code };

    ghost view = { λ page. page.origins };

    ghost invariant = { λ page. (most : ℕ) × IsRoomy page.origins most (vec_capacity page.text) };
}

/// The most bytes of the lines of an address with their sums, unless they are too many for any memory.
fn lines_room(labels: &Labels, address: u16) -> Option<usize>
    ensures { IfSome result (λ room. room ≡ lines_room (label_lines labels.now address)) }
{
    let mut room = 0usize;
    for line in labels.lines_at(address) {
        room = room.checked_add(line.len())?.checked_add(SUMS_SIZE)?;
    }
    Some(room)
}

/// The most of any address.
fn most_room(labels: &Labels) -> Option<usize>
    ensures { IfSome result (AreWithin labels.now) }
{
    let mut most = 0;
    for address in 0..ADDRESSES {
        most = lines_room(labels, address as u16)?.max(most);
    }
    Some(most)
}

/// The most bytes of a row.
fn row_room(origins: &Origins) -> usize
    ensures { result ≡ row_room origins.now }
{
    if origins.tells_lines() {
        ROW_SIZE + END_SIZE
    } else {
        ROW_SIZE
    }
}

/// The most bytes of a text.
fn text_size(origins: &Origins) -> Option<usize>
    ensures { IfSome result (λ size. (most : ℕ) × IsRoomy origins.now most size) }
{
    most_room(origins.labels())?
        .checked_add(row_room(origins))?
        .checked_mul(ADDRESSES)?
        .checked_add(HEAD_SIZE)
}

impl Page {
    /// Takes the memory.
    pub fn new(alloc: Global, origins: Origins) -> Result<Page, AllocError>
        ensures { IfOk result (λ page. page ≡ origins) }
    {
        let size = text_size(&origins).ok_or(AllocError)?;
        let text = Vec::with_capacity(alloc, size)?;
        Ok(Page { origins, text })
    }

    /// Puts the text of a profile, as one piece.
    pub fn put<C: Codes, O: Sink>(
        &mut self,
        counts: &Counts,
        codes: &C,
        out: &mut O,
    ) -> Result<(), Failed>
        requires { IsCount counts.now }
        ensures { (points : List Point) (code : ℕ → Code) → Counted counts.now points → IsShown (C.code codes.now) code → PutAnswers (profile_text C.title self.old code points) (O.meaning out.old) (O.meaning out.new) result }
    {
        self.text.clear();
        write_text(counts, codes, &self.origins, &mut self.text);
        out.put(self.text.as_slice())
    }
}
