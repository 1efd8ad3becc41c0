//! Where the bytes of an image come from.

ghost use Rattle.std.specs.Prelude.{◌≡◌, ◌≤◌, ◌+◌, ◌++◌, [], IfOk, IfSome, length, map, option_map};
ghost use Rattle.arrayvec.specs.ArrayVec.{array_vec_len};
ghost use Rattle.machine.specs.Memory.{mapped_address};
ghost use Rattle.asm_lex.specs.declared.shape.Isa.{Isa};
ghost use Rattle.asm_core.specs.Made.{IsAssembly, Made};
ghost use Rattle.asm_lex.specs.Parts.{trimmed};
ghost use Rattle.asm_core.specs.Origins.{gave, has_texts, labels_over, line_behind, no_origins, origin_at, origins_of, shown_texts, source_end, told_origins_of};
ghost use Rattle.asm_core.specs.Sources.{source_lines};
ghost use Rattle.vip_byte.specs.Room.{HasRoom};

use crate::assembly::Assembly;
use crate::labels::{Labels, LinesAt};
use crate::line_text::LineText;
use crate::source::next_line;
use crate::table::Cell;
use asm_lex::{Symbols, trimmed};
use std::alloc::{AllocError, Global};
use std::marker::Model;
use vip_byte::{Buffer, add16, put, put_number};

/// What a source gave each address, with the labels of the source, and the texts of its lines where they are told.
#[derive(Drop)]
pub struct Origins {
    labels: Labels,
    cells: Vec<Option<Cell>>,
    // empty where they aren't told
    texts: Vec<LineText>,
}

impl Model for Origins {
    ghost use Rattle.asm_core.specs.Origins.{Origins, origins_code, shown_texts};

    ghost Value = { Origins };

    ghost coded = { origins_code };

    ghost view = { λ origins. record { labels = origins.labels; cells = origins.cells.items; texts = shown_texts origins.texts.items } };
}

impl Origins {
    /// No source gave anything. It takes no memory.
    pub fn none(alloc: Global) -> Origins
        ensures { result ≡ no_origins }
    {
        Origins {
            labels: Labels::none(alloc),
            cells: Vec::new(alloc),
            texts: Vec::new(alloc),
        }
    }

    /// What a source gave that was assembled to this, and its names with their values.
    pub fn of(alloc: Global, text: &[u8], made: Assembly) -> Result<(Symbols, Origins), AllocError>
        requires { (isa : Isa) × IsAssembly isa (source_lines text.now) made }
        ensures names { IfOk result (λ known. known.0 ≡ made.names) }
        ensures origins { (isa : Isa) → IsAssembly isa (source_lines text.now) made → IfOk result (λ known. known.1 ≡ origins_of isa (source_lines text.now)) }
    {
        let labels = Labels::of(alloc, text, &made)?;
        let (names, cells) = made.into_parts();
        let texts = Vec::new(alloc);
        Ok((
            names,
            Origins {
                labels,
                cells,
                texts,
            },
        ))
    }

    /// The same with the texts of the source's lines.
    pub fn told(
        alloc: Global,
        text: &[u8],
        made: Assembly,
    ) -> Result<(Symbols, Origins), AllocError>
        requires { (isa : Isa) × IsAssembly isa (source_lines text.now) made }
        ensures names { IfOk result (λ known. known.0 ≡ made.names) }
        ensures origins { (isa : Isa) → IsAssembly isa (source_lines text.now) made → IfOk result (λ known. known.1 ≡ told_origins_of isa (source_lines text.now)) }
    {
        let labels = Labels::of(alloc, text, &made)?;
        let texts = texts_of(alloc, text)?;
        let (names, cells) = made.into_parts();
        Ok((
            names,
            Origins {
                labels,
                cells,
                texts,
            },
        ))
    }

    /// All labels of the source.
    pub fn labels(&self) -> &Labels
        ensures { result.now ≡ self.now.labels }
    {
        &self.labels
    }

    /// Whether the texts of its lines are told.
    pub fn tells_lines(&self) -> bool
        ensures { result ≡ has_texts self.now.texts }
    {
        !self.texts.is_empty()
    }

    /// The lines that show the labels of an address, in order, where the source gave it a byte.
    pub fn labels_over(&self, address: u16) -> LinesAt<'_>
        ensures { result ≡ labels_over self.now address }
    {
        match self.cells.get(usize::from(address)) {
            Some(Some(_)) => self.labels.lines_at(address),
            _ => self.labels.no_lines(),
        }
    }

    /// The byte that an address was given.
    fn at(&self, address: u16) -> Option<Cell>
        ensures { result ≡ origin_at self.now address }
    {
        match self.cells.get(usize::from(address)) {
            Some(cell) => *cell,
            None => None,
        }
    }

    /// Whether these bytes, read from an address on, are those that the source gave where they are read.
    fn gave(&self, latch: bool, address: u16, bytes: &[u8]) -> bool
        ensures { result ≡ gave self.now latch address bytes.now }
    {
        match bytes {
            [] => true,
            [byte, more @ ..] => match self.at(read_place(latch, address)) {
                Some(cell) => { cell.byte == *byte && self.gave(latch, add16(address, 1), more) }
                None => false,
            },
        }
    }

    /// The number and the text of the line that gave the first of these bytes, where they are those that the source gave, and texts are told.
    fn line_behind(&self, latch: bool, address: u16, bytes: &[u8]) -> Option<(u32, &[u8])>
        ensures line { option_map (λ line. (line.0, line.1.now)) result ≡ line_behind self.now latch address bytes.now }
        ensures short { IfSome result (λ line. length line.1.now ≤ 255) }
    {
        if bytes.is_empty() || !self.gave(latch, address, bytes) {
            return None;
        }
        let cell = self.at(read_place(latch, address))?;
        let text = self.texts.get((cell.line as usize).saturating_sub(1))?;
        Some((cell.line, text.bytes.as_slice()))
    }

    /// Appends what a line ends in that shows these bytes, read from an address on while the boot latch is set or clear: the line of the source
    /// that gave the first of them, where they are those that the source gave, and its texts are told.
    pub fn put_end(&self, latch: bool, address: u16, bytes: &[u8], into: &mut Buffer)
        requires { HasRoom into.old.items 320 }
        ensures items { into.new.items ≡ into.old.items ++ source_end self.now latch address bytes.now }
        ensures len { array_vec_len into.new ≤ array_vec_len into.old + 320 }
    {
        let Some((number, text)) = self.line_behind(latch, address, bytes) else {
            return;
        };
        put(into, b"  | ");
        put_number(into, u64::from(number));
        put(into, b": ");
        put(into, text);
    }
}

// The texts of the lines of a source without a fault.
fn texts_of(alloc: Global, text: &[u8]) -> Result<Vec<LineText>, AllocError>
    requires { (isa : Isa) × (made : Made) × IsAssembly isa (source_lines text.now) made }
    ensures { IfOk result (λ texts. shown_texts texts.items ≡ map trimmed (source_lines text.now)) }
{
    let mut texts = Vec::new(alloc);
    let mut rest = text;
    while let Some((line, more)) = next_line(rest) {
        let bytes = Vec::from_slice(alloc, trimmed(line))?;
        texts.push(LineText { bytes })?;
        rest = more;
    }
    Ok(texts)
}

/// The address from which a byte is read, while the boot latch is set or clear.
pub fn read_place(latch: bool, address: u16) -> u16
    ensures { result ≡ mapped_address latch address }
{
    if latch { address | 0x8000 } else { address }
}
