//! What both passes over the lines of a source make.

ghost use Rattle.std.specs.Prelude.{◌≡◌, ◌≤◌, length, IfOk, IfErr, MatchOption};
ghost use Rattle.asm_core.specs.Limits.{most_bytes};
ghost use Rattle.asm_core.specs.Sources.{source_lines};
ghost use Rattle.asm_core.specs.Made.{IsAssembly, IsFirstOf};
ghost use Rattle.asm_core.specs.Passes.{NoneIn, IsFirstOfFindings};

use crate::assembly::Assembly;
use crate::fault::AsmFault;
use crate::findings::{Finding, Found, run_passes};
use crate::layout::LabelValue;
use asm_lex::{Isa, Symbols, Word};
use std::alloc::Global;

/// The most bytes of a source.
pub const MOST_BYTES: usize = 1_048_576;

// The names of all lines, the address at which each line begins, with the address behind the last one, the word of each line, which is read
// with the names of the earlier lines alone, and the value that its label has or would have.
#[derive(Drop)]
pub(crate) struct Plan {
    pub names: Symbols,
    pub addresses: Vec<u32>,
    pub words: Vec<Option<Word>>,
    pub values: Vec<LabelValue>,
}

// The first fault that is told, with the number of its line.
fn first_told(findings: &[Option<Finding>]) -> Option<AsmFault>
    requires { length findings.now ≤ most_bytes }
    ensures { MatchOption result (NoneIn findings.now) (IsFirstOfFindings findings.now) }
{
    for (index, finding) in findings.iter().enumerate() {
        if let Some(finding) = finding {
            return Some(AsmFault::Fault {
                line: index as u32 + 1,
                cause: finding.cause,
            });
        }
    }
    None
}

/// Assembles a source of an instruction set of at most `MOST_BYTES` bytes, or answers its first fault; an answer leaves nothing behind.
pub fn assemble(alloc: Global, isa: Isa, text: &[u8]) -> Result<Assembly, AsmFault>
    requires { length text.now ≤ most_bytes }
    ensures made { IfOk result (λ made. IsAssembly isa (source_lines text.now) made) }
    ensures fault { IfErr result (λ fault. IsFirstOf isa (source_lines text.now) fault) }
{
    let Ok(found) = run_passes(alloc, isa, text, false) else {
        return Err(AsmFault::NoMemory);
    };
    let Found {
        told,
        waits: _,
        plan,
        cells,
    } = found;
    if let Some(fault) = first_told(told.findings.as_slice()) {
        return Err(fault);
    }
    let Plan {
        names,
        addresses,
        words: _,
        values,
    } = plan;
    Ok(Assembly::new(cells, names, addresses, values))
}
