//! The text that is due to each variant of each error type: its name, and behind a blank the length that it holds. The first fault
//! in a line is the line and its cause, a byte of a ROM that differs both bytes and their address, and what holds another fault is that fault.

use crate::counts::Counts;
use asm_core::{AsmCause, AsmFault};
use asm_lex::{LexFault, ValueFault};
use chip8_source::ImageFault;
use cycle_check::{CertCause, CertFault, TimingCause};
use game_check::{ProofCause, ProofFault};
use std::alloc::Global;
use std::fmt::Display;
use vip_byte::NumFault;
use vip_keypad::{ScriptCause, ScriptFault};
use vip_link::LinkFault;
use vip_outside::{Failed, ReadFail};
use vip_relation::{ResumeFault, StartFault};
use vip_text::StateFault;
use vip_words::{CommandCause, CommandFault, WordsFail};

#[rattlefmt::skip]
const NUM_FAULTS: &[(&str, NumFault)] = &[
    ("Empty", NumFault::Empty),
    ("BadDigit", NumFault::BadDigit),
    ("TooLarge", NumFault::TooLarge),
];

#[rattlefmt::skip]
const READ_FAILS: &[(&str, ReadFail)] = &[
    ("Absent", ReadFail::Absent),
    ("Failed", ReadFail::Failed),
    ("NoMemory", ReadFail::NoMemory),
];

#[rattlefmt::skip]
const FAILED: &[(&str, Failed)] = &[
    ("Failed", Failed),
];

#[rattlefmt::skip]
const WORDS_FAILS: &[(&str, WordsFail)] = &[
    ("Refused", WordsFail::Refused),
    ("NoMemory", WordsFail::NoMemory),
];

#[rattlefmt::skip]
const LEX_FAULTS: &[(&str, LexFault)] = &[
    ("BadText", LexFault::BadText),
    ("UnknownMnemonic", LexFault::UnknownMnemonic),
    ("BadOperand", LexFault::BadOperand),
];

#[rattlefmt::skip]
const VALUE_FAULTS: &[(&str, ValueFault)] = &[
    ("Undefined", ValueFault::Undefined),
    ("Range", ValueFault::Range),
];

#[rattlefmt::skip]
const ASM_CAUSES: &[(&str, AsmCause)] = &[
    ("BadText", AsmCause::BadText),
    ("UnknownMnemonic", AsmCause::UnknownMnemonic),
    ("BadOperand", AsmCause::BadOperand),
    ("Range", AsmCause::Range),
    ("Duplicate", AsmCause::Duplicate),
    ("Undefined", AsmCause::Undefined),
    ("OffPage", AsmCause::OffPage),
    ("Overlap", AsmCause::Overlap),
    ("TooLarge", AsmCause::TooLarge),
];

#[rattlefmt::skip]
const ASM_FAULTS: &[(&str, AsmFault)] = &[
    ("line 2: OffPage", AsmFault::Fault { line: 2, cause: AsmCause::OffPage }),
    ("NoMemory", AsmFault::NoMemory),
];

#[rattlefmt::skip]
const IMAGE_FAULTS: &[(&str, ImageFault)] = &[
    ("line 2: OffPage", ImageFault::BadRomSource { line: 2, cause: AsmCause::OffPage }),
    ("8000: source 01 image 00", ImageFault::RomDiffers { address: 0x8000, assembled: 0x01, image: 0x00 }),
    ("00AB: source CD image FF", ImageFault::RomDiffers { address: 0x00AB, assembled: 0xCD, image: 0xFF }),
    ("NoMemory", ImageFault::NoMemory),
];

#[rattlefmt::skip]
const SCRIPT_CAUSES: &[(&str, ScriptCause)] = &[
    ("BadLine", ScriptCause::BadLine),
    ("BadCycle", ScriptCause::BadCycle),
    ("BadKey", ScriptCause::BadKey),
    ("OutOfOrder", ScriptCause::OutOfOrder),
    ("TooMany", ScriptCause::TooMany),
];

#[rattlefmt::skip]
const SCRIPT_FAULTS: &[(&str, ScriptFault)] = &[
    ("line 2: OutOfOrder", ScriptFault::Fault { line: 2, cause: ScriptCause::OutOfOrder }),
    ("NoMemory", ScriptFault::NoMemory),
];

#[rattlefmt::skip]
const COMMAND_CAUSES: &[(&str, CommandCause)] = &[
    ("BadWord", CommandCause::BadWord),
    ("BadCount", CommandCause::BadCount),
    ("BadNumber", CommandCause::BadNumber),
    ("Range", CommandCause::Range),
];

#[rattlefmt::skip]
const COMMAND_FAULTS: &[(&str, CommandFault)] = &[
    ("line 2: BadWord", CommandFault::Fault { line: 2, cause: CommandCause::BadWord }),
    ("NoMemory", CommandFault::NoMemory),
];

#[rattlefmt::skip]
const CERT_CAUSES: &[(&str, CertCause)] = &[
    ("BadLine", CertCause::BadLine),
    ("BadNumber", CertCause::BadNumber),
    ("Order", CertCause::Order),
    ("NoEntry", CertCause::NoEntry),
    ("Opcode", CertCause::Opcode),
    ("Step", CertCause::Step),
];

#[rattlefmt::skip]
const CERT_FAULTS: &[(&str, CertFault)] = &[
    ("line 2: NoEntry", CertFault::Fault { line: 2, cause: CertCause::NoEntry }),
    ("NoMemory", CertFault::NoMemory),
];

#[rattlefmt::skip]
const TIMING_CAUSES: &[(&str, TimingCause)] = &[
    ("Opcode", TimingCause::Opcode),
    ("Loop", TimingCause::Loop),
    ("Most", TimingCause::Most),
    ("Fact", TimingCause::Fact),
];

#[rattlefmt::skip]
const PROOF_CAUSES: &[(&str, ProofCause)] = &[
    ("BadLine", ProofCause::BadLine),
    ("Order", ProofCause::Order),
    ("NoStart", ProofCause::NoStart),
    ("Outside", ProofCause::Outside),
    ("Opcode", ProofCause::Opcode),
    ("Access", ProofCause::Access),
    ("Next", ProofCause::Next),
];

#[rattlefmt::skip]
const PROOF_FAULTS: &[(&str, ProofFault)] = &[
    ("line 2: NoStart", ProofFault::Fault { line: 2, cause: ProofCause::NoStart }),
    ("NoMemory", ProofFault::NoMemory),
];

#[rattlefmt::skip]
const STATE_FAULTS: &[(&str, StateFault)] = &[
    ("BadLength", StateFault::BadLength),
    ("BadHead", StateFault::BadHead),
    ("BadEdition", StateFault::BadEdition),
    ("BadCycle", StateFault::BadCycle),
    ("BadMachine", StateFault::BadMachine),
];

#[rattlefmt::skip]
const RESUME_FAULTS: &[(&str, ResumeFault)] = &[
    ("BadLength", ResumeFault::State(StateFault::BadLength)),
    ("BadHead", ResumeFault::State(StateFault::BadHead)),
    ("BadEdition", ResumeFault::State(StateFault::BadEdition)),
    ("BadCycle", ResumeFault::State(StateFault::BadCycle)),
    ("BadMachine", ResumeFault::State(StateFault::BadMachine)),
    ("NoMemory", ResumeFault::NoMemory),
];

#[rattlefmt::skip]
const START_FAULTS: &[(&str, StartFault)] = &[
    ("GameTooLarge 3233", StartFault::GameTooLarge(3_233)),
    ("NoMemory", StartFault::NoMemory),
];

#[rattlefmt::skip]
const LINK_FAULTS: &[(&str, LinkFault)] = &[
    ("MessageTooLarge 3001", LinkFault::MessageTooLarge(3_001)),
    ("NoMemory", LinkFault::NoMemory),
];

/// Looks at the text of each variant of a type.
fn add<T: Display>(
    alloc: Global,
    counts: &mut Counts<'static>,
    faults: &'static [(&'static str, T)],
) {
    for (due, fault) in faults {
        let is_due = match format!(in alloc; "{fault}") {
            Ok(text) => text.as_str() == *due,
            Err(_) => false,
        };
        counts.add(is_due, due);
    }
}

/// Looks at the texts of all error types.
pub fn try_fault_texts(alloc: Global) -> Counts<'static> {
    let mut counts = Counts::NONE;
    add(alloc, &mut counts, NUM_FAULTS);
    add(alloc, &mut counts, READ_FAILS);
    add(alloc, &mut counts, FAILED);
    add(alloc, &mut counts, WORDS_FAILS);
    add(alloc, &mut counts, LEX_FAULTS);
    add(alloc, &mut counts, VALUE_FAULTS);
    add(alloc, &mut counts, ASM_CAUSES);
    add(alloc, &mut counts, ASM_FAULTS);
    add(alloc, &mut counts, IMAGE_FAULTS);
    add(alloc, &mut counts, SCRIPT_CAUSES);
    add(alloc, &mut counts, SCRIPT_FAULTS);
    add(alloc, &mut counts, COMMAND_CAUSES);
    add(alloc, &mut counts, COMMAND_FAULTS);
    add(alloc, &mut counts, CERT_CAUSES);
    add(alloc, &mut counts, CERT_FAULTS);
    add(alloc, &mut counts, TIMING_CAUSES);
    add(alloc, &mut counts, PROOF_CAUSES);
    add(alloc, &mut counts, PROOF_FAULTS);
    add(alloc, &mut counts, STATE_FAULTS);
    add(alloc, &mut counts, RESUME_FAULTS);
    add(alloc, &mut counts, START_FAULTS);
    add(alloc, &mut counts, LINK_FAULTS);
    counts
}
