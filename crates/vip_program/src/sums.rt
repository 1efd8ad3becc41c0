//! The sums of the rows of a profile that belong to a label.

ghost use Rattle.std.specs.Prelude.{◌≡◌, ◌+◌, ◌++◌, ◌≤◌, ◌<◌, [], ℕ, List, length, IfSome};
ghost use Rattle.arrayvec.specs.ArrayVec.{array_vec_len};
ghost use Rattle.vip_program.specs.declared.counts.Point.{Point};
ghost use Rattle.vip_program.specs.Counts.{addresses, Counted, IsCount};
ghost use Rattle.vip_program.specs.Profile.{Code, cycles_under, label_of, sums_text};
ghost use Rattle.vip_program.specs.Sums.{IsShown, IsSum, rows_from};

use crate::counts::{ADDRESSES, Counts};
use crate::profile_text::Codes;
use asm_core::{Origins, read_place};
use vip_byte::{Buffer, put, put_number};

/// How many steps there are, and their cycles.
#[derive(Clone, Copy)]
pub(crate) struct Sums {
    pub(crate) steps: u64,
    pub(crate) cycles: u64,
}

/// Writes them into an empty buffer, as they stand behind the name of a label.
pub(crate) fn put_sums(into: &mut Buffer, sums: &Sums)
    requires { into.old.items ≡ [] }
    ensures items { into.new.items ≡ sums_text sums.now.steps sums.now.cycles }
    ensures len { array_vec_len into.new ≤ 96 }
{
    put(into, b" steps ");
    put_number(into, sums.steps);
    put(into, b" cycles ");
    put_number(into, sums.cycles);
    put(into, b"\n");
}

/// The address of the label to which a row belongs, if to any.
pub(crate) fn label_of<C: Codes>(codes: &C, origins: &Origins, pc: u16) -> Option<u16>
    ensures label { (code : ℕ → Code) → IsShown (C.code codes.now) code → result ≡ label_of origins.now code pc }
    ensures within { IfSome result (λ address. address < addresses) }
{
    origins.labels().below(read_place(codes.latch(pc), pc))
}

/// The sums of the rows from an address on that belong to a label, up to the next that belongs elsewhere.
pub(crate) fn sums_under<C: Codes>(
    counts: &Counts,
    codes: &C,
    origins: &Origins,
    label: Option<u16>,
    from: u16,
) -> Sums
    requires { IsCount counts.now }
    ensures { (points : List Point) (code : ℕ → Code) → Counted counts.now points → IsShown (C.code codes.now) code → IsSum result (cycles_under origins.now code points label (rows_from points from)) }
{
    let mut sums = Sums {
        steps: 0,
        cycles: 0,
    };
    for pc in usize::from(from)..ADDRESSES {
        let figures = counts.steps[pc];
        if figures.count > 0 {
            if label_of(codes, origins, pc as u16) != label {
                return sums;
            }
            sums.steps += figures.count;
            sums.cycles += figures.sum;
        }
    }
    sums
}
