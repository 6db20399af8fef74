// One instruction at an offset of the code, as the arms of `read_opcodes` in cafebabe's bytecode.rs.
#![tactic(auto)]

ghost use Rattle.std.specs.Prelude.{◌≡◌};
ghost use Rattle.instruction.specs.Steps.{step_of};

use opcodes::Format;
use operands::{array_tag_read, index_read, signed_read};
use ordinary::{Instruction, Step, with_first};
use read::{CodeOffset, read_u1, read_u2, read_u4};
use refusals::Reason;

// The instruction at an offset, which may be any: its opcode, and what the format of that lays out after it.
#[tactic(auto, using(crate::proofs::Laws::past_end, crate::proofs::Laws::at_opcode, crate::proofs::Laws::index_and_follow, crate::proofs::Laws::wide_alone), unfolding(ordinary::specs::Ordinary::operands_from))]
pub fn instruction_at(code: &[u8], pool: &[u8], at: CodeOffset) -> Step
    ensures { result ≡ step_of code.now pool.now at }
{
    let byte = code.get(at.0).copied().ok_or(Reason::PastEnd.at(at))?;
    let kind = opcodes::kind_of(byte);
    let next = CodeOffset(at.0 + 1);
    match opcodes::format_of(byte) {
        Format::Plain => Ok((Instruction::Ordinary(kind, 0, 0), next)),
        Format::SignedByte => with_first(kind, signed_read::<1>(read_u1(code, next))),
        Format::SignedShort | Format::Jump2 => with_first(
            kind,
            signed_read::<2>(read_u2(code, next)),
        ),
        Format::Jump4 => with_first(kind, signed_read::<4>(read_u4(code, next))),
        Format::Local => with_first(kind, read_u1(code, next)),
        Format::ImpliedLocal(local) => Ok((Instruction::Ordinary(kind, local, 0), next)),
        Format::Increment => ordinary::increment::<1>(code, kind, next),
        Format::Index1(kinds) => with_first(
            kind,
            index_read(pool, kinds, next, read_u1(code, next)),
        ),
        Format::Index2(kinds, follow) => {
            let index = index_read(pool, kinds, next, read_u2(code, next));
            ordinary::indexed_step(code, kind, index, follow)
        }
        Format::ArrayTag => with_first(kind, array_tag_read(next, read_u1(code, next))),
        Format::Wide => ordinary::wide_step(code, next),
        Format::TableSwitch => switches::table_step(code, next),
        Format::LookupSwitch => switches::lookup_step(code, next),
        Format::NoInstruction => Err(Reason::NotAnInstruction.at(at)),
    }
}
