// The instructions that are an opcode with its operands, and those after `wide`. Operands are read in order, and the
// first refusal is the answer. A function that takes no pool reads operands that name none: on paper its pool is `[]`.
// One that is given a read passes its refusal on, as its definition does.
#![tactic(auto)]

ghost use Rattle.std.specs.Prelude.{◌≡◌, ◌<◌, ◌≤◌, [], ◌∷◌};
ghost use Rattle.opcodes.specs.Operands.{follow_of, increment_of};
ghost use Rattle.ordinary.specs.Ordinary.{with_first, with_second, operands_from, indexed, wide_step};

use opcodes::{Follow, WideForm};
use operands::{signed_read, zero_read};
use read::{CodeOffset, Read, read_number, read_u1, read_u2};
use refusals::{Reason, Refusal};

// An instruction as numbers. An ordinary one: its kind and its first two operands, 0 for one that it has not. A switch:
// its default, its bounds if it is a table, the offset of its entries and how many they are.
#[derive(Clone, Copy)]
pub enum Instruction {
    Ordinary(u32, u32, u32),
    TableSwitch(u32, u32, u32, CodeOffset, u32),
    LookupSwitch(u32, CodeOffset, u32),
}

// What stands at an offset: an instruction and the offset after it, or a refusal.
pub type Step = Result<(Instruction, CodeOffset), Refusal<CodeOffset>>;

// An instruction whose only operand is this.
pub fn with_first(kind: u32, first: Read) -> Step
    ensures { result ≡ with_first kind first }
{
    let (a, next) = first?;
    Ok((Instruction::Ordinary(kind, a, 0), next))
}

// One whose first operand is a and whose second is this.
fn with_second(kind: u32, a: u32, second: Read) -> Step
    ensures { result ≡ with_second kind a second }
{
    let (b, next) = second?;
    Ok((Instruction::Ordinary(kind, a, b), next))
}

// A local and the number that is added to it, of N bytes each.
#[tactic(auto, unfolding(crate::specs::Ordinary::operands_from))]
pub fn increment<const N: usize>(code: &[u8], kind: u32, at: CodeOffset) -> Step
    requires { (0 < N) × (N ≤ 4) }
    ensures { result ≡ operands_from code.now [] kind [] (increment_of N) at }
{
    let (local, next) = read_number::<N>(code, at)?;
    with_second(kind, local, signed_read::<N>(read_number::<N>(code, next)))
}

// An instruction that names the pool by this index, and what follows the index.
#[tactic(auto, unfolding(crate::specs::Ordinary::operands_from))]
pub fn indexed_step(code: &[u8], kind: u32, index: Read, follow: Follow) -> Step
    ensures { result ≡ indexed code.now kind (follow_of follow) index }
{
    let (index, at) = index?;
    match follow {
        Follow::Nothing => Ok((Instruction::Ordinary(kind, index, 0), at)),
        Follow::Count => with_second(kind, index, read_u1(code, at)),
        Follow::CountAndZero => {
            let (count, next) = read_u1(code, at)?;
            let (_, end) = zero_read(next, read_u1(code, next))?;
            Ok((Instruction::Ordinary(kind, index, count), end))
        }
        Follow::TwoZeros => {
            let (zeros, end) = zero_read(at, read_u2(code, at))?;
            Ok((Instruction::Ordinary(kind, index, zeros), end))
        }
    }
}

// What stands after `wide`: a byte that it modifies, which is the kind, and the wider operands of that.
#[tactic(auto, unfolding(crate::specs::Ordinary::operands_from))]
pub fn wide_step(code: &[u8], at: CodeOffset) -> Step
    ensures { result ≡ wide_step code.now [] at }
{
    let (byte, next) = read_u1(code, at)?;
    match opcodes::wide_form_of(byte) {
        WideForm::Local => with_first(byte, read_u2(code, next)),
        WideForm::Increment => increment::<2>(code, byte, next),
        WideForm::NoInstruction => Err(Reason::NotAfterWide.at(at)),
    }
}
