// The two switches. The time of a step does not grow with the entries: that they fit is seen from their number.
#![tactic(auto)]

ghost use Rattle.std.specs.Prelude.{◌≡◌, ◌+◌, ◌%◌, ◌^◌, ◌<◌};
ghost use Rattle.read.specs.Reads.{read_of};
ghost use Rattle.switches.specs.Switches.{padded, words_from, entry_count, table_step, lookup_step};

use ordinary::{Instruction, Step};
use read::{CodeOffset, Read, left, read_u4};
use refusals::{Reason, Refusal};

// The largest number of entries, and of pairs.
const MOST_ENTRIES: u32 = 0x7fff_ffff;

// The word at the next offset divisible by 4, counted from the code's start: the default of either switch. The bound on the
// offset is passed on by the two steps alone, so a type for it would be no plainer.
fn default_read(code: &[u8], at: CodeOffset) -> Read
    requires { at.0 < 2 ^ 63 }
    ensures { result ≡ read_of 4 code.now (padded at) }
{
    read_u4(code, CodeOffset((at.0 + 3) / 4 * 4))
}

// The offset after so many words of four bytes. A refusal's place is that of the first that does not fit.
#[tactic(auto, using(crate::proofs::Laws::no_room, crate::proofs::Laws::with_room))]
fn skip_words(code: &[u8], at: CodeOffset, count: u32) -> Result<CodeOffset, Refusal<CodeOffset>>
    ensures { result ≡ words_from count code.now at }
{
    let room = left(code, at);
    let need = 4 * (count as usize);
    if room < need {
        return Err(Reason::PastEnd.at(CodeOffset(at.0 + room / 4 * 4)));
    }
    Ok(CodeOffset(at.0 + need))
}

// A signed word moved up by half its range, so that the order of signed numbers is that of plain ones.
fn lifted(word: u32) -> u64
    ensures { result ≡ (word + 2 ^ 31) % 2 ^ 32 }
{
    (u64::from(word) + 0x8000_0000) % 0x1_0000_0000
}

// How many entries a table has, or none where its bounds are refused.
#[tactic(auto, using(crate::proofs::Counts::bounds_crossed, crate::proofs::Counts::too_many, crate::proofs::Counts::counted))]
pub fn entry_count(low: u32, high: u32) -> Option<u32>
    ensures { result ≡ entry_count low high }
{
    let above = lifted(high).checked_sub(lifted(low))?;
    if u64::from(MOST_ENTRIES) <= above {
        return None;
    }
    Some(above as u32 + 1)
}

// What follows the byte of a tableswitch.
pub fn table_step(code: &[u8], at: CodeOffset) -> Step
    requires { at.0 < 2 ^ 63 }
    ensures { result ≡ table_step code.now at }
{
    let (default, low_at) = default_read(code, at)?;
    let (low, high_at) = read_u4(code, low_at)?;
    let (high, entries) = read_u4(code, high_at)?;
    let count = entry_count(low, high).ok_or(Reason::BadBounds.at(high_at))?;
    let next = skip_words(code, entries, count)?;
    Ok((
        Instruction::TableSwitch(default, low, high, entries, count),
        next,
    ))
}

// What follows the byte of a lookupswitch.
#[tactic(auto, using(crate::proofs::Laws::lookup_refused, crate::proofs::Laws::lookup_given))]
pub fn lookup_step(code: &[u8], at: CodeOffset) -> Step
    requires { at.0 < 2 ^ 63 }
    ensures { result ≡ lookup_step code.now at }
{
    let (default, count_at) = default_read(code, at)?;
    let (count, entries) = read_u4(code, count_at)?;
    if MOST_ENTRIES < count {
        return Err(Reason::NegativeCount.at(count_at));
    }
    let next = skip_words(code, entries, 2 * count)?;
    Ok((Instruction::LookupSwitch(default, entries, count), next))
}
