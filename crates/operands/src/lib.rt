// What the bytes of an operand mean: each check goes from a read to a read, as its definition does, and a refusal passes
// through.
#![tactic(auto)]

ghost use Rattle.std.specs.Prelude.{◌≡◌, ◌<◌, ◌≤◌};
ghost use Rattle.operands.specs.Signed.{extended};
ghost use Rattle.operands.specs.Checks.{signed_read, index_read, zero_read, array_tag_read};

use pool::Kinds;
use read::{CodeOffset, Read};
use refusals::Reason;

// The low N bytes as a signed number in 32 bits. Four are a word as it stands.
#[tactic(auto, using(crate::proofs::Laws::low_part, crate::proofs::Laws::high_part))]
fn extended<const N: usize>(value: u32) -> u32
    requires { (0 < N) × (N ≤ 4) }
    ensures { result ≡ extended N value }
{
    let range = 1_u64 << (8 * N);
    let low = u64::from(value) % range;
    if low < range / 2 {
        return low as u32;
    }
    (low + (0x1_0000_0000 - range)) as u32
}

// A signed number of N bytes.
#[tactic(auto, unfolding(crate::specs::Checks::signed_read))]
pub fn signed_read<const N: usize>(found: Read) -> Read
    requires { (0 < N) × (N ≤ 4) }
    ensures { result ≡ signed_read N found }
{
    let (value, next) = found?;
    Ok((extended::<N>(value), next))
}

// An index whose bytes stand at an offset, and whose entry is of one of the kinds.
#[tactic(auto, unfolding(crate::specs::Checks::unless_fault))]
pub fn index_read(pool: &[u8], kinds: Kinds, at: CodeOffset, found: Read) -> Read
    ensures { result ≡ index_read pool.now kinds at found }
{
    let (index, next) = found?;
    pool::entry_of_kind(pool, kinds, index).map_err(|reason| reason.at(at))?;
    Ok((index, next))
}

// Bytes at an offset that must be zero.
#[tactic(auto, unfolding(crate::specs::Checks::unless_fault))]
pub fn zero_read(at: CodeOffset, found: Read) -> Read
    ensures { result ≡ zero_read at found }
{
    let (value, next) = found?;
    if value != 0 {
        return Err(Reason::NotZero.at(at));
    }
    Ok((value, next))
}

// The tag, at an offset, of a primitive array's elements.
#[tactic(auto, unfolding(crate::specs::Checks::unless_fault))]
pub fn array_tag_read(at: CodeOffset, found: Read) -> Read
    ensures { result ≡ array_tag_read at found }
{
    let (tag, next) = found?;
    if !matches!(tag, 4..=11) {
        return Err(Reason::NoArrayTag.at(at));
    }
    Ok((tag, next))
}
