// A whole code decoded into two lent stores, as `ByteCode::from` of cafebabe's bytecode.rs. The time is linear in the code,
// and for each jump logarithmic in the number of instructions.
#![tactic(auto)]

ghost use Rattle.std.specs.Prelude.{◌≡◌, ◌+◌, ◌*◌, ◌^◌, ◌≤◌, ◌<◌, length};
ghost use Rattle.std.proofs.lemmas.List.Edits.{sets};
ghost use Rattle.records.specs.Records.{record_words, entry_words, record_room, entry_room, words_of, all_entry_words};
ghost use Rattle.instruction.specs.Entries.{entries_of};
ghost use Rattle.switches.specs.Entries.{entries_in, EntriesInside};
ghost use Rattle.filling.specs.Filling.{record_of};
ghost use Rattle.bytecode.specs.Decoding.{code_limit, fitted, run_from, records_from, entries_from, decoding, records_after, entries_after, store_after};

use jumps::Failure;
use lookup::SortedRecords;
use ordinary::Instruction;
use read::CodeOffset;
use records::{ENTRY_WORDS, RECORD_WORDS, RecordIndex};
use refusals::{Reason, Refusal};

// The most bytes of a code and of a pool table. On paper: `code_limit` and `pool_limit`.
pub const CODE_LIMIT: usize = 65535;

pub const POOL_LIMIT: usize = 4096;

// How many instructions and switch entries were decoded.
#[derive(Clone, Copy, Debug, PartialEq, Eq)]
pub struct Decoded {
    pub instructions: usize,
    pub entries: usize,
}

// The instruction at an offset, in both stores: its record at an index, and its entries from the first on. What it asks is what
// its three calls ask; a type for that would hold a code, an instruction and both stores.
fn put_line(
    code: &[u8],
    at: CodeOffset,
    instruction: Instruction,
    records: &mut [u32],
    index: RecordIndex,
    entries: &mut [u32],
    first: RecordIndex,
)
    requires at_bound { (at.0 < 2 ^ 32) × (first.0 < 2 ^ 32) × EntriesInside code.now instruction }
    requires index_bound { (index.0 < record_room records.old) × (first.0 + entries_of instruction ≤ entry_room entries.old) }
    ensures puts_record { records.new ≡ sets records.old (index.0 * record_words) (words_of (record_of at first instruction)) }
    ensures puts_entries { entries.new ≡ sets entries.old (first.0 * entry_words) (all_entry_words (entries_in code.now instruction)) }
{
    let record_words = filling::record_of(at, first, instruction);
    records::put_record(records, index, record_words);
    filling::put_entries(code, instruction, entries, first);
}

// All instructions into the stores, as far as these have room. A refusal leaves those before it there.
fn fill(
    code: &[u8],
    pool: &[u8],
    records: &mut [u32],
    entries: &mut [u32],
) -> Result<Decoded, Refusal<CodeOffset>>
    requires { length code.now ≤ code_limit }
    ensures answers { result ≡ run_from 0 0 (fitted code.now pool.now (record_room records.old) (entry_room entries.old)) }
    ensures fills_records { records.new ≡ records_from 0 0 (fitted code.now pool.now (record_room records.old) (entry_room entries.old)) records.old }
    ensures fills_entries { entries.new ≡ entries_from code.now 0 (fitted code.now pool.now (record_room records.old) (entry_room entries.old)) entries.old }
{
    // Flat words, as C lends them.
    let record_room = records.len() / RECORD_WORDS;
    let entry_room = entries.len() / ENTRY_WORDS;
    let mut at = 0;
    let mut count = 0;
    let mut stored = 0;
    // No `for`: each instruction says where the next one starts.
    while at < code.len() {
        let here = CodeOffset(at);
        let (instruction, next) = instruction::instruction_at(code, pool, here)?;
        let own = filling::entries_of(instruction) as usize;
        if entry_room - stored < own {
            return Err(Reason::NoEntryLeft.at(here));
        }
        if record_room <= count {
            return Err(Reason::NoRecordLeft.at(here));
        }
        put_line(
            code,
            here,
            instruction,
            records,
            RecordIndex(count),
            entries,
            RecordIndex(stored),
        );
        at = next.0;
        count += 1;
        stored += own;
    }
    Ok(Decoded {
        instructions: count,
        entries: stored,
    })
}

// The answer. A refusal leaves in the stores what was written before it.
fn decide(
    code: &[u8],
    pool: &[u8],
    records: &mut [u32],
    entries: &mut [u32],
) -> Result<Decoded, Failure>
    ensures answers { result ≡ decoding code.now pool.now (record_room records.old) (entry_room entries.old) }
    ensures fills_records { store_after 0 result records.old records.new ≡ records_after code.now pool.now records.old entries.old }
    ensures fills_entries { store_after 0 result entries.old entries.new ≡ entries_after code.now pool.now records.old entries.old }
{
    if CODE_LIMIT < code.len() {
        return Err(Reason::CodeTooLong.at(CodeOffset(0)).into());
    }
    if POOL_LIMIT < pool.len() {
        return Err(Reason::PoolTooLong.at(CodeOffset(0)).into());
    }
    let decoded = fill(code, pool, records, entries)?;
    let sorted = SortedRecords {
        records: &*records,
        count: decoded.instructions,
    };
    jumps::check_jumps(sorted, &*entries)?;
    Ok(decoded)
}

// The entry. Accepted: every instruction has its record in order, every switch its entries, and the words past them are as
// they were. Refused: every word of both stores is zero.
pub fn decode(
    code: &[u8],
    pool: &[u8],
    records: &mut [u32],
    entries: &mut [u32],
) -> Result<Decoded, Failure>
    ensures answers { result ≡ decoding code.now pool.now (record_room records.old) (entry_room entries.old) }
    ensures stores_records { records.new ≡ records_after code.now pool.now records.old entries.old }
    ensures stores_entries { entries.new ≡ entries_after code.now pool.now records.old entries.old }
{
    let answer = decide(code, pool, records, entries);
    if answer.is_err() {
        store::clear(records);
        store::clear(entries);
    }
    answer
}
