// The check of the stored jumps, as `validate_jumps` of cafebabe's bytecode.rs. The instruction of a record and where its
// jumps lead are told by the words of the two stores alone.
#![tactic(auto)]

ghost use Rattle.std.specs.Prelude.{◌≡◌, ◌+◌, ◌^◌, ◌≤◌, ◌<◌};
ghost use Rattle.laws.specs.Listed.{listed};
ghost use Rattle.records.specs.Records.{entry_room};
ghost use Rattle.lookup.specs.Lookup.{offsets_of};
ghost use Rattle.jumps.specs.Jumps.{placed, target_of, failure, jump_check, words_check, jumps_check, check};
ghost use Rattle.jumps.specs.Stored.{has_jump, stored_entries, entry_jump, stored_jumps, jumps_in, Held, AllHeld};

use lookup::SortedRecords;
use read::CodeOffset;
use records::{LOOKUP_SWITCH_KIND, Record, RecordIndex, TABLE_SWITCH_KIND};
use refusals::{Reason, Refusal};

// A refusal with a second number, which tells the jumps of a switch apart. Only a jump has another than 0.
#[derive(Clone, Copy)]
pub struct Failure {
    pub reason: Reason,
    pub place: CodeOffset,
    pub second: u32,
}

impl From<Refusal<CodeOffset>> for Failure {
    ghost from_gives = { λ refusal made. made ≡ failure refusal.reason refusal.place 0 };

    fn from(refusal: Refusal<CodeOffset>) -> Failure {
        Failure {
            reason: refusal.reason,
            place: refusal.place,
            second: 0,
        }
    }
}

// Where a jump leads from an offset, if not before the code. The jump is in two's complement, and no sum wraps. That the offset
// fits a word is asked here and passed on by two functions: a type for it beside `CodeOffset` would be no plainer.
#[tactic(auto, using(crate::proofs::Laws::after_start, crate::proofs::Laws::before_start))]
fn target_of(at: CodeOffset, jump: u32) -> Option<CodeOffset>
    requires { at.0 < 2 ^ 32 }
    ensures { result ≡ placed (target_of at jump) }
{
    let to = at.0.checked_add_signed(jump.cast_signed() as isize)?;
    Some(CodeOffset(to))
}

// One jump of the instruction at an offset, where instructions start at the offsets of the records.
#[tactic(auto, using(crate::proofs::Laws::jump_below, crate::proofs::Laws::jump_lands, crate::proofs::Laws::jump_nowhere))]
fn check_jump(
    starts: SortedRecords<'_>,
    at: CodeOffset,
    jump: u32,
    second: u32,
) -> Result<(), Failure>
    requires { at.0 < 2 ^ 32 }
    ensures { result ≡ jump_check (offsets_of starts.entry.records.now starts.entry.count) at second (target_of at jump) }
{
    match target_of(at, jump) {
        None => Err(Failure {
            reason: Reason::BelowZero,
            place: at,
            second,
        }),
        Some(to) if starts.is_offset(to) => Ok(()),
        Some(_) => Err(Failure {
            reason: Reason::NoTarget,
            place: at,
            second,
        }),
    }
}

// The entries of one switch, so many from the first on, in order.
fn check_entries(
    starts: SortedRecords<'_>,
    entries: &[u32],
    at: CodeOffset,
    first: RecordIndex,
    number: u32,
) -> Result<(), Failure>
    requires { (at.0 < 2 ^ 32) × (first.0 + number ≤ entry_room entries.now) }
    ensures { result ≡ words_check (offsets_of starts.entry.records.now starts.entry.count) at 1 (listed (entry_jump entries.now first) 0 number) }
{
    // By index, as an entry is named by its switch.
    for i in 0..number {
        let entry = records::entry_at(entries, RecordIndex(first.0 + i as usize));
        check_jump(starts, at, entry.jump, i + 1)?;
    }
    Ok(())
}

// Whether an instruction of this kind has a jump.
#[tactic(auto, unfolding(crate::specs::Stored::has_jump))]
fn has_jump(kind: u32) -> bool
    ensures { result ≡ has_jump kind }
{
    matches!(kind, 0x99..=0xa8 | TABLE_SWITCH_KIND..=LOOKUP_SWITCH_KIND | 0xc6..=0xc7)
}

// How many entries a record has in the store of entries.
#[tactic(auto, unfolding(crate::specs::Stored::stored_entries))]
pub fn stored_entries(stored: Record) -> u32
    ensures { result ≡ stored_entries stored }
{
    match stored.kind {
        TABLE_SWITCH_KIND => switches::entry_count(stored.b, stored.c).unwrap_or(0),
        LOOKUP_SWITCH_KIND => stored.b,
        _ => 0,
    }
}

// The jumps of one record: its own or the default, and then those of its entries.
#[tactic(auto, using(crate::proofs::Laws::no_jump, crate::proofs::Laws::own_fails, crate::proofs::Laws::own_lands))]
fn check_record(starts: SortedRecords<'_>, entries: &[u32], stored: Record) -> Result<(), Failure>
    requires { Held entries.now stored }
    ensures { result ≡ jumps_check (offsets_of starts.entry.records.now starts.entry.count) (stored_jumps entries.now stored) }
{
    if !has_jump(stored.kind) {
        return Ok(());
    }
    let at = CodeOffset(stored.offset as usize);
    check_jump(starts, at, stored.a, 0)?;
    let first = RecordIndex(stored.d as usize);
    check_entries(starts, entries, at, first, stored_entries(stored))
}

// The jumps of the sorted records, in store order: good, or the first that fails.
pub fn check_jumps(sorted: SortedRecords<'_>, entries: &[u32]) -> Result<(), Failure>
    requires { AllHeld sorted.records.now sorted.count entries.now }
    ensures { result ≡ check (jumps_in sorted.entry.records.now sorted.entry.count entries.now) }
{
    // By index, as a record is named on paper: over rows each would be taken apart here again.
    for i in 0..sorted.count {
        let stored = records::record_at(sorted.records, RecordIndex(i));
        check_record(sorted, entries, stored)?;
    }
    Ok(())
}
