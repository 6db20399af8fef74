// An instruction written into the two lent stores: its record, and a switch's entries.
#![tactic(auto)]

ghost use Rattle.std.specs.Prelude.{◌≡◌, ◌+◌, ◌*◌, ◌^◌, ◌≤◌, ◌<◌, length, get_or};
ghost use Rattle.std.proofs.lemmas.List.Edits.{sets};
ghost use Rattle.records.specs.Records.{entry_words, entry_room, all_entry_words};
ghost use Rattle.instruction.specs.Entries.{entries_of};
ghost use Rattle.switches.specs.Entries.{entries_in, EntriesInside};
ghost use Rattle.filling.specs.Filling.{record_of};

use ordinary::Instruction;
use read::CodeOffset;
use records::{LOOKUP_SWITCH_KIND, Record, RecordIndex, SwitchEntry, TABLE_SWITCH_KIND};

// How many entries an instruction has.
pub fn entries_of(instruction: Instruction) -> u32
    ensures { result ≡ entries_of instruction }
{
    match instruction {
        Instruction::Ordinary(_, _, _) => 0,
        Instruction::TableSwitch(_, _, _, _, count) => count,
        Instruction::LookupSwitch(_, _, count) => count,
    }
}

// The record of an instruction at an offset, whose entries have their indexes from the first on. Both fit their words, which a
// type beside `CodeOffset` would say no plainer.
pub fn record_of(at: CodeOffset, first: RecordIndex, instruction: Instruction) -> Record
    requires { (at.0 < 2 ^ 32) × (first.0 < 2 ^ 32) }
    ensures { result ≡ record_of at first instruction }
{
    let offset = at.0 as u32;
    let index = first.0 as u32;
    match instruction {
        Instruction::Ordinary(kind, a, b) => Record {
            offset,
            kind,
            a,
            b,
            c: 0,
            d: 0,
        },
        Instruction::TableSwitch(default, low, high, _, _) => Record {
            offset,
            kind: TABLE_SWITCH_KIND,
            a: default,
            b: low,
            c: high,
            d: index,
        },
        Instruction::LookupSwitch(default, _, count) => Record {
            offset,
            kind: LOOKUP_SWITCH_KIND,
            a: default,
            b: count,
            c: 0,
            d: index,
        },
    }
}

// An entry of a switch whose entries lie in the code: a jump of a table, the first with the key low and each with the next, or
// a key of a lookup with its jump.
fn entry_in(code: &[u8], instruction: Instruction, i: usize) -> SwitchEntry
    requires { EntriesInside code.now instruction × (i < entries_of instruction) }
    ensures { result ≡ get_or (entries_in code.now instruction) i result }
{
    match instruction {
        Instruction::Ordinary(_, _, _) => unreachable!(),
        Instruction::TableSwitch(_, low, _, from, _) => SwitchEntry {
            key: low.wrapping_add(i as u32),
            jump: read::number::<4>(code, CodeOffset(from.0 + 4 * i)),
        },
        Instruction::LookupSwitch(_, from, _) => {
            let at = from.0 + 8 * i;
            SwitchEntry {
                key: read::number::<4>(code, CodeOffset(at)),
                jump: read::number::<4>(code, CodeOffset(at + 4)),
            }
        }
    }
}

// The entries of an instruction, at their indexes from the first on. Only a switch has any.
#[tactic(auto, using(crate::proofs::Laws::filled_next, crate::proofs::Laws::filled_all, crate::proofs::Entries::all_entries))]
pub fn put_entries(code: &[u8], instruction: Instruction, entries: &mut [u32], first: RecordIndex)
    requires { EntriesInside code.now instruction × (first.0 + entries_of instruction ≤ entry_room entries.old) }
    ensures { entries.new ≡ sets entries.old (first.0 * entry_words) (all_entry_words (entries_in code.now instruction)) }
{
    // By index, which the key of a table and the place of an entry are counted from.
    for i in 0..entries_of(instruction) as usize {
        records::put_entry(
            entries,
            RecordIndex(first.0 + i),
            entry_in(code, instruction, i),
        );
    }
}
