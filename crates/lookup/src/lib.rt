// The record of an offset, as `get_opcode_index` of cafebabe's bytecode.rs: the search halves the span until it is empty, and
// stops at a hit.
#![tactic(auto)]

ghost use Rattle.std.specs.Prelude.{◌≡◌, MatchResult};
ghost use Rattle.laws.specs.Bytes.{one_of};
ghost use Rattle.records.specs.Records.{index};
ghost use Rattle.lookup.specs.Lookup.{Sorted, offsets_of, first_from, not_sorted, lookup_of};

use read::CodeOffset;
use records::{RECORD_WORDS, RecordIndex};
use refusals::{Reason, Refusal};

// The first so many records of a store, of which each offset is below the next. `new` looks at them all; who has filled
// the store in this order writes the struct itself.
// The words and a count, no rows: so the fact is over the store as definitions have it.
#[derive(Clone, Copy)]
pub struct SortedRecords<'a> {
    pub records: &'a [u32],
    pub count: usize,
    ghost sorted: { Sorted records.now count },
}

impl<'a> SortedRecords<'a> {
    // Refused with 35 where the records are not all there or their offsets do not strictly increase.
    pub fn new(records: &'a [u32], count: usize) -> Result<Self, Refusal<CodeOffset>>
        ensures { MatchResult result (λ s. (s.records.now ≡ records.now) × (s.count ≡ count)) (λ r. (r ≡ not_sorted) × (Sorted records.now count → ⊥)) }
    {
        if records.len() / RECORD_WORDS < count {
            return Err(Reason::NotSorted.at(CodeOffset(0)));
        }
        let (rows, _) = records.as_chunks::<RECORD_WORDS>();
        if rows[..count].is_sorted_by(|row, next| row[0] < next[0]) {
            return Ok(SortedRecords { records, count });
        }
        Err(Reason::NotSorted.at(CodeOffset(0)))
    }

    // The index of the record that has the offset. Not by the library's `binary_search_by_key`: it goes on after a hit, which
    // takes up to 1.7 times the time where many jumps lead to one record.
    pub fn index_of(self, offset: CodeOffset) -> Option<RecordIndex>
        ensures { result ≡ first_from self.entry.records.now offset (index 0) self.entry.count }
    {
        // Where the span begins in which the record may be, and its length.
        let mut from = 0;
        let mut span = self.count;
        while span > 0 {
            let half = span / 2;
            let mid = from + half;
            let there = records::offset_at(self.records, RecordIndex(mid));
            if there.0 == offset.0 {
                return Some(RecordIndex(mid));
            }
            if offset.0 < there.0 {
                span = half;
            } else {
                from = mid + 1;
                span -= half + 1;
            }
        }
        None
    }

    // Whether one of the records has the offset.
    pub fn is_offset(self, offset: CodeOffset) -> bool
        ensures { result ≡ one_of (offsets_of self.entry.records.now self.entry.count) offset.0 }
    {
        self.index_of(offset).is_some()
    }
}

// The index of the record of an offset, among the first so many of a store. Any count and any offset may be given; what
// lies past the count is not looked at. The count stands beside the store, as C passes it.
pub fn find(
    records: &[u32],
    count: usize,
    offset: CodeOffset,
) -> Result<Option<RecordIndex>, Refusal<CodeOffset>>
    ensures { result ≡ lookup_of records.now count offset }
{
    Ok(SortedRecords::new(records, count)?.index_of(offset))
}
