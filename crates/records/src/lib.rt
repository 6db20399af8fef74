// Instruction records and switch entries as values, and their words in a lent store (document 01, "Instructions as
// records"). What is written or read must lie in the store: who calls sees to it.
#![tactic(auto)]

ghost use Rattle.std.specs.Prelude.{◌≡◌, ◌+◌, ◌*◌, ◌≤◌, length};
ghost use Rattle.std.proofs.lemmas.List.Edits.{sets};
ghost use Rattle.records.specs.Records.{record_words, entry_words, words_of, record_at, offset_at, entry_words_of, entry_at};

use read::CodeOffset;

// An index of a record or of an entry in its store, which is never an offset in the code.
#[derive(Clone, Copy)]
pub struct RecordIndex(pub usize);

// The words of a record and of an entry. On paper: `record_words` and `entry_words`.
pub const RECORD_WORDS: usize = 6;

pub const ENTRY_WORDS: usize = 2;

// The kinds of the two switches, whose records have entries. Numbers: a record holds its kind as a word, which C reads.
pub const TABLE_SWITCH_KIND: u32 = 0xaa;

pub const LOOKUP_SWITCH_KIND: u32 = 0xab;

#[derive(Clone, Copy)]
pub struct Record {
    pub offset: u32,
    pub kind: u32,
    pub a: u32,
    pub b: u32,
    pub c: u32,
    pub d: u32,
}

#[derive(Clone, Copy)]
pub struct SwitchEntry {
    pub key: u32,
    pub jump: u32,
}

pub fn put_record(records: &mut [u32], index: RecordIndex, value: Record)
    requires { (index.0 + 1) * record_words ≤ length records.old }
    ensures { records.new ≡ sets records.old (index.0 * record_words) (words_of value) }
{
    let at = index.0 * RECORD_WORDS;
    // Word by word: `copy_from_slice` of an array was tried and takes twice the time here, and five times at an entry.
    records[at] = value.offset;
    records[at + 1] = value.kind;
    records[at + 2] = value.a;
    records[at + 3] = value.b;
    records[at + 4] = value.c;
    records[at + 5] = value.d;
}

pub fn record_at(records: &[u32], index: RecordIndex) -> Record
    requires { (index.0 + 1) * record_words ≤ length records.now }
    ensures { result ≡ record_at records.now index }
{
    let (rows, _) = records.as_chunks::<RECORD_WORDS>();
    let [offset, kind, a, b, c, d] = rows[index.0];
    Record {
        offset,
        kind,
        a,
        b,
        c,
        d,
    }
}

// The offset alone, for who seeks a record by it.
pub fn offset_at(records: &[u32], index: RecordIndex) -> CodeOffset
    requires { (index.0 + 1) * record_words ≤ length records.now }
    ensures { result ≡ offset_at records.now index }
{
    CodeOffset(records[index.0 * RECORD_WORDS] as usize)
}

pub fn put_entry(entries: &mut [u32], index: RecordIndex, value: SwitchEntry)
    requires { (index.0 + 1) * entry_words ≤ length entries.old }
    ensures { entries.new ≡ sets entries.old (index.0 * entry_words) (entry_words_of value) }
{
    let at = index.0 * ENTRY_WORDS;
    // Word by word, as above.
    entries[at] = value.key;
    entries[at + 1] = value.jump;
}

pub fn entry_at(entries: &[u32], index: RecordIndex) -> SwitchEntry
    requires { (index.0 + 1) * entry_words ≤ length entries.now }
    ensures { result ≡ entry_at entries.now index }
{
    let (rows, _) = entries.as_chunks::<ENTRY_WORDS>();
    let [key, jump] = rows[index.0];
    SwitchEntry { key, jump }
}
