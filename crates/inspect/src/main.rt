// Shows what the station would say of each method of a bundle, which is read from standard input. What cannot be written is
// lost, and the program goes on.
#![tactic(auto)]

ghost use Rattle.std.specs.Prelude.{◌≡◌, ◌+◌, ◌≤◌, ◌<◌, length};
ghost use Rattle.jumps.specs.Stored.{Held, AllHeld};
ghost use Rattle.bundle.specs.Theorems.{SectionsInside};

use bundle::{Section, Sections};
use bytecode::CODE_LIMIT;
use laws::TEXT_LIMIT;
use listing::LINE_ROOM;
use lookup::SortedRecords;
use output::Output;
use records::{ENTRY_WORDS, RECORD_WORDS, Record, RecordIndex};
use refusals::Refusal;

// The most bytes of a bundle that are shown.
const BUNDLE_ROOM: usize = 1 << 20;

// The words of as many records as the longest code has bytes, and of more entries than it has words of four bytes.
const RECORD_ROOM: usize = CODE_LIMIT * RECORD_WORDS;

const ENTRY_ROOM: usize = (CODE_LIMIT + 1) / 4 * ENTRY_WORDS;

// The bytes of the longest name and the longest descriptor.
const IDENTIFIER_ROOM: usize = 2 * TEXT_LIMIT;

// The bytes of a text that are shown at once, each of which may be written as four. Many, since each time is a write.
const CHUNK: usize = 1024;

// What is lent to the entries.
#[derive(Drop)]
struct Lent {
    records: [u32; RECORD_ROOM],
    entries: [u32; ENTRY_ROOM],
    identifier: [u8; IDENTIFIER_ROOM],
}

// Zeros of a store. A function of its own: within a larger one the check would go through the zeros one by one.
fn zeros<T: Copy + From<u8>, const N: usize>() -> [T; N] {
    [T::from(0); N]
}

// What a function writes at the front of an output.
fn show_in<F: FnOnce(&mut [u8]) -> Output>(rt: &impl Print, out: &mut [u8], write: F)
    requires { F.IsAlwaysCallable write }
{
    if let Ok(length) = write(out)
        && let Some(written) = out.get(..length)
    {
        let _ = rt.write_all(written);
    }
}

// The same of a line.
fn show<F: FnOnce(&mut [u8]) -> Output>(rt: &impl Print, write: F)
    requires { F.IsAlwaysCallable write }
{
    show_in(rt, &mut [0; LINE_ROOM], write);
}

// A text of any length and of any bytes, none of which may steer the terminal.
fn show_text(rt: &impl Print, text: &[u8]) {
    for chunk in text.chunks(CHUNK) {
        show_in(rt, &mut [0; 4 * CHUNK], |out| listing::shown(chunk, out));
    }
}

fn show_refusal(rt: &impl Print, number: u32, place: usize, second: u32) {
    show(
        rt,
        |line| listing::refused_line(number, place, second, line),
    );
}

// An instruction and the entries that it has, if it is a switch.
fn show_instruction(rt: &impl Print, code: &[u8], pool: &[u8], entries: &[u32], stored: Record)
    requires { Held entries.now stored }
{
    show(
        rt,
        |line| listing::instruction_line(code, pool, stored, line),
    );
    let first = stored.d as usize;
    // By index, as a record names its entries, and below as `record_at` takes it.
    for i in 0..jumps::stored_entries(stored) {
        let entry = records::entry_at(entries, RecordIndex(first + i as usize));
        show(rt, |line| listing::entry_line(stored.offset, entry, line));
    }
}

fn show_instructions(
    rt: &impl Print,
    code: &[u8],
    pool: &[u8],
    sorted: SortedRecords<'_>,
    entries: &[u32],
)
    requires { AllHeld sorted.records.now sorted.count entries.now }
{
    for i in 0..sorted.count {
        let stored = records::record_at(sorted.records, RecordIndex(i));
        show_instruction(rt, code, pool, entries, stored);
    }
}

// Whether a code is accepted, with its listing if it is.
fn show_code(rt: &impl Print, code: &[u8], pool: &[u8], lent: &mut Lent) -> bool {
    match bytecode::decode(code, pool, &mut lent.records, &mut lent.entries) {
        Ok(decoded) => {
            let count = decoded.instructions;
            show(
                rt,
                |line| listing::accepted_line(count, decoded.entries, line),
            );
            let records = &lent.records;
            show_instructions(
                rt,
                code,
                pool,
                SortedRecords { records, count },
                &lent.entries,
            );
            true
        }
        Err(failure) => {
            show_refusal(rt, failure.reason.number(), failure.place.0, failure.second);
            false
        }
    }
}

// Whether the method at an offset has an identifier: it heads the line on the code. A method without one is named by its
// offset in the bundle, after a line that says why.
#[tactic(auto, using(crate::proofs::Laws::identifier_fits))]
fn show_identifier(
    rt: &impl Print,
    at: usize,
    name: &[u8],
    descriptor: &[u8],
    out: &mut [u8],
) -> bool {
    match identifier::method_identifier(name, descriptor, out) {
        Ok(length) => {
            let (text, _) = out.split_at(length);
            show_text(rt, text);
            let _ = print!(rt; ": ");
            true
        }
        Err(Refusal { reason, place }) => {
            let _ = print!(rt; "method at byte {at}, identifier: ");
            show_refusal(rt, reason.number(), place, 0);
            let _ = print!(rt; "method at byte {at}: ");
            false
        }
    }
}

fn bytes_of(bundle: &[u8], section: Section) -> &[u8]
    requires { (section.start ≤ section.end) × (section.end ≤ length bundle.now) }
{
    &bundle[section.start..section.end]
}

// Whether a method is accepted: its identifier and its code.
fn show_method(
    rt: &impl Print,
    bundle: &[u8],
    at: usize,
    sections: Sections,
    lent: &mut Lent,
) -> bool
    requires { SectionsInside bundle.now at sections }
{
    let name = bytes_of(bundle, sections.name);
    let descriptor = bytes_of(bundle, sections.descriptor);
    let pool = bytes_of(bundle, sections.pool);
    let code = bytes_of(bundle, sections.code);
    let identified = show_identifier(rt, at, name, descriptor, &mut lent.identifier);
    let decoded = show_code(rt, code, pool, lent);
    let _ = println!(rt);
    identified && decoded
}

// How far a bundle was shown, and how many methods that were, with how many of them accepted.
#[derive(Clone, Copy)]
struct Shown {
    at: usize,
    methods: usize,
    accepted: usize,
}

fn show_methods(rt: &impl Print, bundle: &[u8], lent: &mut Lent) -> Shown
    ensures { result.accepted ≤ result.methods }
{
    let mut at = 0;
    let mut methods = 0;
    let mut accepted = 0;
    // No `for`: each method says where the next one starts.
    while let Ok(Some(sections)) = bundle::next_method(bundle, at) {
        if show_method(rt, bundle, at, sections, lent) {
            accepted += 1;
        }
        methods += 1;
        at = sections.code.end;
    }
    Shown {
        at,
        methods,
        accepted,
    }
}

// What keeps the bytes from an offset on from being shown, if there are any.
fn show_rest(rt: &impl Print, bundle: &[u8], at: usize, more: bool) {
    if more {
        let _ = println!(rt;
            "byte {at}: the bundle is larger than {BUNDLE_ROOM} bytes; what follows is not shown"
        );
    } else if let Err(cut) = bundle::next_method(bundle, at) {
        let _ = println!(rt; "byte {}: the bundle is cut short here", cut.place);
    }
}

fn main(rt: HostRuntime) {
    let mut room = zeros::<u8, BUNDLE_ROOM>();
    let mut lent = Lent {
        records: zeros(),
        entries: zeros(),
        identifier: zeros(),
    };
    let mut reader = rt.reader();
    let size = input::read_full(&mut reader, &mut room);
    let bundle = &room[..size];
    let shown = show_methods(&rt, bundle, &mut lent);
    let more = input::read_full(&mut reader, &mut [0]) > 0;
    show_rest(&rt, bundle, shown.at, more);
    let refused = shown.methods - shown.accepted;
    show(
        &rt,
        |line| listing::sum_line(shown.methods, shown.accepted, refused, line),
    );
}
