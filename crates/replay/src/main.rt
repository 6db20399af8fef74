// Runs the fixed list of cases in data/ through the library's functions, and says which answers are not the listed ones.
// Those come from document 01 itself (settled) and from a plain model of it (compare/run replay-list), never from the
// library. What cannot be written is lost, and the program goes on.
#![tactic(auto)]

mod case;
mod line;

ghost use Rattle.std.specs.Prelude.{◌≤◌, ◌<◌, length};

use case::Case;
use std::fs;
use std::rt::Files;

// The files of the list: the settled examples, codes, lookups, texts.
const FILES: [&str; 12] = [
    "settled",
    "bytes",
    "edges",
    "limits",
    "codes",
    "lookups",
    "descriptors",
    "methods",
    "printing",
    "method_printing",
    "identifiers",
    "checks",
];

// How many numbers an answer may have: 0, and the refusals up to 35.
const NUMBERS: usize = 36;

// Room for the longest file of the list.
const FILE_ROOM: usize = 131072;

// The cases that were run, those whose answers differ, and how often each number was answered. The counts stop at the
// largest number.
#[derive(Drop)]
struct Totals {
    cases: u64,
    differing: u64,
    refusals: [u64; NUMBERS],
}

impl Totals {
    // The case of the line with this number, from which on so much of the list is left. A line that starts with `#` is a
    // comment.
    fn run_line(&mut self, rt: &impl Print, file: &str, number: u64, list: &[u8]) {
        if list.starts_with(b"#") {
            return;
        }
        let mut case = Case::new(list);
        let outcome = case.run();
        self.cases = self.cases.saturating_add(1);
        if let Some(count) = self.refusals.get_mut(case.refusal as usize) {
            *count = count.saturating_add(1);
        }
        if let Err(difference) = outcome {
            self.differing = self.differing.saturating_add(1);
            // The bytes of the line up to where the difference was seen.
            let place = list.len().saturating_sub(case.line.bytes_left());
            let _ = println!(rt; "{file}:{number}:{place}: {difference}");
        }
    }

    // A file that cannot be read has no cases, and the counts then tell.
    fn run_file(&mut self, rt: &(impl Print + Files), file: &str) {
        let mut room = [0; FILE_ROOM];
        let size = read_file(rt, file, &mut room);
        let before = self.cases;
        let mut list = &room[..size];
        let mut number = 1u64;
        // No `for` over the lines: a case is given what is left of the list.
        while !list.is_empty() {
            self.run_line(rt, file, number, list);
            number = number.saturating_add(1);
            list = after_line(list);
        }
        let _ = println!(rt; "{file}: {} cases", self.cases.saturating_sub(before));
    }

    // Document 01 leaves out some numbers, which no answer has.
    fn print(&self, rt: &impl Print) {
        let _ = print!(rt; "refusals:");
        for (number, count) in self.refusals.iter().enumerate().skip(1) {
            if *count > 0 {
                let _ = print!(rt; " {number}:{count}");
            }
        }
        let _ = println!(rt; "\n{} cases, {} differ", self.cases, self.differing);
    }
}

// What is left of the list after its first line.
fn after_line(list: &[u8]) -> &[u8]
    requires { 0 < length list.now }
    ensures { length result.now < length list.now }
{
    match list.iter().position(|byte| *byte == b'\n') {
        Some(end) => &list[end + 1..],
        None => &[],
    }
}

// The front of a file, as far as there is room; nothing of one that cannot be opened. Apart from its caller, so that the bound
// outlasts the `match`.
fn read_file<R: Files>(rt: &R, name: &str, room: &mut [u8]) -> usize
    ensures { result ≤ length room.new }
{
    match fs::open(rt, name) {
        Ok(mut file) => input::read_full(&mut file, room),
        Err(_) => 0,
    }
}

fn main(rt: HostRuntime) {
    let mut totals = Totals {
        cases: 0,
        differing: 0,
        refusals: [0; NUMBERS],
    };
    for file in FILES {
        totals.run_file(&rt, file);
    }
    totals.print(&rt);
}
