// The lines of a listing like javap's, written at the front of a lent output.
#![tactic(auto, using(phrases::proofs::Wrote::pieces, crate::proofs::Laws::entry))]

ghost use Rattle.std.specs.Prelude.{◌≡◌, ◌++◌, ◌+◌, ◌≤◌, ◌<◌, length, IfOk, MatchResult};
ghost use Rattle.refusals.specs.declared.Reason.TheVariants.{TooShort};
ghost use Rattle.refusals.specs.Numbers.{refused};
ghost use Rattle.opcodes.specs.Formats.{format_of};
ghost use Rattle.phrases.specs.Wrote.{HasRoom, Wrote};
ghost use Rattle.phrases.specs.Numbers.{decimal, pad_right};
ghost use Rattle.mnemonics.specs.Mnemonics.{mnemonic_of};
ghost use Rattle.wording.specs.Operands.{named};
ghost use Rattle.listing.specs.Meanings.{meaning_or_none};
ghost use Rattle.listing.specs.Lines.{line_room, instruction, shown_at, lining, line_output, instruction_line, entry_line, accepted_line, refusal, refused_line, sum_line};
ghost use Rattle.listing.specs.Escapes.{hex_digit, is_plain, shown_byte, showing, shown_output};

use output::Output;
use phrases::Line;
use records::{Record, SwitchEntry};
use refusals::{Reason, Refusal};
use wording::{put_counted, put_operands, put_target};

// The room that a line must find. On paper: `line_room`.
pub const LINE_ROOM: usize = 160;

// The meanings of the refusals by their numbers.
const MEANINGS: &[u8] = b"|\
    the code is over 65,535 bytes|\
    the pool table is over 4,096 entries|\
    the code ends within an instruction|\
    no instruction has this byte|\
    wide does not modify this instruction|\
    the pool has no entry with this index|\
    the pool's entry is of a wrong kind|\
    bytes that must be zero are not|\
    newarray has no such type of elements|\
    low is above high, or there are too many entries|\
    the number of pairs is negative|\
    a jump's target lies before the code|\
    a jump's target is not an instruction's offset|\
    no room is left for the entries of this switch|\
    no room is left for this instruction|\
    |||||\
    the text is over 65,535 bytes|\
    the text ends where a type is due|\
    no type has this letter|\
    an array has more than 255 dimensions|\
    a part of a class name is empty|\
    a class name holds a byte that it may not hold|\
    the text ends within a class name|\
    a class name holds a semicolon|\
    a method's descriptor starts with no parenthesis|\
    no room is left for this parameter|\
    bytes are left over|\
    the method's name is not valid|\
    the output is too short|\
    the parts break the rules of a descriptor|\
    the records are not all there, or not in order|";

#[tactic(auto, using(phrases::proofs::Wrote::pieces, crate::proofs::Tables::meant, crate::proofs::Tables::meaning_short, crate::proofs::Tables::has_meaning))]
fn put_meaning(line: &mut Line<'_>, number: u32)
    requires { HasRoom 50 line.old }
    ensures { Wrote 50 line.old (meaning_or_none number) line.new }
{
    // A text that is empty is none, on paper too.
    let start = line.length;
    line.item(MEANINGS, number as usize);
    if line.length == start {
        line.text(b"a number without a meaning");
    }
}

// The mnemonic in its column.
#[tactic(auto, using(phrases::proofs::Wrote::pieces), unfolding(phrases::specs::Numbers::pad_right))]
fn put_column(line: &mut Line<'_>, byte: u8)
    requires { HasRoom 31 line.old }
    ensures { Wrote 31 line.old (pad_right 16 (mnemonic_of byte)) line.new }
{
    let end = line.length + 16;
    mnemonics::put_mnemonic(line, byte);
    line.blanks(end - line.length);
}

// The mnemonic of an instruction without operands.
#[tactic(auto, using(phrases::proofs::Wrote::pieces, wording::proofs::Laws::no_text, wording::proofs::Laws::some_text))]
fn put_byte_name(line: &mut Line<'_>, byte: u8)
    requires { HasRoom 20 line.old }
    ensures { Wrote 20 line.old (named (mnemonic_of byte) byte) line.new }
{
    // A mnemonic that is empty is none, on paper too.
    let start = line.length;
    mnemonics::put_mnemonic(line, byte);
    if line.length == start {
        line.decimal(byte as usize);
    }
}

#[tactic(auto, using(phrases::proofs::Wrote::pieces), unfolding(crate::specs::Lines::instruction))]
fn put_instruction(line: &mut Line<'_>, byte: u8, pool: &[u8], record: Record)
    requires { HasRoom 107 line.old }
    ensures { Wrote 107 line.old (instruction (format_of byte) byte pool.now «record») line.new }
{
    let format = opcodes::format_of(byte);
    if !wording::has_operands(format) {
        return put_byte_name(line, byte);
    }
    put_column(line, byte);
    put_operands(line, format, pool, record);
}

// What stands in the code at the record's offset.
#[tactic(auto, using(phrases::proofs::Wrote::pieces), unfolding(crate::specs::Lines::shown_at))]
fn put_shown(line: &mut Line<'_>, code: &[u8], pool: &[u8], record: Record)
    requires { HasRoom 107 line.old }
    ensures { Wrote 107 line.old (shown_at code.now pool.now «record») line.new }
{
    match code.get(record.offset as usize) {
        Some(&byte) => put_instruction(line, byte, pool, record),
        None => line.text(b"past the end"),
    }
}

// A number after what it is.
fn put_number(line: &mut Line<'_>, before: &[u8], n: usize)
    requires { HasRoom (length before.now + 20) line.old }
    ensures { Wrote (length before.now + 20) line.old (before.now ++ decimal n) line.new }
{
    line.text(before);
    line.decimal(n);
}

fn put_refusal(line: &mut Line<'_>, number: u32, place: usize, second: u32)
    requires { HasRoom 89 line.old }
    ensures { Wrote 89 line.old (refusal number place second) line.new }
{
    put_number(line, b"refused, ", number as usize);
    put_number(line, b" at ", place);
    put_number(line, b", second number ", second as usize);
}

// The room that every line must find, else 33 at 0. Apart from the making of the `Line`: no
// clause can say what a slice that is lent within an `Ok` holds in the end.
fn check_room(out: &[u8]) -> Result<(), Refusal<usize>>
    ensures { MatchResult result (λ _. line_room ≤ length out.now) (λ r. (r ≡ refused TooShort 0) × (length out.now < line_room)) }
{
    if out.len() < LINE_ROOM {
        return Err(Reason::TooShort.at(0));
    }
    Ok(())
}

// The line of an instruction's record, over its code and the tags of its pool.
pub fn instruction_line(code: &[u8], pool: &[u8], record: Record, out: &mut [u8]) -> Output
    ensures answers { result ≡ lining (instruction_line code.now pool.now «record») (length out.old) }
    ensures writes { out.new ≡ line_output (instruction_line code.now pool.now «record») out.old }
    ensures short { IfOk result (λ n. n ≤ 138) }
{
    check_room(out)?;
    let mut line = Line { out, length: 0 };
    line.decimal_right(8, record.offset as usize);
    line.text(b": ");
    put_shown(&mut line, code, pool, record);
    line.text(b"\n");
    Ok(line.length)
}

// The line of an entry of the switch at an offset.
pub fn entry_line(offset: u32, entry: SwitchEntry, out: &mut [u8]) -> Output
    ensures answers { result ≡ lining (entry_line offset entry) (length out.old) }
    ensures writes { out.new ≡ line_output (entry_line offset entry) out.old }
    ensures short { IfOk result (λ n. n ≤ 71) }
{
    check_room(out)?;
    let mut line = Line { out, length: 0 };
    line.signed_right(27, entry.key);
    line.text(b": ");
    put_target(&mut line, offset, entry.jump);
    line.text(b"\n");
    Ok(line.length)
}

// The line of an accepted method.
pub fn accepted_line(instructions: usize, entries: usize, out: &mut [u8]) -> Output
    ensures answers { result ≡ lining (accepted_line instructions entries) (length out.old) }
    ensures writes { out.new ≡ line_output (accepted_line instructions entries) out.old }
    ensures short { IfOk result (λ n. n ≤ 93) }
{
    check_room(out)?;
    let mut line = Line { out, length: 0 };
    line.text(b"accepted, ");
    put_counted(&mut line, instructions, b" instruction", b" instructions");
    line.text(b", ");
    put_counted(&mut line, entries, b" switch entry", b" switch entries");
    line.text(b"\n");
    Ok(line.length)
}

// The line of a refused method. The number may be any.
pub fn refused_line(number: u32, place: usize, second: u32, out: &mut [u8]) -> Output
    ensures answers { result ≡ lining (refused_line number place second) (length out.old) }
    ensures writes { out.new ≡ line_output (refused_line number place second) out.old }
    ensures short { IfOk result (λ n. n ≤ 142) }
{
    check_room(out)?;
    let mut line = Line { out, length: 0 };
    put_refusal(&mut line, number, place, second);
    line.text(b": ");
    put_meaning(&mut line, number);
    line.text(b"\n");
    Ok(line.length)
}

// The line on all methods.
pub fn sum_line(methods: usize, accepted: usize, refused: usize, out: &mut [u8]) -> Output
    ensures answers { result ≡ lining (sum_line methods accepted refused) (length out.old) }
    ensures writes { out.new ≡ line_output (sum_line methods accepted refused) out.old }
    ensures short { IfOk result (λ n. n ≤ 90) }
{
    check_room(out)?;
    let mut line = Line { out, length: 0 };
    put_number(&mut line, b"methods ", methods);
    put_number(&mut line, b", accepted ", accepted);
    put_number(&mut line, b", refused ", refused);
    line.text(b"\n");
    Ok(line.length)
}

#[tactic(auto, using(phrases::proofs::Wrote::pieces), unfolding(crate::specs::Escapes::hex_digit))]
fn hex_digit(d: u8) -> u8
    requires { d < 16 }
    ensures { result ≡ hex_digit d }
{
    if d < 10 {
        return b'0' + d;
    }
    b'a' + (d - 10)
}

fn is_plain(byte: u8) -> bool
    ensures { result ≡ is_plain byte }
{
    matches!(byte, 0x20..=0x7e) && byte != b'\\'
}

// A byte as it is, or escaped where it might steer a terminal.
#[tactic(auto, using(phrases::proofs::Wrote::pieces), unfolding(crate::specs::Escapes::shown_byte))]
fn put_shown_byte(line: &mut Line<'_>, byte: u8)
    requires { HasRoom 4 line.old }
    ensures { Wrote 4 line.old (shown_byte byte) line.new }
{
    if is_plain(byte) {
        return line.byte(byte);
    }
    line.text(b"\\x");
    line.byte(hex_digit(byte / 16));
    line.byte(hex_digit(byte % 16));
}

// A text of any bytes, such as a name, as a terminal may show it.
#[tactic(auto, using(phrases::proofs::Wrote::pieces, crate::proofs::Escapes::showing_ends))]
pub fn shown(text: &[u8], out: &mut [u8]) -> Output
    ensures answers { result ≡ showing text.now (length out.old) }
    ensures writes { out.new ≡ shown_output text.now out.old }
{
    if out.len() / 4 < text.len() {
        return Err(Reason::TooShort.at(0));
    }
    let mut line = Line { out, length: 0 };
    for &byte in text {
        put_shown_byte(&mut line, byte);
    }
    Ok(line.length)
}
