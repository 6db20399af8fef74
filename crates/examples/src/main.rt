// Document 01's settled examples, run through the entries: one line for each, with the whole answer and every word of what
// was lent, those past the used ones too. The file stdout was written by hand from document 01, not from this program. What
// cannot be written is lost, and the program goes on.
#![tactic(auto)]

ghost use Rattle.std.specs.Prelude.{◌≤◌};

use descriptors::{Field, FieldDescriptor};
use read::CodeOffset;
use records::RecordIndex;
use refusals::Reason;

fn print_words(rt: &impl Print, words: &[u32]) {
    for word in words {
        let _ = print!(rt; " {word}");
    }
}

fn print_bytes(rt: &impl Print, bytes: &[u8]) {
    for byte in bytes {
        let _ = print!(rt; " {byte:02x}");
    }
}

fn print_refusal(rt: &impl Print, reason: Reason, place: usize) {
    let _ = print!(rt; ": refused {} at {place}", reason.number());
}

// The four words of a part and the bytes used.
fn print_part(rt: &impl Print, part: FieldDescriptor, used: usize) {
    print_words(rt, &[part.dimensions, part.letter, part.start, part.length]);
    let _ = print!(rt; " used {used}");
}

fn print_field(rt: &impl Print, answer: Field) {
    match answer {
        Ok((part, used)) => {
            let _ = print!(rt; ": accepted");
            print_part(rt, part, used);
        }
        Err(refusal) => print_refusal(rt, refusal.reason, refusal.place),
    }
    let _ = println!(rt);
}

// The lookup of each offset of a code and of the one past its end.
fn show_lookups(rt: &impl Print, records: &[u32], count: usize, code: &[u8]) {
    let _ = print!(rt; "; lookup");
    for offset in 0..=code.len() {
        match lookup::find(records, count, CodeOffset(offset)) {
            Ok(Some(RecordIndex(index))) => {
                let _ = print!(rt; " {index}");
            }
            Ok(None) => {
                let _ = print!(rt; " -");
            }
            Err(refusal) => print_refusal(rt, refusal.reason, refusal.place.0),
        }
    }
}

// The stores have room for four records and three entries, and some words are left over.
fn show_decoding(rt: &impl Print, code: &[u8], pool: &[u8]) {
    let mut records = [9; 27];
    let mut entries = [9; 7];
    let answer = bytecode::decode(code, pool, &mut records, &mut entries);
    match answer {
        Ok(decoded) => {
            let _ = print!(rt; ": accepted {} {}", decoded.instructions, decoded.entries);
        }
        Err(failure) => {
            print_refusal(rt, failure.reason, failure.place.0);
            let _ = print!(rt; " second {}", failure.second);
        }
    }
    let _ = print!(rt; "; records");
    print_words(rt, &records);
    let _ = print!(rt; "; entries");
    print_words(rt, &entries);
    if let Ok(decoded) = answer {
        show_lookups(rt, &records, decoded.instructions, code);
    }
    let _ = println!(rt);
}

fn show_code(rt: &impl Print, code: &[u8]) {
    let _ = print!(rt; "code");
    print_bytes(rt, code);
    show_decoding(rt, code, b"");
}

// A code of zeros, each a nop.
fn show_nops<const LENGTH: usize>(rt: &impl Print)
    requires { LENGTH ≤ 65536 }
{
    let _ = print!(rt; "code of {LENGTH} nops");
    show_decoding(rt, &[0; LENGTH], b"");
}

// A table of Integer entries, and a code that names the last of 4,096.
fn show_pool<const LENGTH: usize>(rt: &impl Print)
    requires { LENGTH ≤ 4097 }
{
    let code = b"\x13\x0f\xff\xb1";
    let _ = print!(rt; "pool table of {LENGTH}, code");
    print_bytes(rt, code);
    show_decoding(rt, code, &[3; LENGTH]);
}

fn show_method(rt: &impl Print, text: &str) {
    let mut parameters = [9; 6];
    let _ = print!(rt; "method `{text}`");
    match methods::method_whole(text.as_bytes(), &mut parameters) {
        Ok((method, used)) => {
            let _ = print!(rt; ": accepted {}", method.parameters);
            print_part(rt, method.returned, used);
        }
        Err(refusal) => print_refusal(rt, refusal.reason, refusal.place),
    }
    let _ = print!(rt; "; parameters");
    print_words(rt, &parameters);
    let _ = println!(rt);
}

fn show_field(rt: &impl Print, text: &str) {
    let _ = print!(rt; "field `{text}`");
    print_field(rt, descriptors::field_whole(text.as_bytes()));
}

fn show_dimensions(rt: &impl Print, dimensions: usize)
    requires { dimensions ≤ 256 }
{
    let mut text = [b'I'; 257];
    text[..dimensions].fill(b'[');
    let _ = print!(rt; "field of {dimensions} `[` and `I`");
    print_field(rt, descriptors::field_whole(&text[..=dimensions]));
}

fn show_class_name(rt: &impl Print, text: &str) {
    let _ = print!(rt; "class name `{text}`");
    match class_names::class_name(text.as_bytes()) {
        Ok(()) => {
            let _ = print!(rt; ": accepted");
        }
        Err(refusal) => print_refusal(rt, refusal.reason, refusal.place),
    }
    let _ = println!(rt);
}

// The examples in document 01's order. The 65,535 nops are a neighbour: as many as a code may have, too many for the store.
fn main(rt: HostRuntime) {
    let rt = &rt;
    show_code(rt, b"\x1a\x99\x00\x06\x84\x00\xff\xb1");
    // tableswitch, padding, the words 24, 0, 1, 24, 24, and return
    show_code(
        rt,
        b"\xaa\0\0\0\0\0\0\x18\0\0\0\0\0\0\0\x01\0\0\0\x18\0\0\0\x18\xb1",
    );
    show_code(rt, b"");
    show_code(rt, b"\xa7\x00\x03");
    show_code(rt, b"\xa7\xff\xff");
    show_code(rt, b"\x00\xc8\x7f\xff\xff\xff");
    show_code(rt, b"\xc4\x00");
    show_code(rt, b"\xbc\x03");
    show_code(rt, b"\xbc\x0b");
    show_method(rt, "()VV");
    show_field(rt, "La/;");
    show_field(rt, "L;");
    show_class_name(rt, "");
    show_class_name(rt, "a/");
    show_nops::<65536>(rt);
    show_nops::<65535>(rt);
    show_pool::<4096>(rt);
    show_pool::<4097>(rt);
    show_class_name(rt, ";");
    show_class_name(rt, "a;");
    show_dimensions(rt, 255);
    show_dimensions(rt, 256);
    // tableswitch, padding, the default 0, the least low and the greatest high
    show_code(rt, b"\xaa\0\0\0\0\0\0\0\x80\0\0\0\x7f\xff\xff\xff");
    let _ = println!(rt; "examples: 23");
}
