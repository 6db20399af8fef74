// Method descriptors printed from their parts, as the `Display` parts of cafebabe's descriptors.rs, into a lent output.
// An output is written only once its room is known, so a refusal changes nothing.
#![tactic(auto)]

ghost use Rattle.std.specs.Prelude.{◌≡◌, ◌+◌, ◌≤◌, length};
ghost use Rattle.std.proofs.Math.Bool.{So};
ghost use Rattle.std.proofs.lemmas.List.Edits.{sets};
ghost use Rattle.laws.specs.Bytes.{every};
ghost use Rattle.printing.specs.Printing.{is_field_part, is_return_part};
ghost use Rattle.method_printing.specs.Printing.{all_bytes, method_bytes, first_part, parts_of, length_from, print_parts, parts_output, print_method, method_output};

use descriptors::FieldDescriptor;
use laws::TEXT_LIMIT;
use methods::PART_WORDS;
use output::Output;
use refusals::Reason;
use texts::Text;

// The part in a parameter's record.
fn part_of(words: &[u32; PART_WORDS]) -> FieldDescriptor
    ensures { result ≡ first_part words.now }
{
    let [dimensions, letter, start, length] = *words;
    FieldDescriptor {
        dimensions,
        letter,
        start,
        length,
    }
}

// The length of the bytes of parameters. Each is looked at, for 34 goes before 21. Of a length over the limit no more is
// known, so that no sum of lengths wraps.
fn parameters_length(text: Text, records: &[[u32; PART_WORDS]]) -> Output
    ensures { result ≡ length_from text.entry.bytes.now 0 (parts_of records.now) }
{
    let mut length = 0;
    for words in records {
        let part = part_of(words);
        if !printing::is_field_part(text.bytes, part) {
            return Err(Reason::BrokenParts.at(0));
        }
        length = (length + printing::part_length(part)).min(TEXT_LIMIT + 1);
    }
    Ok(length)
}

// The bytes of parameters that keep the rules, written from an offset on. The offset after them. No
// `Line`: where each part goes is known before any is written.
fn put_parameters(text: &[u8], records: &[[u32; PART_WORDS]], out: &mut [u8], at: usize) -> usize
    requires { So (every (is_field_part text.now) (parts_of records.now)) × (at + length (all_bytes text.now (parts_of records.now)) ≤ length out.old) }
    ensures ends { result ≡ at + length (all_bytes text.now (parts_of records.now)) }
    ensures writes { out.new ≡ sets out.old at (all_bytes text.now (parts_of records.now)) }
{
    let mut next = at;
    for words in records {
        let part = part_of(words);
        printing::put_part(text, part, out, next);
        next += printing::part_length(part);
    }
    next
}

// The bytes of a method's parts that keep the rules, written at the front of the output.
fn put_method(text: &[u8], records: &[[u32; PART_WORDS]], returned: FieldDescriptor, out: &mut [u8])
    requires { So (is_return_part text.now returned) × So (every (is_field_part text.now) (parts_of records.now)) × (length (method_bytes text.now (parts_of records.now) returned) ≤ length out.old) }
    ensures { out.new ≡ sets out.old 0 (method_bytes text.now (parts_of records.now) returned) }
{
    out[0] = b'(';
    let close = put_parameters(text, records, out, 1);
    out[close] = b')';
    printing::put_part(text, returned, out, close + 1);
}

// A method's parts, printed at the front of the output.
fn print_parts(
    text: Text,
    records: &[[u32; PART_WORDS]],
    returned: FieldDescriptor,
    out: &mut [u8],
) -> Output
    ensures answers { result ≡ print_parts text.entry.bytes.now (parts_of records.now) returned (length out.old) }
    ensures writes { out.new ≡ parts_output text.entry.bytes.now (parts_of records.now) returned out.old }
{
    if !printing::is_return_part(text.bytes, returned) {
        return Err(Reason::BrokenParts.at(0));
    }
    let length = parameters_length(text, records)? + printing::part_length(returned) + 2;
    printing::check_room(length, out.len())?;
    put_method(text.bytes, records, returned, out);
    Ok(length)
}

// A method descriptor, printed at the front of the output from the parts in the first records of a store and the return
// part. The count stands beside the store, as C passes it.
pub fn print_method(
    text: &[u8],
    parameters: &[u32],
    count: usize,
    returned: FieldDescriptor,
    out: &mut [u8],
) -> Output
    ensures answers { result ≡ print_method text.now parameters.now count returned (length out.old) }
    ensures writes { out.new ≡ method_output text.now parameters.now count returned out.old }
{
    let text = Text::new(text)?;
    let records = parameters.as_chunks::<PART_WORDS>().0;
    if records.len() < count {
        return Err(Reason::BrokenParts.at(0));
    }
    print_parts(text, &records[..count], returned, out)
}
