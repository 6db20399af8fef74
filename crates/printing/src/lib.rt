// Field and return descriptors printed from their parts, as the `Display` parts of cafebabe's descriptors.rs, into a lent
// output. An output is written only once its room is known, so a refusal changes nothing. A text is seen to be within
// the limit before any part is looked at, so that no name is longer than that.
#![tactic(auto)]

ghost use Rattle.std.specs.Prelude.{◌≡◌, ◌+◌, ◌≤◌, length};
ghost use Rattle.std.proofs.Math.Bool.{So};
ghost use Rattle.std.proofs.lemmas.List.Edits.{sets};
ghost use Rattle.descriptors.specs.Texts.{is_base_type};
ghost use Rattle.output.specs.Output.{output_after};
ghost use Rattle.printing.specs.Printing.{part_bytes, part_length, has_no_name, has_name, is_type_part, is_field_part, is_return_part, check_room, printing, print_field, print_return, field_output, return_output};

use descriptors::FieldDescriptor;
use laws::TEXT_LIMIT;
use output::Output;
use refusals::{Reason, Refusal};
use texts::Text;

fn is_base_letter(letter: u32) -> bool
    ensures { result ≡ is_base_type letter }
{
    u8::try_from(letter).is_ok_and(descriptors::is_base_type)
}

fn has_no_name(part: FieldDescriptor) -> bool
    ensures { result ≡ has_no_name part }
{
    part.start == 0 && part.length == 0
}

// Two u32 are added as usize, so that no sum wraps.
fn has_name(text: &[u8], part: FieldDescriptor) -> bool
    ensures { result ≡ has_name text.now part }
{
    let start = part.start as usize;
    let end = start + part.length as usize;
    text.get(start..end).is_some_and(class_names::is_class_name)
}

#[tactic(auto, unfolding(crate::specs::Printing::is_type_part))]
fn is_type_part(text: &[u8], part: FieldDescriptor) -> bool
    ensures { result ≡ is_type_part text.now part }
{
    if part.letter == b'L' as u32 {
        return has_name(text, part);
    }
    is_base_letter(part.letter) && has_no_name(part)
}

// Whether a part keeps the rules of a field, and below of a return. For printers of methods too.
pub fn is_field_part(text: &[u8], part: FieldDescriptor) -> bool
    ensures { result ≡ is_field_part text.now part }
{
    part.dimensions <= FieldDescriptor::MAX_DIMENSIONS && is_type_part(text, part)
}

pub fn is_return_part(text: &[u8], part: FieldDescriptor) -> bool
    ensures { result ≡ is_return_part text.now part }
{
    part == FieldDescriptor::void() || is_field_part(text, part)
}

// How many bytes a part is printed to. Two u32 are added as usize here too.
#[tactic(auto, unfolding(crate::specs::Printing::part_length))]
pub fn part_length(part: FieldDescriptor) -> usize
    ensures { result ≡ part_length part }
{
    let dimensions = part.dimensions as usize;
    if part.letter == b'L' as u32 {
        return dimensions + part.length as usize + 2;
    }
    dimensions + 1
}

// The bytes of a part that keeps the rules, written from an offset on.
pub fn put_part(text: &[u8], part: FieldDescriptor, out: &mut [u8], at: usize)
    requires { So (is_return_part text.now part) × (at + part_length part ≤ length out.old) }
    ensures { out.new ≡ sets out.old at (part_bytes text.now part) }
{
    let dimensions = part.dimensions as usize;
    let letter_at = at + dimensions;
    output::put_run(out, at, dimensions, b'[');
    out[letter_at] = part.letter as u8;
    if part.letter == b'L' as u32 {
        let start = part.start as usize;
        let length = part.length as usize;
        output::put(out, letter_at + 1, &text[start..start + length]);
        out[letter_at + 1 + length] = b';';
    }
}

// Whether so many bytes are within the limit and the room.
#[tactic(auto, unfolding(crate::specs::Printing::check_room))]
pub fn check_room(length: usize, room: usize) -> Result<(), Refusal<usize>>
    ensures { result ≡ check_room length room }
{
    if TEXT_LIMIT < length {
        return Err(Reason::OverTheLimit.at(0));
    }
    if room < length {
        return Err(Reason::TooShort.at(0));
    }
    Ok(())
}

// A part, printed if it keeps the rules (`kept`). The rule itself as a parameter would be no plainer: each entry is one line.
fn print_part(text: Text, part: FieldDescriptor, kept: bool, out: &mut [u8]) -> Output
    requires { So kept → So (is_return_part text.bytes.now part) }
    ensures answers { result ≡ printing text.entry.bytes.now kept (part_bytes text.entry.bytes.now part) (length out.old) }
    ensures writes { out.new ≡ output_after (printing text.entry.bytes.now kept (part_bytes text.entry.bytes.now part) (length out.old)) (part_bytes text.entry.bytes.now part) out.old }
{
    if !kept {
        return Err(Reason::BrokenParts.at(0));
    }
    let length = part_length(part);
    check_room(length, out.len())?;
    put_part(text.bytes, part, out, 0);
    Ok(length)
}

// A field descriptor, printed at the front of the output.
pub fn print_field(text: &[u8], part: FieldDescriptor, out: &mut [u8]) -> Output
    ensures answers { result ≡ print_field text.now part (length out.old) }
    ensures writes { out.new ≡ field_output text.now part out.old }
{
    print_part(Text::new(text)?, part, is_field_part(text, part), out)
}

// A return descriptor, printed at the front of the output.
pub fn print_return(text: &[u8], part: FieldDescriptor, out: &mut [u8]) -> Output
    ensures answers { result ≡ print_return text.now part (length out.old) }
    ensures writes { out.new ≡ return_output text.now part out.old }
{
    print_part(Text::new(text)?, part, is_return_part(text, part), out)
}
