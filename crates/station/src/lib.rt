// Each entry of the product with its answer as one struct of numbers. `station_c` exports these functions for C.
#![tactic(auto)]

ghost use Rattle.std.specs.Prelude.{◌≡◌, length};
ghost use Rattle.names.specs.Names.{is_unqualified_name, is_method_name, is_binary_name, is_module_name};
ghost use Rattle.class_names.specs.Names.{class_name};
ghost use Rattle.descriptors.specs.Texts.{field_prefix, field_text, return_prefix, return_text, array_text, is_field_text, is_return_text, is_array_text};
ghost use Rattle.methods.specs.Texts.{room_of, method_prefix, method_text, prefix_store, text_store, is_method_text};
ghost use Rattle.printing.specs.Printing.{print_field, print_return, field_output, return_output};
ghost use Rattle.method_printing.specs.Printing.{print_method, method_output};
ghost use Rattle.identifier.specs.Identifier.{identifying, identifier_output};
ghost use Rattle.records.specs.Records.{record_room, entry_room};
ghost use Rattle.bytecode.specs.Decoding.{decoding, records_after, entries_after};
ghost use Rattle.lookup.specs.Lookup.{lookup_of};
ghost use Rattle.station.specs.Station.{acceptance, refusal, decode_answer, lookup_answer, name_answer, output_answer, part_of, parts_of, no_parts, field_parts, array_parts, method_parts, failure_at, refusal_at, refused_parts, HasFew};

use descriptors::{Field, FieldDescriptor};
use jumps::Failure;
use methods::Method;
use output::Output;
use read::CodeOffset;
use refusals::Refusal;

// Number 0 is acceptance, and `first` and `next` say what the entry found. Any other number is a refusal with its place and
// its second number.
#[repr(C)]
#[derive(Clone, Copy)]
pub struct Answer {
    pub number: u32,
    pub second: u32,
    pub place: u64,
    pub first: u64,
    pub next: u64,
}

// The parts of a descriptor, for a method those of its return. Number 0 is acceptance; any other is a refusal with its
// place.
#[repr(C)]
#[derive(Clone, Copy)]
pub struct Parts {
    pub number: u32,
    pub dimensions: u32,
    pub letter: u32,
    pub start: u32,
    pub length: u32,
    pub parameters: u32,
    pub place: u64,
    pub used: u64,
}

fn accepted(first: u64, next: u64) -> Answer
    ensures { result ≡ acceptance first next }
{
    Answer {
        number: 0,
        second: 0,
        place: 0,
        first,
        next,
    }
}

fn refused(number: u32, place: u64, second: u32) -> Answer
    ensures { result ≡ refusal number place second }
{
    Answer {
        number,
        second,
        place,
        first: 0,
        next: 0,
    }
}

impl From<Failure> for Answer {
    ghost from_gives = { λ f answer. answer ≡ failure_at f };

    fn from(failure: Failure) -> Answer {
        refused(
            failure.reason.number(),
            failure.place.0 as u64,
            failure.second,
        )
    }
}

// A refusal of a text, which has no second number.
impl From<Refusal<usize>> for Answer {
    ghost from_gives = { λ r answer. answer ≡ refusal_at r };

    fn from(refusal: Refusal<usize>) -> Answer {
        refused(refusal.reason.number(), refusal.place as u64, 0)
    }
}

impl From<Output> for Answer {
    ghost from_gives = { λ output answer. answer ≡ output_answer output };

    fn from(output: Output) -> Answer {
        match output {
            Ok(length) => accepted(length as u64, 0),
            Err(refusal) => refusal.into(),
        }
    }
}

fn parts_of(part: FieldDescriptor, parameters: u32, used: u64) -> Parts
    ensures { result ≡ parts_of part parameters used }
{
    Parts {
        number: 0,
        dimensions: part.dimensions,
        letter: part.letter,
        start: part.start,
        length: part.length,
        parameters,
        place: 0,
        used,
    }
}

fn no_parts(number: u32, place: u64) -> Parts
    ensures { result ≡ no_parts number place }
{
    Parts {
        number,
        dimensions: 0,
        letter: 0,
        start: 0,
        length: 0,
        parameters: 0,
        place,
        used: 0,
    }
}

impl From<Refusal<usize>> for Parts {
    ghost from_gives = { λ r parts. parts ≡ refused_parts r };

    fn from(refusal: Refusal<usize>) -> Parts {
        no_parts(refusal.reason.number(), refusal.place as u64)
    }
}

impl From<Field> for Parts {
    ghost from_gives = { λ field parts. parts ≡ field_parts field };

    fn from(field: Field) -> Parts {
        match field {
            Ok((part, used)) => parts_of(part, 0, used as u64),
            Err(refusal) => refusal.into(),
        }
    }
}

// The count of parameters fits 32 bits, since a text has fewer than its bytes. No `From`, which may not ask that.
fn method_parts(answer: Method) -> Parts
    requires { HasFew answer }
    ensures { result ≡ method_parts answer }
{
    match answer {
        Ok((method, used)) => parts_of(method.returned, method.parameters as u32, used as u64),
        Err(refusal) => refusal.into(),
    }
}

// A code decoded: `first` is the number of instructions, `next` that of switch entries.
pub fn nk_decode(code: &[u8], pool: &[u8], records: &mut [u32], entries: &mut [u32]) -> Answer
    ensures answers { result ≡ decode_answer (decoding code.now pool.now (record_room records.old) (entry_room entries.old)) }
    ensures stores_records { records.new ≡ records_after code.now pool.now records.old entries.old }
    ensures stores_entries { entries.new ≡ entries_after code.now pool.now records.old entries.old }
{
    match bytecode::decode(code, pool, records, entries) {
        Ok(decoded) => accepted(decoded.instructions as u64, decoded.entries as u64),
        Err(failure) => failure.into(),
    }
}

// The record of an offset among the first so many: `next` is 1 where there is one, and `first` is then its index.
pub fn nk_lookup(records: &[u32], count: u64, offset: u64) -> Answer
    ensures { result ≡ lookup_answer (lookup_of records.now count (record { 0 = offset })) }
{
    match lookup::find(records, count as usize, CodeOffset(offset as usize)) {
        Ok(Some(index)) => accepted(index.0 as u64, 1),
        Ok(None) => accepted(0, 0),
        Err(refusal) => Failure::from(refusal).into(),
    }
}

pub fn nk_class_name(text: &[u8]) -> Answer
    ensures { result ≡ name_answer (class_name text.now) }
{
    match class_names::class_name(text) {
        Ok(()) => accepted(0, 0),
        Err(refusal) => refusal.into(),
    }
}

// A part of these four words.
fn part_of(dimensions: u32, letter: u32, start: u32, length: u32) -> FieldDescriptor
    ensures { result ≡ part_of dimensions letter start length }
{
    FieldDescriptor {
        dimensions,
        letter,
        start,
        length,
    }
}

// The functions that write have the length as `first`. Two alike, as C has a name for each.
pub fn nk_print_field(
    text: &[u8],
    dimensions: u32,
    letter: u32,
    name_start: u32,
    name_length: u32,
    out: &mut [u8],
) -> Answer
    ensures answers { result ≡ output_answer (print_field text.now (part_of dimensions letter name_start name_length) (length out.old)) }
    ensures writes { out.new ≡ field_output text.now (part_of dimensions letter name_start name_length) out.old }
{
    let part = part_of(dimensions, letter, name_start, name_length);
    printing::print_field(text, part, out).into()
}

pub fn nk_print_return(
    text: &[u8],
    dimensions: u32,
    letter: u32,
    name_start: u32,
    name_length: u32,
    out: &mut [u8],
) -> Answer
    ensures answers { result ≡ output_answer (print_return text.now (part_of dimensions letter name_start name_length) (length out.old)) }
    ensures writes { out.new ≡ return_output text.now (part_of dimensions letter name_start name_length) out.old }
{
    let part = part_of(dimensions, letter, name_start, name_length);
    printing::print_return(text, part, out).into()
}

pub fn nk_print_method(
    text: &[u8],
    parameters: &[u32],
    count: u64,
    dimensions: u32,
    letter: u32,
    name_start: u32,
    name_length: u32,
    out: &mut [u8],
) -> Answer
    ensures answers { result ≡ output_answer (print_method text.now parameters.now count (part_of dimensions letter name_start name_length) (length out.old)) }
    ensures writes { out.new ≡ method_output text.now parameters.now count (part_of dimensions letter name_start name_length) out.old }
{
    let returned = part_of(dimensions, letter, name_start, name_length);
    method_printing::print_method(text, parameters, count as usize, returned, out).into()
}

pub fn nk_identifier(name: &[u8], descriptor: &[u8], out: &mut [u8]) -> Answer
    ensures answers { result ≡ output_answer (identifying name.now descriptor.now (length out.old)) }
    ensures writes { out.new ≡ identifier_output name.now descriptor.now out.old }
{
    identifier::method_identifier(name, descriptor, out).into()
}

pub fn nk_field_prefix(text: &[u8]) -> Parts
    ensures { result ≡ field_parts (field_prefix text.now) }
{
    descriptors::field_prefix(text).into()
}

pub fn nk_field_whole(text: &[u8]) -> Parts
    ensures { result ≡ field_parts (field_text text.now) }
{
    descriptors::field_whole(text).into()
}

pub fn nk_return_prefix(text: &[u8]) -> Parts
    ensures { result ≡ field_parts (return_prefix text.now) }
{
    descriptors::return_prefix(text).into()
}

pub fn nk_return_whole(text: &[u8]) -> Parts
    ensures { result ≡ field_parts (return_text text.now) }
{
    descriptors::return_whole(text).into()
}

// A letter of 0 says that the text is not an array.
pub fn nk_array(text: &[u8]) -> Parts
    ensures { result ≡ array_parts (length text.now) (array_text text.now) }
{
    match descriptors::array_whole(text) {
        Ok(Some(part)) => parts_of(part, 0, text.len() as u64),
        Ok(None) => no_parts(0, 0),
        Err(refusal) => refusal.into(),
    }
}

pub fn nk_method_prefix(text: &[u8], parameters: &mut [u32]) -> Parts
    ensures answers { result ≡ method_parts (method_prefix (room_of parameters.old) text.now) }
    ensures stores { parameters.new ≡ prefix_store parameters.old text.now }
{
    method_parts(methods::method_prefix(text, parameters))
}

pub fn nk_method_whole(text: &[u8], parameters: &mut [u32]) -> Parts
    ensures answers { result ≡ method_parts (method_text (room_of parameters.old) text.now) }
    ensures stores { parameters.new ≡ text_store parameters.old text.now }
{
    method_parts(methods::method_whole(text, parameters))
}

pub fn nk_is_binary_name(text: &[u8]) -> bool
    ensures { result ≡ is_binary_name text.now }
{
    names::is_binary_name(text)
}

pub fn nk_is_unqualified_name(text: &[u8]) -> bool
    ensures { result ≡ is_unqualified_name text.now }
{
    names::is_unqualified_name(text)
}

pub fn nk_is_method_name(text: &[u8], init: bool, clinit: bool) -> bool
    ensures { result ≡ is_method_name init clinit text.now }
{
    names::is_unqualified_method_name(text, init, clinit)
}

pub fn nk_is_module_name(text: &[u8]) -> bool
    ensures { result ≡ is_module_name text.now }
{
    names::is_module_name(text)
}

pub fn nk_is_field_descriptor(text: &[u8]) -> bool
    ensures { result ≡ is_field_text text.now }
{
    descriptors::is_field_descriptor(text)
}

pub fn nk_is_array_descriptor(text: &[u8]) -> bool
    ensures { result ≡ is_array_text text.now }
{
    descriptors::is_array_descriptor(text)
}

pub fn nk_is_return_descriptor(text: &[u8]) -> bool
    ensures { result ≡ is_return_text text.now }
{
    descriptors::is_return_descriptor(text)
}

pub fn nk_is_method_descriptor(text: &[u8]) -> bool
    ensures { result ≡ is_method_text text.now }
{
    methods::is_method_descriptor(text)
}
