// The C library of the product: the functions of `station`, exported. A slice crosses as a pointer and a count of elements.
#![tactic(auto)]

ghost use Rattle.std.specs.Prelude.{◌≡◌, length};
ghost use Rattle.names.specs.Names.{is_unqualified_name, is_method_name, is_binary_name, is_module_name};
ghost use Rattle.class_names.specs.Names.{class_name};
ghost use Rattle.descriptors.specs.Texts.{field_prefix, field_text, return_prefix, return_text, array_text, is_field_text, is_return_text, is_array_text};
ghost use Rattle.methods.specs.Texts.{room_of, method_prefix, method_text, prefix_store, text_store, is_method_text};
ghost use Rattle.printing.specs.Printing.{print_field, print_return, field_output, return_output};
ghost use Rattle.method_printing.specs.Printing.{print_method, method_output};
ghost use Rattle.identifier.specs.Identifier.{identifying, identifier_output};
ghost use Rattle.records.specs.Records.{record_room, entry_room};
ghost use Rattle.bytecode.specs.Decoding.{decoding, records_after, entries_after};
ghost use Rattle.lookup.specs.Lookup.{lookup_of};
ghost use Rattle.station.specs.Station.{decode_answer, lookup_answer, name_answer, output_answer, part_of, field_parts, array_parts, method_parts};

use station::{Answer, Parts};

// A code decoded: `first` is the number of instructions, `next` that of switch entries.
#[unsafe(no_mangle)]
pub extern "C" fn nk_decode(
    code: &[u8],
    pool: &[u8],
    records: &mut [u32],
    entries: &mut [u32],
) -> Answer
    ensures answers { result ≡ decode_answer (decoding code.now pool.now (record_room records.old) (entry_room entries.old)) }
    ensures stores_records { records.new ≡ records_after code.now pool.now records.old entries.old }
    ensures stores_entries { entries.new ≡ entries_after code.now pool.now records.old entries.old }
{
    station::nk_decode(code, pool, records, entries)
}

// The record of an offset among the first so many: `next` is 1 where there is one, and `first` is then its index.
#[unsafe(no_mangle)]
pub extern "C" fn nk_lookup(records: &[u32], count: u64, offset: u64) -> Answer
    ensures { result ≡ lookup_answer (lookup_of records.now count (record { 0 = offset })) }
{
    station::nk_lookup(records, count, offset)
}

#[unsafe(no_mangle)]
pub extern "C" fn nk_class_name(text: &[u8]) -> Answer
    ensures { result ≡ name_answer (class_name text.now) }
{
    station::nk_class_name(text)
}

// The functions that write have the length as `first`. Two alike, as C has a name for each.
#[unsafe(no_mangle)]
pub extern "C" fn nk_print_field(
    text: &[u8],
    dimensions: u32,
    letter: u32,
    name_start: u32,
    name_length: u32,
    out: &mut [u8],
) -> Answer
    ensures answers { result ≡ output_answer (print_field text.now (part_of dimensions letter name_start name_length) (length out.old)) }
    ensures writes { out.new ≡ field_output text.now (part_of dimensions letter name_start name_length) out.old }
{
    station::nk_print_field(text, dimensions, letter, name_start, name_length, out)
}

#[unsafe(no_mangle)]
pub extern "C" fn nk_print_return(
    text: &[u8],
    dimensions: u32,
    letter: u32,
    name_start: u32,
    name_length: u32,
    out: &mut [u8],
) -> Answer
    ensures answers { result ≡ output_answer (print_return text.now (part_of dimensions letter name_start name_length) (length out.old)) }
    ensures writes { out.new ≡ return_output text.now (part_of dimensions letter name_start name_length) out.old }
{
    station::nk_print_return(text, dimensions, letter, name_start, name_length, out)
}

#[unsafe(no_mangle)]
pub extern "C" fn nk_print_method(
    text: &[u8],
    parameters: &[u32],
    count: u64,
    dimensions: u32,
    letter: u32,
    name_start: u32,
    name_length: u32,
    out: &mut [u8],
) -> Answer
    ensures answers { result ≡ output_answer (print_method text.now parameters.now count (part_of dimensions letter name_start name_length) (length out.old)) }
    ensures writes { out.new ≡ method_output text.now parameters.now count (part_of dimensions letter name_start name_length) out.old }
{
    station::nk_print_method(
        text,
        parameters,
        count,
        dimensions,
        letter,
        name_start,
        name_length,
        out,
    )
}

#[unsafe(no_mangle)]
pub extern "C" fn nk_identifier(name: &[u8], descriptor: &[u8], out: &mut [u8]) -> Answer
    ensures answers { result ≡ output_answer (identifying name.now descriptor.now (length out.old)) }
    ensures writes { out.new ≡ identifier_output name.now descriptor.now out.old }
{
    station::nk_identifier(name, descriptor, out)
}

#[unsafe(no_mangle)]
pub extern "C" fn nk_field_prefix(text: &[u8]) -> Parts
    ensures { result ≡ field_parts (field_prefix text.now) }
{
    station::nk_field_prefix(text)
}

#[unsafe(no_mangle)]
pub extern "C" fn nk_field_whole(text: &[u8]) -> Parts
    ensures { result ≡ field_parts (field_text text.now) }
{
    station::nk_field_whole(text)
}

#[unsafe(no_mangle)]
pub extern "C" fn nk_return_prefix(text: &[u8]) -> Parts
    ensures { result ≡ field_parts (return_prefix text.now) }
{
    station::nk_return_prefix(text)
}

#[unsafe(no_mangle)]
pub extern "C" fn nk_return_whole(text: &[u8]) -> Parts
    ensures { result ≡ field_parts (return_text text.now) }
{
    station::nk_return_whole(text)
}

// A letter of 0 says that the text is not an array.
#[unsafe(no_mangle)]
pub extern "C" fn nk_array(text: &[u8]) -> Parts
    ensures { result ≡ array_parts (length text.now) (array_text text.now) }
{
    station::nk_array(text)
}

#[unsafe(no_mangle)]
pub extern "C" fn nk_method_prefix(text: &[u8], parameters: &mut [u32]) -> Parts
    ensures answers { result ≡ method_parts (method_prefix (room_of parameters.old) text.now) }
    ensures stores { parameters.new ≡ prefix_store parameters.old text.now }
{
    station::nk_method_prefix(text, parameters)
}

#[unsafe(no_mangle)]
pub extern "C" fn nk_method_whole(text: &[u8], parameters: &mut [u32]) -> Parts
    ensures answers { result ≡ method_parts (method_text (room_of parameters.old) text.now) }
    ensures stores { parameters.new ≡ text_store parameters.old text.now }
{
    station::nk_method_whole(text, parameters)
}

#[unsafe(no_mangle)]
pub extern "C" fn nk_is_binary_name(text: &[u8]) -> bool
    ensures { result ≡ is_binary_name text.now }
{
    station::nk_is_binary_name(text)
}

#[unsafe(no_mangle)]
pub extern "C" fn nk_is_unqualified_name(text: &[u8]) -> bool
    ensures { result ≡ is_unqualified_name text.now }
{
    station::nk_is_unqualified_name(text)
}

#[unsafe(no_mangle)]
pub extern "C" fn nk_is_method_name(text: &[u8], init: bool, clinit: bool) -> bool
    ensures { result ≡ is_method_name init clinit text.now }
{
    station::nk_is_method_name(text, init, clinit)
}

#[unsafe(no_mangle)]
pub extern "C" fn nk_is_module_name(text: &[u8]) -> bool
    ensures { result ≡ is_module_name text.now }
{
    station::nk_is_module_name(text)
}

#[unsafe(no_mangle)]
pub extern "C" fn nk_is_field_descriptor(text: &[u8]) -> bool
    ensures { result ≡ is_field_text text.now }
{
    station::nk_is_field_descriptor(text)
}

#[unsafe(no_mangle)]
pub extern "C" fn nk_is_array_descriptor(text: &[u8]) -> bool
    ensures { result ≡ is_array_text text.now }
{
    station::nk_is_array_descriptor(text)
}

#[unsafe(no_mangle)]
pub extern "C" fn nk_is_return_descriptor(text: &[u8]) -> bool
    ensures { result ≡ is_return_text text.now }
{
    station::nk_is_return_descriptor(text)
}

#[unsafe(no_mangle)]
pub extern "C" fn nk_is_method_descriptor(text: &[u8]) -> bool
    ensures { result ≡ is_method_text text.now }
{
    station::nk_is_method_descriptor(text)
}
