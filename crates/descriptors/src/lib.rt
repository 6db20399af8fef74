// Field, return and array descriptors, as cafebabe's descriptors.rs reads them. Linear in the text: no
// byte is read twice but for the one that a type begins with. What reads a part is inlined: with a result that passes through
// memory a method's parameters took twice the time.
#![tactic(auto)]

ghost use Rattle.std.specs.Prelude.{◌≡◌, ◌+◌, ◌≤◌, ◌<◌, length, get_or, drop};
ghost use Rattle.laws.specs.Bytes.{begins_with};
ghost use Rattle.descriptors.specs.Texts.{is_base_type, is_void, base, void, object, object_from, type_from, field_from, return_from, whole, field_prefix, field_text, return_prefix, return_text, array_text, is_field_text, is_return_text, is_array_text};

use class_names::NameEnd;
use refusals::{Reason, Refusal};
use texts::Text;

// The parts of a descriptor, four words, as C has them: the letter is a byte, and start and length are those of the class name in the
// text, 0 and 0 without one.
#[derive(Clone, Copy, PartialEq, Eq)]
pub struct FieldDescriptor {
    pub dimensions: u32,
    pub letter: u32,
    pub start: u32,
    pub length: u32,
}

impl FieldDescriptor {
    // A limit, no kind.
    pub const MAX_DIMENSIONS: u32 = 255;

    pub fn base(dimensions: u32, letter: u32) -> Self
        ensures { result ≡ base dimensions letter }
    {
        Self {
            dimensions,
            letter,
            start: 0,
            length: 0,
        }
    }

    pub fn void() -> Self
        ensures { result ≡ void }
    {
        FieldDescriptor::base(0, b'V' as u32)
    }

    pub fn object(dimensions: u32, start: u32, length: u32) -> Self
        ensures { result ≡ object dimensions start length }
    {
        Self {
            dimensions,
            letter: b'L' as u32,
            start,
            length,
        }
    }
}

// What a reading finds: what was read with the bytes used, or a refusal.
pub type Parsed<T> = Result<(T, usize), Refusal<usize>>;

pub type Field = Parsed<FieldDescriptor>;

pub fn is_base_type(b: u8) -> bool
    ensures { result ≡ is_base_type b }
{
    matches!(b, b'B' | b'C' | b'D' | b'F' | b'I' | b'J' | b'S' | b'Z')
}

// The object type whose class name starts at an offset, after its `L`.
#[inline(always)]
#[tactic(auto, using(crate::proofs::Laws::object_named))]
fn object_at(text: Text, dimensions: u32, start: usize) -> Field
    requires { start ≤ length text.bytes.now }
    ensures { result ≡ object_from dimensions start (drop start text.entry.bytes.now) }
{
    match class_names::name_end(text.bytes, start)? {
        NameEnd::Semicolon(end) => {
            let parts = FieldDescriptor::object(dimensions, start as u32, (end - start) as u32);
            Ok((parts, end + 1))
        }
        NameEnd::TextEnd(end) => Err(Reason::NameNotEnded.at(end)),
    }
}

// The base or object type whose letter stands at an offset.
#[inline(always)]
#[tactic(auto, using(crate::proofs::Laws::object_read, crate::proofs::Laws::base_read, crate::proofs::Laws::no_type_read))]
fn type_at(text: Text, dimensions: u32, at: usize) -> Field
    requires { at < length text.bytes.now }
    ensures { result ≡ type_from dimensions at (get_or text.entry.bytes.now at 0) (drop (at + 1) text.entry.bytes.now) }
{
    let letter = text.bytes[at];
    if letter == b'L' {
        return object_at(text, dimensions, at + 1);
    }
    if is_base_type(letter) {
        return Ok((FieldDescriptor::base(dimensions, letter as u32), at + 1));
    }
    Err(Reason::NoSuchType.at(at))
}

// The field descriptor that starts at an offset; what follows it is ignored. For readers of longer texts.
#[inline(always)]
#[tactic(auto, using(crate::proofs::Laws::type_there, crate::proofs::Laws::bracket_256_there, crate::proofs::Laws::bracket_there))]
pub fn field_at(text: Text, start: usize) -> Field
    ensures { result ≡ field_from 0 start (drop start text.entry.bytes.now) }
{
    let mut dimensions = 0;
    let end = text.bytes.len().max(start);
    // By index: a place is answered, and the start may lie past the end.
    for at in start..end {
        if text.bytes[at] != b'[' {
            return type_at(text, dimensions, at);
        }
        if dimensions == FieldDescriptor::MAX_DIMENSIONS {
            return Err(Reason::Dimension256.at(at));
        }
        dimensions += 1;
    }
    Err(Reason::TypeDue.at(end))
}

// Whether `V` is all that stands from an offset on.
fn is_void(text: &[u8], at: usize) -> bool
    ensures { result ≡ is_void (drop at text.now) }
{
    text.get(at..) == Some(b"V".as_slice())
}

// The return descriptor that starts at an offset, for the same readers as `field_at`.
#[inline(always)]
#[tactic(auto, using(crate::proofs::Laws::void_read, crate::proofs::Laws::value_read))]
pub fn return_at(text: Text, start: usize) -> Field
    ensures { result ≡ return_from start (drop start text.entry.bytes.now) }
{
    if is_void(text.bytes, start) {
        return Ok((FieldDescriptor::void(), start + 1));
    }
    field_at(text, start)
}

// A reading of a text of so many bytes that must use them all. It passes a refusal on, as its definition does.
#[tactic(auto, using(crate::proofs::Laws::used_whole))]
pub fn all_used<T: Copy>(length: usize, reading: Parsed<T>) -> Parsed<T>
    ensures { result ≡ whole length reading }
{
    let (read, used) = reading?;
    if used < length {
        return Err(Reason::LeftOver.at(used));
    }
    Ok((read, used))
}

// The field descriptor that a text begins with; what follows it is ignored.
#[inline(always)]
#[tactic(auto, using(crate::proofs::Laws::field_too_long, crate::proofs::Laws::field_short))]
pub fn field_prefix(text: &[u8]) -> Field
    ensures { result ≡ field_prefix text.now }
{
    field_at(Text::new(text)?, 0)
}

// A text that is a field descriptor and nothing more.
pub fn field_whole(text: &[u8]) -> Field
    ensures { result ≡ field_text text.now }
{
    all_used(text.len(), field_prefix(text))
}

// The same for a return descriptor, in which `V` is void only as the entire rest of the text.
#[inline(always)]
#[tactic(auto, using(crate::proofs::Laws::return_too_long, crate::proofs::Laws::return_short))]
pub fn return_prefix(text: &[u8]) -> Field
    ensures { result ≡ return_prefix text.now }
{
    return_at(Text::new(text)?, 0)
}

pub fn return_whole(text: &[u8]) -> Field
    ensures { result ≡ return_text text.now }
{
    all_used(text.len(), return_prefix(text))
}

// Whether a byte stands at an offset, for readers of longer texts too.
pub fn begins_with(text: &[u8], at: usize, b: u8) -> bool
    ensures { result ≡ begins_with b (drop at text.now) }
{
    text.get(at) == Some(&b)
}

// A text that is a field descriptor of an array and nothing more, or no array.
#[tactic(auto, using(crate::proofs::Laws::array_too_long, crate::proofs::Laws::array_short_none, crate::proofs::Laws::array_short_read))]
pub fn array_whole(text: &[u8]) -> Result<Option<FieldDescriptor>, Refusal<usize>>
    ensures { result ≡ array_text text.now }
{
    let text = Text::new(text)?;
    if !begins_with(text.bytes, 0, b'[') {
        return Ok(None);
    }
    let (parts, _) = field_whole(text.bytes)?;
    Ok(Some(parts))
}

// Yes or no, as the whole readings accept or refuse.
pub fn is_field_descriptor(text: &[u8]) -> bool
    ensures { result ≡ is_field_text text.now }
{
    field_whole(text).is_ok()
}

pub fn is_return_descriptor(text: &[u8]) -> bool
    ensures { result ≡ is_return_text text.now }
{
    return_whole(text).is_ok()
}

pub fn is_array_descriptor(text: &[u8]) -> bool
    ensures { result ≡ is_array_text text.now }
{
    begins_with(text, 0, b'[') && field_whole(text).is_ok()
}
