// The segments of class names, as `parse_unqualified_segment` of cafebabe's descriptors.rs reads them, and class names
// that stand alone.
#![tactic(auto)]

ghost use Rattle.std.specs.Prelude.{false, ◌≡◌, drop};
ghost use Rattle.class_names.specs.Names.{is_separator, is_barred, name_from, class_name, is_class_name};

use refusals::{Reason, Refusal};
use texts::Text;

// What a run of segments ends at: the `;` after one, or the end of the text.
#[derive(Clone, Copy)]
pub enum NameEnd {
    Semicolon(usize),
    TextEnd(usize),
}

fn is_separator(b: u8) -> bool
    ensures { result ≡ is_separator b }
{
    matches!(b, b'/' | b';')
}

fn is_barred(b: u8) -> bool
    ensures { result ≡ is_barred b }
{
    matches!(b, b'.' | b'[' | b'<' | b'>')
}

// The segments from an offset on. The one place that knows the rule of a class name. Not inlined: within a larger reading this
// loop took half as many instructions more.
#[inline(never)]
#[tactic(auto, using(crate::proofs::Laws::empty_there, crate::proofs::Laws::semicolon_there, crate::proofs::Laws::slash_there, crate::proofs::Laws::barred_there, crate::proofs::Laws::name_byte_there, crate::proofs::Laws::end_there))]
pub fn name_end(text: &[u8], start: usize) -> Result<NameEnd, Refusal<usize>>
    ensures { result ≡ name_from false start (drop start text.now) }
{
    // Whether the segment that is being read has a byte yet.
    let mut started = false;
    let end = text.len().max(start);
    // By index: a place is answered, and the start may lie past the end.
    for at in start..end {
        let b = text[at];
        if is_separator(b) {
            if !started {
                return Err(Reason::EmptySegment.at(at));
            }
            if b == b';' {
                return Ok(NameEnd::Semicolon(at));
            }
            started = false;
            continue;
        }
        if is_barred(b) {
            return Err(Reason::BarredByte.at(at));
        }
        started = true;
    }
    Ok(NameEnd::TextEnd(end))
}

// A class name that stands alone, as in the constant pool: the last segment may be empty, and no `;` may stand in it.
#[tactic(auto, using(crate::proofs::Laws::over_alone, crate::proofs::Laws::end_alone))]
pub fn class_name(text: &[u8]) -> Result<(), Refusal<usize>>
    ensures { result ≡ class_name text.now }
{
    let text = Text::new(text)?;
    match name_end(text.bytes, 0)? {
        NameEnd::Semicolon(place) => Err(Reason::LoneSemicolon.at(place)),
        NameEnd::TextEnd(_) => Ok(()),
    }
}

// A class name without the `;` that ends it in a descriptor.
#[tactic(auto, using(crate::proofs::Laws::semicolon_no_name, crate::proofs::Laws::refused_no_name, crate::proofs::Laws::end_name))]
pub fn is_class_name(name: &[u8]) -> bool
    ensures { result ≡ is_class_name name.now }
{
    // Each way that is none by itself: only the first is a name.
    match name_end(name, 0) {
        Ok(NameEnd::TextEnd(_)) => name.last().is_some_and(|b| *b != b'/'),
        Ok(NameEnd::Semicolon(_)) => false,
        Err(_) => false,
    }
}
