// The methods of a bundle, one after another: for each its name, descriptor, pool table and code. Each of these sections is
// its length, in two bytes or for the code in four, and then as many bytes.
#![tactic(auto)]

ghost use Rattle.std.specs.Prelude.{◌≡◌, ◌≤◌, ◌<◌};
ghost use Rattle.bundle.specs.Reading.{section_of, next_of};

use read::{CodeOffset, left, read_number};
use refusals::Refusal;

// Where a section's bytes start and end in the bundle.
#[derive(Clone, Copy, Debug, PartialEq, Eq)]
pub struct Section {
    pub start: usize,
    pub end: usize,
}

#[derive(Clone, Copy, Debug, PartialEq, Eq)]
pub struct Sections {
    pub name: Section,
    pub descriptor: Section,
    pub pool: Section,
    pub code: Section,
}

// A method that is cut short. The place is the first byte of the length, or of the bytes, that the bundle is too short for.
#[derive(Clone, Copy, Debug, PartialEq, Eq)]
pub struct CutShort {
    pub place: usize,
}

// A read past the end is the section cut short at its length.
impl From<Refusal<CodeOffset>> for CutShort {
    ghost from_gives = { λ refusal cut. cut ≡ record { place = refusal.place.0 } };

    fn from(refusal: Refusal<CodeOffset>) -> CutShort {
        CutShort {
            place: refusal.place.0,
        }
    }
}

// The section at an offset, whose length has N bytes.
#[tactic(auto, using(crate::proofs::Laws::length_missing, crate::proofs::Laws::some_missing, crate::proofs::Laws::all_there))]
fn read_section<const N: usize>(bundle: &[u8], at: usize) -> Result<Section, CutShort>
    requires { (0 < N) × (N ≤ 4) }
    ensures { result ≡ section_of N bundle.now at }
{
    let (size, CodeOffset(start)) = read_number::<N>(bundle, CodeOffset(at))?;
    let bytes = size as usize;
    if left(bundle, CodeOffset(start)) < bytes {
        return Err(CutShort { place: start });
    }
    Ok(Section {
        start,
        end: start + bytes,
    })
}

// The method at an offset, which may be any, or none where the bundle ends there.
#[tactic(auto, using(crate::proofs::Laws::at_end, crate::proofs::Laws::next_is_method), unfolding(crate::specs::Reading::method_of, crate::specs::Reading::then_section))]
pub fn next_method(bundle: &[u8], at: usize) -> Result<Option<Sections>, CutShort>
    ensures { result ≡ next_of bundle.now at }
{
    if at == bundle.len() {
        return Ok(None);
    }
    let name = read_section::<2>(bundle, at)?;
    let descriptor = read_section::<2>(bundle, name.end)?;
    let pool = read_section::<2>(bundle, descriptor.end)?;
    let code = read_section::<4>(bundle, pool.end)?;
    Ok(Some(Sections {
        name,
        descriptor,
        pool,
        code,
    }))
}
