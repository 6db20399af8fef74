// The identifier under which a method's records are kept.
#![tactic(auto)]

ghost use Rattle.std.specs.Prelude.{◌≡◌, ◌≤◌, length};
ghost use Rattle.laws.specs.Bytes.{text_limit};
ghost use Rattle.output.specs.Output.{writing, output_after};
ghost use Rattle.identifier.specs.Identifier.{identifier_bytes, check_method, identifying, identifier_output};

use output::Output;
use refusals::{Reason, Refusal};

// The bytes of an identifier, written at the front of the output once they are known to fit. The lengths are within the
// limit, so that their sum does not wrap. Asked, not a `Text` of each: that would bring a refusal that cannot come.
#[tactic(auto, using(crate::proofs::Laws::identifier_too_short))]
fn write_identifier(name: &[u8], descriptor: &[u8], out: &mut [u8]) -> Output
    requires { (length name.now ≤ text_limit) × (length descriptor.now ≤ text_limit) }
    ensures answers { result ≡ writing (identifier_bytes name.now descriptor.now) (length out.old) }
    ensures writes { out.new ≡ output_after (writing (identifier_bytes name.now descriptor.now) (length out.old)) (identifier_bytes name.now descriptor.now) out.old }
{
    let length = name.len() + descriptor.len();
    if out.len() < length {
        return Err(Reason::TooShort.at(0));
    }
    output::put(out, 0, name);
    output::put(out, name.len(), descriptor);
    Ok(length)
}

// Whether a method's name and descriptor are valid: the name is looked at first.
#[tactic(auto, unfolding(crate::specs::Identifier::check_method, crate::specs::Identifier::unless_refused))]
fn check_method(name: &[u8], descriptor: &[u8]) -> Result<(), Refusal<usize>>
    ensures { result ≡ check_method name.now descriptor.now }
{
    if !names::is_unqualified_method_name(name, true, true) {
        return Err(Reason::NameNotValid.at(0));
    }
    methods::method_check(descriptor)?;
    Ok(())
}

// The identifier of a method: the name is looked at first, then the descriptor, then the room.
pub fn method_identifier(name: &[u8], descriptor: &[u8], out: &mut [u8]) -> Output
    ensures answers { result ≡ identifying name.now descriptor.now (length out.old) }
    ensures writes { out.new ≡ identifier_output name.now descriptor.now out.old }
{
    check_method(name, descriptor)?;
    write_identifier(name, descriptor, out)
}
