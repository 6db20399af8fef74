// The four name checks of cafebabe's names.rs. A byte of 128 or more is an ordinary name byte, which on UTF-8 agrees
// with the checks on characters there. A name over the limit of a text is none.
#![tactic(auto)]

ghost use Rattle.std.specs.Prelude.{◌≡◌};
ghost use Rattle.names.specs.Names.{name_byte, name_text, plain_module_byte, escapable, is_unqualified_name, is_method_name, is_binary_name, is_module_name};

use laws::TEXT_LIMIT;

// Whether a byte may stand in a name: `<` and `>` are barred in a method's name alone. No `match` and no `matches!`: on a long
// name the one took twice the time, and the other 1.7 times the instructions.
fn is_name_byte(b: u8, in_method: bool) -> bool
    ensures { result ≡ name_byte in_method b }
{
    let barred = (b == b'.') | (b == b';') | (b == b'[') | (b == b'/');
    !(barred | (in_method & ((b == b'<') | (b == b'>'))))
}

// Whether a text has a byte, and only bytes that may stand in a name.
fn is_name_text(text: &[u8], in_method: bool) -> bool
    ensures { result ≡ name_text in_method text.now }
{
    !text.is_empty() && text.iter().all(|b| is_name_byte(*b, in_method))
}

// JVMS 4.2.2: a name of a field, a local variable or a formal parameter.
#[tactic(auto, using(crate::proofs::Laws::unqualified_within, crate::proofs::Laws::unqualified_over))]
pub fn is_unqualified_name(name: &[u8]) -> bool
    ensures { result ≡ is_unqualified_name name.now }
{
    name.len() <= TEXT_LIMIT && is_name_text(name, false)
}

// JVMS 4.2.2: a name of a method. Each flag says whether that special name is allowed too.
#[tactic(auto, using(crate::proofs::Laws::is_init, crate::proofs::Laws::is_clinit, crate::proofs::Laws::neither_special))]
pub fn is_unqualified_method_name(name: &[u8], allow_init: bool, allow_clinit: bool) -> bool
    ensures { result ≡ is_method_name allow_init allow_clinit name.now }
{
    if name == b"<init>".as_slice() {
        return allow_init;
    }
    if name == b"<clinit>".as_slice() {
        return allow_clinit;
    }
    name.len() <= TEXT_LIMIT && is_name_text(name, true)
}

// JVMS 4.2.1: unqualified names with a `/` between each two.
#[tactic(auto, using(crate::proofs::Laws::binary_within, crate::proofs::Laws::binary_over))]
pub fn is_binary_name(name: &[u8]) -> bool
    ensures { result ≡ is_binary_name name.now }
{
    if TEXT_LIMIT < name.len() {
        return false;
    }
    // Whether the segment that is being read has a byte yet. No `split`: it would look for the end of a segment before its
    // first byte is judged.
    let mut started = false;
    for &b in name {
        if b == b'/' {
            if !started {
                return false;
            }
            started = false;
        } else if !is_name_byte(b, false) {
            return false;
        } else {
            started = true;
        }
    }
    started
}

// Whether a byte may stand in a module's name by itself. A `\` may not: it opens a pair.
fn is_plain_module_byte(b: u8) -> bool
    ensures { result ≡ plain_module_byte b }
{
    !matches!(b, 0..0x20 | b':' | b'@' | b'\\')
}

// Whether a byte may follow the `\` that opens a pair.
fn is_escapable(b: u8) -> bool
    ensures { result ≡ escapable b }
{
    matches!(b, b'\\' | b':' | b'@')
}

// JVMS 4.2.3: `\` stands only in the pairs `\\`, `\:` and `\@`, taken from the left. The empty name is one.
#[tactic(auto, using(crate::proofs::Laws::module_within, crate::proofs::Laws::module_over, crate::proofs::Laws::bad_pair_there, crate::proofs::Laws::pair_there, crate::proofs::Laws::opens_there, crate::proofs::Laws::bad_plain_there, crate::proofs::Laws::plain_there, crate::proofs::Laws::end_there))]
pub fn is_module_name(name: &[u8]) -> bool
    ensures { result ≡ is_module_name name.now }
{
    if TEXT_LIMIT < name.len() {
        return false;
    }
    // Whether the byte before opened a pair.
    let mut escaped = false;
    for &b in name {
        if escaped {
            if !is_escapable(b) {
                return false;
            }
            escaped = false;
        } else if b == b'\\' {
            escaped = true;
        } else if !is_plain_module_byte(b) {
            return false;
        }
    }
    !escaped
}
