// A lent output of bytes.
#![tactic(auto)]

ghost use Rattle.std.specs.Prelude.{◌≡◌, ◌+◌, ◌≤◌, length, replicate};
ghost use Rattle.std.proofs.lemmas.List.Edits.{sets};

use refusals::Refusal;

// What a writing answers: the length written, or a refusal.
pub type Output = Result<usize, Refusal<usize>>;

// Bytes copied into the output, from an offset on. By index: for `copy_from_slice` an archive for C would need `memmove` from
// outside.
pub fn put(out: &mut [u8], at: usize, bytes: &[u8])
    requires { at + length bytes.now ≤ length out.old }
    ensures { out.new ≡ sets out.old at bytes.now }
{
    for i in 0..bytes.len() {
        out[at + i] = bytes[i];
    }
}

// One byte so many times, from an offset on. An output with an offset, no line of `phrases`: printing knows where each part
// goes before it writes.
pub fn put_run(out: &mut [u8], at: usize, count: usize, byte: u8)
    requires { at + count ≤ length out.old }
    ensures { out.new ≡ sets out.old at (replicate count byte) }
{
    let end = at + count;
    out[at..end].fill(byte);
}
