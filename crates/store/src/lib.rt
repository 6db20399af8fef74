// A lent store of words.
#![tactic(auto)]

ghost use Rattle.std.specs.Prelude.{◌≡◌, length, replicate};

// Every word is zero, those past the last whole record too.
pub fn clear(store: &mut [u32])
    ensures { store.new ≡ replicate (length store.old) 0 }
{
    store.fill(0);
}
