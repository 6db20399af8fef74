// The constant pool as a lent table of kinds: byte i is the tag of entry i.
#![tactic(auto)]

ghost use Rattle.std.specs.Prelude.{◌≡◌};
ghost use Rattle.pool.specs.Tags.{allows_tag};
ghost use Rattle.pool.specs.Entries.{entry_at, entry_of_kind};

use refusals::Reason;

// The sets of kinds that an instruction may name.
#[derive(Clone, Copy)]
pub enum Kinds {
    Loadable,
    Field,
    Method,
    MethodOrInterfaceMethod,
    InterfaceMethod,
    InvokeDynamic,
    Class,
}

// Whether an entry with this tag is of one of the kinds.
pub fn allows_tag(kinds: Kinds, tag: u8) -> bool
    ensures { result ≡ allows_tag kinds tag }
{
    match kinds {
        Kinds::Loadable => matches!(tag, 3..=8 | 15..=17),
        Kinds::Field => tag == 9,
        Kinds::Method => tag == 10,
        Kinds::MethodOrInterfaceMethod => matches!(tag, 10 | 11),
        Kinds::InterfaceMethod => tag == 11,
        Kinds::InvokeDynamic => tag == 18,
        Kinds::Class => tag == 7,
    }
}

// The tag of the entry that an index names. The place of a refusal is the index's own, which the caller knows. Byte 0 of the
// table is never looked at.
#[tactic(auto, unfolding(crate::specs::Entries::entry_at))]
pub fn entry_at(pool: &[u8], index: u32) -> Result<u8, Reason>
    ensures { result ≡ entry_at pool.now index }
{
    let i = index as usize;
    if i == 0 {
        return Err(Reason::NoEntry);
    }
    pool.get(i).copied().ok_or(Reason::NoEntry)
}

// The same, of one of the kinds.
#[tactic(auto, unfolding(crate::specs::Entries::of_kind))]
pub fn entry_of_kind(pool: &[u8], kinds: Kinds, index: u32) -> Result<u8, Reason>
    ensures { result ≡ entry_of_kind pool.now kinds index }
{
    let tag = entry_at(pool, index)?;
    if !allows_tag(kinds, tag) {
        return Err(Reason::WrongKind);
    }
    Ok(tag)
}
