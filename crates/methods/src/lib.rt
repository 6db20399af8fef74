// Method descriptors, as cafebabe's descriptors.rs reads them, with the parameters' parts in a lent store. Linear in the
// text: a parameter is read once.
#![tactic(auto)]

ghost use Rattle.std.specs.Prelude.{◌≡◌, ℕ, ◌+◌, ◌*◌, ◌≤◌, true, false, List, [], Option, Some, None, length, drop, MatchResult};
ghost use Rattle.std.proofs.lemmas.List.Edits.{sets};
ghost use Rattle.methods.specs.Texts.{part_words, words, room_of, next_from, rest_reading, within_room, has_room, answer_from, store_from, opening, method_reading, method_prefix, method_text, method_check, store_after, prefix_store, text_store, is_method_text};

use descriptors::{FieldDescriptor, Parsed, all_used};
use refusals::{Reason, Refusal};
use texts::Text;

// The words of a parameter's record. On paper: `part_words`.
pub const PART_WORDS: usize = 4;

// The number of parameters and the return part.
#[derive(Clone, Copy)]
pub struct MethodDescriptor {
    pub parameters: usize,
    pub returned: FieldDescriptor,
}

// What a reading finds: the descriptor with the bytes used, or a refusal.
pub type Method = Parsed<MethodDescriptor>;

// What stands where a parameter may: a parameter and the offset after it, or `)` and the return part with the bytes used.
#[derive(Clone, Copy)]
pub enum Next {
    Parameter(FieldDescriptor, usize),
    Return(FieldDescriptor, usize),
}

// Inlined, as the readings of descriptors are.
#[inline(always)]
#[tactic(auto, using(crate::proofs::Laws::return_read, crate::proofs::Laws::parameter_read))]
fn next_part(text: Text, at: usize) -> Result<Next, Refusal<usize>>
    ensures { result ≡ next_from at (drop at text.entry.bytes.now) }
{
    if descriptors::begins_with(text.bytes, at, b')') {
        let (part, used) = descriptors::return_at(text, at + 1)?;
        return Ok(Next::Return(part, used));
    }
    let (part, next) = descriptors::field_at(text, at)?;
    Ok(Next::Parameter(part, next))
}

// Where the parts of the parameters go.
trait PartStore {
    // The words that stand there, how many parts there is room for, and which borrow lends it: the same one afterwards.
    ghost stored: { Self → List ℕ };

    ghost room: { Self → Option ℕ };

    ghost lent: { Self → ℕ };

    // The part of the parameter at an index goes there, if there is room.
    fn keep(&mut self, index: usize, part: FieldDescriptor) -> bool
        ensures answer { result ≡ has_room (room self.old) index }
        ensures kept { result ≡ true → stored self.new ≡ sets (stored self.old) (index * part_words) (words part) }
        ensures full { result ≡ false → stored self.new ≡ stored self.old }
        ensures same { (room self.new ≡ room self.old) × (lent self.new ≡ lent self.old) };
}

// A lent store: the records stand at its front.
#[derive(Drop)]
struct Words<'a>(&'a mut [u32]);

impl<'a> PartStore for Words<'a> {
    ghost stored = { λ s. s.0.now };

    ghost room = { λ s. Some (room_of s.0.now) };

    ghost lent = { λ s. s.0.ghost_name };

    fn keep(&mut self, index: usize, part: FieldDescriptor) -> bool {
        let fits = index < self.0.len() / PART_WORDS;
        if fits {
            put_part(self.0, index, part);
        }
        fits
    }
}

// No store: the parts go nowhere, and there is always room.
#[derive(Drop)]
struct NoStore;

impl PartStore for NoStore {
    ghost stored = { λ _. [] };

    ghost room = { λ _. None };

    ghost lent = { λ _. 0 };

    fn keep(&mut self, _index: usize, _part: FieldDescriptor) -> bool {
        true
    }
}

// The record of a parameter, written at its index.
fn put_part(store: &mut [u32], index: usize, part: FieldDescriptor)
    requires { (index + 1) * part_words ≤ length store.old }
    ensures { store.new ≡ sets store.old (index * part_words) (words part) }
{
    let at = index * PART_WORDS;
    let record = [part.dimensions, part.letter, part.start, part.length];
    store[at..at + PART_WORDS].copy_from_slice(&record);
}

// What stands after `(`, the parameters' parts kept. A refusal leaves those read before it there.
fn read_rest<S: PartStore>(text: Text, store: &mut S) -> Method
    requires { 1 ≤ length text.bytes.now }
    ensures answers { result ≡ answer_from 0 (within_room (S.room store.old) (rest_reading text.entry.bytes.now)) }
    ensures fills { S.stored store.new ≡ store_from (S.stored store.old) 0 (within_room (S.room store.old) (rest_reading text.entry.bytes.now)) }
    ensures same { S.lent store.new ≡ S.lent store.old }
{
    let mut parameters = 0;
    // Where the next part starts: only the part before it says so, so no range or iterator counts this loop.
    let mut at = 1;
    loop {
        match next_part(text, at)? {
            Next::Return(returned, used) => {
                return Ok((
                    MethodDescriptor {
                        parameters,
                        returned,
                    },
                    used,
                ));
            }
            Next::Parameter(part, next) => {
                if !store.keep(parameters, part) {
                    return Err(Reason::NoPartLeft.at(at));
                }
                parameters += 1;
                at = next;
            }
        }
    }
}

// The text, which opens with a parenthesis.
#[tactic(auto, using(crate::proofs::Laws::opening_over, crate::proofs::Laws::opens, crate::proofs::Laws::opens_not))]
fn opened<'a>(text: &'a [u8]) -> Result<Text<'a>, Refusal<usize>>
    ensures { MatchResult result (λ t. (t.bytes.now ≡ text.now) × (opening text.now ≡ Ok tt)) (λ r. opening text.now ≡ Err r) }
{
    let text = Text::new(text)?;
    if !descriptors::begins_with(text.bytes, 0, b'(') {
        return Err(Reason::NoParenthesis.at(0));
    }
    Ok(text)
}

// The answer, the store cleared if it is a refusal.
#[tactic(auto, using(crate::proofs::Laws::settled_read, crate::proofs::Laws::settled_refused))]
fn settled(store: &mut [u32], answer: Method) -> Method
    ensures same { result ≡ answer }
    ensures clears { store.new ≡ store_after answer store.old }
{
    if answer.is_err() {
        store::clear(store);
    }
    answer
}

// The descriptor read, the parameters' parts kept. A refusal leaves those read before it there.
fn read_method<S: PartStore>(text: &[u8], store: &mut S) -> Method
    ensures answers { result ≡ answer_from 0 (within_room (S.room store.old) (method_reading text.now)) }
    ensures fills { S.stored store.new ≡ store_from (S.stored store.old) 0 (within_room (S.room store.old) (method_reading text.now)) }
    ensures same { S.lent store.new ≡ S.lent store.old }
{
    read_rest(opened(text)?, store)
}

// The method descriptor that a text begins with; what follows it is ignored.
pub fn method_prefix(text: &[u8], store: &mut [u32]) -> Method
    ensures answers { result ≡ method_prefix (room_of store.old) text.now }
    ensures stores { store.new ≡ prefix_store store.old text.now }
{
    let answer = read_method(text, &mut Words(store));
    settled(store, answer)
}

// A text that is a method descriptor and nothing more.
pub fn method_whole(text: &[u8], store: &mut [u32]) -> Method
    ensures answers { result ≡ method_text (room_of store.old) text.now }
    ensures stores { store.new ≡ text_store store.old text.now }
{
    let answer = all_used(text.len(), read_method(text, &mut Words(store)));
    settled(store, answer)
}

// The whole reading with no store: its answer where there is always room.
pub fn method_check(text: &[u8]) -> Method
    ensures { result ≡ method_check text.now }
{
    all_used(text.len(), read_method(text, &mut NoStore))
}

pub fn is_method_descriptor(text: &[u8]) -> bool
    ensures { result ≡ is_method_text text.now }
{
    method_check(text).is_ok()
}
