// A line in a lent output, and the pieces that are written into it one after the other: texts, texts of a table, numbers
// and blanks.
#![tactic(auto)]

ghost use Rattle.std.specs.Prelude.{◌≡◌, ◌+◌, ◌∷◌, [], length};
ghost use Rattle.phrases.specs.Wrote.{HasRoom, Wrote};
ghost use Rattle.phrases.specs.Texts.{item};
ghost use Rattle.phrases.specs.Numbers.{decimal, signed, blanks, pad_left};

// The text with the number n in a table, where each is ended by a bar, and nothing past its end. A table is one text, and an
// empty text is none, as the table is on paper: a row of slices with `Option` would say it no plainer.
fn item_of(texts: &[u8], n: usize) -> &[u8]
    ensures { result.now ≡ item n texts.now }
{
    texts.split(|byte| *byte == b'|').nth(n).unwrap_or(&[])
}

// A recursion, as the digits are on paper.
#[tactic(auto, using(crate::proofs::Numbers::length_digit, crate::proofs::Numbers::length_more, crate::proofs::Numbers::number_short))]
fn decimal_length(n: usize) -> usize
    ensures { result ≡ length (decimal n) }
{
    if n < 10 {
        return 1;
    }
    decimal_length(n / 10) + 1
}

#[tactic(auto, using(crate::proofs::Numbers::signed_plain, crate::proofs::Numbers::signed_minus, crate::proofs::Numbers::number_short))]
fn signed_length(word: u32) -> usize
    ensures { result ≡ length (signed word) }
{
    let value = word.cast_signed();
    let digits = decimal_length(value.unsigned_abs() as usize);
    if value < 0 { digits + 1 } else { digits }
}

// A line at the front of a lent output, and how many of its bytes are written. Each piece asks for the room that it may take:
// the sums are what an entry asks for at once, which a type could not say of each.
#[derive(Drop)]
pub struct Line<'a> {
    pub out: &'a mut [u8],
    pub length: usize,
}

impl Line<'_> {
    #[tactic(auto, unfolding(crate::specs::Wrote::with_bytes))]
    pub fn text(&mut self, text: &[u8])
        requires { HasRoom (length text.now) self.old }
        ensures { Wrote (length text.now) self.old text.now self.new }
    {
        output::put(self.out, self.length, text);
        self.length += text.len();
    }

    #[tactic(auto, unfolding(crate::specs::Wrote::with_bytes))]
    pub fn byte(&mut self, byte: u8)
        requires { HasRoom 1 self.old }
        ensures { Wrote 1 self.old (byte ∷ []) self.new }
    {
        self.out[self.length] = byte;
        self.length += 1;
    }

    // The text with the number n in a table.
    pub fn item(&mut self, texts: &[u8], n: usize)
        requires { HasRoom (length (item n texts.now)) self.old }
        ensures { Wrote (length (item n texts.now)) self.old (item n texts.now) self.new }
    {
        self.text(item_of(texts, n));
    }

    #[tactic(auto, unfolding(crate::specs::Wrote::with_bytes))]
    pub fn blanks(&mut self, count: usize)
        requires { HasRoom count self.old }
        ensures { Wrote count self.old (blanks count) self.new }
    {
        output::put_run(self.out, self.length, count, b' ');
        self.length += count;
    }

    // A number in decimal digits. A recursion, as `decimal` is on paper: a loop would write the digits from the last.
    #[tactic(auto, using(crate::proofs::Wrote::pieces, crate::proofs::Numbers::decimal_digit, crate::proofs::Numbers::decimal_more, crate::proofs::Numbers::tenth_short))]
    pub fn decimal(&mut self, n: usize)
        requires { HasRoom 20 self.old }
        ensures { Wrote 20 self.old (decimal n) self.new }
    {
        if n < 10 {
            return self.byte(b'0' + n as u8);
        }
        self.decimal(n / 10);
        self.byte(b'0' + (n % 10) as u8);
    }

    // A word of two's complement.
    #[tactic(auto, using(crate::proofs::Wrote::pieces, crate::proofs::Numbers::signed_plain, crate::proofs::Numbers::signed_minus))]
    pub fn signed(&mut self, word: u32)
        requires { HasRoom 21 self.old }
        ensures { Wrote 21 self.old (signed word) self.new }
    {
        let value = word.cast_signed();
        if value < 0 {
            self.byte(b'-');
        }
        self.decimal(value.unsigned_abs() as usize);
    }

    // A number, and a word of two's complement, at the right of a column. Two functions: one over both would take a trait with
    // their bytes, their lengths and laws, and be longer.
    #[tactic(auto, using(crate::proofs::Wrote::pieces), unfolding(crate::specs::Numbers::pad_left))]
    pub fn decimal_right(&mut self, width: usize, n: usize)
        requires { HasRoom (width + 20) self.old }
        ensures { Wrote (width + 20) self.old (pad_left width (decimal n)) self.new }
    {
        self.blanks(width.saturating_sub(decimal_length(n)));
        self.decimal(n);
    }

    #[tactic(auto, using(crate::proofs::Wrote::pieces), unfolding(crate::specs::Numbers::pad_left))]
    pub fn signed_right(&mut self, width: usize, word: u32)
        requires { HasRoom (width + 21) self.old }
        ensures { Wrote (width + 21) self.old (pad_left width (signed word)) self.new }
    {
        self.blanks(width.saturating_sub(signed_length(word)));
        self.signed(word);
    }
}
