// A line of the fixed list: the name of an entry and then sections of numbers, parted by `:` or `=`. A number is decimal, in
// a section of bytes hexadecimal; `9*27` is the number 9, 27 times; "La/;" is each of its bytes.
use std::fmt;

// What a store keeps of a number, and the base in which a section has it.
pub trait Number: Copy + Into<u64> {
    // The base of a number, no code for a kind.
    const BASE: u64;

    // The number's low bits, as many as are kept.
    fn low(number: u64) -> Self;
}

impl Number for u8 {
    const BASE: u64 = 16;

    fn low(number: u64) -> u8 {
        (number % (1 << 8)) as u8
    }
}

impl Number for u32 {
    const BASE: u64 = 10;

    fn low(number: u64) -> u32 {
        (number % (1 << 32)) as u32
    }
}

impl Number for u64 {
    const BASE: u64 = 10;

    fn low(number: u64) -> u64 {
        number
    }
}

// How an answer is not the one that its line has.
#[derive(Clone, Copy)]
pub enum Difference {
    // The first number that the line does not expect.
    Answered(u64),
    // The line expects more.
    NothingMore,
    LineGoesOn,
}

impl fmt::Display for Difference {
    fn fmt<W: fmt::Write>(&self, f: &mut fmt::Formatter<W>) -> fmt::Result {
        match self {
            Difference::Answered(number) => write!(f, "the answer has {number}"),
            Difference::NothingMore => f.write_str("the answer has nothing more"),
            Difference::LineGoesOn => f.write_str("the line goes on"),
        }
    }
}

// What is left of the list from somewhere in a line on, and a number that still comes so many times before it. Nothing but
// a mark or a difference ends a section, so one that is not in the form may go on in the next line.
#[derive(Drop)]
pub struct Line<'a> {
    rest: &'a [u8],
    quoted: bool,
    number: u64,
    left: u64,
}

impl<'a> Line<'a> {
    pub fn new(list: &'a [u8]) -> Self {
        Line {
            rest: list,
            quoted: false,
            number: 0,
            left: 0,
        }
    }

    pub fn bytes_left(&self) -> usize {
        self.rest.len()
    }

    // The name at the front, with the space that ends it.
    pub fn name(&mut self) -> &'a [u8] {
        let list = self.rest;
        let space = list.iter().position(|&byte| byte == b' ');
        let (name, rest) = list.split_at(space.map_or(list.len(), |at| at + 1));
        self.rest = rest;
        name
    }

    // The next byte of a text; past the list's end that is the end of a line.
    fn byte(&mut self) -> u8 {
        let Some((byte, rest)) = self.rest.split_first() else {
            return b'\n';
        };
        self.rest = rest;
        *byte
    }

    // Past the spaces and the quote marks, where each of those opens or closes a text. No `for`, here and at digits: the line
    // goes on from where the loop ends.
    fn skip(&mut self) {
        while let [byte, rest @ ..] = self.rest {
            match *byte {
                b'"' => self.quoted = !self.quoted,
                b' ' if !self.quoted => {}
                _ => break,
            }
            self.rest = rest;
        }
    }

    // The number whose digits stand here. The largest u64 stands for every number too large for a digit more.
    fn digits(&mut self, base: u64) -> Option<u64> {
        let mut number = None;
        while let [byte, rest @ ..] = self.rest {
            let Some(digit) = digit_of(*byte) else {
                break;
            };
            number = Some(match number.unwrap_or(0u64) {
                0x1000_0000_0000_0000.. => u64::MAX,
                front => front.saturating_mul(base).saturating_add(digit),
            });
            self.rest = rest;
        }
        number
    }

    // The number that stands here and how many times it comes, if the section does not end.
    fn item(&mut self, base: u64) -> Option<(u64, u64)> {
        self.skip();
        if self.quoted {
            return Some((u64::from(self.byte()), 1));
        }
        let number = self.digits(base)?;
        let Some(rest) = self.rest.strip_prefix(b"*") else {
            return Some((number, 1));
        };
        self.rest = rest;
        Some((number, self.digits(u64::BASE).unwrap_or(0)))
    }

    // The next number of the section, if it does not end.
    fn next_number(&mut self, base: u64) -> Option<u64> {
        if self.left == 0 {
            (self.number, self.left) = self.item(base)?;
        }
        self.left = self.left.checked_sub(1)?;
        Some(self.number)
    }

    // Past the mark that ends a section; at the end of the line there is none.
    fn close(&mut self) {
        self.skip();
        if let [b':' | b'=', rest @ ..] = self.rest {
            self.rest = rest;
        }
        self.quoted = false;
        self.left = 0;
    }

    // A section, as far as the store has room: the part of the store that it fills.
    pub fn read<'s, N: Number>(&mut self, store: &'s mut [N]) -> &'s mut [N] {
        let mut count = 0;
        for slot in store.iter_mut() {
            let before = (self.rest, self.quoted);
            let Some(number) = self.next_number(N::BASE) else {
                // What is no number stays for what comes after the section.
                (self.rest, self.quoted) = before;
                break;
            };
            *slot = N::low(number);
            count += 1;
        }
        self.close();
        &mut store[..count]
    }

    // A section of so many numbers; those that the line lacks are 0.
    pub fn numbers<N: Number, const K: usize>(&mut self) -> [N; K] {
        let mut numbers = [N::low(0); K];
        for number in numbers.iter_mut() {
            *number = N::low(self.next_number(N::BASE).unwrap_or(0));
        }
        self.close();
        numbers
    }

    // The section is to have these numbers and no more. After the first difference nothing is looked at, so that what is
    // left of the line tells its place.
    pub fn expect<N: Number>(&mut self, answered: &[N]) -> Result<(), Difference> {
        for &number in answered {
            let number = number.into();
            if self.next_number(N::BASE) != Some(number) {
                return Err(Difference::Answered(number));
            }
        }
        if self.next_number(N::BASE).is_some() {
            return Err(Difference::NothingMore);
        }
        self.close();
        Ok(())
    }

    pub fn expect_end(&self) -> Result<(), Difference> {
        match self.rest.first() {
            None | Some(b'\n') => Ok(()),
            Some(_) => Err(Difference::LineGoesOn),
        }
    }
}

// Not `to_digit`, which takes capital letters too.
fn digit_of(byte: u8) -> Option<u64> {
    match byte {
        b'0'..=b'9' => Some(u64::from(byte - b'0')),
        b'a'..=b'f' => Some(u64::from(byte - b'a') + 10),
        _ => None,
    }
}
