// A case of the fixed list, each by the form of its line. ANSWER stands for the five numbers of `Answer` and PARTS for the
// eight of `Parts`, in their order; what was lent stands after them as the entry left it.
use crate::line::{Difference, Line};
use station::{Answer, Parts};

// Room for the longest code, name or text of the list.
const TEXT_ROOM: usize = 65536;

// Room for its longest store.
const STORE_ROOM: usize = 16384;

// Room for its longest output.
const OUT_ROOM: usize = 131072;

// A case while it runs.
#[derive(Drop)]
pub struct Case<'a> {
    pub line: Line<'a>,
    // The number of its answer.
    pub refusal: u32,
}

impl<'a> Case<'a> {
    // The case at the front of what is left of the list.
    pub fn new(list: &'a [u8]) -> Self {
        Case {
            line: Line::new(list),
            refusal: 0,
        }
    }

    // Whether the line has what its entry answers, and nothing more.
    pub fn run(&mut self) -> Result<(), Difference> {
        self.run_entry()?;
        self.line.expect_end()
    }

    // A name that is none of these is taken for the last of its group.
    fn run_entry(&mut self) -> Result<(), Difference> {
        match self.line.name() {
            b"decode " => self.decode(),
            b"lookup " => self.lookup(),
            b"method_prefix " => self.method(station::nk_method_prefix),
            name if name.starts_with(b"method_") => self.method(station::nk_method_whole),
            b"print_method " => self.print_method(),
            b"print_field " => self.print(station::nk_print_field),
            name if name.starts_with(b"print_") => self.print(station::nk_print_return),
            b"identifier " => self.identifier(),
            name => self.run_text(name),
        }
    }

    // The entries of one text and nothing lent.
    fn run_text(&mut self, name: &[u8]) -> Result<(), Difference> {
        match name {
            b"is_binary_name " => self.check(station::nk_is_binary_name),
            b"is_unqualified_name " => self.check(station::nk_is_unqualified_name),
            b"is_module_name " => self.check(station::nk_is_module_name),
            b"is_method_name " => self.check_method_name(),
            b"is_field_descriptor " => self.check(station::nk_is_field_descriptor),
            b"is_array_descriptor " => self.check(station::nk_is_array_descriptor),
            b"is_return_descriptor " => self.check(station::nk_is_return_descriptor),
            name if name.starts_with(b"is_") => self.check(station::nk_is_method_descriptor),
            b"class_name " => self.class_name(),
            b"field_prefix " => self.parts(station::nk_field_prefix),
            b"field_whole " => self.parts(station::nk_field_whole),
            b"return_prefix " => self.parts(station::nk_return_prefix),
            b"return_whole " => self.parts(station::nk_return_whole),
            _ => self.parts(station::nk_array),
        }
    }

    fn expect_answer(&mut self, answer: Answer) -> Result<(), Difference> {
        self.refusal = answer.number;
        self.line.expect(&[
            u64::from(answer.number),
            u64::from(answer.second),
            answer.place,
            answer.first,
            answer.next,
        ])
    }

    fn expect_parts(&mut self, parts: Parts) -> Result<(), Difference> {
        self.refusal = parts.number;
        self.line.expect(&[
            u64::from(parts.number),
            u64::from(parts.dimensions),
            u64::from(parts.letter),
            u64::from(parts.start),
            u64::from(parts.length),
            u64::from(parts.parameters),
            parts.place,
            parts.used,
        ])
    }

    // 1 is yes and 0 is no.
    fn expect_yes(&mut self, yes: bool) -> Result<(), Difference> {
        self.line.expect(&[u64::from(yes)])
    }

    // decode CODE : POOL : RECORDS : ENTRIES = ANSWER : RECORDS : ENTRIES
    fn decode(&mut self) -> Result<(), Difference> {
        let (mut codes, mut pools) = ([0u8; TEXT_ROOM], [0u8; TEXT_ROOM]);
        let (mut record_store, mut entry_store) = ([0u32; STORE_ROOM], [0u32; STORE_ROOM]);
        let code = self.line.read(&mut codes);
        let pool = self.line.read(&mut pools);
        let records = self.line.read(&mut record_store);
        let entries = self.line.read(&mut entry_store);
        self.expect_answer(station::nk_decode(code, pool, records, entries))?;
        self.line.expect(records)?;
        self.line.expect(entries)
    }

    // lookup RECORDS : COUNT OFFSET = ANSWER
    fn lookup(&mut self) -> Result<(), Difference> {
        let mut store = [0u32; STORE_ROOM];
        let records = self.line.read(&mut store);
        let [count, offset] = self.line.numbers::<u64, 2>();
        self.expect_answer(station::nk_lookup(records, count, offset))
    }

    // field_prefix TEXT = PARTS, and likewise the others with parts but no parameters
    fn parts<F: Fn(&[u8]) -> Parts>(&mut self, entry: F) -> Result<(), Difference>
        requires { F.IsAlwaysCallable entry }
    {
        let mut texts = [0u8; TEXT_ROOM];
        let text = self.line.read(&mut texts);
        self.expect_parts(entry(text))
    }

    // method_prefix TEXT : PARAMETERS = PARTS : PARAMETERS, and likewise method_whole
    fn method<F: Fn(&[u8], &mut [u32]) -> Parts>(&mut self, entry: F) -> Result<(), Difference>
        requires { F.IsAlwaysCallable entry }
    {
        let mut texts = [0u8; TEXT_ROOM];
        let mut store = [0u32; STORE_ROOM];
        let text = self.line.read(&mut texts);
        let parameters = self.line.read(&mut store);
        self.expect_parts(entry(text, parameters))?;
        self.line.expect(parameters)
    }

    // print_field TEXT : DIMENSIONS LETTER START LENGTH : OUT = ANSWER : OUT, and likewise print_return
    fn print<F: Fn(&[u8], u32, u32, u32, u32, &mut [u8]) -> Answer>(
        &mut self,
        entry: F,
    ) -> Result<(), Difference>
        requires { F.IsAlwaysCallable entry }
    {
        let mut texts = [0u8; TEXT_ROOM];
        let mut outputs = [0u8; OUT_ROOM];
        let text = self.line.read(&mut texts);
        let [dimensions, letter, start, length] = self.line.numbers::<u32, 4>();
        let out = self.line.read(&mut outputs);
        self.expect_answer(entry(text, dimensions, letter, start, length, out))?;
        self.line.expect(out)
    }

    // print_method TEXT : PARAMETERS : COUNT : DIMENSIONS LETTER START LENGTH : OUT = ANSWER : OUT
    fn print_method(&mut self) -> Result<(), Difference> {
        let mut texts = [0u8; TEXT_ROOM];
        let mut store = [0u32; STORE_ROOM];
        let mut outputs = [0u8; OUT_ROOM];
        let text = self.line.read(&mut texts);
        let parameters = self.line.read(&mut store);
        let [count] = self.line.numbers::<u64, 1>();
        let [dimensions, letter, start, length] = self.line.numbers::<u32, 4>();
        let out = self.line.read(&mut outputs);
        let answer = station::nk_print_method(
            text, parameters, count, dimensions, letter, start, length, out,
        );
        self.expect_answer(answer)?;
        self.line.expect(out)
    }

    // identifier NAME : DESCRIPTOR : OUT = ANSWER : OUT
    fn identifier(&mut self) -> Result<(), Difference> {
        let (mut names, mut descriptors) = ([0u8; TEXT_ROOM], [0u8; TEXT_ROOM]);
        let mut outputs = [0u8; OUT_ROOM];
        let name = self.line.read(&mut names);
        let descriptor = self.line.read(&mut descriptors);
        let out = self.line.read(&mut outputs);
        self.expect_answer(station::nk_identifier(name, descriptor, out))?;
        self.line.expect(out)
    }

    // class_name TEXT = ANSWER
    fn class_name(&mut self) -> Result<(), Difference> {
        let mut texts = [0u8; TEXT_ROOM];
        let text = self.line.read(&mut texts);
        self.expect_answer(station::nk_class_name(text))
    }

    // is_binary_name TEXT = YES, and likewise every other check but that of a method's name. Beside `parts`, since what is
    // compared is another thing.
    fn check<F: Fn(&[u8]) -> bool>(&mut self, entry: F) -> Result<(), Difference>
        requires { F.IsAlwaysCallable entry }
    {
        let mut texts = [0u8; TEXT_ROOM];
        let text = self.line.read(&mut texts);
        self.expect_yes(entry(text))
    }

    // is_method_name TEXT : INIT CLINIT = YES
    fn check_method_name(&mut self) -> Result<(), Difference> {
        let mut texts = [0u8; TEXT_ROOM];
        let text = self.line.read(&mut texts);
        let [init, clinit] = self.line.numbers::<u64, 2>();
        self.expect_yes(station::nk_is_method_name(text, init == 1, clinit == 1))
    }
}
