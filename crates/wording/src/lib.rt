// The operands of an instruction in words, by its format and its record.
#![tactic(auto, using(phrases::proofs::Wrote::pieces))]

ghost use Rattle.std.specs.Prelude.{◌≡◌, ◌++◌, ◌≤◌, length};
ghost use Rattle.laws.specs.Bytes.{ascii};
ghost use Rattle.phrases.specs.Wrote.{HasRoom, Wrote};
ghost use Rattle.phrases.specs.Texts.{item};
ghost use Rattle.phrases.specs.Numbers.{decimal, signed};
ghost use Rattle.wording.specs.Operands.{target, counted, named, increment, indexed, followed, modified, otherwise, has_operands, operands_of};

use opcodes::{Follow, Format, WideForm};
use phrases::Line;
use records::Record;

// The names of the kinds of pool entries by their tags, each ended by a bar, as in the other tables.
const KIND_NAMES: &[u8] = b"|Utf8||Integer|Float|Long|Double|Class|String|Fieldref|\
    Methodref|InterfaceMethodref|NameAndType|||MethodHandle|MethodType|Dynamic|InvokeDynamic|Module|\
    Package|";

// The types of the elements of newarray's arrays by their tags.
const ARRAY_TYPES: &[u8] = b"||||boolean|char|float|double|byte|short|int|long|";

// The text with the number n in a table, or the number itself where there is none.
#[tactic(auto, using(phrases::proofs::Wrote::pieces, crate::proofs::Laws::no_text, crate::proofs::Laws::some_text))]
fn put_name(line: &mut Line<'_>, texts: &[u8], n: usize)
    requires { (length (item n texts.now) ≤ 20) × HasRoom 20 line.old }
    ensures { Wrote 20 line.old (named (item n texts.now) n) line.new }
{
    // A text that is empty is none, on paper too.
    let start = line.length;
    line.item(texts, n);
    if line.length == start {
        line.decimal(n);
    }
}

#[tactic(auto, using(phrases::proofs::Wrote::pieces), unfolding(crate::specs::Operands::counted))]
pub fn put_counted(line: &mut Line<'_>, n: usize, one: &[u8], many: &[u8])
    requires { (length one.now ≤ 20) × (length many.now ≤ 20) × HasRoom 40 line.old }
    ensures { Wrote 40 line.old (counted n one.now many.now) line.new }
{
    line.decimal(n);
    line.text(if n == 1 { one } else { many });
}

// The offset that a jump leads to.
pub fn put_target(line: &mut Line<'_>, offset: u32, jump: u32)
    requires { HasRoom 20 line.old }
    ensures { Wrote 20 line.old (decimal (target offset jump)) line.new }
{
    line.decimal(offset.wrapping_add(jump) as usize);
}

#[tactic(auto, using(phrases::proofs::Wrote::pieces, crate::proofs::Tables::kind_named, crate::proofs::Tables::kind_short))]
fn put_index(line: &mut Line<'_>, pool: &[u8], index: u32)
    requires { HasRoom 42 line.old }
    ensures { Wrote 42 line.old (indexed pool.now index) line.new }
{
    let tag = pool.get(index as usize).copied().unwrap_or(0);
    line.text(b"#");
    line.decimal(index as usize);
    line.text(b" ");
    put_name(line, KIND_NAMES, tag as usize);
}

fn put_increment(line: &mut Line<'_>, local: u32, by: u32)
    requires { HasRoom 43 line.old }
    ensures { Wrote 43 line.old (increment local by) line.new }
{
    line.decimal(local as usize);
    line.text(b", ");
    line.signed(by);
}

#[tactic(auto, using(phrases::proofs::Wrote::pieces), unfolding(crate::specs::Operands::followed))]
fn put_followed(line: &mut Line<'_>, after: Follow, record: Record)
    requires { HasRoom 22 line.old }
    ensures { Wrote 22 line.old (followed after «record») line.new }
{
    match after {
        Follow::Nothing | Follow::TwoZeros => {}
        Follow::Count | Follow::CountAndZero => {
            line.text(b", ");
            line.decimal(record.b as usize);
        }
    }
}

fn put_otherwise(line: &mut Line<'_>, record: Record)
    requires { HasRoom 30 line.old }
    ensures { Wrote 30 line.old (otherwise «record») line.new }
{
    line.text(b", default ");
    put_target(line, record.offset, record.a);
}

// The instruction that wide modifies.
#[tactic(auto, using(phrases::proofs::Wrote::pieces), unfolding(crate::specs::Operands::modified))]
fn put_modified(line: &mut Line<'_>, form: WideForm, record: Record)
    requires { HasRoom 59 line.old }
    ensures { Wrote 59 line.old (modified form «record») line.new }
{
    match form {
        WideForm::Local => {
            mnemonics::put_kind(line, record.kind);
            line.text(b" ");
            line.decimal(record.a as usize);
        }
        WideForm::Increment => {
            mnemonics::put_kind(line, record.kind);
            line.text(b" ");
            put_increment(line, record.a, record.b);
        }
        WideForm::NoInstruction => line.decimal(record.kind as usize),
    }
}

// The keys of a tableswitch, and where any other leads.
fn put_range(line: &mut Line<'_>, record: Record)
    requires { HasRoom 76 line.old }
    ensures { Wrote 76 line.old (signed «record».b ++ ascii " to " ++ signed «record».c ++ otherwise «record») line.new }
{
    line.signed(record.b);
    line.text(b" to ");
    line.signed(record.c);
    put_otherwise(line, record);
}

fn put_pairs(line: &mut Line<'_>, record: Record)
    requires { HasRoom 70 line.old }
    ensures { Wrote 70 line.old (counted «record».b (ascii " pair") (ascii " pairs") ++ otherwise «record») line.new }
{
    put_counted(line, record.b as usize, b" pair", b" pairs");
    put_otherwise(line, record);
}

// The operands of an instruction, by its format.
#[tactic(auto, using(phrases::proofs::Wrote::pieces, crate::proofs::Tables::array_named, crate::proofs::Tables::array_short), unfolding(crate::specs::Operands::operands_of))]
pub fn put_operands(line: &mut Line<'_>, format: Format, pool: &[u8], record: Record)
    requires { HasRoom 76 line.old }
    ensures { Wrote 76 line.old (operands_of format pool.now «record») line.new }
{
    match format {
        Format::Plain | Format::ImpliedLocal(_) | Format::NoInstruction => {}
        Format::SignedByte | Format::SignedShort => line.signed(record.a),
        Format::Local => line.decimal(record.a as usize),
        Format::Increment => put_increment(line, record.a, record.b),
        Format::Jump2 | Format::Jump4 => put_target(line, record.offset, record.a),
        Format::Index1(_) => put_index(line, pool, record.a),
        Format::Index2(_, after) => {
            put_index(line, pool, record.a);
            put_followed(line, after, record);
        }
        Format::ArrayTag => put_name(line, ARRAY_TYPES, record.a as usize),
        Format::Wide => put_modified(line, opcodes::wide_form_of(record.kind), record),
        Format::TableSwitch => put_range(line, record),
        Format::LookupSwitch => put_pairs(line, record),
    }
}

pub fn has_operands(format: Format) -> bool
    ensures { result ≡ has_operands format }
{
    !matches!(
        format,
        Format::Plain | Format::ImpliedLocal(_) | Format::NoInstruction
    )
}
