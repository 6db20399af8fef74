// Which operands follow each opcode, as data, and which instructions share a kind.
#![tactic(auto)]

ghost use Rattle.std.specs.Prelude.{◌≡◌};
ghost use Rattle.opcodes.specs.Formats.{format_of};
ghost use Rattle.opcodes.specs.Wide.{wide_form_of};
ghost use Rattle.opcodes.specs.InstructionKinds.{kind_of};

use Follow::{Count, CountAndZero, Nothing, TwoZeros};
use Format::{
    ArrayTag, ImpliedLocal, Increment, Index1, Index2, Jump2, Jump4, Local, LookupSwitch,
    NoInstruction, Plain, SignedByte, SignedShort, TableSwitch, Wide,
};
use pool::Kinds;

// What follows a pool index of two bytes: nothing, a count, a count and a zero byte, or two zero bytes. No `Option`: nothing is
// one of four formats, each with a row in JVMS 6.5.
#[derive(Clone, Copy)]
pub enum Follow {
    Nothing,
    Count,
    CountAndZero,
    TwoZeros,
}

// The operand format of an opcode: what follows its byte. No `Option`: no instruction is one case among fifteen, and below
// among three, with no value in the others.
#[derive(Clone, Copy)]
pub enum Format {
    Plain,
    SignedByte,
    SignedShort,
    Local,
    ImpliedLocal(u32),
    Increment,
    Jump2,
    Jump4,
    Index1(Kinds),
    Index2(Kinds, Follow),
    ArrayTag,
    Wide,
    TableSwitch,
    LookupSwitch,
    NoInstruction,
}

// The form of the instruction that `wide` modifies.
#[derive(Clone, Copy)]
pub enum WideForm {
    Local,
    Increment,
    NoInstruction,
}

// The format of each byte, with its mnemonic (JVMS 6.5 and 7). A static, so that no call builds the table again.
static FORMATS: [Format; 256] = [
    Plain, // 00 nop
    Plain, // 01 aconst_null
    Plain, // 02 iconst_m1
    Plain, // 03 iconst_0
    Plain, // 04 iconst_1
    Plain, // 05 iconst_2
    Plain, // 06 iconst_3
    Plain, // 07 iconst_4
    Plain, // 08 iconst_5
    Plain, // 09 lconst_0
    Plain, // 0a lconst_1
    Plain, // 0b fconst_0
    Plain, // 0c fconst_1
    Plain, // 0d fconst_2
    Plain, // 0e dconst_0
    Plain, // 0f dconst_1
    SignedByte, // 10 bipush
    SignedShort, // 11 sipush
    Index1(Kinds::Loadable), // 12 ldc
    Index2(Kinds::Loadable, Nothing), // 13 ldc_w
    Index2(Kinds::Loadable, Nothing), // 14 ldc2_w
    Local, // 15 iload
    Local, // 16 lload
    Local, // 17 fload
    Local, // 18 dload
    Local, // 19 aload
    ImpliedLocal(0), // 1a iload_0
    ImpliedLocal(1), // 1b iload_1
    ImpliedLocal(2), // 1c iload_2
    ImpliedLocal(3), // 1d iload_3
    ImpliedLocal(0), // 1e lload_0
    ImpliedLocal(1), // 1f lload_1
    ImpliedLocal(2), // 20 lload_2
    ImpliedLocal(3), // 21 lload_3
    ImpliedLocal(0), // 22 fload_0
    ImpliedLocal(1), // 23 fload_1
    ImpliedLocal(2), // 24 fload_2
    ImpliedLocal(3), // 25 fload_3
    ImpliedLocal(0), // 26 dload_0
    ImpliedLocal(1), // 27 dload_1
    ImpliedLocal(2), // 28 dload_2
    ImpliedLocal(3), // 29 dload_3
    ImpliedLocal(0), // 2a aload_0
    ImpliedLocal(1), // 2b aload_1
    ImpliedLocal(2), // 2c aload_2
    ImpliedLocal(3), // 2d aload_3
    Plain, // 2e iaload
    Plain, // 2f laload
    Plain, // 30 faload
    Plain, // 31 daload
    Plain, // 32 aaload
    Plain, // 33 baload
    Plain, // 34 caload
    Plain, // 35 saload
    Local, // 36 istore
    Local, // 37 lstore
    Local, // 38 fstore
    Local, // 39 dstore
    Local, // 3a astore
    ImpliedLocal(0), // 3b istore_0
    ImpliedLocal(1), // 3c istore_1
    ImpliedLocal(2), // 3d istore_2
    ImpliedLocal(3), // 3e istore_3
    ImpliedLocal(0), // 3f lstore_0
    ImpliedLocal(1), // 40 lstore_1
    ImpliedLocal(2), // 41 lstore_2
    ImpliedLocal(3), // 42 lstore_3
    ImpliedLocal(0), // 43 fstore_0
    ImpliedLocal(1), // 44 fstore_1
    ImpliedLocal(2), // 45 fstore_2
    ImpliedLocal(3), // 46 fstore_3
    ImpliedLocal(0), // 47 dstore_0
    ImpliedLocal(1), // 48 dstore_1
    ImpliedLocal(2), // 49 dstore_2
    ImpliedLocal(3), // 4a dstore_3
    ImpliedLocal(0), // 4b astore_0
    ImpliedLocal(1), // 4c astore_1
    ImpliedLocal(2), // 4d astore_2
    ImpliedLocal(3), // 4e astore_3
    Plain, // 4f iastore
    Plain, // 50 lastore
    Plain, // 51 fastore
    Plain, // 52 dastore
    Plain, // 53 aastore
    Plain, // 54 bastore
    Plain, // 55 castore
    Plain, // 56 sastore
    Plain, // 57 pop
    Plain, // 58 pop2
    Plain, // 59 dup
    Plain, // 5a dup_x1
    Plain, // 5b dup_x2
    Plain, // 5c dup2
    Plain, // 5d dup2_x1
    Plain, // 5e dup2_x2
    Plain, // 5f swap
    Plain, // 60 iadd
    Plain, // 61 ladd
    Plain, // 62 fadd
    Plain, // 63 dadd
    Plain, // 64 isub
    Plain, // 65 lsub
    Plain, // 66 fsub
    Plain, // 67 dsub
    Plain, // 68 imul
    Plain, // 69 lmul
    Plain, // 6a fmul
    Plain, // 6b dmul
    Plain, // 6c idiv
    Plain, // 6d ldiv
    Plain, // 6e fdiv
    Plain, // 6f ddiv
    Plain, // 70 irem
    Plain, // 71 lrem
    Plain, // 72 frem
    Plain, // 73 drem
    Plain, // 74 ineg
    Plain, // 75 lneg
    Plain, // 76 fneg
    Plain, // 77 dneg
    Plain, // 78 ishl
    Plain, // 79 lshl
    Plain, // 7a ishr
    Plain, // 7b lshr
    Plain, // 7c iushr
    Plain, // 7d lushr
    Plain, // 7e iand
    Plain, // 7f land
    Plain, // 80 ior
    Plain, // 81 lor
    Plain, // 82 ixor
    Plain, // 83 lxor
    Increment, // 84 iinc
    Plain, // 85 i2l
    Plain, // 86 i2f
    Plain, // 87 i2d
    Plain, // 88 l2i
    Plain, // 89 l2f
    Plain, // 8a l2d
    Plain, // 8b f2i
    Plain, // 8c f2l
    Plain, // 8d f2d
    Plain, // 8e d2i
    Plain, // 8f d2l
    Plain, // 90 d2f
    Plain, // 91 i2b
    Plain, // 92 i2c
    Plain, // 93 i2s
    Plain, // 94 lcmp
    Plain, // 95 fcmpl
    Plain, // 96 fcmpg
    Plain, // 97 dcmpl
    Plain, // 98 dcmpg
    Jump2, // 99 ifeq
    Jump2, // 9a ifne
    Jump2, // 9b iflt
    Jump2, // 9c ifge
    Jump2, // 9d ifgt
    Jump2, // 9e ifle
    Jump2, // 9f if_icmpeq
    Jump2, // a0 if_icmpne
    Jump2, // a1 if_icmplt
    Jump2, // a2 if_icmpge
    Jump2, // a3 if_icmpgt
    Jump2, // a4 if_icmple
    Jump2, // a5 if_acmpeq
    Jump2, // a6 if_acmpne
    Jump2, // a7 goto
    Jump2, // a8 jsr
    Local, // a9 ret
    TableSwitch, // aa tableswitch
    LookupSwitch, // ab lookupswitch
    Plain, // ac ireturn
    Plain, // ad lreturn
    Plain, // ae freturn
    Plain, // af dreturn
    Plain, // b0 areturn
    Plain, // b1 return
    Index2(Kinds::Field, Nothing), // b2 getstatic
    Index2(Kinds::Field, Nothing), // b3 putstatic
    Index2(Kinds::Field, Nothing), // b4 getfield
    Index2(Kinds::Field, Nothing), // b5 putfield
    Index2(Kinds::Method, Nothing), // b6 invokevirtual
    Index2(Kinds::MethodOrInterfaceMethod, Nothing), // b7 invokespecial
    Index2(Kinds::MethodOrInterfaceMethod, Nothing), // b8 invokestatic
    Index2(Kinds::InterfaceMethod, CountAndZero), // b9 invokeinterface
    Index2(Kinds::InvokeDynamic, TwoZeros), // ba invokedynamic
    Index2(Kinds::Class, Nothing), // bb new
    ArrayTag, // bc newarray
    Index2(Kinds::Class, Nothing), // bd anewarray
    Plain, // be arraylength
    Plain, // bf athrow
    Index2(Kinds::Class, Nothing), // c0 checkcast
    Index2(Kinds::Class, Nothing), // c1 instanceof
    Plain, // c2 monitorenter
    Plain, // c3 monitorexit
    Wide, // c4 wide
    Index2(Kinds::Class, Count), // c5 multianewarray
    Jump2, // c6 ifnull
    Jump2, // c7 ifnonnull
    Jump4, // c8 goto_w
    Jump4, // c9 jsr_w
    Plain, // ca breakpoint
    NoInstruction, // cb no instruction
    NoInstruction, // cc no instruction
    NoInstruction, // cd no instruction
    NoInstruction, // ce no instruction
    NoInstruction, // cf no instruction
    NoInstruction, // d0 no instruction
    NoInstruction, // d1 no instruction
    NoInstruction, // d2 no instruction
    NoInstruction, // d3 no instruction
    NoInstruction, // d4 no instruction
    NoInstruction, // d5 no instruction
    NoInstruction, // d6 no instruction
    NoInstruction, // d7 no instruction
    NoInstruction, // d8 no instruction
    NoInstruction, // d9 no instruction
    NoInstruction, // da no instruction
    NoInstruction, // db no instruction
    NoInstruction, // dc no instruction
    NoInstruction, // dd no instruction
    NoInstruction, // de no instruction
    NoInstruction, // df no instruction
    NoInstruction, // e0 no instruction
    NoInstruction, // e1 no instruction
    NoInstruction, // e2 no instruction
    NoInstruction, // e3 no instruction
    NoInstruction, // e4 no instruction
    NoInstruction, // e5 no instruction
    NoInstruction, // e6 no instruction
    NoInstruction, // e7 no instruction
    NoInstruction, // e8 no instruction
    NoInstruction, // e9 no instruction
    NoInstruction, // ea no instruction
    NoInstruction, // eb no instruction
    NoInstruction, // ec no instruction
    NoInstruction, // ed no instruction
    NoInstruction, // ee no instruction
    NoInstruction, // ef no instruction
    NoInstruction, // f0 no instruction
    NoInstruction, // f1 no instruction
    NoInstruction, // f2 no instruction
    NoInstruction, // f3 no instruction
    NoInstruction, // f4 no instruction
    NoInstruction, // f5 no instruction
    NoInstruction, // f6 no instruction
    NoInstruction, // f7 no instruction
    NoInstruction, // f8 no instruction
    NoInstruction, // f9 no instruction
    NoInstruction, // fa no instruction
    NoInstruction, // fb no instruction
    NoInstruction, // fc no instruction
    NoInstruction, // fd no instruction
    Plain, // fe impdep1
    Plain, // ff impdep2
];

// The operand format of a byte.
#[tactic(auto, using(crate::proofs::Table::in_table))]
pub fn format_of(byte: u8) -> Format
    ensures { result ≡ format_of byte }
{
    FORMATS[byte as usize]
}

// The form that `wide` gives a byte.
#[tactic(auto, using(crate::proofs::Arithmetic::forms_by_range))]
pub fn wide_form_of(byte: u32) -> WideForm
    ensures { result ≡ wide_form_of byte }
{
    match byte {
        0x15..=0x19 | 0x36..=0x3a | 0xa9 => WideForm::Local,
        0x84 => WideForm::Increment,
        _ => WideForm::NoInstruction,
    }
}

// The kind under which an instruction is recorded: its byte, or that of the plain form of a short or wide one.
#[tactic(auto, using(crate::proofs::Arithmetic::kinds_by_range))]
pub fn kind_of(byte: u8) -> u32
    ensures { result ≡ kind_of byte }
{
    let opcode = u32::from(byte);
    match byte {
        0x1a..=0x2d => 0x15 + (opcode - 0x1a) / 4,
        0x3b..=0x4e => 0x36 + (opcode - 0x3b) / 4,
        0xc8 => 0xa7,
        0xc9 => 0xa8,
        _ => opcode,
    }
}
