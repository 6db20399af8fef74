// The mnemonics of the instructions.
#![tactic(auto)]

ghost use Rattle.phrases.specs.Wrote.{HasRoom, Wrote};
ghost use Rattle.mnemonics.specs.Mnemonics.{mnemonic_of};

use phrases::Line;

// The mnemonic of each byte, each ended by a bar (JVMS 6.5 and 7).
const MNEMONICS: &[u8] =
    b"nop|aconst_null|iconst_m1|iconst_0|iconst_1|iconst_2|iconst_3|iconst_4|iconst_5|\
    lconst_0|lconst_1|fconst_0|fconst_1|fconst_2|dconst_0|dconst_1|\
    bipush|sipush|ldc|ldc_w|ldc2_w|\
    iload|lload|fload|dload|aload|\
    iload_0|iload_1|iload_2|iload_3|lload_0|lload_1|lload_2|lload_3|\
    fload_0|fload_1|fload_2|fload_3|dload_0|dload_1|dload_2|dload_3|\
    aload_0|aload_1|aload_2|aload_3|\
    iaload|laload|faload|daload|aaload|baload|caload|saload|\
    istore|lstore|fstore|dstore|astore|\
    istore_0|istore_1|istore_2|istore_3|lstore_0|lstore_1|lstore_2|lstore_3|\
    fstore_0|fstore_1|fstore_2|fstore_3|dstore_0|dstore_1|dstore_2|dstore_3|\
    astore_0|astore_1|astore_2|astore_3|\
    iastore|lastore|fastore|dastore|aastore|bastore|castore|sastore|\
    pop|pop2|dup|dup_x1|dup_x2|dup2|dup2_x1|dup2_x2|swap|\
    iadd|ladd|fadd|dadd|isub|lsub|fsub|dsub|imul|lmul|fmul|dmul|\
    idiv|ldiv|fdiv|ddiv|irem|lrem|frem|drem|ineg|lneg|fneg|dneg|\
    ishl|lshl|ishr|lshr|iushr|lushr|iand|land|ior|lor|ixor|lxor|\
    iinc|\
    i2l|i2f|i2d|l2i|l2f|l2d|f2i|f2l|f2d|d2i|d2l|d2f|i2b|i2c|i2s|\
    lcmp|fcmpl|fcmpg|dcmpl|dcmpg|\
    ifeq|ifne|iflt|ifge|ifgt|ifle|\
    if_icmpeq|if_icmpne|if_icmplt|if_icmpge|if_icmpgt|if_icmple|if_acmpeq|if_acmpne|\
    goto|jsr|ret|tableswitch|lookupswitch|\
    ireturn|lreturn|freturn|dreturn|areturn|return|\
    getstatic|putstatic|getfield|putfield|\
    invokevirtual|invokespecial|invokestatic|invokeinterface|invokedynamic|\
    new|newarray|anewarray|arraylength|athrow|checkcast|instanceof|\
    monitorenter|monitorexit|wide|multianewarray|\
    ifnull|ifnonnull|goto_w|jsr_w|breakpoint|\
    |||||||||||||||||||||||||||||||||||||||||||||||||||\
    impdep1|impdep2|";

// The mnemonic of a kind, which is the byte of an instruction, and nothing for any other number.
#[tactic(auto, using(crate::proofs::Table::named, crate::proofs::Table::name_short))]
pub fn put_kind(line: &mut Line<'_>, kind: u32)
    requires { HasRoom 15 line.old }
    ensures { Wrote 15 line.old (mnemonic_of kind) line.new }
{
    line.item(MNEMONICS, kind as usize);
}

// The mnemonic of a byte of the code.
pub fn put_mnemonic(line: &mut Line<'_>, byte: u8)
    requires { HasRoom 15 line.old }
    ensures { Wrote 15 line.old (mnemonic_of byte) line.new }
{
    put_kind(line, u32::from(byte));
}
