// The instructions, one variant for each row of the opcode table.
ghost use Rattle.std.specs.Prelude.{◌≡◌};
ghost use Rattle.pdp_decode.specs.Instruction.{mnemonic};

use pdp_word::Codes;

/// An operand specifier, six bits of an instruction word: an addressing mode and the number of its
/// register, from 0 to 7, where 6 is the stack pointer and 7 the program counter.
///
/// Source: DEC PDP-11/40 Processor Handbook (1972), Addressing modes.
#[derive(Clone, Copy)]
pub enum Specifier {
    /// R, mode 0 [3.1]: the operand is the register.
    Register(u8),
    /// (R), mode 1 [3.2]: the register has the operand's address.
    Deferred(u8),
    /// (R)+, mode 2 [3.3]: the same, and the register grows.
    Autoincrement(u8),
    /// @(R)+, mode 3 [3.4]: the register has the address of the operand's address, and grows.
    AutoincrementDeferred(u8),
    /// -(R), mode 4 [3.5]: the register shrinks, and has the operand's address then.
    Autodecrement(u8),
    /// @-(R), mode 5 [3.6]: the register shrinks, and has the address of the operand's address.
    AutodecrementDeferred(u8),
    /// X(R), mode 6 [3.7]: the operand is at the register plus the word at PC.
    Index(u8),
    /// @X(R), mode 7 [3.8]: the operand's address is there.
    IndexDeferred(u8),
}

/// A decoded instruction word.
///
/// A register is 0 to 7, an offset a signed count of words, and words are 0 to 77 (octal). N, Z, V
/// and C are the condition codes.
///
/// Source: DEC PDP-11/40 Processor Handbook (1972), Instruction set.
#[derive(Clone, Copy)]
pub enum Instr {
    /// HALT, 000000 [4.40]: the processor stops.
    Halt,
    /// WAIT, 000001 [4.41]: the processor waits for an interrupt.
    Wait,
    /// RTI, 000002 [4.50]: PC and the status word are popped.
    Rti,
    /// BPT, 000003 [4.48]: a trap through 14.
    Bpt,
    /// IOT, 000004 [4.48]: a trap through 20.
    Iot,
    /// RESET, 000005 [4.42]: the devices are initialised.
    Reset,
    /// RTT, 000006 [4.51]: RTI, but no trace trap comes before the next instruction.
    Rtt,
    /// JMP, 0001DD [4.43]: PC becomes the address of the destination.
    Jmp {
        destination: Specifier,
    },
    /// RTS, 00020R [4.45]: PC becomes the register, and the register is popped.
    Rts {
        register: u8,
    },
    /// JSR, 004RDD [4.44]: the register is pushed and becomes PC, and PC the address of the
    /// destination.
    Jsr {
        register: u8,
        destination: Specifier,
    },
    /// MARK, 0064NN [4.46]: SP becomes PC plus that many words, PC becomes R5, and R5 is popped.
    Mark {
        words: u8,
    },
    /// SOB, 077RNN [4.47]: the register less 1; if that isn't 0, PC falls by that many words.
    Sob {
        register: u8,
        words: u8,
    },
    /// EMT, 104000 to 104377 [4.49]: a trap through 30; the code is left to the program.
    Emt {
        code: u8,
    },
    /// TRAP, 104400 to 104777 [4.49]: a trap through 34; the code is left to the program.
    Trap {
        code: u8,
    },
    /// 000240 to 000257, CLN, CLZ, CLV, CLC and their sums [4.65]: these condition codes are
    /// cleared.
    ClearCodes {
        codes: Codes,
    },
    /// 000260 to 000277, SEN, SEZ, SEV, SEC and their sums [4.65]: these condition codes are set.
    SetCodes {
        codes: Codes,
    },
    /// BR, 000400 to 000777 [4.61]: the offset counts words from the PC that follows the
    /// instruction.
    Br {
        offset: i8,
    },
    /// BNE, 001000 to 001377 [4.62]: BR if Z is clear.
    Bne {
        offset: i8,
    },
    /// BEQ, 001400 to 001777 [4.63]: BR if Z is set.
    Beq {
        offset: i8,
    },
    /// BGE, 002000 to 002377 [4.64]: BR if N equals V.
    Bge {
        offset: i8,
    },
    /// BLT, 002400 to 002777 [4.61]: BR if N differs from V.
    Blt {
        offset: i8,
    },
    /// BGT, 003000 to 003377 [4.62]: BR if Z is clear and N equals V.
    Bgt {
        offset: i8,
    },
    /// BLE, 003400 to 003777 [4.63]: BR if Z is set or N differs from V.
    Ble {
        offset: i8,
    },
    /// BPL, 100000 to 100377 [4.64]: BR if N is clear.
    Bpl {
        offset: i8,
    },
    /// BMI, 100400 to 100777 [4.64]: BR if N is set.
    Bmi {
        offset: i8,
    },
    /// BHI, 101000 to 101377 [4.61]: BR if C and Z are clear.
    Bhi {
        offset: i8,
    },
    /// BLOS, 101400 to 101777 [4.62]: BR if C or Z is set.
    Blos {
        offset: i8,
    },
    /// BVC, 102000 to 102377 [4.63]: BR if V is clear.
    Bvc {
        offset: i8,
    },
    /// BVS, 102400 to 102777 [4.63]: BR if V is set.
    Bvs {
        offset: i8,
    },
    /// BCC, 103000 to 103377 [4.64]: BR if C is clear.
    Bcc {
        offset: i8,
    },
    /// BCS, 103400 to 103777 [4.64]: BR if C is set.
    Bcs {
        offset: i8,
    },
    /// MOV, 01SSDD [4.1]: the source goes to the destination.
    Mov {
        source: Specifier,
        destination: Specifier,
    },
    /// MOVB, 11SSDD [4.1]: the source byte goes to the destination.
    Movb {
        source: Specifier,
        destination: Specifier,
    },
    /// CMP, 02SSDD [4.2]: the condition codes are set by the source less the destination.
    Cmp {
        source: Specifier,
        destination: Specifier,
    },
    /// CMPB, 12SSDD [4.2]: CMP of bytes.
    Cmpb {
        source: Specifier,
        destination: Specifier,
    },
    /// BIT, 03SSDD [4.3]: the condition codes are set by the bits that are set in both.
    Bit {
        source: Specifier,
        destination: Specifier,
    },
    /// BITB, 13SSDD [4.3]: BIT of bytes.
    Bitb {
        source: Specifier,
        destination: Specifier,
    },
    /// BIC, 04SSDD [4.4]: the bits that are set in the source are cleared in the destination.
    Bic {
        source: Specifier,
        destination: Specifier,
    },
    /// BICB, 14SSDD [4.4]: BIC of bytes.
    Bicb {
        source: Specifier,
        destination: Specifier,
    },
    /// BIS, 05SSDD [4.5]: the bits that are set in the source are set in the destination.
    Bis {
        source: Specifier,
        destination: Specifier,
    },
    /// BISB, 15SSDD [4.5]: BIS of bytes.
    Bisb {
        source: Specifier,
        destination: Specifier,
    },
    /// ADD, 06SSDD [4.6]: the source is added to the destination.
    Add {
        source: Specifier,
        destination: Specifier,
    },
    /// SUB, 16SSDD [4.7]: the source is subtracted from the destination.
    Sub {
        source: Specifier,
        destination: Specifier,
    },
    /// XOR, 074RDD [4.8]: the destination becomes its exclusive or with the register.
    Xor {
        register: u8,
        destination: Specifier,
    },
    /// MUL, 070RSS [4.23]: the signed product with the source, in the register and its odd
    /// neighbour.
    Mul {
        register: u8,
        source: Specifier,
    },
    /// DIV, 071RSS [4.24]: the register and its odd neighbour are divided by the source.
    Div {
        register: u8,
        source: Specifier,
    },
    /// ASH, 072RSS [4.25]: the register is shifted by the source.
    Ash {
        register: u8,
        source: Specifier,
    },
    /// ASHC, 073RSS [4.26]: the register and its odd neighbour are shifted by the source.
    Ashc {
        register: u8,
        source: Specifier,
    },
    /// SWAB, 0003DD [4.21]: the bytes of the destination are exchanged.
    Swab {
        destination: Specifier,
    },
    /// CLR, 0050DD [4.9]: the destination becomes 0.
    Clr {
        destination: Specifier,
    },
    /// CLRB, 1050DD [4.9]: CLR of a byte.
    Clrb {
        destination: Specifier,
    },
    /// COM, 0051DD [4.10]: the destination becomes its complement.
    Com {
        destination: Specifier,
    },
    /// COMB, 1051DD [4.10]: COM of a byte.
    Comb {
        destination: Specifier,
    },
    /// INC, 0052DD [4.11]: 1 is added to the destination.
    Inc {
        destination: Specifier,
    },
    /// INCB, 1052DD [4.11]: INC of a byte.
    Incb {
        destination: Specifier,
    },
    /// DEC, 0053DD [4.12]: 1 is subtracted from the destination.
    Dec {
        destination: Specifier,
    },
    /// DECB, 1053DD [4.12]: DEC of a byte.
    Decb {
        destination: Specifier,
    },
    /// NEG, 0054DD [4.13]: the destination is negated.
    Neg {
        destination: Specifier,
    },
    /// NEGB, 1054DD [4.13]: NEG of a byte.
    Negb {
        destination: Specifier,
    },
    /// ADC, 0055DD [4.14]: C is added to the destination.
    Adc {
        destination: Specifier,
    },
    /// ADCB, 1055DD [4.14]: ADC of a byte.
    Adcb {
        destination: Specifier,
    },
    /// SBC, 0056DD [4.15]: C is subtracted from the destination.
    Sbc {
        destination: Specifier,
    },
    /// SBCB, 1056DD [4.15]: SBC of a byte.
    Sbcb {
        destination: Specifier,
    },
    /// ROR, 0060DD [4.17]: the destination is rotated right through C.
    Ror {
        destination: Specifier,
    },
    /// RORB, 1060DD [4.17]: ROR of a byte.
    Rorb {
        destination: Specifier,
    },
    /// ROL, 0061DD [4.18]: the destination is rotated left through C.
    Rol {
        destination: Specifier,
    },
    /// ROLB, 1061DD [4.18]: ROL of a byte.
    Rolb {
        destination: Specifier,
    },
    /// ASR, 0062DD [4.19]: the destination is shifted right and keeps its sign.
    Asr {
        destination: Specifier,
    },
    /// ASRB, 1062DD [4.19]: ASR of a byte.
    Asrb {
        destination: Specifier,
    },
    /// ASL, 0063DD [4.20]: the destination is shifted left.
    Asl {
        destination: Specifier,
    },
    /// ASLB, 1063DD [4.20]: ASL of a byte.
    Aslb {
        destination: Specifier,
    },
    /// SXT, 0067DD [4.22]: the destination becomes 0, or 177777 if N is set.
    Sxt {
        destination: Specifier,
    },
    /// TST, 0057DD [4.16]: the condition codes are set by the destination.
    Tst {
        destination: Specifier,
    },
    /// TSTB, 1057DD [4.16]: the condition codes are set by the byte.
    Tstb {
        destination: Specifier,
    },
    /// MFPI, 0065SS [4.33]: the source, in the space of the previous mode, is pushed.
    Mfpi {
        source: Specifier,
    },
    /// MTPI, 0066DD [4.34]: a word is popped to the destination, in the space of the previous mode.
    Mtpi {
        destination: Specifier,
    },
    /// Any word that the table doesn't name [4.66].
    Reserved,
}

/// The mnemonic of an instruction, as the handbook spells it; `Reserved` for a reserved word.
///
/// The condition code operators have a mnemonic only if they change one code, or all: they are
/// `CLx` if they clear and `SEx` if they set.
///
/// Source: DEC PDP-11/40 Processor Handbook (1972), Instruction set.
pub const fn name_of(instr: &Instr) -> &'static str
    ensures { result.now ≡ mnemonic instr.now }
{
    match instr {
        Instr::Halt => "HALT",
        Instr::Wait => "WAIT",
        Instr::Rti => "RTI",
        Instr::Bpt => "BPT",
        Instr::Iot => "IOT",
        Instr::Reset => "RESET",
        Instr::Rtt => "RTT",
        Instr::Jmp { .. } => "JMP",
        Instr::Rts { .. } => "RTS",
        Instr::Jsr { .. } => "JSR",
        Instr::Mark { .. } => "MARK",
        Instr::Sob { .. } => "SOB",
        Instr::Emt { .. } => "EMT",
        Instr::Trap { .. } => "TRAP",
        Instr::ClearCodes { .. } => "CLx",
        Instr::SetCodes { .. } => "SEx",
        Instr::Br { .. } => "BR",
        Instr::Bne { .. } => "BNE",
        Instr::Beq { .. } => "BEQ",
        Instr::Bge { .. } => "BGE",
        Instr::Blt { .. } => "BLT",
        Instr::Bgt { .. } => "BGT",
        Instr::Ble { .. } => "BLE",
        Instr::Bpl { .. } => "BPL",
        Instr::Bmi { .. } => "BMI",
        Instr::Bhi { .. } => "BHI",
        Instr::Blos { .. } => "BLOS",
        Instr::Bvc { .. } => "BVC",
        Instr::Bvs { .. } => "BVS",
        Instr::Bcc { .. } => "BCC",
        Instr::Bcs { .. } => "BCS",
        Instr::Mov { .. } => "MOV",
        Instr::Movb { .. } => "MOVB",
        Instr::Cmp { .. } => "CMP",
        Instr::Cmpb { .. } => "CMPB",
        Instr::Bit { .. } => "BIT",
        Instr::Bitb { .. } => "BITB",
        Instr::Bic { .. } => "BIC",
        Instr::Bicb { .. } => "BICB",
        Instr::Bis { .. } => "BIS",
        Instr::Bisb { .. } => "BISB",
        Instr::Add { .. } => "ADD",
        Instr::Sub { .. } => "SUB",
        Instr::Xor { .. } => "XOR",
        Instr::Mul { .. } => "MUL",
        Instr::Div { .. } => "DIV",
        Instr::Ash { .. } => "ASH",
        Instr::Ashc { .. } => "ASHC",
        Instr::Swab { .. } => "SWAB",
        Instr::Clr { .. } => "CLR",
        Instr::Clrb { .. } => "CLRB",
        Instr::Com { .. } => "COM",
        Instr::Comb { .. } => "COMB",
        Instr::Inc { .. } => "INC",
        Instr::Incb { .. } => "INCB",
        Instr::Dec { .. } => "DEC",
        Instr::Decb { .. } => "DECB",
        Instr::Neg { .. } => "NEG",
        Instr::Negb { .. } => "NEGB",
        Instr::Adc { .. } => "ADC",
        Instr::Adcb { .. } => "ADCB",
        Instr::Sbc { .. } => "SBC",
        Instr::Sbcb { .. } => "SBCB",
        Instr::Ror { .. } => "ROR",
        Instr::Rorb { .. } => "RORB",
        Instr::Rol { .. } => "ROL",
        Instr::Rolb { .. } => "ROLB",
        Instr::Asr { .. } => "ASR",
        Instr::Asrb { .. } => "ASRB",
        Instr::Asl { .. } => "ASL",
        Instr::Aslb { .. } => "ASLB",
        Instr::Sxt { .. } => "SXT",
        Instr::Tst { .. } => "TST",
        Instr::Tstb { .. } => "TSTB",
        Instr::Mfpi { .. } => "MFPI",
        Instr::Mtpi { .. } => "MTPI",
        Instr::Reserved => "Reserved",
    }
}
