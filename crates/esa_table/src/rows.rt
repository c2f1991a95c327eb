//! The rows of the opcode table, and how each is carried out.

use esa_model::instructions::{Form, Row};
use esa_model::kinds::{BranchKind, ByteKind, ControlKind, DecimalKind, Kind, StoreKind, WordKind};

/// The rows, made of one column of the table.
macro_rules! rows {
    ($($opcode:literal $form:ident $name:literal $privileged:literal $class:ident $kind:ident;)*) => {
        [$(
            Row {
                opcode: $opcode,
                form: Form::$form,
                name: *$name,
                privileged: $privileged,
            },
        )*]
    };
}

/// A kind, of its class and its name there.
macro_rules! kind {
    (Words $kind:ident) => {
        Kind::Words(WordKind::$kind)
    };
    (Branches $kind:ident) => {
        Kind::Branches(BranchKind::$kind)
    };
    (Stores $kind:ident) => {
        Kind::Stores(StoreKind::$kind)
    };
    (Bytes $kind:ident) => {
        Kind::Bytes(ByteKind::$kind)
    };
    (Decimals $kind:ident) => {
        Kind::Decimals(DecimalKind::$kind)
    };
    (Controls $kind:ident) => {
        Kind::Controls(ControlKind::$kind)
    };
}

/// The kinds of the rows.
macro_rules! kinds {
    ($($opcode:literal $form:ident $name:literal $privileged:literal $class:ident $kind:ident;)*) => {
        [$(kind!($class $kind),)*]
    };
}

/// The table, one row a line: opcode, form, name, whether the instruction is privileged, the class
/// of the row, and its kind there. `$list` makes a list of it.
macro_rules! table {
    ($list:ident) => {
        $list! {
            0x04 Rr b"SPM   " false Branches ByRegister;
            0x05 Rr b"BALR  " false Branches ByRegister;
            0x06 Rr b"BCTR  " false Branches ByRegister;
            0x07 Rr b"BCR   " false Branches ByRegister;
            0x0A Rr b"SVC   " false Branches Call;
            0x0B Rr b"BSM   " false Branches ByRegister;
            0x0C Rr b"BASSM " false Branches ByRegister;
            0x0D Rr b"BASR  " false Branches ByRegister;
            0x0E Rr b"MVCL  " false Bytes MoveLong;
            0x0F Rr b"CLCL  " false Bytes CompareLong;
            0x10 Rr b"LPR   " false Words Registers;
            0x11 Rr b"LNR   " false Words Registers;
            0x12 Rr b"LTR   " false Words Registers;
            0x13 Rr b"LCR   " false Words Registers;
            0x14 Rr b"NR    " false Words Registers;
            0x15 Rr b"CLR   " false Words Registers;
            0x16 Rr b"OR    " false Words Registers;
            0x17 Rr b"XR    " false Words Registers;
            0x18 Rr b"LR    " false Words Registers;
            0x19 Rr b"CR    " false Words Registers;
            0x1A Rr b"AR    " false Words Registers;
            0x1B Rr b"SR    " false Words Registers;
            0x1C Rr b"MR    " false Words Pairs;
            0x1D Rr b"DR    " false Words Pairs;
            0x1E Rr b"ALR   " false Words Registers;
            0x1F Rr b"SLR   " false Words Registers;
            0x40 Rx b"STH   " false Stores Halfword;
            0x41 Rx b"LA    " false Words Address;
            0x42 Rx b"STC   " false Stores Character;
            0x43 Rx b"IC    " false Stores InsertCharacter;
            0x44 Rx b"EX    " false Branches Execute;
            0x45 Rx b"BAL   " false Branches ByIndex;
            0x46 Rx b"BCT   " false Branches ByIndex;
            0x47 Rx b"BC    " false Branches ByIndex;
            0x48 Rx b"LH    " false Words Halfwords;
            0x49 Rx b"CH    " false Words Halfwords;
            0x4A Rx b"AH    " false Words Halfwords;
            0x4B Rx b"SH    " false Words Halfwords;
            0x4C Rx b"MH    " false Words Halfwords;
            0x4D Rx b"BAS   " false Branches ByIndex;
            0x4E Rx b"CVD   " false Decimals ToDecimal;
            0x4F Rx b"CVB   " false Decimals ToBinary;
            0x50 Rx b"ST    " false Stores Word;
            0x54 Rx b"N     " false Words Storage;
            0x55 Rx b"CL    " false Words Storage;
            0x56 Rx b"O     " false Words Storage;
            0x57 Rx b"X     " false Words Storage;
            0x58 Rx b"L     " false Words Storage;
            0x59 Rx b"C     " false Words Storage;
            0x5A Rx b"A     " false Words Storage;
            0x5B Rx b"S     " false Words Storage;
            0x5C Rx b"M     " false Words PairStorage;
            0x5D Rx b"D     " false Words PairStorage;
            0x5E Rx b"AL    " false Words Storage;
            0x5F Rx b"SL    " false Words Storage;
            0x71 Rx b"MS    " false Words Storage;
            0x80 S b"SSM   " true Controls Fetching;
            0x82 S b"LPSW  " true Controls Fetching;
            0x83 Rs b"DIAG  " true Controls Diagnose;
            0x84 Rsi b"BRXH  " false Branches ByDistance;
            0x85 Rsi b"BRXLE " false Branches ByDistance;
            0x86 Rs b"BXH   " false Branches ByBase;
            0x87 Rs b"BXLE  " false Branches ByBase;
            0x88 Rs b"SRL   " false Words Shifts;
            0x89 Rs b"SLL   " false Words Shifts;
            0x8A Rs b"SRA   " false Words Shifts;
            0x8B Rs b"SLA   " false Words Shifts;
            0x8C Rs b"SRDL  " false Words PairShifts;
            0x8D Rs b"SLDL  " false Words PairShifts;
            0x8E Rs b"SRDA  " false Words PairShifts;
            0x8F Rs b"SLDA  " false Words PairShifts;
            0x90 Rs b"STM   " false Stores StoreMultiple;
            0x91 Si b"TM    " false Stores TestUnderMask;
            0x92 Si b"MVI   " false Stores MoveImmediate;
            0x93 S b"TS    " false Stores TestAndSet;
            0x94 Si b"NI    " false Stores CombineImmediate;
            0x95 Si b"CLI   " false Stores CompareImmediate;
            0x96 Si b"OI    " false Stores CombineImmediate;
            0x97 Si b"XI    " false Stores CombineImmediate;
            0x98 Rs b"LM    " false Stores LoadMultiple;
            0xAC Si b"STNSM " true Controls Masks;
            0xAD Si b"STOSM " true Controls Masks;
            0xAE Rs b"SIGP  " true Controls Signal;
            0xB6 Rs b"STCTL " true Controls Storing;
            0xB7 Rs b"LCTL  " true Controls Fetching;
            0xBA Rs b"CS    " false Stores CompareAndSwap;
            0xBB Rs b"CDS   " false Stores CompareDoubleAndSwap;
            0xBD Rs b"CLM   " false Stores CompareUnderMask;
            0xBE Rs b"STCM  " false Stores StoreUnderMask;
            0xBF Rs b"ICM   " false Stores InsertUnderMask;
            0xD1 Ss1 b"MVN   " false Bytes Combine;
            0xD2 Ss1 b"MVC   " false Bytes Move;
            0xD3 Ss1 b"MVZ   " false Bytes Combine;
            0xD4 Ss1 b"NC    " false Bytes Combine;
            0xD5 Ss1 b"CLC   " false Bytes Compare;
            0xD6 Ss1 b"OC    " false Bytes Combine;
            0xD7 Ss1 b"XC    " false Bytes Combine;
            0xDC Ss1 b"TR    " false Bytes Translate;
            0xDD Ss1 b"TRT   " false Bytes TranslateAndTest;
            0xDE Ss1 b"ED    " false Decimals Edited;
            0xDF Ss1 b"EDMK  " false Decimals EditedAndMarked;
            0xE8 Ss1 b"MVCIN " false Bytes MoveInverse;
            0xF0 Ss2 b"SRP   " false Decimals Shifted;
            0xF1 Ss2 b"MVO   " false Decimals Fields;
            0xF2 Ss2 b"PACK  " false Decimals Replaced;
            0xF3 Ss2 b"UNPK  " false Decimals Replaced;
            0xF8 Ss2 b"ZAP   " false Decimals Replaced;
            0xF9 Ss2 b"CP    " false Decimals Compared;
            0xFA Ss2 b"AP    " false Decimals Fields;
            0xFB Ss2 b"SP    " false Decimals Fields;
            0xFC Ss2 b"MP    " false Decimals Products;
            0xFD Ss2 b"DP    " false Decimals Products;
            0xA70 Ri b"TMH   " false Words Immediates;
            0xA71 Ri b"TML   " false Words Immediates;
            0xA74 Ri b"BRC   " false Branches ByDistance;
            0xA75 Ri b"BRAS  " false Branches ByDistance;
            0xA76 Ri b"BRCT  " false Branches ByDistance;
            0xA78 Ri b"LHI   " false Words Immediates;
            0xA7A Ri b"AHI   " false Words Immediates;
            0xA7C Ri b"MHI   " false Words Immediates;
            0xA7E Ri b"CHI   " false Words Immediates;
            0xB205 S b"STCK  " false Controls Clock;
            0xB206 S b"SCKC  " true Controls SetsClock;
            0xB207 S b"STCKC " true Controls StoresClock;
            0xB208 S b"SPT   " true Controls SetsClock;
            0xB209 S b"STPT  " true Controls StoresClock;
            0xB210 S b"SPX   " true Controls Fetching;
            0xB211 S b"STPX  " true Controls Storing;
            0xB212 S b"STAP  " true Controls Storing;
            0xB222 Rre b"IPM   " false Branches ByRegister;
            0xB229 Rre b"ISKE  " true Controls Keys;
            0xB22A Rre b"RRBE  " true Controls Keys;
            0xB22B Rre b"SSKE  " true Controls Keys;
            0xB252 Rre b"MSR   " false Words Registers;
        }
    };
}

/// All rows of the general, decimal and control instructions, ascending by the number of the
/// opcode. Source: Principles of Operation, lists of instructions in the appendix.
pub(crate) static ROWS: [Row; 134] = table!(rows);

/// The kinds of these rows, in their order.
pub(crate) static KINDS: [Kind; 134] = table!(kinds);
