// The sheet of the codes' lengths: an entry for each of the 256, in hexadecimal. Its last digit is the fixed bytes, the code byte
// counted in. Added to them are 10 where DOUBLE may stand before the code, 20 for each byte that one more entry of a switch's
// table takes, and 8000 for a prefix. 00 is an unserved code.
ghost use Rattle.std.specs.Prelude.{◌≡◌};
ghost use Rattle.opcode.specs.Sheet.{Sheet, sheet_of};

const FORMATS: [u16; 256] = [
    0x01, // 00 LOAD_C.0
    0x01, // 01 LOAD_C.1
    0x01, // 02 LOAD_C.2
    0x01, // 03 LOAD_C.3
    0x01, // 04 LOAD_C.4
    0x01, // 05 LOAD_C.5
    0x01, // 06 LOAD_C.6
    0x01, // 07 LOAD_C.7
    0x01, // 08 LOAD_C.8
    0x01, // 09 LOAD_C.9
    0x01, // 0A LOAD_C.10
    0x01, // 0B LOAD_C.11
    0x01, // 0C LOAD_C.12
    0x01, // 0D LOAD_C.13
    0x01, // 0E LOAD_C.14
    0x01, // 0F LOAD_C.15
    0x11, // 10 LOAD_L.0
    0x11, // 11 LOAD_L.1
    0x11, // 12 LOAD_L.2
    0x11, // 13 LOAD_L.3
    0x11, // 14 LOAD_L.4
    0x11, // 15 LOAD_L.5
    0x11, // 16 LOAD_L.6
    0x11, // 17 LOAD_L.7
    0x11, // 18 LOAD_L.8
    0x11, // 19 LOAD_L.9
    0x11, // 1A LOAD_L.10
    0x11, // 1B LOAD_L.11
    0x11, // 1C LOAD_L.12
    0x11, // 1D LOAD_L.13
    0x11, // 1E LOAD_L.14
    0x11, // 1F LOAD_L.15
    0x11, // 20 LOAD_G.0
    0x11, // 21 LOAD_G.1
    0x11, // 22 LOAD_G.2
    0x11, // 23 LOAD_G.3
    0x11, // 24 LOAD_G.4
    0x11, // 25 LOAD_G.5
    0x11, // 26 LOAD_G.6
    0x11, // 27 LOAD_G.7
    0x11, // 28 LOAD_G.8
    0x11, // 29 LOAD_G.9
    0x11, // 2A LOAD_G.10
    0x11, // 2B LOAD_G.11
    0x11, // 2C LOAD_G.12
    0x11, // 2D LOAD_G.13
    0x11, // 2E LOAD_G.14
    0x11, // 2F LOAD_G.15
    0x11, // 30 LOAD_F.0
    0x11, // 31 LOAD_F.1
    0x11, // 32 LOAD_F.2
    0x11, // 33 LOAD_F.3
    0x11, // 34 LOAD_F.4
    0x11, // 35 LOAD_F.5
    0x11, // 36 LOAD_F.6
    0x11, // 37 LOAD_F.7
    0x11, // 38 LOAD_F.8
    0x11, // 39 LOAD_F.9
    0x11, // 3A LOAD_F.10
    0x11, // 3B LOAD_F.11
    0x11, // 3C LOAD_F.12
    0x11, // 3D LOAD_F.13
    0x11, // 3E LOAD_F.14
    0x11, // 3F LOAD_F.15
    0x11, // 40 STOR_L.0
    0x11, // 41 STOR_L.1
    0x11, // 42 STOR_L.2
    0x11, // 43 STOR_L.3
    0x11, // 44 STOR_L.4
    0x11, // 45 STOR_L.5
    0x11, // 46 STOR_L.6
    0x11, // 47 STOR_L.7
    0x11, // 48 STOR_L.8
    0x11, // 49 STOR_L.9
    0x11, // 4A STOR_L.10
    0x11, // 4B STOR_L.11
    0x11, // 4C STOR_L.12
    0x11, // 4D STOR_L.13
    0x11, // 4E STOR_L.14
    0x11, // 4F STOR_L.15
    0x11, // 50 STOR_G.0
    0x11, // 51 STOR_G.1
    0x11, // 52 STOR_G.2
    0x11, // 53 STOR_G.3
    0x11, // 54 STOR_G.4
    0x11, // 55 STOR_G.5
    0x11, // 56 STOR_G.6
    0x11, // 57 STOR_G.7
    0x11, // 58 STOR_G.8
    0x11, // 59 STOR_G.9
    0x11, // 5A STOR_G.10
    0x11, // 5B STOR_G.11
    0x11, // 5C STOR_G.12
    0x11, // 5D STOR_G.13
    0x11, // 5E STOR_G.14
    0x11, // 5F STOR_G.15
    0x11, // 60 STOR_F.0
    0x11, // 61 STOR_F.1
    0x11, // 62 STOR_F.2
    0x11, // 63 STOR_F.3
    0x11, // 64 STOR_F.4
    0x11, // 65 STOR_F.5
    0x11, // 66 STOR_F.6
    0x11, // 67 STOR_F.7
    0x11, // 68 STOR_F.8
    0x11, // 69 STOR_F.9
    0x11, // 6A STOR_F.10
    0x11, // 6B STOR_F.11
    0x11, // 6C STOR_F.12
    0x11, // 6D STOR_F.13
    0x11, // 6E STOR_F.14
    0x11, // 6F STOR_F.15
    0x00, // 70
    0x01, // 71 CALL.1
    0x01, // 72 CALL.2
    0x01, // 73 CALL.3
    0x01, // 74 CALL.4
    0x01, // 75 CALL.5
    0x01, // 76 CALL.6
    0x01, // 77 CALL.7
    0x01, // 78 CALL.8
    0x01, // 79 CALL.9
    0x01, // 7A CALL.10
    0x01, // 7B CALL.11
    0x01, // 7C CALL.12
    0x01, // 7D CALL.13
    0x01, // 7E CALL.14
    0x01, // 7F CALL.15
    0x12, // 80 LOAD_T.b
    0x13, // 81 LOAD_T.h
    0x02, // 82 LOAD_C.b
    0x03, // 83 LOAD_C.h
    0x05, // 84 LOAD_C.w
    0x12, // 85 LOAD_L.b
    0x12, // 86 LOAD_G.b
    0x12, // 87 LOAD_F.b
    0x13, // 88 LOAD_F.h
    0x03, // 89 LOAD_E
    0x00, // 8A LOAD_X_C
    0x00, // 8B LOAD_X_V
    0x00, // 8C
    0x02, // 8D LOAD_A_L.b
    0x02, // 8E LOAD_A_G.b
    0x02, // 8F LOAD_A_F.b
    0x03, // 90 LOAD_A_F.h
    0x03, // 91 LOAD_A_E
    0x02, // 92 LOAD_A_T.b
    0x03, // 93 LOAD_A_T.h
    0x12, // 94 STOR_L.b
    0x12, // 95 STOR_G.b
    0x12, // 96 STOR_F.b
    0x13, // 97 STOR_F.h
    0x03, // 98 STOR_E
    0x00, // 99 STOR_X_C
    0x00, // 9A STOR_X_V
    0x00, // 9B MOVE
    0x00, // 9C CAT
    0x00, // 9D COPY
    0x02, // 9E POP
    0x01, // 9F SWAP
    0x01, // A0 ADD_I
    0x01, // A1 SUB_I
    0x01, // A2 MUL_I
    0x01, // A3 DIV_I
    0x00, // A4 EXP_I
    0x01, // A5 MOD_I
    0x01, // A6 NEG_I
    0x00, // A7 ABS_I
    0x01, // A8 ADD_U
    0x01, // A9 SUB_U
    0x01, // AA MUL_U
    0x01, // AB DIV_U
    0x00, // AC EXP_U
    0x01, // AD MOD_U
    0x00, // AE ADD_R
    0x00, // AF SUB_R
    0x00, // B0 MUL_R
    0x00, // B1 DIV_R
    0x00, // B2 EXP_R
    0x00, // B3 NEG_R
    0x00, // B4 ABS_R
    0x00, // B5 ADD_D
    0x00, // B6 SUB_D
    0x00, // B7 SUB_T
    0x01, // B8 ADD_S
    0x01, // B9 SUB_S
    0x01, // BA MUL_S
    0x00, // BB DIV_S
    0x00, // BC INCL
    0x00, // BD EXCL
    0x01, // BE EQU
    0x01, // BF NEQ
    0x01, // C0 LES_I
    0x01, // C1 GRT_I
    0x01, // C2 LEQ_I
    0x01, // C3 GEQ_I
    0x01, // C4 LES_U
    0x01, // C5 GRT_U
    0x01, // C6 LEQ_U
    0x01, // C7 GEQ_U
    0x00, // C8 LES_R
    0x00, // C9 GRT_R
    0x00, // CA LEQ_R
    0x00, // CB GEQ_R
    0x00, // CC LES_T
    0x00, // CD GRT_T
    0x00, // CE LEQ_T
    0x00, // CF GEQ_T
    0x01, // D0 LEQ_S
    0x01, // D1 GEQ_S
    0x01, // D2 TEST
    0x00, // D3 LES_A
    0x00, // D4 GRT_A
    0x00, // D5 LEQ_A
    0x00, // D6 GEQ_A
    0x01, // D7 NEG
    0x01, // D8 ALLOC
    0x01, // D9 FREE
    0x02, // DA JUMP.b
    0x03, // DB JUMP.h
    0x02, // DC JUMP_C.b
    0x03, // DD JUMP_C.h
    0x02, // DE JUMP_T.b
    0x02, // DF JUMP_F.b
    0x03, // E0 ITER
    0x01, // E1 NEXT
    0x49, // E2 SWITCH
    0x147, // E3 SWITCH_X
    0x01, // E4 LEAVE
    0x02, // E5 CALL.b
    0x03, // E6 CALL_E
    0x00, // E7 INIT
    0x03, // E8 ENTER
    0x01, // E9 RTN
    0x00, // EA TRUNC_I
    0x00, // EB TRUNC_U
    0x00, // EC ROUND_I
    0x00, // ED ROUND_U
    0x00, // EE REAL_I
    0x00, // EF REAL_U
    0x00, // F0 SHORT_R
    0x00, // F1 LONG_R
    0x00, // F2 STR
    0x00, // F3 VAL
    0x00, // F4 SYS
    0x8001, // F5 DOUBLE
    0x00, // F6 MULTI
    0x00, // F7 READ
    0x00, // F8 WRITE
    0x00, // F9 CHECK_I
    0x00, // FA CHECK_0
    0x00, // FB CHECK_U
    0x00, // FC CHECK_R
    0x00, // FD ERROR
    0x00, // FE HALT
    0x01, // FF NOP
];

// Builds the table, once a call from outside; from there it is lent on, since each use of the constant writes its entries anew.
pub fn formats() -> [u16; 256]
    ensures { Sheet result }
{
    FORMATS
}

/// The sheet, lent: a table that says of each code what 5.2.4 says.
#[derive(Clone, Copy)]
pub struct FormatSheet<'a> {
    pub entries: &'a [u16],
    ghost sheet: { Sheet entries.now },
}

impl<'a> FormatSheet<'a> {
    pub fn format_of(self, opcode: u8) -> u16
        ensures { result ≡ sheet_of opcode }
    {
        self.entries[opcode as usize]
    }
}
