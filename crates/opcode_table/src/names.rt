// The mnemonics in the order of their numbers (crate mnemonic).

pub const NAMES: [&str; 62] = [
    "LOAD_C", "LOAD_L", "LOAD_G", "LOAD_T", "LOAD_F", "LOAD_A_L", "LOAD_A_G", "LOAD_A_T",
    "LOAD_A_F", "STOR_L", "STOR_G", "STOR_T", "STOR_F", "JUMP", "JUMP_C", "JUMP_T", "JUMP_F",
    "CALL", "POP", "SWAP", "NOP", "ADD_I", "SUB_I", "MUL_I", "DIV_I", "MOD_I", "ADD_U", "SUB_U",
    "MUL_U", "DIV_U", "MOD_U", "NEG_I", "EQU", "NEQ", "LES_I", "GRT_I", "LEQ_I", "GEQ_I", "LES_U",
    "GRT_U", "LEQ_U", "GEQ_U", "ADD_S", "SUB_S", "MUL_S", "LEQ_S", "GEQ_S", "TEST", "NEG", "ALLOC",
    "FREE", "ITER", "NEXT", "SWITCH", "SWITCH_X", "LEAVE", "ENTER", "RTN", "LOAD_E", "LOAD_A_E",
    "STOR_E", "CALL_E",
];

// Mnemonics below this one name the size of their operand.
pub const SIZED: u32 = 18;
