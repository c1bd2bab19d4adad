//! The number of each name that this implementation gives: its place in `OP_NAMES`, by the name itself.
//!
//! A name is written in capitals, with `_` for `-` and `/`, `_TO_` for `->`, `_STAR` for `*` and `_BANG` for `!`.
//! One that ends in `?` begins with `IS_`, as `IS_PAIR` for `pair?`; but a comparison ends as its sign is
//! called, as `STRING_AT_MOST` for `string<=?`. A sign that stands alone is called `PLUS`, `MINUS`, `TIMES`,
//! `DIVIDED_BY`, `EQUAL`, `LESS`, `GREATER`, `AT_MOST`, `AT_LEAST`, `ARROW`, `ELLIPSIS` or `UNDERSCORE`.

pub const QUOTE: u16 = 0;

pub const LAMBDA: u16 = 1;

pub const IF: u16 = 2;

pub const SET_BANG: u16 = 3;

pub const BEGIN: u16 = 4;

pub const LETREC: u16 = 5;

pub const LETREC_STAR: u16 = 6;

pub const DEFINE: u16 = 7;

pub const DEFINE_SYNTAX: u16 = 8;

pub const LET_SYNTAX: u16 = 9;

pub const LETREC_SYNTAX: u16 = 10;

pub const QUASIQUOTE: u16 = 11;

pub const ELSE: u16 = 12;

pub const ARROW: u16 = 13;

pub const ELLIPSIS: u16 = 14;

pub const UNDERSCORE: u16 = 15;

pub const UNQUOTE: u16 = 16;

pub const UNQUOTE_SPLICING: u16 = 17;

pub const LET: u16 = 18;

pub const LET_STAR: u16 = 19;

pub const LET_VALUES: u16 = 20;

pub const LET_STAR_VALUES: u16 = 21;

pub const AND: u16 = 22;

pub const OR: u16 = 23;

pub const COND: u16 = 24;

pub const CASE: u16 = 25;

pub const ASSERT: u16 = 26;

pub const SYNTAX_RULES: u16 = 27;

pub const IDENTIFIER_SYNTAX: u16 = 28;

pub const TIMES: u16 = 29;

pub const PLUS: u16 = 30;

pub const MINUS: u16 = 31;

pub const DIVIDED_BY: u16 = 32;

pub const LESS: u16 = 33;

pub const AT_MOST: u16 = 34;

pub const EQUAL: u16 = 35;

pub const GREATER: u16 = 36;

pub const AT_LEAST: u16 = 37;

pub const ABS: u16 = 38;

pub const ACOS: u16 = 39;

pub const ANGLE: u16 = 40;

pub const APPEND: u16 = 41;

pub const APPLY: u16 = 42;

pub const ASIN: u16 = 43;

pub const ASSERTION_VIOLATION: u16 = 44;

pub const ATAN: u16 = 45;

pub const BOOLEAN_EQUAL: u16 = 46;

pub const IS_BOOLEAN: u16 = 47;

pub const CALL_WITH_CURRENT_CONTINUATION: u16 = 48;

pub const CALL_WITH_VALUES: u16 = 49;

pub const CALL_CC: u16 = 50;

pub const CAR: u16 = 51;

pub const CDR: u16 = 52;

pub const CAAR: u16 = 53;

pub const CADR: u16 = 54;

pub const CDAR: u16 = 55;

pub const CDDR: u16 = 56;

pub const CAAAR: u16 = 57;

pub const CAADR: u16 = 58;

pub const CADAR: u16 = 59;

pub const CADDR: u16 = 60;

pub const CDAAR: u16 = 61;

pub const CDADR: u16 = 62;

pub const CDDAR: u16 = 63;

pub const CDDDR: u16 = 64;

pub const CAAAAR: u16 = 65;

pub const CAAADR: u16 = 66;

pub const CAADAR: u16 = 67;

pub const CAADDR: u16 = 68;

pub const CADAAR: u16 = 69;

pub const CADADR: u16 = 70;

pub const CADDAR: u16 = 71;

pub const CADDDR: u16 = 72;

pub const CDAAAR: u16 = 73;

pub const CDAADR: u16 = 74;

pub const CDADAR: u16 = 75;

pub const CDADDR: u16 = 76;

pub const CDDAAR: u16 = 77;

pub const CDDADR: u16 = 78;

pub const CDDDAR: u16 = 79;

pub const CDDDDR: u16 = 80;

pub const CEILING: u16 = 81;

pub const CHAR_TO_INTEGER: u16 = 82;

pub const CHAR_AT_MOST: u16 = 83;

pub const CHAR_LESS: u16 = 84;

pub const CHAR_EQUAL: u16 = 85;

pub const CHAR_AT_LEAST: u16 = 86;

pub const CHAR_GREATER: u16 = 87;

pub const IS_CHAR: u16 = 88;

pub const IS_COMPLEX: u16 = 89;

pub const CONS: u16 = 90;

pub const COS: u16 = 91;

pub const DENOMINATOR: u16 = 92;

pub const DIV: u16 = 93;

pub const DIV_AND_MOD: u16 = 94;

pub const DIV0: u16 = 95;

pub const DIV0_AND_MOD0: u16 = 96;

pub const DYNAMIC_WIND: u16 = 97;

pub const IS_EQ: u16 = 98;

pub const IS_EQUAL: u16 = 99;

pub const IS_EQV: u16 = 100;

pub const ERROR: u16 = 101;

pub const IS_EVEN: u16 = 102;

pub const EXACT: u16 = 103;

pub const EXACT_INTEGER_SQRT: u16 = 104;

pub const IS_EXACT: u16 = 105;

pub const EXP: u16 = 106;

pub const EXPT: u16 = 107;

pub const IS_FINITE: u16 = 108;

pub const FLOOR: u16 = 109;

pub const FOR_EACH: u16 = 110;

pub const GCD: u16 = 111;

pub const IMAG_PART: u16 = 112;

pub const INEXACT: u16 = 113;

pub const IS_INEXACT: u16 = 114;

pub const IS_INFINITE: u16 = 115;

pub const INTEGER_TO_CHAR: u16 = 116;

pub const IS_INTEGER_VALUED: u16 = 117;

pub const IS_INTEGER: u16 = 118;

pub const LCM: u16 = 119;

pub const LENGTH: u16 = 120;

pub const LIST: u16 = 121;

pub const LIST_TO_STRING: u16 = 122;

pub const LIST_TO_VECTOR: u16 = 123;

pub const LIST_REF: u16 = 124;

pub const LIST_TAIL: u16 = 125;

pub const IS_LIST: u16 = 126;

pub const LOG: u16 = 127;

pub const MAGNITUDE: u16 = 128;

pub const MAKE_POLAR: u16 = 129;

pub const MAKE_RECTANGULAR: u16 = 130;

pub const MAKE_STRING: u16 = 131;

pub const MAKE_VECTOR: u16 = 132;

pub const MAP: u16 = 133;

pub const MAX: u16 = 134;

pub const MIN: u16 = 135;

pub const MOD: u16 = 136;

pub const MOD0: u16 = 137;

pub const IS_NAN: u16 = 138;

pub const IS_NEGATIVE: u16 = 139;

pub const NOT: u16 = 140;

pub const IS_NULL: u16 = 141;

pub const NUMBER_TO_STRING: u16 = 142;

pub const IS_NUMBER: u16 = 143;

pub const NUMERATOR: u16 = 144;

pub const IS_ODD: u16 = 145;

pub const IS_PAIR: u16 = 146;

pub const IS_POSITIVE: u16 = 147;

pub const IS_PROCEDURE: u16 = 148;

pub const IS_RATIONAL_VALUED: u16 = 149;

pub const IS_RATIONAL: u16 = 150;

pub const RATIONALIZE: u16 = 151;

pub const REAL_PART: u16 = 152;

pub const IS_REAL_VALUED: u16 = 153;

pub const IS_REAL: u16 = 154;

pub const REVERSE: u16 = 155;

pub const ROUND: u16 = 156;

pub const SIN: u16 = 157;

pub const SQRT: u16 = 158;

pub const STRING: u16 = 159;

pub const STRING_TO_LIST: u16 = 160;

pub const STRING_TO_NUMBER: u16 = 161;

pub const STRING_TO_SYMBOL: u16 = 162;

pub const STRING_APPEND: u16 = 163;

pub const STRING_COPY: u16 = 164;

pub const STRING_FOR_EACH: u16 = 165;

pub const STRING_LENGTH: u16 = 166;

pub const STRING_REF: u16 = 167;

pub const STRING_AT_MOST: u16 = 168;

pub const STRING_LESS: u16 = 169;

pub const STRING_EQUAL: u16 = 170;

pub const STRING_AT_LEAST: u16 = 171;

pub const STRING_GREATER: u16 = 172;

pub const IS_STRING: u16 = 173;

pub const SUBSTRING: u16 = 174;

pub const SYMBOL_TO_STRING: u16 = 175;

pub const SYMBOL_EQUAL: u16 = 176;

pub const IS_SYMBOL: u16 = 177;

pub const TAN: u16 = 178;

pub const TRUNCATE: u16 = 179;

pub const VALUES: u16 = 180;

pub const VECTOR: u16 = 181;

pub const VECTOR_TO_LIST: u16 = 182;

pub const VECTOR_FILL_BANG: u16 = 183;

pub const VECTOR_FOR_EACH: u16 = 184;

pub const VECTOR_LENGTH: u16 = 185;

pub const VECTOR_MAP: u16 = 186;

pub const VECTOR_REF: u16 = 187;

pub const VECTOR_SET_BANG: u16 = 188;

pub const IS_VECTOR: u16 = 189;

pub const IS_ZERO: u16 = 190;

pub const FIND: u16 = 191;

pub const FOR_ALL: u16 = 192;

pub const EXISTS: u16 = 193;

pub const FILTER: u16 = 194;

pub const PARTITION: u16 = 195;

pub const FOLD_LEFT: u16 = 196;

pub const FOLD_RIGHT: u16 = 197;

pub const REMP: u16 = 198;

pub const REMOVE: u16 = 199;

pub const REMV: u16 = 200;

pub const REMQ: u16 = 201;

pub const MEMP: u16 = 202;

pub const MEMBER: u16 = 203;

pub const MEMV: u16 = 204;

pub const MEMQ: u16 = 205;

pub const ASSP: u16 = 206;

pub const ASSOC: u16 = 207;

pub const ASSV: u16 = 208;

pub const ASSQ: u16 = 209;

pub const CONS_STAR: u16 = 210;

pub const WHEN: u16 = 211;

pub const UNLESS: u16 = 212;

pub const DO: u16 = 213;

pub const CASE_LAMBDA: u16 = 214;

pub const MAKE_VARIABLE_TRANSFORMER: u16 = 215;

pub const SYNTAX_CASE: u16 = 216;

pub const SYNTAX: u16 = 217;

pub const IS_IDENTIFIER: u16 = 218;

pub const BOUND_IDENTIFIER_EQUAL: u16 = 219;

pub const FREE_IDENTIFIER_EQUAL: u16 = 220;

pub const SYNTAX_TO_DATUM: u16 = 221;

pub const DATUM_TO_SYNTAX: u16 = 222;

pub const GENERATE_TEMPORARIES: u16 = 223;

pub const WITH_SYNTAX: u16 = 224;

pub const QUASISYNTAX: u16 = 225;

pub const UNSYNTAX: u16 = 226;

pub const UNSYNTAX_SPLICING: u16 = 227;

pub const SYNTAX_VIOLATION: u16 = 228;

pub const WITH_EXCEPTION_HANDLER: u16 = 229;

pub const RAISE: u16 = 230;

pub const RAISE_CONTINUABLE: u16 = 231;

pub const CALL_WITH_INPUT_FILE: u16 = 232;

pub const CALL_WITH_OUTPUT_FILE: u16 = 233;

pub const CLOSE_INPUT_PORT: u16 = 234;

pub const CLOSE_OUTPUT_PORT: u16 = 235;

pub const CURRENT_ERROR_PORT: u16 = 236;

pub const CURRENT_INPUT_PORT: u16 = 237;

pub const CURRENT_OUTPUT_PORT: u16 = 238;

pub const DISPLAY: u16 = 239;

pub const EOF_OBJECT: u16 = 240;

pub const IS_EOF_OBJECT: u16 = 241;

pub const IS_INPUT_PORT: u16 = 242;

pub const NEWLINE: u16 = 243;

pub const OPEN_INPUT_FILE: u16 = 244;

pub const OPEN_OUTPUT_FILE: u16 = 245;

pub const IS_OUTPUT_PORT: u16 = 246;

pub const PEEK_CHAR: u16 = 247;

pub const READ: u16 = 248;

pub const READ_CHAR: u16 = 249;

pub const WITH_INPUT_FROM_FILE: u16 = 250;

pub const WITH_OUTPUT_TO_FILE: u16 = 251;

pub const WRITE: u16 = 252;

pub const WRITE_CHAR: u16 = 253;

pub const MAKE_EQ_HASHTABLE: u16 = 254;

pub const MAKE_EQV_HASHTABLE: u16 = 255;

pub const MAKE_HASHTABLE: u16 = 256;

pub const IS_HASHTABLE: u16 = 257;

pub const HASHTABLE_SIZE: u16 = 258;

pub const HASHTABLE_REF: u16 = 259;

pub const HASHTABLE_SET_BANG: u16 = 260;

pub const HASHTABLE_DELETE_BANG: u16 = 261;

pub const IS_HASHTABLE_CONTAINS: u16 = 262;

pub const HASHTABLE_UPDATE_BANG: u16 = 263;

pub const HASHTABLE_COPY: u16 = 264;

pub const HASHTABLE_CLEAR_BANG: u16 = 265;

pub const HASHTABLE_KEYS: u16 = 266;

pub const HASHTABLE_ENTRIES: u16 = 267;

pub const HASHTABLE_EQUIVALENCE_FUNCTION: u16 = 268;

pub const HASHTABLE_HASH_FUNCTION: u16 = 269;

pub const IS_HASHTABLE_MUTABLE: u16 = 270;

pub const EQUAL_HASH: u16 = 271;

pub const STRING_HASH: u16 = 272;

pub const STRING_CI_HASH: u16 = 273;

pub const SYMBOL_HASH: u16 = 274;

pub const LIST_SORT: u16 = 275;

pub const VECTOR_SORT: u16 = 276;

pub const VECTOR_SORT_BANG: u16 = 277;

pub const IS_FILE_EXISTS: u16 = 278;

pub const DELETE_FILE: u16 = 279;

pub const COMMAND_LINE: u16 = 280;

pub const EXIT: u16 = 281;

pub const MAKE_RECORD_TYPE_DESCRIPTOR: u16 = 282;

pub const IS_RECORD_TYPE_DESCRIPTOR: u16 = 283;

pub const MAKE_RECORD_CONSTRUCTOR_DESCRIPTOR: u16 = 284;

pub const RECORD_CONSTRUCTOR: u16 = 285;

pub const RECORD_PREDICATE: u16 = 286;

pub const RECORD_ACCESSOR: u16 = 287;

pub const RECORD_MUTATOR: u16 = 288;

pub const DEFINE_RECORD_TYPE: u16 = 289;

pub const RECORD_TYPE_DESCRIPTOR: u16 = 290;

pub const RECORD_CONSTRUCTOR_DESCRIPTOR: u16 = 291;

pub const FIELDS: u16 = 292;

pub const MUTABLE: u16 = 293;

pub const IMMUTABLE: u16 = 294;

pub const PARENT: u16 = 295;

pub const PROTOCOL: u16 = 296;

pub const SEALED: u16 = 297;

pub const OPAQUE: u16 = 298;

pub const NONGENERATIVE: u16 = 299;

pub const PARENT_RTD: u16 = 300;
