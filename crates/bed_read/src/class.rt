//! The classes of tokens: names, numbers up to and above the largest reserve, and the fixed words.

pub(crate) const NAME: u32 = 0;

pub(crate) const NUMBER: u32 = 1;

pub(crate) const LARGE_NUMBER: u32 = 2;

pub(crate) const MODULE: u32 = 3;

pub(crate) const SIGNATURE: u32 = 4;

pub(crate) const RESERVING: u32 = 5;

pub(crate) const FOR: u32 = 6;

pub(crate) const PRE: u32 = 7;

pub(crate) const POST: u32 = 8;

pub(crate) const PREDICATE: u32 = 9;

pub(crate) const IMPORT: u32 = 10;

pub(crate) const EXPORT: u32 = 11;

pub(crate) const FUNCTION: u32 = 12;

pub(crate) const LOCALS: u32 = 13;

pub(crate) const EXISTS: u32 = 14;

pub(crate) const EMP: u32 = 15;

pub(crate) const BLOCK: u32 = 16;

pub(crate) const CODE: u32 = 17;

pub(crate) const IN: u32 = 18;

pub(crate) const NOTIN: u32 = 19;

pub(crate) const NIL: u32 = 20;

pub(crate) const CONS: u32 = 21;

pub(crate) const APP: u32 = 22;

pub(crate) const OLD: u32 = 23;

pub(crate) const RESULT: u32 = 24;

pub(crate) const WORD: u32 = 25;

pub(crate) const SEQ: u32 = 26;

pub(crate) const IF: u32 = 27;

pub(crate) const ELSE: u32 = 28;

pub(crate) const JOIN: u32 = 29;

pub(crate) const WHILE: u32 = 30;

pub(crate) const INVARIANT: u32 = 31;

pub(crate) const CALL: u32 = 32;

pub(crate) const VIA: u32 = 33;

pub(crate) const USING: u32 = 34;

pub(crate) const AFTER: u32 = 35;

pub(crate) const RETURN: u32 = 36;

pub(crate) const BYTE: u32 = 37;

pub(crate) const AND: u32 = 38;

pub(crate) const OR: u32 = 39;

pub(crate) const XOR: u32 = 40;

pub(crate) const FIND: u32 = 41;

pub(crate) const WALK: u32 = 42;

pub(crate) const OF: u32 = 43;

pub(crate) const AS: u32 = 44;

pub(crate) const KEEP: u32 = 45;

pub(crate) const HINT: u32 = 46;

pub(crate) const UNFOLD: u32 = 47;

pub(crate) const AT: u32 = 48;

pub(crate) const FOLD: u32 = 49;

pub(crate) const CASE: u32 = 50;

pub(crate) const APPEND: u32 = 51;

pub(crate) const DIVIDE: u32 = 52;

pub(crate) const MERGE: u32 = 53;

pub(crate) const BYTES: u32 = 54;

pub(crate) const CELL: u32 = 55;

pub(crate) const UNCELL: u32 = 56;

pub(crate) const DROP: u32 = 57;

pub(crate) const CLAIM: u32 = 58;

pub(crate) const WHEN: u32 = 59;

pub(crate) const GIVE: u32 = 60;

pub(crate) const SEMICOLON: u32 = 61;

pub(crate) const COMMA: u32 = 62;

pub(crate) const COLON: u32 = 63;

pub(crate) const LEFT_PAREN: u32 = 64;

pub(crate) const RIGHT_PAREN: u32 = 65;

pub(crate) const LEFT_BRACE: u32 = 66;

pub(crate) const RIGHT_BRACE: u32 = 67;

pub(crate) const LEFT_BRACKET: u32 = 68;

pub(crate) const RIGHT_BRACKET: u32 = 69;

pub(crate) const DOT: u32 = 70;

pub(crate) const BAR: u32 = 71;

pub(crate) const ARROW: u32 = 72;

pub(crate) const BYTE_ARROW: u32 = 73;

pub(crate) const ASSIGN: u32 = 74;

pub(crate) const LESS: u32 = 75;

pub(crate) const AT_MOST: u32 = 76;

pub(crate) const EQUAL: u32 = 77;

pub(crate) const SAME: u32 = 78;

pub(crate) const UNEQUAL: u32 = 79;

pub(crate) const PLUS: u32 = 80;

pub(crate) const MINUS: u32 = 81;

pub(crate) const STAR: u32 = 82;

pub(crate) const AMPERSAND: u32 = 83;

pub(crate) const HOLE: u32 = 84;
