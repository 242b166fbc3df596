//! The fixed words of module texts, by their classes in the grammar: the position in `bed_lex::WORDS`, and 3 more.

pub(crate) const MODULE: u8 = 3;

pub(crate) const SIGNATURE: u8 = 4;

pub(crate) const RESERVING: u8 = 5;

pub(crate) const FOR: u8 = 6;

pub(crate) const PRE: u8 = 7;

pub(crate) const POST: u8 = 8;

pub(crate) const PREDICATE: u8 = 9;

pub(crate) const IMPORT: u8 = 10;

pub(crate) const EXPORT: u8 = 11;

pub(crate) const FUNCTION: u8 = 12;

pub(crate) const LOCALS: u8 = 13;

pub(crate) const EXISTS: u8 = 14;

pub(crate) const EMP: u8 = 15;

pub(crate) const BLOCK: u8 = 16;

pub(crate) const CODE: u8 = 17;

pub(crate) const IN: u8 = 18;

pub(crate) const NOTIN: u8 = 19;

pub(crate) const NIL: u8 = 20;

pub(crate) const CONS: u8 = 21;

pub(crate) const APP: u8 = 22;

pub(crate) const OLD: u8 = 23;

pub(crate) const RESULT: u8 = 24;

pub(crate) const WORD: u8 = 25;

pub(crate) const SEQ: u8 = 26;

pub(crate) const IF: u8 = 27;

pub(crate) const ELSE: u8 = 28;

pub(crate) const JOIN: u8 = 29;

pub(crate) const WHILE: u8 = 30;

pub(crate) const INVARIANT: u8 = 31;

pub(crate) const CALL: u8 = 32;

pub(crate) const VIA: u8 = 33;

pub(crate) const USING: u8 = 34;

pub(crate) const AFTER: u8 = 35;

pub(crate) const RETURN: u8 = 36;

pub(crate) const BYTE: u8 = 37;

pub(crate) const AND: u8 = 38;

pub(crate) const OR: u8 = 39;

pub(crate) const XOR: u8 = 40;

pub(crate) const FIND: u8 = 41;

pub(crate) const WALK: u8 = 42;

pub(crate) const OF: u8 = 43;

pub(crate) const AS: u8 = 44;

pub(crate) const KEEP: u8 = 45;

pub(crate) const HINT: u8 = 46;

pub(crate) const UNFOLD: u8 = 47;

pub(crate) const AT: u8 = 48;

pub(crate) const FOLD: u8 = 49;

pub(crate) const CASE: u8 = 50;

pub(crate) const APPEND: u8 = 51;

pub(crate) const DIVIDE: u8 = 52;

pub(crate) const MERGE: u8 = 53;

pub(crate) const BYTES: u8 = 54;

pub(crate) const CELL: u8 = 55;

pub(crate) const UNCELL: u8 = 56;

pub(crate) const DROP: u8 = 57;

pub(crate) const CLAIM: u8 = 58;

pub(crate) const WHEN: u8 = 59;

pub(crate) const GIVE: u8 = 60;

pub(crate) const SEMICOLON: u8 = 61;

pub(crate) const COMMA: u8 = 62;

pub(crate) const COLON: u8 = 63;

pub(crate) const LEFT_PAREN: u8 = 64;

pub(crate) const RIGHT_PAREN: u8 = 65;

pub(crate) const LEFT_BRACE: u8 = 66;

pub(crate) const RIGHT_BRACE: u8 = 67;

pub(crate) const LEFT_BRACKET: u8 = 68;

pub(crate) const RIGHT_BRACKET: u8 = 69;

pub(crate) const DOT: u8 = 70;

pub(crate) const BAR: u8 = 71;

pub(crate) const ARROW: u8 = 72;

pub(crate) const BYTE_ARROW: u8 = 73;

pub(crate) const ASSIGN: u8 = 74;

pub(crate) const LESS: u8 = 75;

pub(crate) const AT_MOST: u8 = 76;

pub(crate) const EQUAL: u8 = 77;

pub(crate) const SAME: u8 = 78;

pub(crate) const UNEQUAL: u8 = 79;

pub(crate) const PLUS: u8 = 80;

pub(crate) const MINUS: u8 = 81;

pub(crate) const STAR: u8 = 82;

pub(crate) const AMPERSAND: u8 = 83;

pub(crate) const HOLE: u8 = 84;
