// Bytes that are written, by name: the kinds of new nodes, and what stands behind them.
use crate::kinds;

pub const BLOCK: u8 = kinds::BLOCK as u8;

pub const EXPRESSION_STATEMENT: u8 = kinds::EXPRESSION_STATEMENT as u8;

pub const DECLARATION: u8 = kinds::DECLARATION as u8;

pub const DECLARATOR: u8 = kinds::DECLARATOR as u8;

pub const RETURN: u8 = kinds::RETURN as u8;

pub const FUNCTION_BODY: u8 = kinds::FUNCTION_BODY as u8;

pub(crate) const LITERAL: u8 = kinds::LITERAL as u8;

pub const OBJECT: u8 = kinds::OBJECT as u8;

pub const ASSIGNMENT: u8 = kinds::ASSIGNMENT as u8;

pub const SEQUENCE: u8 = kinds::SEQUENCE as u8;

pub const CALL: u8 = kinds::CALL as u8;

pub const MEMBER: u8 = kinds::MEMBER as u8;

pub const ARRAY: u8 = kinds::ARRAY as u8;

pub const OBJECT_PATTERN: u8 = kinds::OBJECT_PATTERN as u8;

pub const DEFAULT: u8 = kinds::DEFAULT as u8;

// The bit maps: the first field alone, the second alone, the first two, the first three.
pub const FIRST: u8 = 1;

pub const SECOND: u8 = 2;

pub const FIRST_TWO: u8 = 3;

pub(crate) const FIRST_THREE: u8 = 7;

// The sorts of a Declaration.
pub const VAR: u8 = 1;

pub const LET: u8 = 2;

// The sort of a Literal.
pub(crate) const STRING: u8 = 1;
