// The kinds of nodes, as the byte in front of a node has them. They are numbers, since any byte may stand there and most of the
// code tests for a few of them.
pub const PROGRAM: usize = 1;

pub const BLOCK: usize = 2;

pub const EXPRESSION_STATEMENT: usize = 3;

pub const DECLARATION: usize = 4;

pub const DECLARATOR: usize = 5;

pub const FOR: usize = 6;

pub const FOR_IN: usize = 7;

pub const FOR_OF: usize = 8;

pub const TRY: usize = 9;

pub const CATCH: usize = 10;

pub const RETURN: usize = 11;

pub const OTHER_STATEMENT: usize = 12;

pub const EMPTY: usize = 13;

pub const FUNCTION: usize = 14;

pub const PARAMETER: usize = 15;

pub const FUNCTION_BODY: usize = 16;

pub const ARROW: usize = 17;

pub const REFERENCE: usize = 18;

pub const BINDING: usize = 19;

pub const TEMPORARY: usize = 20;

pub const HELPER: usize = 21;

pub const LITERAL: usize = 22;

pub const TEMPLATE: usize = 23;

pub const OBJECT: usize = 24;

pub const PROPERTY: usize = 25;

pub const SPREAD: usize = 26;

pub const ASSIGNMENT: usize = 27;

pub const SEQUENCE: usize = 28;

pub const CALL: usize = 29;

pub const MEMBER: usize = 30;

pub const PARENTHESISED: usize = 31;

pub const ARRAY: usize = 32;

pub const OTHER_EXPRESSION: usize = 33;

pub const OBJECT_PATTERN: usize = 34;

pub const PATTERN_PROPERTY: usize = 35;

pub const ARRAY_PATTERN: usize = 36;

pub const DEFAULT: usize = 37;

pub const STATIC_KEY: usize = 38;

pub const PRIVATE_KEY: usize = 39;

pub const CLASS: usize = 40;

pub const CLASS_MEMBER: usize = 41;

pub const STATIC_BLOCK: usize = 42;

pub const SWITCH: usize = 43;

pub const CASE: usize = 44;
