// The kinds of tokens. A single-byte token has its byte's number.
// Kept: what may not change. They are words of the table that C lends, and `program::token_at` gives back whatever word stands there.
ghost use Rattle.std.specs.Prelude.{◌≡◌};
ghost use Rattle.token.specs.Kind.{level_of};

pub const STOP: u32 = 0;

pub const NAME: u32 = 1;

pub const LITERAL: u32 = 2;

pub const CELL: u32 = 3;

pub const TIME: u32 = 4;

pub const CONST_WORD: u32 = 5;

pub const DIMENSIONS_WORD: u32 = 6;

pub const ELSE_WORD: u32 = 7;

pub const ELSIF_WORD: u32 = 8;

pub const END_WORD: u32 = 9;

pub const EXIT_WORD: u32 = 10;

pub const FOR_WORD: u32 = 11;

pub const FORALL_WORD: u32 = 12;

pub const IF_WORD: u32 = 13;

pub const OF_WORD: u32 = 14;

pub const OTHERWISE_WORD: u32 = 15;

pub const THEN_WORD: u32 = 16;

pub const WHEN_WORD: u32 = 17;

pub const REFUSED: u32 = 18;

pub const ASSIGN: u32 = 128;

pub const DOTS: u32 = 129;

pub const AT_MOST: u32 = 130;

pub const AT_LEAST: u32 = 131;

pub const UNEQUAL: u32 = 132;

pub const PLUS: u32 = 43;

pub const MINUS: u32 = 45;

pub const TIMES: u32 = 42;

pub const SLASH: u32 = 47;

pub const PERCENT: u32 = 37;

pub const AND: u32 = 38;

pub const OR: u32 = 124;

pub const NOT: u32 = 33;

pub const EQUAL: u32 = 61;

pub const LESS: u32 = 60;

pub const GREATER: u32 = 62;

pub const BRACKET: u32 = 91;

pub const UNBRACKET: u32 = 93;

pub const PAREN: u32 = 40;

pub const UNPAREN: u32 = 41;

pub const COMMA: u32 = 44;

pub const COLON: u32 = 58;

pub const DOT: u32 = 46;

// The level of a binary operator; 0 for what is none.
// Kept: no plainer. Levels are compared as numbers, and 0 is below them all.
#[tactic(auto, unfolding(crate::specs::Kind::level_of))]
pub fn level_of(k: u32) -> u32
    ensures { result ≡ level_of k }
{
    match k {
        TIMES | SLASH | PERCENT => 4,
        PLUS | MINUS => 3,
        EQUAL | UNEQUAL | LESS | GREATER | AT_MOST | AT_LEAST => 2,
        AND | OR => 1,
        _ => 0,
    }
}
