#![tactic(auto)]

// Statements: each reader is that of the same name in the grammar's definition.
ghost use Rattle.std.specs.Prelude.{◌≡◌, false, List, [], ℕ, ◌+◌, ◌<◌, ◌≤◌, length};
ghost use Rattle.value.specs.Limits.{most_tokens, table_words, most_names, most_open};
ghost use Rattle.token.specs.Kind.{keyword};
ghost use Rattle.grammar.specs.Reader.{by_name, expect, repeat, turns};
ghost use Rattle.grammar.specs.Expressions.{read_expression};
ghost use Rattle.grammar.specs.Statements.{old_variable, new_variable, named_target, field_target, read_target, clause_turn, read_assignment, arm_end, arm_turn, statement_turn, read_block};
ghost use Rattle.read_state.specs.Promises.Reading.{anything, InNumber, Ready, Reads, Stays, Passes};
ghost use Rattle.read_expressions.specs.Promises.Promises.{cell_as};
ghost use Rattle.read_statements.specs.Promises.Promises.{Each, whatever, TargetNoted, IsLink, ChainIn, when_behind, end_behind, NoneFollows, loop_range, loop_head, IndexNoted, loop_end, Exits, ArmsIn, if_with, forall_with, expression_in, block_in, parts_in, ListIn};

use names::{count_variables, entry_in, find_name, remove_entry};
use program::reply::Reason;
use program::{put_word, token_at};
use read_constants::{read_declaration, read_range};
use read_expressions::inside::Inside;
use read_expressions::{Cell, dot_field, read_expression};
use read_state::{Read, Reading, declare, expect, forbid, fresh, is_name, refuse};
use token::{Scan, Token, kind};
use value::limits::MOST_TURNS;

// Where a statement is read, a refusal is returned as the answer that it came in: `?` would move its two numbers as one word, which the place of
// reading shares, and each reading would wait for that. The readers of the parts of a statement are put in place where they are called, so that their answers
// stay in registers.

// ---- left sides

// Over the name t on a left side, an old variable or a new one; its number among the variables.
#[inline(always)]
fn variable_target(
    source: &[u8],
    names: &mut [u32],
    words: &[u32],
    scan: Scan,
    s: Reading,
    t: Token,
) -> Read
    requires { Ready scan (length names.old) (length words.now) s × (s.at < scan.count) }
    ensures { Reads InNumber (by_name t false old_variable new_variable) source.now scan 256 s names.old words.now result names.new words.now }
{
    let Some(slot) = find_name(source, names, s.count, false, t.start, t.len) else {
        let a = fresh(source, names, words, scan, s, false, None)?;
        let k = count_variables(names, a.count);
        let b = declare(names, words, scan, a, a.at - 1, names::kind::VARIABLE, k);
        return Ok(b.with_number(k));
    };
    let e = entry_in(names, slot);
    if e.kind == names::kind::VARIABLE {
        return Ok(s.moved().with_number(e.word));
    }
    refuse(words, scan, s, s.at, Reason::UsedName)
}

// `.name` on a left side; the field's number.
#[inline(always)]
fn named_target(source: &[u8], names: &[u32], words: &[u32], scan: Scan, s: Reading) -> Read
    requires { Ready scan (length names.now) (length words.now) s }
    ensures { Reads InNumber named_target source.now scan s.count s names.now words.now result names.now words.now }
{
    let a = dot_field(source, names, words, scan, s)?;
    let e = entry_in(names, a.number as usize);
    if e.kind == names::kind::CONST_FIELD {
        return refuse(words, scan, a, a.at - 1, Reason::UsedName);
    }
    Ok(a.with_number(e.word))
}

// `cell` on a left side, with `.name` where fields are named; the field's number.
#[inline(always)]
fn field_target(
    source: &[u8],
    names: &[u32],
    words: &[u32],
    scan: Scan,
    s: Reading,
    cell: Cell,
) -> Read
    requires { Ready scan (length names.now) (length words.now) s × (s.at < scan.count) }
    ensures { Reads InNumber (field_target (cell_as cell)) source.now scan s.count s names.now words.now result names.now words.now }
{
    let a = s.moved();
    if cell.named {
        return named_target(source, names, words, scan, a);
    }
    let b = forbid(words, scan, a, kind::DOT, Reason::WrongUse)?;
    Ok(b.with_number(0))
}

// The left side of an assignment; its number.
#[inline(always)]
fn read_target(
    source: &[u8],
    names: &mut [u32],
    words: &[u32],
    scan: Scan,
    s: Reading,
    cell: Cell,
) -> Read
    requires { Ready scan (length names.old) (length words.now) s × (s.at < scan.count) }
    ensures { Reads TargetNoted (read_target (cell_as cell)) source.now scan 256 s names.old words.now result names.new words.now }
{
    let t = token_at(words, scan, s.at);
    if t.kind == kind::TIME {
        return refuse(words, scan, s, s.at, Reason::UsedName);
    }
    if t.kind == kind::CELL {
        return field_target(source, names, words, scan, s, cell);
    }
    let r = variable_target(source, names, words, scan, s, t);
    let Ok(a) = r else {
        return r;
    };
    let q = forbid(words, scan, a, kind::DOT, Reason::WrongUse);
    let Ok(b) = q else {
        return q;
    };
    Ok(b.with_number(a.number))
}

// ---- right sides

// Which clause of a chain is read. Only a later one may end in `otherwise`, and must where no `when` follows.
#[derive(Clone, Copy, Debug, PartialEq, Eq)]
enum Link {
    First,
    Later,
}

// `when` and a condition, whose position is noted at the clause's `:=`, at position i. Carries whether one more clause follows.
#[inline(always)]
fn when_clause(
    source: &[u8],
    names: &[u32],
    words: &mut [u32],
    scan: Scan,
    s: Reading,
    inside: Inside,
    i: usize,
) -> Read
    requires { Ready scan (length names.now) (length words.old) s × (s.at < scan.count) }
    ensures { Each whatever ChainIn (when_behind inside i) source.now scan s.count (s.at + 1) s names.now words.old result names.now words.new }
{
    let a = s.moved();
    let b = read_expression(source, names, words, scan, a, inside, 1)?;
    put_word(words, i, 2, a.at as u32);
    let t = token_at(words, scan, b.at);
    Ok(b.with_more(t.kind == kind::ASSIGN))
}

// What follows a clause's expression. Carries whether one more clause follows.
#[inline(always)]
fn clause_end(
    source: &[u8],
    names: &[u32],
    words: &mut [u32],
    scan: Scan,
    s: Reading,
    inside: Inside,
    i: usize,
    link: Link,
) -> Read
    requires { Ready scan (length names.now) (length words.old) s }
    ensures { Each (λ b. IsLink link b.got) ChainIn (end_behind inside i) source.now scan s.count s.at s names.now words.old result names.now words.new }
{
    let t = token_at(words, scan, s.at);
    if t.kind == kind::WHEN_WORD {
        return when_clause(source, names, words, scan, s, inside, i);
    }
    if t.kind == kind::COMMA {
        return refuse(words, scan, s, s.at, Reason::OtherForm);
    }
    match link {
        Link::First => Ok(s.with_more(false)),
        Link::Later => {
            let a = expect(words, scan, s, kind::OTHERWISE_WORD, Reason::NotAllowed)?;
            Ok(a.with_more(false))
        }
    }
}

// One more clause, from its `:=` on. Carries whether one more follows.
#[inline(always)]
fn read_clause(
    source: &[u8],
    names: &[u32],
    words: &mut [u32],
    scan: Scan,
    s: Reading,
    inside: Inside,
    link: Link,
) -> Read
    requires { Ready scan (length names.now) (length words.old) s }
    ensures { Each (IsLink link) ChainIn (clause_turn (expression_in inside)) source.now scan s.count (s.at + 1) s names.now words.old result names.now words.new }
{
    let i = s.at;
    let r = expect(words, scan, s, kind::ASSIGN, Reason::NotAllowed);
    let Ok(a) = r else {
        return r;
    };
    let q = read_expression(source, names, words, scan, a, inside, 1);
    let Ok(b) = q else {
        return q;
    };
    let p = clause_end(source, names, words, scan, b, inside, i, link);
    let Ok(d) = p else {
        return p;
    };
    put_word(words, i, 3, d.at as u32);
    Ok(d)
}

// The clauses of an assignment.
#[inline(always)]
fn read_clauses(
    source: &[u8],
    names: &[u32],
    words: &mut [u32],
    scan: Scan,
    s: Reading,
    inside: Inside,
) -> Read
    requires { Ready scan (length names.now) (length words.old) s }
    ensures { Reads anything (repeat turns (clause_turn (expression_in inside)) []) source.now scan s.count s names.now words.old result names.now words.new }
{
    let mut here = s;
    let mut link = Link::First;
    loop {
        let r = read_clause(source, names, words, scan, here, inside, link);
        let Ok(a) = r else {
            return r;
        };
        if !a.more {
            return Ok(a);
        }
        here = a;
        link = Link::Later;
    }
}

// An assignment. Its target and the position past it are noted at its first token.
#[inline(always)]
fn read_assignment(
    source: &[u8],
    names: &mut [u32],
    words: &mut [u32],
    scan: Scan,
    s: Reading,
    inside: Inside,
) -> Read
    requires { Ready scan (length names.old) (length words.old) s × (s.at < scan.count) }
    ensures { Reads anything (read_assignment (cell_as inside.cell) (expression_in inside)) source.now scan 256 s names.old words.old result names.new words.new }
{
    let i = s.at;
    let r = read_target(source, names, words, scan, s, inside.cell);
    let Ok(a) = r else {
        return r;
    };
    let q = forbid(words, scan, a, kind::BRACKET, Reason::OtherForm);
    let Ok(b) = q else {
        return q;
    };
    let p = read_clauses(source, names, words, scan, b, inside);
    let Ok(d) = p else {
        return p;
    };
    put_word(words, i, 2, a.number);
    put_word(words, i, 3, d.at as u32);
    Ok(d)
}

// ---- choices

// Over an `end`. Carries that no more follows.
#[inline(always)]
fn read_end(words: &[u32], scan: Scan, s: Reading) -> Read
    requires { (scan.count ≤ most_tokens) × (length words.now ≡ table_words) }
    ensures { Passes NoneFollows (expect keyword.end) scan 1 s words.now result }
{
    let a = expect(words, scan, s, kind::END_WORD, Reason::NotAllowed)?;
    Ok(a.with_more(false))
}

// ---- loops

// The range of a loop, noted at its index's name, at position i.
#[inline(always)]
fn loop_range(
    source: &[u8],
    names: &[u32],
    words: &mut [u32],
    scan: Scan,
    s: Reading,
    i: usize,
) -> Read
    requires { Ready scan (length names.now) (length words.old) s }
    ensures { Reads anything (loop_range i) source.now scan s.count s names.now words.old result names.now words.new }
{
    let a = expect(words, scan, s, kind::COLON, Reason::OtherForm)?;
    let b = read_range(source, names, words, scan, a, MOST_TURNS)?;
    put_word(words, i, 2, b.low);
    put_word(words, i, 3, b.value);
    Ok(b)
}

// A loop's index and range. The index's record holds its loop's depth; its slot is carried on.
#[inline(always)]
fn loop_head(
    source: &[u8],
    names: &mut [u32],
    words: &mut [u32],
    scan: Scan,
    s: Reading,
    depth: u32,
) -> Read
    requires { Ready scan (length names.old) (length words.old) s × (depth ≤ most_open) }
    ensures { Reads IndexNoted (loop_head depth) source.now scan 256 s names.old words.old result names.new words.new }
{
    let a = fresh(source, names, words, scan, s, false, None)?;
    let i = a.at - 1;
    let b = loop_range(source, names, words, scan, a, i)?;
    Ok(declare(names, words, scan, b, i, names::kind::INDEX, depth))
}

// The end of a loop: its index's record is free again, and its body's position and the position past it are noted at its `forall`, at position i.
#[inline(always)]
fn loop_end(
    names: &mut [u32],
    words: &mut [u32],
    scan: Scan,
    s: Reading,
    i: usize,
    inner: u32,
    slot: usize,
) -> Read
    requires { Ready scan (length names.old) (length words.old) s × (slot < most_names) }
    ensures { (source : List ℕ) → Each whatever anything (loop_end i inner slot) source scan s.count (s.at + 1) s names.old words.old result names.new words.new }
{
    let a = expect(words, scan, s, kind::END_WORD, Reason::NotAllowed)?;
    remove_entry(names, slot);
    put_word(words, i, 2, inner);
    put_word(words, i, 3, a.at as u32);
    Ok(a.released())
}

// Over an `exit`, with the position past it noted at it.
#[inline(always)]
fn read_exit(words: &mut [u32], s: Reading) -> Reading
    requires { (length words.old ≡ table_words) × (s.at < most_tokens) }
    ensures { Exits s words.old result words.new }
{
    let i = s.at;
    put_word(words, i, 3, (i + 1) as u32);
    s.moved()
}

// ---- lists of statements: a cycle in which the tokens left fall

// What follows an arm's statements. Carries whether one more arm follows.
#[cycle(statements)]
#[inline(always)]
fn arm_end(
    source: &[u8],
    names: &mut [u32],
    words: &mut [u32],
    scan: Scan,
    s: Reading,
    inside: Inside,
) -> Read
    requires { Ready scan (length names.old) (length words.old) s }
    ensures { Each whatever (ArmsIn scan) (arm_end (block_in inside)) source.now scan 256 s.at s names.old words.old result names.new words.new }
{
    let t = token_at(words, scan, s.at);
    if t.kind == kind::ELSIF_WORD {
        return Ok(s.with_more(true));
    }
    if t.kind == kind::ELSE_WORD {
        let a = read_block(source, names, words, scan, s.moved(), inside)?;
        return read_end(words, scan, a);
    }
    read_end(words, scan, s)
}

// One more arm, from its `if` or `elsif` on. Carries whether one more follows.
#[cycle(statements)]
#[inline(always)]
fn read_arm(
    source: &[u8],
    names: &mut [u32],
    words: &mut [u32],
    scan: Scan,
    s: Reading,
    inside: Inside,
) -> Read
    requires { Ready scan (length names.old) (length words.old) s × (s.at < scan.count) }
    ensures { Each whatever (ArmsIn scan) (arm_turn (expression_in inside) (block_in inside)) source.now scan 256 (s.at + 1) s names.old words.old result names.new words.new }
{
    let i = s.at;
    let a = read_expression(source, names, words, scan, s.moved(), inside, 1)?;
    let b = expect(words, scan, a, kind::THEN_WORD, Reason::NotAllowed)?;
    let d = read_block(source, names, words, scan, b, inside)?;
    put_word(words, i, 2, d.at as u32);
    arm_end(source, names, words, scan, d, inside)
}

// An `if`. The position past it is noted at its first token.
#[cycle(statements)]
fn read_if(
    source: &[u8],
    names: &mut [u32],
    words: &mut [u32],
    scan: Scan,
    s: Reading,
    inside: Inside,
) -> Read
    requires { Ready scan (length names.old) (length words.old) s × (s.at < scan.count) }
    ensures { Reads anything (if_with (parts_in inside) inside.loops) source.now scan 256 s names.old words.old result names.new words.new }
{
    let Some(inner) = inside.opened() else {
        return refuse(words, scan, s, s.at, Reason::DeepNesting);
    };
    let i = s.at;
    let mut here = s;
    loop {
        let a = read_arm(source, names, words, scan, here, inner)?;
        if !a.more {
            put_word(words, i, 3, a.at as u32);
            return Ok(a);
        }
        here = a;
    }
}

// A loop.
#[cycle(statements)]
fn read_forall(
    source: &[u8],
    names: &mut [u32],
    words: &mut [u32],
    scan: Scan,
    s: Reading,
    inside: Inside,
) -> Read
    requires { Ready scan (length names.old) (length words.old) s × (s.at < scan.count) }
    ensures { Reads anything (forall_with (parts_in inside) inside.loops) source.now scan 256 s names.old words.old result names.new words.new }
{
    let Some(inner) = inside.looped() else {
        return refuse(words, scan, s, s.at, Reason::DeepNesting);
    };
    let a = loop_head(source, names, words, scan, s.moved(), inside.loops)?;
    let b = read_block(source, names, words, scan, a, inner)?;
    loop_end(names, words, scan, b, s.at, a.at as u32, a.number as usize)
}

// One more statement; nothing is read where the list ends.
#[cycle(statements)]
fn read_statement(
    source: &[u8],
    names: &mut [u32],
    words: &mut [u32],
    scan: Scan,
    s: Reading,
    inside: Inside,
) -> Read
    requires { Ready scan (length names.old) (length words.old) s }
    ensures { Each whatever (ListIn s) (statement_turn (cell_as inside.cell) (parts_in inside) inside.loops) source.now scan 256 s.at s names.old words.old result names.new words.new }
{
    let t = token_at(words, scan, s.at);
    if is_name(t) {
        return read_assignment(source, names, words, scan, s, inside);
    }
    match t.kind {
        kind::CONST_WORD => read_declaration(source, names, words, scan, s, 0 < inside.free),
        kind::IF_WORD => read_if(source, names, words, scan, s, inside),
        kind::FORALL_WORD => read_forall(source, names, words, scan, s, inside),
        kind::EXIT_WORD => {
            if inside.loops == 0 {
                return Ok(s);
            }
            Ok(read_exit(words, s))
        }
        _ => Ok(s),
    }
}

// A list of statements.
#[cycle(statements)]
pub fn read_block(
    source: &[u8],
    names: &mut [u32],
    words: &mut [u32],
    scan: Scan,
    s: Reading,
    inside: Inside,
) -> Read
    requires { Ready scan (length names.old) (length words.old) s }
    ensures { Stays anything (block_in inside) source.now scan 256 s names.old words.old result names.new words.new }
{
    let mut here = s;
    loop {
        let r = read_statement(source, names, words, scan, here, inside);
        let Ok(a) = r else {
            return r;
        };
        if a.at == here.at {
            return Ok(a);
        }
        here = a;
    }
}
