// How deep the parts of a program may stand in each other, so that what reads and walks them fits the stack.
//
// The reader calls itself for each statement and each parenthesis that stands in another one, and for each operator of a chain; typing, runs, copies,
// texts and the drop of a tree go as deep as the tree is. The grammar allows 64 things open at a place and, in each, chains of 64 operators of each
// rank: trees 24,000 deep. A statement takes up to 2.7 KB of stack, a parenthesis up to 2.3, a call up to 3.7, and an operator of a chain up to 1.1.
// Here a statement or a block weighs five, a parenthesis four, a dot three and any other operator two, so that a weight takes half a KB. What stands
// in each other weighs 10,000 at most, which takes 5.0 MB where it is read and typed, and 1.8 beside the answer of a query that is asked in it. So a
// program with the usual stack of 8 MB ends with a status and a third of it to spare, and what weighs 330 takes less than 256 KB.
use java_lex::{Token, TokenNode};
use qbs_base::NoMemory;
use std::alloc::Global;

/// The ranks of operators, the loosest first: `||`, `&&`, equations, orders, sums, products, `!`, and parts behind dots.
const RANKS: usize = 8;

/// What a statement that has others in it weighs, or a block that is in none.
const STATEMENT: u64 = 5;

/// What an open parenthesis weighs.
const PARENTHESIS: u64 = 4;

/// What an operator of a rank weighs.
const OPERATOR: [u64; RANKS] = [2, 2, 2, 2, 2, 2, 2, 3];

/// What is open between two parentheses, or in a block outside of them.
#[derive(Clone, Copy)]
struct Level {
    // What the levels around it weigh, and how many things are open there.
    around: u64,
    open: u64,
    // Whether it is a block.
    is_block: bool,
    // How many statements without braces of their own are open in it, and whether the last one has just ended.
    statements: u64,
    has_ended: bool,
    // The length of the chain of each rank, as far as it was read.
    chains: [u64; RANKS],
    // The greatest length of each.
    longest: [u64; RANKS],
    // The most that a parenthesis in it weighed, which is closed.
    inner: u64,
}

fn begun(around: u64, open: u64, is_block: bool) -> Level {
    Level {
        around,
        open,
        is_block,
        statements: 0,
        has_ended: false,
        chains: [0; RANKS],
        longest: [0; RANKS],
        inner: 0,
    }
}

// The rank of an operator.
fn rank(sign: &str) -> Option<usize> {
    match sign {
        "||" => Some(0),
        "&&" => Some(1),
        "==" | "!=" => Some(2),
        "<" | "<=" | ">" | ">=" => Some(3),
        "+" | "-" | "+=" => Some(4),
        "*" => Some(5),
        "!" => Some(6),
        "." => Some(7),
        _ => None,
    }
}

fn smaller(a: u64, b: u64) -> u64 {
    if a < b { a } else { b }
}

fn larger(a: u64, b: u64) -> u64 {
    if a < b { b } else { a }
}

// What the chains of a level weigh together.
fn chained(level: &Level) -> u64 {
    let mut sum = 0u64;
    for i in 0..RANKS {
        sum = sum.saturating_add(level.longest[i].saturating_mul(OPERATOR[i]));
    }
    sum
}

// What stands around a part of a level's open statements.
fn around_statements(level: &Level) -> u64 {
    level
        .around
        .saturating_add(level.statements.saturating_mul(STATEMENT))
}

// How many things are open at a level.
fn opened(level: &Level) -> u64 {
    level.open.saturating_add(level.statements)
}

// What is open and what stands in it, with the levels around it.
fn weight(level: &Level) -> u64 {
    let own = chained(level).saturating_add(level.inner);
    around_statements(level).saturating_add(own)
}

// One more operator of a rank: the chains of tighter ranks begin anew. A chain counts as long as the grammar lets it be, since reading stops
// behind that.
fn join(level: &mut Level, rank: usize, most: u64) {
    for i in 0..RANKS {
        if i == rank {
            level.chains[i] = smaller(level.chains[i].saturating_add(1), most);
            level.longest[i] = larger(level.longest[i], level.chains[i]);
        } else if rank < i {
            level.chains[i] = 0;
        }
    }
}

// An argument more: its chains begin anew.
fn part(level: &mut Level) {
    for i in 0..RANKS {
        level.chains[i] = 0;
    }
}

// An expression more: nothing of those before it is open.
fn clear(level: &mut Level) {
    level.chains = [0; RANKS];
    level.longest = [0; RANKS];
    level.inner = 0;
}

// The level of a block that opens.
fn block(top: &mut Level) -> Level {
    clear(top);
    let mut around = around_statements(top);
    let mut open = opened(top);
    if top.statements == 0 {
        around = around.saturating_add(STATEMENT);
        open = open.saturating_add(1);
    }
    begun(around, open, true)
}

// The level of a parenthesis that opens.
fn parenthesis(top: &Level) -> Level {
    let around = around_statements(top)
        .saturating_add(chained(top))
        .saturating_add(PARENTHESIS);
    begun(around, opened(top).saturating_add(1), false)
}

// The level of the reading behind a word: a statement that has others in it opens, and an `else` goes on with one that ended.
fn at_word(mut top: Level, word: &str) -> Level {
    if top.has_ended && word != "else" {
        top.statements = 0;
    }
    top.has_ended = false;
    if word == "if" || word == "for" || word == "while" {
        top.statements = top.statements.saturating_add(1);
    }
    top
}

// The level of the reading behind a sign, on top of those of `levels`, or none where it stops.
fn at_sign(
    levels: &mut Vec<Level>,
    mut top: Level,
    sign: &str,
    most: u64,
) -> Result<Option<Level>, NoMemory> {
    if top.has_ended {
        top.statements = 0;
        top.has_ended = false;
    }
    match sign {
        "(" => {
            let inside = parenthesis(&top);
            levels.push(top)?;
            Ok(Some(inside))
        }
        ")" => {
            let closed = chained(&top)
                .saturating_add(top.inner)
                .saturating_add(PARENTHESIS);
            let Some(mut below) = levels.pop() else {
                return Ok(None);
            };
            below.inner = larger(below.inner, closed);
            Ok(Some(below))
        }
        "{" => {
            let inside = block(&mut top);
            levels.push(top)?;
            Ok(Some(inside))
        }
        "}" => {
            let Some(mut below) = levels.pop() else {
                return Ok(None);
            };
            clear(&mut below);
            below.has_ended = true;
            Ok(Some(below))
        }
        ";" => {
            clear(&mut top);
            top.has_ended = top.is_block;
            Ok(Some(top))
        }
        "," => {
            part(&mut top);
            Ok(Some(top))
        }
        _ => {
            if let Some(rank) = rank(sign) {
                join(&mut top, rank, most);
            }
            Ok(Some(top))
        }
    }
}

/// Whether what stands in each other in these tokens weighs at most so much, as far as they are read where at most so many things may be open
/// and a chain may have at most so many operators.
pub fn fits_stack(
    alloc: Global,
    tokens: &[Token],
    heaviest: u64,
    open: u64,
    most: u64,
) -> Result<bool, NoMemory> {
    let mut levels = Vec::new(alloc);
    let mut top = begun(0, 0, true);
    for token in tokens {
        let next = match &token.node {
            TokenNode::Word(word) => Some(at_word(top, word.as_str())),
            TokenNode::Sign(sign) => at_sign(&mut levels, top, sign.as_str(), most)?,
            TokenNode::Integer { .. } | TokenNode::Text(_) => Some(top),
        };
        let Some(next) = next else {
            return Ok(true);
        };
        top = next;
        if heaviest < weight(&top) {
            return Ok(false);
        }
        if open < opened(&top) {
            return Ok(true);
        }
    }
    Ok(true)
}
