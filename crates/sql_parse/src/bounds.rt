// How large a query may be, so that what walks it fits the stack.
//
// The reader and all that walks a query (its types, its answer, its text, and the drop of its tree) call themselves as deep as its conditions
// and SELECTs stand in each other, or as its AND, OR and NOT follow each other, and an answer goes one FROM item deeper at a time. A parenthesis or
// an inner SELECT takes up to 2.2 KB of stack where it is read and up to 0.4 elsewhere, an AND, OR or NOT up to 0.5 and a FROM item up to 0.4. Here an
// open parenthesis weighs five, and each AND, OR, NOT and further FROM item one. A query weighs 7,500 at most, which takes 3.5 MB. So a program with the
// usual stack of 8 MB ends with a status and a third of it to spare, also where the query is asked deep in a source; what weighs 400 takes less than
// 256 KB. A text beyond that is want of memory.
use crate::token::Token;
use crate::words::is_word;

/// What a parenthesis weighs while it is open, that of an inner SELECT or of a call as well.
const PARENTHESIS: u64 = 5;

/// What a query may weigh.
const HEAVIEST: u64 = 7_500;

/// What was counted in the tokens of a text so far.
#[derive(Clone, Copy)]
struct Counts {
    // The parentheses that are open.
    open: u64,
    // The AND, OR and NOT, and the commas between FROM items.
    met: u64,
    // Whether FROM items are being listed.
    is_listing: bool,
}

fn joins(token: &Token) -> bool {
    is_word("AND", token) || is_word("OR", token) || is_word("NOT", token)
}

// Whether what stands behind this word is no FROM item.
fn ends_items(token: &Token) -> bool {
    is_word("WHERE", token) || is_word("GROUP", token) || is_word("ORDER", token)
}

fn count_word(counts: &mut Counts, token: &Token) {
    if joins(token) {
        counts.met = counts.met.saturating_add(1);
    } else if is_word("FROM", token) {
        counts.is_listing = true;
    } else if ends_items(token) {
        counts.is_listing = false;
    }
}

fn count(counts: &mut Counts, token: &Token) {
    match token {
        Token::Open => {
            counts.open = counts.open.saturating_add(1);
            counts.is_listing = false;
        }
        Token::Close => {
            counts.open = counts.open.saturating_sub(1);
            counts.is_listing = false;
        }
        Token::Comma => {
            if counts.is_listing {
                counts.met = counts.met.saturating_add(1);
            }
        }
        _ => count_word(counts, token),
    }
}

fn weight(counts: &Counts) -> u64 {
    counts
        .open
        .saturating_mul(PARENTHESIS)
        .saturating_add(counts.met)
}

/// Whether a text with these tokens weighs no more than it may.
pub fn fits_stack(tokens: &[Token]) -> bool {
    let mut counts = Counts {
        open: 0,
        met: 0,
        is_listing: false,
    };
    for token in tokens {
        count(&mut counts, token);
        if HEAVIEST < weight(&counts) {
            return false;
        }
    }
    true
}
