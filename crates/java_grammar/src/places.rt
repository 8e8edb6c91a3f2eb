// Where what is read stands.
ghost use Rattle.std.specs.Prelude.{◌≡◌};
ghost use Rattle.java_grammar.specs.Marks.{all_strict, extent};
ghost use Rattle.java_grammar.specs.Reading.{consumed};

use java_lex::Token;
use qbs_base::Span;

/// The place of no tokens.
pub const NOWHERE: Span = Span {
    line: 0,
    column: 0,
    start: 0,
    end: 0,
};

/// From the first of the tokens to the last one before the rest, which ends them.
#[tactic(auto, using(crate::proofs::Extents::extents))]
pub fn between(tokens: &[Token], rest: &[Token]) -> Span
    ensures { result ≡ extent (consumed (all_strict tokens.now) (all_strict rest.now)) }
{
    let read = &tokens[..tokens.len().saturating_sub(rest.len())];
    match (read.first(), read.last()) {
        (Some(first), Some(last)) => Span {
            line: first.span.line,
            column: first.span.column,
            start: first.span.start,
            end: last.span.end,
        },
        _ => NOWHERE,
    }
}
