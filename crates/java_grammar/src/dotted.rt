// Dotted names, as they are written.
ghost use Rattle.std.specs.Prelude.{◌≡◌, Ok, option_map, IfErr};
ghost use Rattle.std.specs.Option.{option_copied};
ghost use Rattle.readers.specs.Reading.{Gives};
ghost use Rattle.java_grammar.specs.Marks.{all_strict};
ghost use Rattle.java_grammar.specs.ReadingPrograms.{dotted_name_at};
ghost use Rattle.java_grammar.specs.Dotted.{part_at, dotted_part_at, dotted_from, dotted_line_at};

use crate::tokens::{is_next_sign, name, sign, word};
use java_lex::Token;
use qbs_base::{Name, Text};
use readers::ReadError;
use std::alloc::Global;

/// A name, or none where a star stands here, and may.
#[tactic(auto, unfolding(crate::specs::Dotted::part_at))]
fn part(star: bool, tokens: &[Token]) -> Result<(Option<&Name>, &[Token]), ReadError>
    ensures value { Gives (λ x. (option_copied x.0, all_strict x.1.now)) result (part_at star (all_strict tokens.now)) }
    ensures no_memory { IfErr result (λ e. e ≡ ReadError.Memory → ⊥) }
{
    if star && is_next_sign("*", tokens) {
        let rest = sign("*", tokens)?;
        return Ok((None, rest));
    }
    let (part, rest) = name(tokens)?;
    Ok((Some(part), rest))
}

/// A dot and a part.
#[tactic(auto, unfolding(crate::specs::Dotted::dotted_part_at))]
fn dotted_part(star: bool, tokens: &[Token]) -> Result<(Option<&Name>, &[Token]), ReadError>
    ensures value { Gives (λ x. (option_copied x.0, all_strict x.1.now)) result (dotted_part_at star (all_strict tokens.now)) }
    ensures no_memory { IfErr result (λ e. e ≡ ReadError.Memory → ⊥) }
{
    let rest = sign(".", tokens)?;
    let (part, rest) = part(star, rest)?;
    Ok((part, rest))
}

/// The first name, and the dots and the parts behind it. A star ends them.
fn dotted<'a>(
    alloc: Global,
    first: &Name,
    star: bool,
    tokens: &'a [Token],
) -> Result<(Text, &'a [Token]), ReadError>
    ensures { Gives (λ x. (x.0, all_strict x.1.now)) result (dotted_from star first.now (all_strict tokens.now)) }
{
    let mut text = String::from_str(alloc, first.as_str())?;
    let mut rest = tokens;
    // Each part has a token at least.
    for _ in 0..tokens.len() {
        if !is_next_sign(".", rest) {
            break;
        }
        let (part, after) = dotted_part(star, rest)?;
        text.push_str(".")?;
        let Some(part) = part else {
            text.push_str("*")?;
            return Ok((Text::from_string(text), after));
        };
        text.push_str(part.as_str())?;
        rest = after;
    }
    Ok((Text::from_string(text), rest))
}

#[tactic(auto, unfolding(crate::specs::Dotted::dotted_line_at))]
fn dotted_line<'a>(
    alloc: Global,
    text: &str,
    star: bool,
    tokens: &'a [Token],
) -> Result<(Text, &'a [Token]), ReadError>
    ensures { Gives (λ x. (x.0, all_strict x.1.now)) result (dotted_line_at text.now star (all_strict tokens.now)) }
{
    let rest = word(text, tokens)?;
    let (first, rest) = name(rest)?;
    let (dotted, rest) = dotted(alloc, first, star, rest)?;
    let rest = sign(";", rest)?;
    Ok((dotted, rest))
}

/// This word, a dotted name, which may end in a star, and `;`.
pub fn dotted_name<'a>(
    alloc: Global,
    text: &str,
    star: bool,
    tokens: &'a [Token],
) -> Result<(Text, &'a [Token]), ReadError>
    ensures { Gives (λ x. (x.0, all_strict x.1.now)) result (dotted_name_at text.now star (all_strict tokens.now)) }
{
    dotted_line(alloc, text, star, tokens)
}
