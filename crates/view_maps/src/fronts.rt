// What stands before a declaration: annotations and modifiers.
use crate::source::{Source, bytes_at, is_text, past};
use qbs_base::{Items, NoMemory, is_name_part, is_name_start};
use std::alloc::Global;
use view_shapes::{closing_at, dotted_end, is_one_of_words, is_sign, is_word};

const MODIFIERS: [&str; 13] = [
    "public",
    "protected",
    "private",
    "static",
    "final",
    "abstract",
    "transient",
    "volatile",
    "synchronized",
    "native",
    "default",
    "strictfp",
    "sealed",
];

/// An annotation: the number of its name, the last one where dots stand between names, and what stands between its parentheses, if it has any.
#[derive(Clone, Copy)]
pub struct Annotation {
    pub name: usize,
    pub from: usize,
    pub to: usize,
}

/// The modifiers that count.
#[derive(Clone, Copy)]
pub struct Modifiers {
    pub is_public: bool,
    pub is_static: bool,
    pub is_transient: bool,
}

/// Annotations and modifiers, and the number behind them.
#[derive(Drop)]
pub struct Front {
    pub annotations: Items<Annotation>,
    pub modifiers: Modifiers,
    pub end: usize,
}

/// The annotation whose `@` has this number, and the number behind it.
fn annotation_at(source: Source, number: usize) -> Option<(Annotation, usize)> {
    let first = number.saturating_add(1);
    if !is_sign("@", source.items, number) || is_word("interface", source.items, first) {
        return None;
    }
    let end = dotted_end(source.items, first)?;
    let name = end.saturating_sub(1);
    if !is_sign("(", source.items, end) {
        return Some((
            Annotation {
                name,
                from: end,
                to: end,
            },
            end,
        ));
    }
    let closing = closing_at(source.items, source.closings, end)?;
    Some((
        Annotation {
            name,
            from: end.saturating_add(1),
            to: closing,
        },
        closing.saturating_add(1),
    ))
}

fn with_modifier(modifiers: Modifiers, source: Source, number: usize) -> Modifiers {
    Modifiers {
        is_public: modifiers.is_public || is_word("public", source.items, number),
        is_static: modifiers.is_static || is_word("static", source.items, number),
        is_transient: modifiers.is_transient || is_word("transient", source.items, number),
    }
}

/// What stands before what is declared at a number, before another.
pub fn front_of(alloc: Global, source: Source, from: usize, to: usize) -> Result<Front, NoMemory> {
    let mut annotations = Items::new(alloc);
    let mut modifiers = Modifiers {
        is_public: false,
        is_static: false,
        is_transient: false,
    };
    let mut end = from;
    for _ in from..to {
        if let Some((annotation, next)) = annotation_at(source, end) {
            annotations.push(annotation)?;
            end = next;
        } else if is_one_of_words(&MODIFIERS, source.items, end) {
            modifiers = with_modifier(modifiers, source, end);
            end = end.saturating_add(1);
        } else {
            break;
        }
    }
    Ok(Front {
        annotations,
        modifiers,
        end,
    })
}

/// Whether an annotation has this name.
pub fn is_called(source: Source, annotation: Annotation, name: &str) -> bool {
    is_word(name, source.items, annotation.name)
}

/// The last annotation of this name.
pub fn last_called(source: Source, annotations: &[Annotation], name: &str) -> Option<Annotation> {
    let mut found = None;
    for annotation in annotations {
        if is_called(source, *annotation, name) {
            found = Some(*annotation);
        }
    }
    found
}

/// Whether there is an annotation of this name.
pub fn has_annotation(source: Source, annotations: &[Annotation], name: &str) -> bool {
    last_called(source, annotations, name).is_some()
}

/// What an annotation says behind a key.
#[derive(Clone, Copy)]
pub enum Said {
    Nothing,
    /// The number of the one item.
    Item(usize),
    /// Several items, as a sum of texts or a name with dots.
    More,
}

fn said_at(source: Source, annotation: Annotation, number: usize) -> Said {
    let next = number.saturating_add(1);
    if next == annotation.to || is_sign(",", source.items, next) {
        Said::Item(number)
    } else {
        Said::More
    }
}

/// What an annotation says behind a key. Annotations inside of it aren't looked into.
pub fn value_of(source: Source, annotation: Annotation, key: &str) -> Said {
    let mut number = annotation.from;
    let mut begins = true;
    for _ in annotation.from..annotation.to {
        let next = number.saturating_add(1);
        if begins && is_word(key, source.items, number) && is_sign("=", source.items, next) {
            return said_at(source, annotation, next.saturating_add(1));
        }
        begins = is_sign(",", source.items, number);
        number = past(source, number);
        if number >= annotation.to {
            break;
        }
    }
    Said::Nothing
}

/// What an annotation says without a key, where it says nothing else.
fn said_alone(source: Source, annotation: Annotation) -> Said {
    if annotation.from < annotation.to
        && !is_sign("=", source.items, annotation.from.saturating_add(1))
    {
        said_at(source, annotation, annotation.from)
    } else {
        Said::Nothing
    }
}

/// What an annotation says of a name: behind `name`, behind `value`, or alone.
pub fn said_name(source: Source, annotation: Annotation) -> Said {
    match value_of(source, annotation, "name") {
        Said::Nothing => match value_of(source, annotation, "value") {
            Said::Nothing => said_alone(source, annotation),
            other => other,
        },
        other => other,
    }
}

/// Whether bytes may be the name of a table or a column: up to 255 letters, digits and `_`, not a digit first.
fn is_plain_word(bytes: &[u8]) -> bool {
    match bytes {
        [] => false,
        [first, ..] => {
            is_name_start(*first)
                && bytes.len() <= 255
                && bytes.iter().all(|byte| is_name_part(*byte))
        }
    }
}

/// What stands between the quotes of a text, where it may be the name of a table or a column.
pub fn word_in<'a>(source: Source<'a>, number: usize) -> Option<&'a [u8]> {
    if !is_text(source, number) {
        return None;
    }
    match bytes_at(source, number) {
        [_, word @ .., _] if is_plain_word(word) => Some(word),
        _ => None,
    }
}
