// Fetches, and queries by the map's templates.
use crate::expressions::Read;
use crate::reader::{Fault, Reader};
use crate::reason::{Reason, miss};
use qbs_base::boxed;
use view_map::{Part, QueryKind, ScalarKind, ScalarType, Template};
use view_rules::{Arguments, Expression, JavaType, level_of, type_at};

/// A template that fits the next items, as far as its items go: its number, whether `(int)` stands before it, the item of its text, what it
/// asks for, and the number of the item behind it.
#[derive(Clone, Copy)]
struct Fitting {
    number: u32,
    cast: bool,
    text: usize,
    java: JavaType,
    to: usize,
}

/// How far the parts of a template fit, with the text and the type that were met.
#[derive(Clone, Copy)]
struct Progress {
    at: usize,
    text: usize,
    java: JavaType,
}

fn scalar(kind: ScalarKind, boxed: bool) -> JavaType {
    JavaType::Scalar(ScalarType { kind, boxed })
}

fn list_of(element: JavaType) -> Option<JavaType> {
    match element {
        JavaType::Row(class) => Some(JavaType::Rows(class)),
        JavaType::Scalar(t) if t.boxed => Some(JavaType::Scalars(t.kind)),
        _ => None,
    }
}

/// What a query gives.
fn query_type(kind: QueryKind, cast: bool, list: JavaType) -> JavaType {
    match kind {
        QueryKind::List => list,
        QueryKind::Long if cast => scalar(ScalarKind::Int, false),
        QueryKind::Long => scalar(ScalarKind::Long, false),
        QueryKind::Boolean => scalar(ScalarKind::Boolean, true),
    }
}

fn is_long(kind: QueryKind) -> bool {
    matches!(kind, QueryKind::Long)
}

/// The digit of an argument's number.
fn digit(n: u8) -> [u8; 1] {
    [b'0'.saturating_add(n)]
}

impl<'a> Reader<'a> {
    // ---- Fetches

    /// Whether a fetch pattern begins with the item that stands there.
    fn may_be_fetch(&self, number: u32, at: usize) -> bool {
        match self.method.map.fetches.as_slice().get(number as usize) {
            Some(pattern) => match pattern.items.as_slice() {
                [first, ..] => self.is(at, first.bytes.as_slice()),
                [] => false,
            },
            None => false,
        }
    }

    fn fetch_at(&mut self, number: u32, at: usize) -> Result<Option<Read>, Fault> {
        if self.may_be_fetch(number, at) {
            self.leaf_at(Expression::Fetch { at, number }, at)
        } else {
            Ok(None)
        }
    }

    /// The longest fetch pattern that stands there.
    pub fn fetch(&mut self) -> Result<Option<Read>, Fault> {
        let at = self.at;
        let words = self.method.words;
        let mut longest: Option<Read> = None;
        let mut end = at;
        for number in words.fetches.as_slice() {
            self.at = at;
            if let Some(read) = self.fetch_at(*number, at)? {
                if end < self.at {
                    end = self.at;
                    longest = Some(read);
                }
            }
        }
        self.at = end;
        self.asks = self.asks || at < end;
        Ok(longest)
    }

    // ---- Which template fits

    fn template(&self, number: u32) -> Option<&'a Template> {
        self.method.map.templates.as_slice().get(number as usize)
    }

    fn past_part(&self, part: &Part, so_far: Progress) -> Option<Progress> {
        let at = so_far.at;
        let behind = at.saturating_add(1);
        match part {
            Part::Item(item) if self.is(at, item.bytes.as_slice()) => Some(Progress {
                at: behind,
                ..so_far
            }),
            Part::Sql => Some(Progress {
                at: behind,
                text: at,
                ..so_far
            }),
            Part::Type => {
                let element = type_at(&self.within(), at)?;
                let java = list_of(element.java)?;
                Some(Progress {
                    at: element.to,
                    java,
                    ..so_far
                })
            }
            _ => None,
        }
    }

    fn past_parts(&self, parts: &[Part], from: Progress) -> Option<Progress> {
        let mut so_far = from;
        for part in parts {
            so_far = self.past_part(part, so_far)?;
        }
        Some(so_far)
    }

    /// The number behind what stands before an argument with its number.
    fn past_front(&self, each: &[Part], n: u8, from: usize) -> Option<usize> {
        let mut at = from;
        for part in each {
            match part {
                Part::Argument => return Some(at),
                Part::Item(item) if self.is(at, item.bytes.as_slice()) => {}
                Part::Number if self.is(at, &digit(n)) => {}
                _ => return None,
            }
            at = at.saturating_add(1);
        }
        None
    }

    /// The number of the item at which an argument ends: a comma or a closing bracket.
    fn argument_end(&self, from: usize) -> usize {
        let mut at = from;
        for _ in from..self.method.items.len() {
            match self.bytes(at) {
                b"," | b")" | b"]" | b"}" | b";" => return at,
                _ => at = self.closing(at).saturating_add(1),
            }
        }
        at
    }

    /// The number behind what stands behind an argument.
    fn past_back(&self, each: &[Part], n: u8, from: usize) -> Option<usize> {
        let mut at = from;
        let mut behind = false;
        for part in each {
            match part {
                Part::Argument => behind = true,
                _ if !behind => {}
                Part::Item(item) if self.is(at, item.bytes.as_slice()) => {
                    at = at.saturating_add(1);
                }
                Part::Number if self.is(at, &digit(n)) => at = at.saturating_add(1),
                _ => return None,
            }
        }
        Some(at)
    }

    /// The number behind the arguments.
    fn past_arguments(&self, each: &[Part], from: usize) -> Option<usize> {
        let mut at = from;
        for n in 1..=9u8 {
            let Some(argument) = self.past_front(each, n, at) else {
                return Some(at);
            };
            at = self.past_back(each, n, self.argument_end(argument))?;
        }
        Some(at)
    }

    fn ends(&self, number: usize) -> bool {
        !matches!(self.bytes(number), b"." | b"(" | b"[" | b"::")
    }

    fn fits(&self, number: u32, at: usize) -> Option<Fitting> {
        let t = self.template(number)?;
        let cast = is_long(t.kind) && self.are(at, &[b"(", b"int", b")"]);
        let first = if cast { at.saturating_add(3) } else { at };
        let start = Progress {
            at: first,
            text: first,
            java: scalar(ScalarKind::Long, false),
        };
        let front = self.past_parts(t.front.as_slice(), start)?;
        let behind = self.past_arguments(t.each.as_slice(), front.at)?;
        let back = self.past_parts(
            t.back.as_slice(),
            Progress {
                at: behind,
                ..front
            },
        )?;
        if self.ends(back.at) {
            Some(Fitting {
                number,
                cast,
                text: back.text,
                java: back.java,
                to: back.at,
            })
        } else {
            None
        }
    }

    /// The template that goes furthest, the first of several.
    fn fitting(&self) -> Option<Fitting> {
        let mut longest: Option<Fitting> = None;
        let mut end = self.at;
        for number in self.method.words.templates.as_slice() {
            if let Some(fitting) = self.fits(*number, self.at) {
                if end < fitting.to {
                    end = fitting.to;
                    longest = Some(fitting);
                }
            }
        }
        longest
    }

    // ---- Queries

    /// A query that comes next, if a template fits.
    #[cycle(expression)]
    pub fn query(&mut self, room: usize) -> Result<Option<Read>, Fault> {
        let Some(fitting) = self.fitting() else {
            return Ok(None);
        };
        let Some(t) = self.template(fitting.number) else {
            return Ok(None);
        };
        let at = self.at;
        self.at = self.front_end(t, fitting);
        let arguments = self.arguments(t, 1, room)?;
        if !self.is_query_text(fitting.text) {
            return Err(miss(Reason::Expression, fitting.text));
        }
        self.at = fitting.to;
        self.asks = true;
        let tree = Expression::Query {
            at,
            cast: fitting.cast,
            number: fitting.number,
            text: fitting.text,
            java: fitting.java,
            arguments,
        };
        let read = self.read(tree, query_type(t.kind, fitting.cast, fitting.java))?;
        Ok(Some(read))
    }

    fn front_end(&self, t: &Template, fitting: Fitting) -> usize {
        let first = if fitting.cast {
            self.at.saturating_add(3)
        } else {
            self.at
        };
        let start = Progress {
            at: first,
            text: first,
            java: fitting.java,
        };
        match self.past_parts(t.front.as_slice(), start) {
            Some(front) => front.at,
            None => first,
        }
    }

    fn is_query_text(&self, number: usize) -> bool {
        let bytes = self.bytes(number);
        bytes.starts_with(b"\"") && !bytes.starts_with(b"\"\"\"")
    }

    /// The arguments from a number on.
    #[cycle(expression)]
    fn arguments(&mut self, t: &Template, n: u8, room: usize) -> Result<Box<Arguments>, Fault> {
        let front = if n <= 9 {
            self.past_front(t.each.as_slice(), n, self.at)
        } else {
            None
        };
        let Some(first) = front else {
            return Ok(boxed(self.alloc, Arguments::End)?);
        };
        if room == 0 {
            return Err(miss(Reason::Expression, self.at));
        }
        self.at = first;
        let value = self.argument_of(t, n, room - 1)?;
        let rest = self.arguments(t, n.saturating_add(1), room - 1)?;
        Ok(boxed(
            self.alloc,
            Arguments::Next {
                value: value.tree,
                rest,
            },
        )?)
    }

    /// An argument, and what stands behind it.
    #[cycle(expression)]
    fn argument_of(&mut self, t: &Template, n: u8, room: usize) -> Result<Read, Fault> {
        let first = self.at;
        let value = self.expression(room)?;
        let alone = self.stands_apart(first, self.at);
        let JavaType::Scalar(_) = value.java else {
            return Err(miss(Reason::Expression, first));
        };
        if level_of(&value.tree) < 8 && !alone {
            return Err(miss(Reason::Expression, first));
        }
        match self.past_back(t.each.as_slice(), n, self.at) {
            Some(to) => {
                self.at = to;
                Ok(value)
            }
            None => Err(miss(Reason::Expression, self.at)),
        }
    }

    fn stands_apart(&self, from: usize, to: usize) -> bool {
        matches!(self.bytes(from.saturating_sub(1)), b"," | b"(")
            && matches!(self.bytes(to), b"," | b")")
    }
}
