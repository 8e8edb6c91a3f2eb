// Statements by their first items.
use crate::operators::ROOM;
use crate::reader::{Fault, Reader};
use crate::reason::{Reason, miss};
use view_rules::{Expression, is_boolean};
use view_shapes::is_plain_name;
use view_statements::{Place, Statement, Step, beside, in_loop, inside, truth_word};

/// How deep statements may stand inside one another.
pub const LEVELS: usize = 300;

/// Where the for-each of a group stands.
pub fn in_group(value: bool) -> Place {
    Place {
        looped: false,
        top: false,
        direct: false,
        found: Some(value),
    }
}

/// A condition in parentheses, and the number of the closing one.
#[derive(Drop)]
pub struct Condition {
    pub tree: Box<Expression>,
    pub close: usize,
}

/// A body, in braces, of one statement, or a semicolon, and the number of its last item.
#[derive(Drop)]
pub struct Body {
    pub braces: bool,
    pub statements: Vec<Statement>,
    pub end: usize,
}

impl<'a> Reader<'a> {
    /// Reads the next statement.
    #[cycle(statement)]
    pub fn statement(
        &mut self,
        place: Place,
        room: usize,
        out: &mut Vec<Statement>,
    ) -> Result<(), Fault> {
        let at = self.at;
        if room == 0 {
            return Err(miss(Reason::Statement, at));
        }
        self.operators = 0;
        if place.direct && self.begins_skip() {
            return self.skip(place, room - 1, out);
        }
        match self.bytes(at) {
            b"if" => self.conditional(place, room - 1, out),
            b"for" => self.walk(place, room - 1, out),
            b"while" => self.repeated(place, room - 1, out),
            b"break" => self.broken_off(place, out),
            b"return" => self.found(place, out),
            _ => self.simple(place, out),
        }
    }

    /// Reads statements up to a brace.
    #[cycle(statement)]
    fn statements_to_brace(
        &mut self,
        place: Place,
        room: usize,
        out: &mut Vec<Statement>,
    ) -> Result<(), Fault> {
        for _ in self.at..self.method.items.len() {
            if self.is_next(b"}") {
                return Ok(());
            }
            self.statement(place, room, out)?;
        }
        Err(miss(Reason::Statement, self.at))
    }

    /// Reads statements up to a brace and past it, and gives its number.
    #[cycle(statement)]
    pub fn rest_of_block(
        &mut self,
        place: Place,
        room: usize,
        out: &mut Vec<Statement>,
    ) -> Result<usize, Fault> {
        let mark = self.mark();
        self.statements_to_brace(place, room, out)?;
        self.leave(mark);
        self.expect(b"}", Reason::Statement)
    }

    #[cycle(statement)]
    pub fn body(&mut self, place: Place, room: usize) -> Result<Body, Fault> {
        let mut statements = Vec::new(self.alloc);
        if self.take(b"{") {
            let end = self.rest_of_block(place, room, &mut statements)?;
            return Ok(Body {
                braces: true,
                statements,
                end,
            });
        }
        if !self.take(b";") {
            let mark = self.mark();
            self.statement(place, room, &mut statements)?;
            self.leave(mark);
        }
        Ok(Body {
            braces: false,
            statements,
            end: self.at.saturating_sub(1),
        })
    }

    /// A truth value in parentheses.
    pub fn condition(&mut self) -> Result<Condition, Fault> {
        self.expect(b"(", Reason::Statement)?;
        let at = self.at;
        let read = self.expression(ROOM)?;
        let close = self.expect(b")", Reason::Expression)?;
        if is_boolean(read.java) {
            Ok(Condition {
                tree: read.tree,
                close,
            })
        } else {
            Err(miss(Reason::Expression, at))
        }
    }

    #[cycle(statement)]
    fn conditional(
        &mut self,
        place: Place,
        room: usize,
        out: &mut Vec<Statement>,
    ) -> Result<(), Fault> {
        let at = self.at;
        self.step();
        let condition = self.condition()?;
        let body = self.body(inside(place), room)?;
        let other_at = self.at;
        if !self.take(b"else") {
            out.push(Statement::If {
                at,
                condition: condition.tree,
                close: condition.close,
                braces: body.braces,
                body: body.statements,
                end: body.end,
            })?;
            return Ok(());
        }
        let other = self.body(inside(place), room)?;
        out.push(Statement::IfElse {
            at,
            condition: condition.tree,
            close: condition.close,
            braces: body.braces,
            body: body.statements,
            other_at,
            other_braces: other.braces,
            other: other.statements,
            end: other.end,
        })?;
        Ok(())
    }

    #[cycle(statement)]
    fn repeated(
        &mut self,
        place: Place,
        room: usize,
        out: &mut Vec<Statement>,
    ) -> Result<(), Fault> {
        let at = self.at;
        self.step();
        let condition = self.condition()?;
        let body = self.body(in_loop(place, false), room)?;
        out.push(Statement::While {
            at,
            condition: condition.tree,
            close: condition.close,
            braces: body.braces,
            body: body.statements,
            end: body.end,
        })?;
        Ok(())
    }

    // ---- Ways out

    fn broken_off(&mut self, place: Place, out: &mut Vec<Statement>) -> Result<(), Fault> {
        let at = self.at;
        let end = at.saturating_add(1);
        if !place.looped || !self.is(end, b";") {
            return Err(miss(Reason::Statement, at));
        }
        self.at = end.saturating_add(1);
        out.push(Statement::Break { at, end })?;
        Ok(())
    }

    /// `return` of the literal that is returned in a group.
    fn found(&mut self, place: Place, out: &mut Vec<Statement>) -> Result<(), Fault> {
        let at = self.at;
        let Some(value) = place.found else {
            return Err(miss(Reason::Statement, at));
        };
        let literal = at.saturating_add(1);
        let end = literal.saturating_add(1);
        if !self.are(literal, &[truth_word(value), b";"]) {
            return Err(miss(Reason::Statement, at));
        }
        self.at = end.saturating_add(1);
        out.push(Statement::Found { at, literal, end })?;
        Ok(())
    }

    /// The number behind the parentheses of the `if` that comes next.
    fn behind_head(&self) -> usize {
        self.closing(self.at.saturating_add(1)).saturating_add(1)
    }

    fn begins_skip(&self) -> bool {
        let behind = self.behind_head();
        self.are(self.at, &[b"if", b"("])
            && (self.are(behind, &[b"continue", b";"])
                || self.are(behind, &[b"{", b"continue", b";", b"}"]))
    }

    /// `if (c) continue;`, and the rest of the block.
    #[cycle(statement)]
    fn skip(&mut self, place: Place, room: usize, out: &mut Vec<Statement>) -> Result<(), Fault> {
        let at = self.at;
        self.step();
        let condition = self.condition()?;
        let braces = self.is_next(b"{");
        self.at = self.at.saturating_add(if braces { 4 } else { 2 });
        let mut rest = Vec::new(self.alloc);
        let mark = self.mark();
        self.statements_to_brace(beside(place), room, &mut rest)?;
        self.leave(mark);
        out.push(Statement::Skip {
            at,
            condition: condition.tree,
            close: condition.close,
            braces,
            rest,
            end: self.at.saturating_sub(1),
        })?;
        Ok(())
    }

    // ---- Statements up to a semicolon

    fn simple(&mut self, place: Place, out: &mut Vec<Statement>) -> Result<(), Fault> {
        let at = self.at;
        let next = at.saturating_add(1);
        let behind = next.saturating_add(1);
        if self.are(at, &[b"Collections", b".", b"sort", b"("]) && self.is_clear(b"Collections") {
            return self.sort_by_class(out);
        }
        if is_plain_name(self.method.items, at) {
            match self.bytes(next) {
                b"=" => return self.assignment(place, out),
                b"+=" => return self.changed(true, out),
                b"-=" => return self.changed(false, out),
                b"++" if self.is(behind, b";") => return self.stepped(at, next, Step::Up, out),
                b"--" if self.is(behind, b";") => return self.stepped(at, next, Step::Down, out),
                b"." if self.are(behind, &[b"add", b"("]) => return self.addition(out),
                b"." if self.are(behind, &[b"sort", b"("]) => return self.sort_list(out),
                _ => {}
            }
        }
        if is_plain_name(self.method.items, next) && self.is(behind, b";") {
            match self.bytes(at) {
                b"++" => return self.stepped(next, at, Step::UpFirst, out),
                b"--" => return self.stepped(next, at, Step::DownFirst, out),
                _ => {}
            }
        }
        self.declaration(place, out)
    }
}
