// Operators, by how tightly they bind, and tests of columns for null.
use crate::deciding::{binding, operated, operator_of};
use crate::expressions::Read;
use crate::reader::{Fault, Reader};
use crate::reason::{Reason, miss};
use qbs_base::{Items, boxed};
use view_rules::{Expression, JavaType, NullTest, Operator, is_boolean, truth};

/// How deep expressions may stand inside one another.
pub const ROOM: usize = 1000;

/// How many operators there may be in a statement's expressions, so that none is deeper than the stack bears.
const OPERATORS: usize = 512;

fn joined_sign(all: bool) -> &'static [u8] {
    if all { b"&&" } else { b"||" }
}

fn null_sign(all: bool) -> &'static [u8] {
    if all { b"!=" } else { b"==" }
}

fn joining(all: bool) -> Operator {
    if all { Operator::And } else { Operator::Or }
}

/// The column of a row in a test for null, and the number behind it.
#[derive(Clone, Copy)]
struct Tested {
    class: u32,
    member: u32,
    to: usize,
}

fn is_column(e: &Expression) -> bool {
    matches!(
        e,
        Expression::Column { .. } | Expression::OuterColumn { .. }
    )
}

impl<'a> Reader<'a> {
    /// An expression.
    #[cycle(expression)]
    pub fn expression(&mut self, room: usize) -> Result<Read, Fault> {
        self.joined(false, room)
    }

    /// A truth value, or what stands alone, of parts that `&&` joins, where `all`, or `||`. Tests of columns for null fall away.
    #[cycle(expression)]
    fn joined(&mut self, all: bool, room: usize) -> Result<Read, Fault> {
        if room == 0 {
            return Err(miss(Reason::Expression, self.at));
        }
        let tests = self.tests_before(all)?;
        let kept = self.part(all, room - 1)?;
        let mut left = self.with_tests_before(all, tests, kept)?;
        for _ in self.at..self.method.items.len() {
            if !self.is_next(joined_sign(all)) {
                return Ok(left);
            }
            left = self.joined_with(all, left, room - 1)?;
        }
        Ok(left)
    }

    #[cycle(expression)]
    fn part(&mut self, all: bool, room: usize) -> Result<Read, Fault> {
        if room == 0 {
            return Err(miss(Reason::Expression, self.at));
        }
        if all {
            self.operated(3, room - 1)
        } else {
            self.joined(true, room - 1)
        }
    }

    /// With the operator that comes next, and what stands behind it.
    #[cycle(expression)]
    fn joined_with(&mut self, all: bool, left: Read, room: usize) -> Result<Read, Fault> {
        let at = self.at;
        self.count_operator()?;
        let tests = self.tests_behind(all)?;
        if tests.is_empty() {
            self.step();
            let right = self.part(all, room)?;
            self.binary(joining(all), left, at, right)
        } else {
            self.need_truth(left.java, at)?;
            let tree = Expression::TestedBehind {
                all,
                kept: left.tree,
                tests,
            };
            self.read(tree, truth())
        }
    }

    fn with_tests_before(
        &self,
        all: bool,
        tests: Items<NullTest>,
        kept: Read,
    ) -> Result<Read, Fault> {
        if tests.is_empty() {
            return Ok(kept);
        }
        self.need_truth(kept.java, self.at)?;
        let tree = Expression::TestedBefore {
            all,
            tests,
            kept: kept.tree,
        };
        self.read(tree, truth())
    }

    /// Counts the operator that comes next.
    fn count_operator(&mut self) -> Result<(), Fault> {
        if self.operators < OPERATORS {
            self.operators += 1;
            Ok(())
        } else {
            Err(miss(Reason::Expression, self.at))
        }
    }

    fn need_truth(&self, java: JavaType, at: usize) -> Result<(), Fault> {
        if is_boolean(java) {
            Ok(())
        } else {
            Err(miss(Reason::Expression, at))
        }
    }

    pub fn read(&self, tree: Expression, java: JavaType) -> Result<Read, Fault> {
        let tree = boxed(self.alloc, tree)?;
        Ok(Read { tree, java })
    }

    // ---- Tests for null

    fn column_tested(&self, number: usize) -> Option<Tested> {
        let v = self.variable(number)?;
        let JavaType::Row(class) = v.java else {
            return None;
        };
        if v.tested {
            return None;
        }
        let found = self.member(class, number.saturating_add(1))?;
        Some(Tested {
            class,
            member: found.member,
            to: found.to,
        })
    }

    /// The test that stands at a number, in parentheses or without, and the number behind it.
    fn test_at(&self, all: bool, at: usize) -> Option<(NullTest, usize)> {
        let wrapped = self.is(at, b"(");
        let (test, behind) = self.bare_test_at(all, wrapped, at)?;
        let to = if wrapped {
            behind.saturating_add(1)
        } else {
            behind
        };
        let closes = !wrapped || self.is(behind, b")");
        if closes && self.ends_part(all, to) {
            Some((test, to))
        } else {
            None
        }
    }

    /// The test at a number, behind a parenthesis there where it is wrapped.
    fn bare_test_at(&self, all: bool, wrapped: bool, first: usize) -> Option<(NullTest, usize)> {
        let at = if wrapped {
            first.saturating_add(1)
        } else {
            first
        };
        let null_first = self.is(at, b"null");
        let tested = if null_first {
            if !self.is(at.saturating_add(1), null_sign(all)) {
                return None;
            }
            self.column_tested(at.saturating_add(2))?
        } else {
            let tested = self.column_tested(at)?;
            if !self.are(tested.to, &[null_sign(all), b"null"]) {
                return None;
            }
            tested
        };
        let to = if null_first {
            tested.to
        } else {
            tested.to.saturating_add(2)
        };
        let test = NullTest {
            at: first,
            wrapped,
            null_first,
            class: tested.class,
            member: tested.member,
        };
        Some((test, to))
    }

    /// Whether a part of `&&`, where `all`, or of `||` ends before an item.
    fn ends_part(&self, all: bool, number: usize) -> bool {
        match self.bytes(number) {
            b"&&" => all,
            b"||" | b")" | b";" | b"," => true,
            _ => false,
        }
    }

    /// The tests that come next, each with the operator behind it.
    fn tests_before(&mut self, all: bool) -> Result<Items<NullTest>, Fault> {
        let first = self.at;
        let mut tests = Items::new(self.alloc);
        for _ in self.at..self.method.items.len() {
            let Some((test, to)) = self.test_at(all, self.at) else {
                return Ok(tests);
            };
            if !self.is(to, joined_sign(all)) {
                if test.wrapped {
                    return Ok(tests);
                }
                return Err(miss(Reason::Null, first));
            }
            tests.push(test)?;
            self.at = to.saturating_add(1);
        }
        Ok(tests)
    }

    /// The tests that come next, each with the operator before it.
    fn tests_behind(&mut self, all: bool) -> Result<Items<NullTest>, Fault> {
        let mut tests = Items::new(self.alloc);
        for _ in self.at..self.method.items.len() {
            if !self.is_next(joined_sign(all)) {
                return Ok(tests);
            }
            let Some((test, to)) = self.test_at(all, self.at.saturating_add(1)) else {
                return Ok(tests);
            };
            tests.push(test)?;
            self.at = to;
        }
        Ok(tests)
    }

    // ---- Other operators

    /// Operands and operators that bind at least so tightly.
    #[cycle(expression)]
    fn operated(&mut self, least: u8, room: usize) -> Result<Read, Fault> {
        if room == 0 {
            return Err(miss(Reason::Expression, self.at));
        }
        let first = self.at;
        let mut left = self.unary(room - 1)?;
        for _ in self.at..self.method.items.len() {
            match operator_of(self.bytes(self.at)) {
                Some(operator) if least <= binding(operator) => {
                    left = self.with_operand(first, operator, left, room - 1)?;
                }
                _ => return Ok(left),
            }
        }
        Ok(left)
    }

    /// With the operator that comes next, and the operand behind it.
    #[cycle(expression)]
    fn with_operand(
        &mut self,
        first: usize,
        operator: Operator,
        left: Read,
        room: usize,
    ) -> Result<Read, Fault> {
        let at = self.at;
        self.count_operator()?;
        self.step();
        if binding(operator) == 3 && self.is_next(b"null") {
            let place = if is_column(&left.tree) { first } else { at };
            return Err(miss(Reason::Null, place));
        }
        if room == 0 {
            return Err(miss(Reason::Expression, at));
        }
        let right = self.operated(binding(operator) + 1, room - 1)?;
        self.binary(operator, left, at, right)
    }

    fn binary(
        &self,
        operator: Operator,
        left: Read,
        at: usize,
        right: Read,
    ) -> Result<Read, Fault> {
        match operated(operator, left.java, right.java) {
            Ok(java) => {
                let tree = Expression::Binary {
                    operator,
                    left: left.tree,
                    at,
                    right: right.tree,
                };
                self.read(tree, java)
            }
            Err(reason) => Err(miss(reason, at)),
        }
    }

    /// Whether more than 64 `!` stand in a row from the next item on, the first of them.
    fn is_long_row(&self) -> bool {
        let at = self.at;
        !self.is(at.saturating_sub(1), b"!")
            && self
                .method
                .items
                .iter()
                .skip(at)
                .take(65)
                .filter(|item| item.bytes.as_slice() == b"!".as_slice())
                .count()
                == 65
    }

    #[cycle(expression)]
    fn unary(&mut self, room: usize) -> Result<Read, Fault> {
        if room == 0 {
            return Err(miss(Reason::Expression, self.at));
        }
        let at = self.at;
        if self.is_next(b"!") && self.is_long_row() {
            return Err(miss(Reason::Expression, at));
        }
        if self.take(b"!") {
            let of = self.unary(room - 1)?;
            self.need_truth(of.java, at)?;
            let tree = Expression::Not { at, of: of.tree };
            self.read(tree, truth())
        } else if self.is_next(b"-") {
            let tree = Expression::Negative {
                at,
                digits: at.saturating_add(1),
            };
            self.leaf(tree, at)
        } else {
            self.postfix(room - 1)
        }
    }
}
