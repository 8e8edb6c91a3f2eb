// Statements that declare, set and count variables, and that add to lists.
use crate::expressions::Read;
use crate::operators::ROOM;
use crate::reader::{Fault, MOST_IN_SIGHT, Reader, Variable};
use crate::reason::{Reason, miss};
use view_map::ScalarKind;
use view_rules::{
    ColumnName, Expression, JavaType, is_int, is_many, is_number, level_of, may_be_added,
    may_be_assigned, type_at,
};
use view_scope::java_type_end;
use view_shapes::{is_mention, is_one_of_words, is_plain_name, may_be_set, variable_prefix_end};
use view_statements::{Place, Statement, Step, is_seen_name};

/// A variable that is declared: the numbers of its type and its name, and whether the type is left to its value.
#[derive(Clone, Copy)]
pub struct Declared {
    pub ty: usize,
    pub name: usize,
    pub inferred: bool,
}

/// Whether `var` may be a variable of this type: a number, a truth value or a text that is no box.
fn is_inferred(java: JavaType) -> bool {
    match java {
        JavaType::Scalar(t) => !t.boxed || t.kind == ScalarKind::Text,
        _ => false,
    }
}

/// Whether a variable has the kind of a value, boxed or not.
fn has_kind_of(java: JavaType, value: JavaType) -> bool {
    match (java, value) {
        (JavaType::Scalar(x), JavaType::Scalar(e)) => x.kind == e.kind,
        _ => false,
    }
}

/// Whether a query is narrowed to an `int` only for a variable that is one.
fn is_narrowed_well(java: JavaType, value: &Expression) -> bool {
    match value {
        Expression::Query { cast, .. } => !*cast || is_int(java),
        _ => true,
    }
}

/// Whether a variable of the first type may become the greater or lesser of itself and a value of the second one.
fn is_no_longer(java: JavaType, value: JavaType) -> bool {
    match (java, value) {
        (JavaType::Scalar(x), JavaType::Scalar(e)) => {
            x.kind != ScalarKind::Int || e.kind == ScalarKind::Int
        }
        _ => false,
    }
}

impl<'a> Reader<'a> {
    // ---- Declarations

    fn begins_type(&self, number: usize) -> bool {
        let items = self.method.items;
        is_plain_name(items, number)
            || is_one_of_words(
                &[
                    "int", "long", "boolean", "char", "byte", "short", "float", "double",
                ],
                items,
                number,
            )
    }

    /// What is declared from a number on, behind annotations and `final`, whatever its type.
    pub fn declared_from(&self, number: usize) -> Option<Declared> {
        let items = self.method.items;
        let ty = variable_prefix_end(items, self.method.closings, number)?;
        if !self.begins_type(ty) {
            return None;
        }
        let name = java_type_end(items, ty)?;
        if is_plain_name(items, name) {
            Some(Declared {
                ty,
                name,
                inferred: self.is(ty, b"var"),
            })
        } else {
            None
        }
    }

    /// Whether an item is a name of both languages that no variable in sight has, and there may be one more.
    pub fn is_new_name(&self, number: usize) -> bool {
        self.sight.len() < MOST_IN_SIGHT
            && is_seen_name(&self.within(), number)
            && self.variable(number).is_none()
    }

    /// The type of what is declared, with a new name.
    pub fn declared_type(&self, declared: Declared) -> Result<JavaType, Fault> {
        match type_at(&self.within(), declared.ty) {
            Some(spelled) if spelled.to == declared.name => {
                self.need_new(declared)?;
                Ok(spelled.java)
            }
            _ => Err(miss(Reason::Type, declared.ty)),
        }
    }

    pub fn need_new(&self, declared: Declared) -> Result<(), Fault> {
        if self.is_new_name(declared.name) {
            Ok(())
        } else {
            Err(miss(Reason::Name, declared.ty))
        }
    }

    /// A declaration with a value.
    pub fn declaration(&mut self, place: Place, out: &mut Vec<Statement>) -> Result<(), Fault> {
        let at = self.at;
        let Some(declared) = self.declared_from(at) else {
            return Err(miss(Reason::Statement, at));
        };
        if declared.inferred {
            return self.inferred(declared, out);
        }
        let java = self.declared_type(declared)?;
        self.at = declared.name.saturating_add(1);
        self.expect_at(b"=", at)?;
        let hashed = self.is_hashed() && self.is_unordered(declared.name);
        let value = self.value(java, hashed)?;
        let end = self.end()?;
        match self.column_to_name(place, java, &value, declared.name) {
            Some(column) => {
                out.push(Statement::Named {
                    at,
                    name: declared.name,
                    java,
                    value: value.tree,
                    end,
                })?;
                self.put_column(declared.name, java, column)
            }
            None => {
                out.push(Statement::Declaration {
                    at,
                    name: declared.name,
                    java,
                    value: value.tree,
                    end,
                })?;
                Ok(self.put_variable(declared.name, java, None)?)
            }
        }
    }

    /// This sign, or else the statement that begins at a number isn't read.
    fn expect_at(&mut self, sign: &[u8], at: usize) -> Result<(), Fault> {
        if self.take(sign) {
            Ok(())
        } else {
            Err(miss(Reason::Statement, at))
        }
    }

    fn inferred(&mut self, declared: Declared, out: &mut Vec<Statement>) -> Result<(), Fault> {
        let at = self.at;
        self.need_new(declared)?;
        self.at = declared.name.saturating_add(1);
        self.expect_at(b"=", at)?;
        let value = self.expression(ROOM)?;
        let end = self.end()?;
        let java = value.java;
        if !is_inferred(java) {
            return Err(miss(Reason::Type, declared.ty));
        }
        out.push(Statement::Inferred {
            at,
            name: declared.name,
            java,
            value: value.tree,
            end,
        })?;
        Ok(self.put_variable(declared.name, java, None)?)
    }

    /// The semicolon behind a value.
    fn end(&mut self) -> Result<usize, Fault> {
        self.expect(b";", Reason::Expression)
    }

    /// A value of a variable of this type; a hash set, where it may be one.
    fn value(&mut self, java: JavaType, may_be_hashed: bool) -> Result<Read, Fault> {
        let at = self.at;
        let value = if self.is_next(b"new") {
            self.new_value(Some(java), may_be_hashed, ROOM)?
        } else {
            self.expression(ROOM)?
        };
        if may_be_assigned(java, value.java) && is_narrowed_well(java, &value.tree) {
            Ok(value)
        } else {
            Err(miss(Reason::Expression, at))
        }
    }

    /// Whether a new hash set comes next.
    fn is_hashed(&self) -> bool {
        self.are(self.at, &[b"new", b"HashSet"])
    }

    /// Whether a set is only added to or asked what it contains and how much, wherever its name stands behind this number in the method.
    fn is_unordered(&mut self, number: usize) -> bool {
        if !self.pay(self.method.end.saturating_sub(number)) {
            return false;
        }
        let name = self.bytes(number);
        let from = number.saturating_add(1);
        (from..self.method.end).all(|k| {
            !is_mention(self.method.items, name, k)
                || (self.is(k.saturating_add(1), b".")
                    && matches!(
                        self.bytes(k.saturating_add(2)),
                        b"add" | b"contains" | b"size" | b"isEmpty"
                    )
                    && self.is(k.saturating_add(3), b"("))
        })
    }

    /// The number of the brace that closes the block round an item.
    fn block_end(&self, number: usize) -> usize {
        match self.method.rounds.get(number) {
            Some(round) => self.closing(*round),
            None => number,
        }
    }

    /// The class and the member for which a local name may stand in a loop, where neither is set behind it in its block.
    fn column_to_name(
        &mut self,
        place: Place,
        java: JavaType,
        value: &Read,
        name: usize,
    ) -> Option<(usize, u32, u32)> {
        let Expression::Column {
            row,
            class,
            member,
            ..
        } = &*value.tree
        else {
            return None;
        };
        let Expression::Variable { at } = &**row else {
            return None;
        };
        let end = self.block_end(name);
        let items = self.method.items;
        if place.looped
            && has_kind_of(java, value.java)
            && self.pay(end.saturating_sub(self.at).saturating_mul(2))
            && !may_be_set(items, self.bytes(name), self.at, end)
            && !may_be_set(items, self.bytes(*at), self.at, end)
        {
            Some((*at, *class, *member))
        } else {
            None
        }
    }

    fn put_column(
        &mut self,
        name: usize,
        java: JavaType,
        column: (usize, u32, u32),
    ) -> Result<(), Fault> {
        let (row, class, member) = column;
        let row = self.copy(self.bytes(row))?;
        let column = ColumnName { row, class, member };
        Ok(self.put_variable(name, java, Some(column))?)
    }

    // ---- Setting

    fn has_columns(&self, number: usize) -> bool {
        let name = self.bytes(number);
        self.sight.iter().any(|v| match &v.column {
            Some(c) => c.row.as_slice() == name,
            None => false,
        })
    }

    /// The variable that an item names, which may be set there. A scalar from outside is a parameter from here on.
    fn set_variable(&mut self, number: usize) -> Result<Variable, Fault> {
        let Some(v) = self.variable(number) else {
            return Err(miss(Reason::Name, number));
        };
        if v.outside {
            self.scalar_param(number, v)?;
        } else if v.column.is_some() || self.has_columns(number) {
            return Err(miss(Reason::Statement, number));
        }
        Ok(v)
    }

    fn count_variable(&mut self, number: usize) -> Result<Variable, Fault> {
        let v = self.set_variable(number)?;
        if is_number(v.java) {
            Ok(v)
        } else {
            Err(miss(Reason::Statement, number))
        }
    }

    /// Whether an item names a list or set from outside.
    fn is_outer_many(&self, number: usize) -> Option<JavaType> {
        let v = self.variable(number)?;
        if v.outside && is_many(v.java) && !v.inferred {
            Some(v.java)
        } else {
            None
        }
    }

    /// `x = ..;`
    pub fn assignment(&mut self, place: Place, out: &mut Vec<Statement>) -> Result<(), Fault> {
        let name = self.at;
        match self.is_outer_many(name) {
            Some(java) if place.top => self.first_set(java, out),
            _ => {
                let v = self.set_variable(name)?;
                self.at = name.saturating_add(2);
                if self.is_extreme() {
                    self.extreme(name, v, out)
                } else {
                    self.plain_assignment(name, v, out)
                }
            }
        }
    }

    fn plain_assignment(
        &mut self,
        name: usize,
        v: Variable,
        out: &mut Vec<Statement>,
    ) -> Result<(), Fault> {
        let value = self.value(v.java, false)?;
        let end = self.end()?;
        out.push(Statement::Assignment {
            name,
            value: value.tree,
            end,
        })?;
        Ok(())
    }

    fn first_set(&mut self, java: JavaType, out: &mut Vec<Statement>) -> Result<(), Fault> {
        let name = self.at;
        self.at = name.saturating_add(2);
        let value = self.value(java, false)?;
        let end = self.end()?;
        out.push(Statement::FirstSet {
            name,
            java,
            value: value.tree,
            end,
        })?;
        self.make_own(name);
        Ok(())
    }

    /// `x += e;`, or `x -= e;`
    pub fn changed(&mut self, added: bool, out: &mut Vec<Statement>) -> Result<(), Fault> {
        let name = self.at;
        self.count_variable(name)?;
        self.at = name.saturating_add(2);
        let at = self.at;
        let value = self.expression(ROOM)?;
        let end = self.end()?;
        if !is_number(value.java) {
            return Err(miss(Reason::Expression, at));
        }
        let value = value.tree;
        out.push(if added {
            Statement::Added { name, value, end }
        } else {
            Statement::Lessened { name, value, end }
        })?;
        Ok(())
    }

    /// `x++;` and its kin, with the name at a number and the sign at another.
    pub fn stepped(
        &mut self,
        name: usize,
        sign: usize,
        step: Step,
        out: &mut Vec<Statement>,
    ) -> Result<(), Fault> {
        let at = self.at;
        self.count_variable(name)?;
        let end = at.saturating_add(2);
        self.at = end.saturating_add(1);
        out.push(Statement::Stepped {
            at,
            step,
            name,
            sign,
            end,
        })?;
        Ok(())
    }

    // ---- The greater or the lesser of two

    /// Whether `Math.max(` or `Math.min(` comes next, with the variable that is set before its comma or behind it.
    fn is_extreme(&self) -> bool {
        let at = self.at;
        let word = at.saturating_add(2);
        if !self.is_clear(b"Math") || !self.are(at, &[b"Math", b"."]) {
            return false;
        }
        if !matches!(self.bytes(word), b"max" | b"min") {
            return false;
        }
        let open = word.saturating_add(1);
        let close = self.closing(open);
        let name = self.bytes(at.saturating_sub(2));
        let first = open.saturating_add(1);
        self.are(first, &[name, b","]) || self.are(close.saturating_sub(2), &[b",", name, b")"])
    }

    fn extreme(&mut self, name: usize, v: Variable, out: &mut Vec<Statement>) -> Result<(), Fault> {
        let greatest = self.is(self.at.saturating_add(2), b"max");
        self.at = self.at.saturating_add(4);
        let variable = self.bytes(name);
        let variable_first = self.are(self.at, &[variable, b","]);
        if variable_first {
            self.at = self.at.saturating_add(2);
        }
        let at = self.at;
        let value = self.expression(ROOM)?;
        if !variable_first {
            self.expect(b",", Reason::Expression)?;
            self.expect(variable, Reason::Expression)?;
        }
        self.expect(b")", Reason::Expression)?;
        let end = self.end()?;
        let fits = is_number(v.java) && is_number(value.java) && is_no_longer(v.java, value.java);
        if level_of(&value.tree) < 8 || !fits {
            return Err(miss(Reason::Expression, at));
        }
        out.push(Statement::Extreme {
            name,
            greatest,
            variable_first,
            value: value.tree,
            end,
        })?;
        Ok(())
    }

    // ---- Adding

    /// The type of the list or set of the slice's own that an item names.
    pub fn own_many(&self, number: usize) -> Result<JavaType, Fault> {
        match self.variable(number) {
            None => Err(miss(Reason::Name, number)),
            Some(v) if v.outside => Err(miss(Reason::Outside, number)),
            Some(v) if is_many(v.java) => Ok(v.java),
            Some(_) => Err(miss(Reason::Statement, number)),
        }
    }

    /// `xs.add(e);`
    pub fn addition(&mut self, out: &mut Vec<Statement>) -> Result<(), Fault> {
        let name = self.at;
        let java = self.own_many(name)?;
        self.at = name.saturating_add(4);
        let at = self.at;
        let value = self.expression(ROOM)?;
        let close = self.expect(b")", Reason::Expression)?;
        let end = self.end()?;
        if !may_be_added(java, value.java) {
            return Err(miss(Reason::Expression, at));
        }
        out.push(Statement::Add {
            name,
            value: value.tree,
            close,
            end,
        })?;
        Ok(())
    }
}
