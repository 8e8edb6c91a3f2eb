// Slices from what was read: their outside, parameters and prints.
use crate::reader::{Reader, Trust};
use qbs_base::{Bytes, Items, NoMemory};
use std::alloc::Global;
use view_items::Item;
use view_rules::{ColumnName, JavaType, Sighted, holds_get, truth};
use view_shapes::{Stretch, is_named, is_word, may_be_set};
use view_statements::{Ending, Printed, Slice, Statement};

/// Whether a loop begins from a number up to another.
pub fn holds_loop(items: &[Item], from: usize, to: usize) -> bool {
    (from..to).any(|k| {
        is_word("for", items, k) || is_word("while", items, k) || is_word("do", items, k)
    })
}

/// Copies of bytes.
pub fn copy_all(alloc: Global, names: &[Bytes]) -> Result<Items<Bytes>, NoMemory> {
    let mut copies = Items::new(alloc);
    for name in names {
        let copy = name.as_slice().to_vec(alloc)?;
        copies.push(Bytes::from_vec(copy))?;
    }
    Ok(copies)
}

impl<'a> Reader<'a> {
    fn copy_column(&self, column: &Option<ColumnName>) -> Result<Option<ColumnName>, NoMemory> {
        match column {
            Some(c) => Ok(Some(ColumnName {
                row: self.copy(c.row.as_slice())?,
                class: c.class,
                member: c.member,
            })),
            None => Ok(None),
        }
    }

    fn copy_sighted(&self, v: &Sighted) -> Result<Sighted, NoMemory> {
        Ok(Sighted {
            name: self.copy(v.name.as_slice())?,
            java: v.java,
            outside: true,
            column: self.copy_column(&v.column)?,
        })
    }

    /// Whether a variable from outside belongs to a slice: it is named there, or it is a row or a list of rows, which the slice may meet.
    fn belongs(&self, v: &Sighted, trust: Trust, at: Stretch) -> bool {
        trust != Trust::Inferred
            && (matches!(v.java, JavaType::Row(_) | JavaType::Rows(_))
                || is_named(self.method.items, v.name.as_slice(), at.from, at.to))
    }

    /// Of the first variables in sight those that belong to the slice of these items, as they were before it, with the item of each one's
    /// name. Those for which no guards were looked for aren't read.
    pub fn outside(
        &mut self,
        outer: usize,
        at: Stretch,
    ) -> Result<(Items<Sighted>, Items<usize>), NoMemory> {
        let mut outside = Items::new(self.alloc);
        let mut declared = Items::new(self.alloc);
        let mut tested: Vec<Bytes> = Vec::new(self.alloc);
        let places = self.declared.iter().zip(self.trusts.iter());
        for (v, (number, trust)) in self.sight.iter().zip(places).take(outer) {
            if self.belongs(v, *trust, at) {
                outside.push(self.copy_sighted(v)?)?;
                declared.push(*number)?;
                if matches!(trust, Trust::Unknown | Trust::Tested) {
                    tested.push(self.copy(v.name.as_slice())?)?;
                }
            }
        }
        for name in tested {
            self.tested.push(name)?;
        }
        Ok((outside, declared))
    }

    // ---- Fresh names

    /// The name of what goes through a list that is printed: no variable has it.
    fn each_name(&mut self) -> Result<Bytes, NoMemory> {
        match &self.each {
            Some(name) => self.copy(name.as_slice()),
            None => {
                let name = self.fresh_name(b"each")?;
                self.each = Some(self.copy(name.as_slice())?);
                Ok(name)
            }
        }
    }

    /// The name of what a group sets.
    pub fn found_name(&mut self) -> Result<Bytes, NoMemory> {
        match &self.found {
            Some(name) => self.copy(name.as_slice()),
            None => {
                let name = self.fresh_name(b"found")?;
                self.found = Some(self.copy(name.as_slice())?);
                Ok(name)
            }
        }
    }

    /// The slice of these statements, with so many variables in sight before it.
    pub fn slice(
        &mut self,
        block: Stretch,
        outer: usize,
        from: usize,
        to: usize,
        statements: Items<Statement>,
        ending: Ending,
    ) -> Result<Slice, NoMemory> {
        let prints = self.prints(block, outer, from, to, statements.as_slice(), &ending)?;
        let each = self.each_name()?;
        let (outside, declared) = self.outside(outer, Stretch { from, to })?;
        let params = std::mem::replace(&mut self.params, Vec::new(self.alloc));
        let kinds = std::mem::replace(&mut self.kinds, Vec::new(self.alloc));
        let tested = std::mem::replace(&mut self.tested, Vec::new(self.alloc));
        Ok(Slice {
            from,
            to,
            block,
            outside,
            declared,
            params: Items::from_vec(params),
            kinds: Items::from_vec(kinds),
            tested: Items::from_vec(tested),
            gets: self.gets,
            prints,
            each,
            statements,
            ending,
        })
    }

    // ---- Prints

    fn print(
        &self,
        prints: &mut Items<Printed>,
        name: &[u8],
        java: JavaType,
    ) -> Result<(), NoMemory> {
        let name = self.copy(name)?;
        prints.push(Printed { name, java })
    }

    fn prints(
        &mut self,
        block: Stretch,
        outer: usize,
        from: usize,
        to: usize,
        statements: &[Statement],
        ending: &Ending,
    ) -> Result<Items<Printed>, NoMemory> {
        let mut prints = Items::new(self.alloc);
        if let Ending::Grouped(group) = ending {
            self.print(&mut prints, group.variable.as_slice(), truth())?;
        }
        let got = self.got_by(statements)?;
        self.print_own(&mut prints, block, outer, to, got.as_slice())?;
        self.print_lists(&mut prints, outer, from, to)?;
        self.print_scalars(&mut prints, from, to)?;
        Ok(prints)
    }

    /// The slice's own variables that are named behind it in its block, or whose values may fault.
    fn print_own(
        &mut self,
        prints: &mut Items<Printed>,
        block: Stretch,
        outer: usize,
        to: usize,
        got: &[usize],
    ) -> Result<(), NoMemory> {
        let paid = self.pay_for_own(outer, block.to.saturating_sub(to));
        let items = self.method.items;
        for v in self.sight.iter().skip(outer) {
            let name = v.name.as_slice();
            let faults = got.iter().any(|at| self.bytes(*at) == name);
            let is_read = !paid || is_named(items, name, to, block.to);
            if v.column.is_none() && (is_read || faults) {
                self.print(prints, name, v.java)?;
            }
        }
        Ok(())
    }

    /// Whether so many items may be gone through for each variable of the slice's own. Where not, all are printed.
    fn pay_for_own(&mut self, outer: usize, count: usize) -> bool {
        let variables = self.sight.len().saturating_sub(outer);
        self.pay(variables.saturating_mul(count))
    }

    /// The lists and sets from outside that it set, which the method names elsewhere.
    fn print_lists(
        &mut self,
        prints: &mut Items<Printed>,
        outer: usize,
        from: usize,
        to: usize,
    ) -> Result<(), NoMemory> {
        let paid = self.pay_for_lists(outer);
        let items = self.method.items;
        let body = self.body_from();
        for v in self.sight.iter().take(outer) {
            let name = v.name.as_slice();
            let is_read = !paid
                || v.outside
                || is_named(items, name, body, from)
                || is_named(items, name, to, self.method.end);
            if !v.outside && is_read {
                self.print(prints, name, v.java)?;
            }
        }
        Ok(())
    }

    /// Whether the method's items may be gone through for each list or set from outside that the slice set.
    fn pay_for_lists(&mut self, outer: usize) -> bool {
        let set = self.sight.iter().take(outer).filter(|v| !v.outside).count();
        self.pay(set.saturating_mul(self.method.end.saturating_sub(self.body_from())))
    }

    /// The brace that begins the method's body.
    fn body_from(&self) -> usize {
        match self.method.rounds.get(self.method.end) {
            Some(round) => *round,
            None => self.method.name,
        }
    }

    /// The scalars from outside that it may set.
    fn print_scalars(
        &self,
        prints: &mut Items<Printed>,
        from: usize,
        to: usize,
    ) -> Result<(), NoMemory> {
        for p in self.params.as_slice() {
            let name = p.variable.as_slice();
            if p.column.is_none() && may_be_set(self.method.items, name, from, to) {
                self.print_param(prints, name)?;
            }
        }
        Ok(())
    }

    fn print_param(&self, prints: &mut Items<Printed>, name: &[u8]) -> Result<(), NoMemory> {
        for v in self.sight.as_slice() {
            if v.name.as_slice() == name {
                return self.print(prints, name, v.java);
            }
        }
        Ok(())
    }

    // ---- Values that may fault

    /// The items that are names of variables whose values hold `get`.
    fn got_by(&self, statements: &[Statement]) -> Result<Vec<usize>, NoMemory> {
        let mut got = Vec::new(self.alloc);
        put_all_got(&mut got, statements)?;
        Ok(got)
    }
}

#[cycle(got)]
fn put_all_got(got: &mut Vec<usize>, statements: &[Statement]) -> Result<(), NoMemory> {
    for statement in statements {
        put_got(got, statement)?;
    }
    Ok(())
}

#[cycle(got)]
fn put_got(got: &mut Vec<usize>, statement: &Statement) -> Result<(), NoMemory> {
    match statement {
        Statement::Declaration { name, value, .. }
        | Statement::Inferred { name, value, .. }
        | Statement::FirstSet { name, value, .. }
        | Statement::Assignment { name, value, .. }
        | Statement::Added { name, value, .. }
        | Statement::Lessened { name, value, .. }
        | Statement::Extreme { name, value, .. }
        | Statement::Add { name, value, .. } => {
            if holds_get(value) {
                got.push(*name)?;
            }
            Ok(())
        }
        Statement::If { body, .. }
        | Statement::ForEach { body, .. }
        | Statement::ForIndex { body, .. }
        | Statement::ForIterator { body, .. }
        | Statement::While { body, .. } => put_all_got(got, body.as_slice()),
        Statement::Skip { rest, .. } => put_all_got(got, rest.as_slice()),
        Statement::IfElse { body, other, .. } => {
            put_all_got(got, body.as_slice())?;
            put_all_got(got, other.as_slice())
        }
        _ => Ok(()),
    }
}
