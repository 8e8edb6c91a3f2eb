// What stands alone, and what stands behind a dot.
use crate::deciding::{equalled, is_text};
use crate::reader::{Fault, Reader};
use crate::reason::{Reason, miss};
use qbs_base::boxed;
use view_items::ItemKind;
use view_rules::{Expression, JavaType, check_expression, truth, unboxed};
use view_shapes::is_keyword;

/// An expression that was read, and the type that Java has there.
#[derive(Drop)]
pub struct Read {
    pub tree: Box<Expression>,
    pub java: JavaType,
}

impl<'a> Reader<'a> {
    /// The number of the item behind a tree that is seen at a number, and its type.
    pub fn seen(&self, tree: &Expression, at: usize) -> Option<(usize, JavaType)> {
        check_expression(&self.within(), self.sight.as_slice(), tree, at)
    }

    /// A tree without expressions in it, if it is seen at a number, with the item behind it as the next one.
    pub fn leaf_at(&mut self, tree: Expression, at: usize) -> Result<Option<Read>, Fault> {
        let tree = boxed(self.alloc, tree)?;
        match self.seen(&tree, at) {
            Some((to, java)) => {
                self.at = to;
                Ok(Some(Read { tree, java }))
            }
            None => Ok(None),
        }
    }

    /// The same, where it has to be seen.
    pub fn leaf(&mut self, tree: Expression, at: usize) -> Result<Read, Fault> {
        match self.leaf_at(tree, at)? {
            Some(read) => Ok(read),
            None => Err(miss(Reason::Expression, at)),
        }
    }

    fn is_literal(&self) -> bool {
        match self.method.items.get(self.at) {
            Some(item) => {
                item.kind == ItemKind::Number
                    || item.kind == ItemKind::Text
                    || self.is_next(b"true")
                    || self.is_next(b"false")
            }
            None => false,
        }
    }

    /// What stands alone, and members and calls behind it.
    #[cycle(expression)]
    pub fn postfix(&mut self, room: usize) -> Result<Read, Fault> {
        if room == 0 {
            return Err(miss(Reason::Expression, self.at));
        }
        let first = self.at;
        let mut read = self.primary(room - 1)?;
        for _ in self.at..self.method.items.len() {
            if !self.is_next(b".") {
                return Ok(read);
            }
            read = self.with_part(first, read, room - 1)?;
        }
        Ok(read)
    }

    #[cycle(expression)]
    fn primary(&mut self, room: usize) -> Result<Read, Fault> {
        if room == 0 {
            return Err(miss(Reason::Expression, self.at));
        }
        let at = self.at;
        if let Some(read) = self.fetch()? {
            return Ok(read);
        }
        if let Some(read) = self.query(room - 1)? {
            return Ok(read);
        }
        if self.is_next(b"(") {
            self.group(room - 1)
        } else if self.is_literal() {
            self.leaf(Expression::Literal { at }, at)
        } else if self.is_next(b"new") {
            self.new_value(None, false, room - 1)
        } else if self.is_next(b"null") {
            Err(miss(Reason::Null, at))
        } else if self.is_name_next() {
            self.named(room - 1)
        } else {
            Err(miss(Reason::Expression, at))
        }
    }

    fn is_name_next(&self) -> bool {
        match self.method.items.get(self.at) {
            Some(item) => { item.kind == ItemKind::Name && !is_keyword(self.method.items, self.at) }
            None => false,
        }
    }

    #[cycle(expression)]
    fn group(&mut self, room: usize) -> Result<Read, Fault> {
        let at = self.at;
        self.step();
        let inner = self.expression(room)?;
        let close = self.expect(b")", Reason::Expression)?;
        let tree = Expression::Group {
            at,
            inner: inner.tree,
            close,
        };
        self.read(tree, inner.java)
    }

    // ---- Behind a dot

    #[cycle(expression)]
    fn with_part(&mut self, first: usize, of: Read, room: usize) -> Result<Read, Fault> {
        match of.java {
            JavaType::Row(class) => self.with_column(of, class),
            JavaType::Scalar(_) => {
                let name = self.at.saturating_add(1);
                if self.are(name, &[b"equals", b"("]) {
                    self.with_equals(first, of, room)
                } else {
                    self.with_unboxing(of)
                }
            }
            _ => Err(miss(Reason::Expression, self.at.saturating_add(1))),
        }
    }

    fn with_column(&mut self, of: Read, class: u32) -> Result<Read, Fault> {
        let dot = self.at;
        match self.member(class, dot) {
            Some(found) => {
                self.at = found.to;
                let tree = Expression::Column {
                    row: of.tree,
                    dot,
                    class,
                    member: found.member,
                };
                self.read(tree, JavaType::Scalar(found.java))
            }
            None => Err(miss(Reason::Name, dot.saturating_add(1))),
        }
    }

    fn with_unboxing(&mut self, of: Read) -> Result<Read, Fault> {
        let dot = self.at;
        let name = dot.saturating_add(1);
        if !self.are(name.saturating_add(1), &[b"(", b")"]) {
            return Err(miss(Reason::Expression, name));
        }
        match unboxed(self.bytes(name), of.java) {
            Some(java) => {
                self.at = dot.saturating_add(4);
                self.read(Expression::Unboxed { of: of.tree, dot }, java)
            }
            None => Err(miss(Reason::Expression, name)),
        }
    }

    #[cycle(expression)]
    fn with_equals(&mut self, at: usize, left: Read, room: usize) -> Result<Read, Fault> {
        let dot = self.at;
        self.at = dot.saturating_add(3);
        let right = self.expression(room)?;
        let close = self.expect(b")", Reason::Expression)?;
        match equalled(self.method.map.texts_binary, false, left.java, right.java) {
            Ok(()) => {
                let tree = Expression::Equals {
                    at,
                    texts: is_text(left.java),
                    left: left.tree,
                    dot,
                    right: right.tree,
                    close,
                };
                self.read(tree, truth())
            }
            Err(reason) => Err(miss(reason, dot.saturating_add(1))),
        }
    }

    /// `Objects.equals(a, b)`.
    #[cycle(expression)]
    pub fn objects_equals(&mut self, room: usize) -> Result<Read, Fault> {
        let at = self.at;
        self.at = at.saturating_add(4);
        let left = self.expression(room)?;
        let comma = self.expect(b",", Reason::Expression)?;
        let right = self.expression(room)?;
        let close = self.expect(b")", Reason::Expression)?;
        match equalled(self.method.map.texts_binary, true, left.java, right.java) {
            Ok(()) => {
                let tree = Expression::ObjectsEquals {
                    at,
                    texts: is_text(left.java),
                    left: left.tree,
                    comma,
                    right: right.tree,
                    close,
                };
                self.read(tree, truth())
            }
            Err(reason) => Err(miss(reason, at)),
        }
    }
}
