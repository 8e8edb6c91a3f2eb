// Loops over lists and sets.
use crate::expressions::Read;
use crate::operators::ROOM;
use crate::reader::{Fault, Reader};
use crate::reason::{Reason, miss};
use crate::setting::Declared;
use view_rules::{JavaType, argument_at, element_of, is_element, is_list, may_be_walked, type_at};
use view_shapes::is_named;
use view_statements::{Place, Statement, in_loop};

/// A loop that is seen as a for-each: the items of its list and of its variable, with the type of this, the first item of its body, and the
/// number of the brace that closes it.
#[derive(Clone, Copy)]
struct Walk {
    list: usize,
    first: bool,
    name: usize,
    java: JavaType,
    from: usize,
    close: usize,
}

impl<'a> Reader<'a> {
    /// A `for`.
    #[cycle(statement)]
    pub fn walk(
        &mut self,
        place: Place,
        room: usize,
        out: &mut Vec<Statement>,
    ) -> Result<(), Fault> {
        if let Some(walk) = self.index_loop()? {
            return self.walk_by(true, walk, place, room, out);
        }
        if let Some(walk) = self.iterator_loop() {
            return self.walk_by(false, walk, place, room, out);
        }
        self.for_each(place, room, out)
    }

    // ---- For-each

    fn walker(&self, declared: Declared, many: JavaType) -> Result<JavaType, Fault> {
        let at = declared.ty;
        if declared.inferred {
            self.need_new(declared)?;
            return match element_of(many) {
                Some(java) => Ok(java),
                None => Err(miss(Reason::Type, at)),
            };
        }
        let java = self.declared_type(declared)?;
        if may_be_walked(many, java) {
            Ok(java)
        } else {
            Err(miss(Reason::Type, at))
        }
    }

    /// What goes through a list, where a colon stands behind it.
    fn element(&self) -> Result<Declared, Fault> {
        let at = self.at;
        match self.declared_from(at.saturating_add(2)) {
            Some(declared) if self.is(declared.name.saturating_add(1), b":") => Ok(declared),
            _ => Err(miss(Reason::Statement, at)),
        }
    }

    #[cycle(statement)]
    fn for_each(
        &mut self,
        place: Place,
        room: usize,
        out: &mut Vec<Statement>,
    ) -> Result<(), Fault> {
        let at = self.at;
        let declared = self.element()?;
        self.at = declared.name.saturating_add(2);
        let walked: Read = self.walked(ROOM)?;
        let close = self.expect(b")", Reason::Expression)?;
        let java = self.walker(declared, walked.java)?;
        let mark = self.mark();
        self.put_variable(declared.name, java, None)?;
        let body = self.body(in_loop(place, self.is_next(b"{")), room)?;
        self.leave(mark);
        out.push(Statement::ForEach {
            at,
            inferred: declared.inferred,
            name: declared.name,
            java,
            walked: walked.tree,
            close,
            braces: body.braces,
            body: body.statements,
            end: body.end,
        })?;
        Ok(())
    }

    // ---- By an index, and by an iterator

    /// The type of the list or set of the slice's own that an item names.
    fn own_list(&self, number: usize) -> Option<JavaType> {
        let v = self.variable(number)?;
        if v.outside { None } else { Some(v.java) }
    }

    /// What the first statement of a body takes from a list: its variable, where these items stand behind it.
    fn taken(&self, from: usize, many: JavaType, words: &[&[u8]]) -> Option<(usize, JavaType)> {
        let declared = self.declared_from(from)?;
        if !self.are(declared.name.saturating_add(1), words) {
            return None;
        }
        let spelled = type_at(&self.within(), declared.ty)?;
        if spelled.to == declared.name
            && self.is_new_name(declared.name)
            && may_be_walked(many, spelled.java)
        {
            Some((declared.name, spelled.java))
        } else {
            None
        }
    }

    /// Whether the items from a number on count an index up, with the name behind the sign where `first`.
    fn counts(&self, number: usize, index: &[u8], first: bool) -> bool {
        if first {
            self.are(number, &[b"++", index, b")", b"{"])
        } else {
            self.are(number, &[index, b"++", b")", b"{"])
        }
    }

    fn is_index_head(&self, at: usize, index: &[u8]) -> bool {
        let list = at.saturating_add(9);
        self.are(
            at,
            &[b"for", b"(", b"int", index, b"=", b"0", b";", index, b"<"],
        ) && self.are(list.saturating_add(1), &[b".", b"size", b"(", b")", b";"])
    }

    /// `for (int i = 0; i < xs.size(); i++) { T x = xs.get(i);`, where neither i nor xs is named behind it.
    fn index_loop(&mut self) -> Result<Option<Walk>, Fault> {
        let at = self.at;
        let number = at.saturating_add(3);
        let index = self.bytes(number);
        if !self.is_index_head(at, index) {
            return Ok(None);
        }
        if !self.is_new_name(number) {
            return Err(miss(Reason::Name, at.saturating_add(2)));
        }
        Ok(self.index_walk(at.saturating_add(9), index))
    }

    fn index_walk(&mut self, list: usize, index: &[u8]) -> Option<Walk> {
        let many = self.own_list(list)?;
        let count = list.saturating_add(6);
        let first = self.counts(count, index, true);
        if !is_list(many) || !(first || self.counts(count, index, false)) {
            return None;
        }
        let brace = count.saturating_add(3);
        let name = self.bytes(list);
        let taken = self.taken(
            brace.saturating_add(1),
            many,
            &[b"=", name, b".", b"get", b"(", index, b")", b";"],
        )?;
        self.walk_of(list, first, taken, brace, 9, index)
    }

    /// A loop whose body goes on so many items behind its variable, and names neither the list nor what counts or iterates.
    fn walk_of(
        &mut self,
        list: usize,
        first: bool,
        taken: (usize, JavaType),
        brace: usize,
        far: usize,
        other: &[u8],
    ) -> Option<Walk> {
        let (name, java) = taken;
        let from = name.saturating_add(far);
        let close = self.closing(brace);
        if !self.pay(close.saturating_sub(from).saturating_mul(2)) {
            return None;
        }
        let items = self.method.items;
        if is_named(items, other, from, close) || is_named(items, self.bytes(list), from, close) {
            return None;
        }
        Some(Walk {
            list,
            first,
            name,
            java,
            from,
            close,
        })
    }

    /// `for (Iterator<E> it = xs.iterator(); it.hasNext();) { T x = it.next();`, where neither it nor xs is named behind it.
    fn iterator_loop(&mut self) -> Option<Walk> {
        let at = self.at;
        if !self.is_clear(b"Iterator") || !self.are(at, &[b"for", b"(", b"Iterator"]) {
            return None;
        }
        let element = argument_at(&self.within(), at.saturating_add(3))?;
        let number = element.to;
        if self.is_new_name(number) {
            self.iterator_walk(number, element.java)
        } else {
            None
        }
    }

    fn iterator_walk(&mut self, number: usize, element: JavaType) -> Option<Walk> {
        let iterator = self.bytes(number);
        let list = number.saturating_add(2);
        let many = self.own_list(list)?;
        let behind = list.saturating_add(1);
        if !self.is(number.saturating_add(1), b"=")
            || !self.are(behind, &[b".", b"iterator", b"(", b")", b";"])
            || !self.are(
                list.saturating_add(6),
                &[iterator, b".", b"hasNext", b"(", b")", b";", b")", b"{"],
            )
            || !is_element(many, element)
        {
            return None;
        }
        let brace = list.saturating_add(13);
        let taken = self.taken(
            brace.saturating_add(1),
            many,
            &[b"=", iterator, b".", b"next", b"(", b")", b";"],
        )?;
        self.walk_of(list, false, taken, brace, 8, iterator)
    }

    #[cycle(statement)]
    fn walk_by(
        &mut self,
        by_index: bool,
        walk: Walk,
        place: Place,
        room: usize,
        out: &mut Vec<Statement>,
    ) -> Result<(), Fault> {
        let at = self.at;
        let mark = self.mark();
        self.put_variable(walk.name, walk.java, None)?;
        self.at = walk.from;
        let mut body = Vec::new(self.alloc);
        let end = self.rest_of_block(in_loop(place, true), room, &mut body)?;
        self.leave(mark);
        let Walk {
            list,
            name,
            java,
            ..
        } = walk;
        out.push(if by_index {
            Statement::ForIndex {
                at,
                list,
                first: walk.first,
                name,
                java,
                body,
                close: end,
                end,
            }
        } else {
            Statement::ForIterator {
                at,
                list,
                name,
                java,
                body,
                close: end,
                end,
            }
        })?;
        Ok(())
    }
}
