// Orders of lists.
use crate::reader::{Fault, Reader};
use crate::reason::{Reason, miss};
use qbs_base::Items;
use view_map::{Member, ScalarKind};
use view_rules::JavaType;
use view_statements::{KeyForm, SortKey, SortPart, Statement};

/// A key of an order: how it is written, the number of its member, and the number of the item behind it.
#[derive(Clone, Copy)]
struct Key {
    form: KeyForm,
    member: u32,
    to: usize,
}

fn is_call_of(word: &[u8], call: &[u8], kind: ScalarKind) -> bool {
    let special: &[u8] = match kind {
        ScalarKind::Int => b"Int",
        ScalarKind::Long => b"Long",
        _ => &[],
    };
    match word.strip_prefix(call) {
        Some(rest) => rest.is_empty() || (!special.is_empty() && rest == special),
        None => false,
    }
}

impl<'a> Reader<'a> {
    fn class_name(&self, class: u32) -> &'a [u8] {
        match self.method.map.classes.as_slice().get(class as usize) {
            Some(c) => c.class.as_slice(),
            None => &[],
        }
    }

    fn member_of(&self, class: u32, member: u32) -> Option<&'a Member> {
        let c = self.method.map.classes.as_slice().get(class as usize)?;
        c.members.as_slice().get(member as usize)
    }

    // ---- Keys

    /// The member of a class that is named behind `::`.
    fn reference(&self, class: u32, number: usize) -> Option<Key> {
        let c = self.method.map.classes.as_slice().get(class as usize)?;
        let name = self.bytes(number);
        for (member, m) in c.members.as_slice().iter().enumerate() {
            if m.is_call && m.name.as_slice() == name {
                return Some(Key {
                    form: KeyForm::Reference,
                    member: u32::try_from(member).ok()?,
                    to: number.saturating_add(1),
                });
            }
        }
        None
    }

    fn lambda(&self, class: u32, form: KeyForm, number: usize, body: usize) -> Result<Key, Fault> {
        if !self.is_new_name(number) || !self.is(body, self.bytes(number)) {
            return Err(miss(Reason::Name, number));
        }
        match self.member(class, body.saturating_add(1)) {
            Some(found) => Ok(Key {
                form,
                member: found.member,
                to: found.to,
            }),
            None => Err(miss(Reason::Name, body.saturating_add(2))),
        }
    }

    fn key(&self, class: u32) -> Result<Key, Fault> {
        let at = self.at;
        let name = self.class_name(class);
        let next = at.saturating_add(1);
        if self.is(next, b"->") {
            return self.lambda(class, KeyForm::Lambda, at, at.saturating_add(2));
        }
        if self.are(at, &[b"(", name]) && self.are(at.saturating_add(3), &[b")", b"->"]) {
            let variable = at.saturating_add(2);
            return self.lambda(class, KeyForm::TypedLambda, variable, at.saturating_add(5));
        }
        if self.is(next, b"::") {
            if !self.is(at, name) || !self.is_clear(name) {
                return Err(miss(Reason::Name, at));
            }
            return match self.reference(class, at.saturating_add(2)) {
                Some(key) => Ok(key),
                None => Err(miss(Reason::Name, at.saturating_add(2))),
            };
        }
        Err(miss(Reason::Expression, at))
    }

    /// `comparing(K)` and the like.
    fn sort_key(&mut self, class: u32, call: &[u8]) -> Result<SortKey, Fault> {
        let word = self.at;
        self.step();
        self.expect(b"(", Reason::Expression)?;
        let at = self.at;
        let key = self.key(class)?;
        let kind = match self.member_of(class, key.member) {
            Some(m) => m.java.kind,
            None => return Err(miss(Reason::Name, at)),
        };
        if !is_call_of(self.bytes(word), call, kind) {
            return Err(miss(Reason::Expression, word));
        }
        if kind == ScalarKind::Text && !self.method.map.texts_binary {
            return Err(miss(Reason::Texts, at));
        }
        self.at = key.to;
        self.expect(b")", Reason::Expression)?;
        Ok(SortKey {
            at,
            form: key.form,
            class,
            member: key.member,
        })
    }

    /// `.reversed()`, or a further key.
    fn sort_part(&mut self, class: u32) -> Result<SortPart, Fault> {
        let at = self.at;
        if self.are(at, &[b".", b"reversed", b"(", b")"]) {
            self.at = at.saturating_add(4);
            return Ok(SortPart::Reversed(at));
        }
        self.step();
        Ok(SortPart::Key(self.sort_key(class, b"thenComparing")?))
    }

    /// A comparator of rows of a class.
    fn comparator(&mut self, class: u32) -> Result<Items<SortPart>, Fault> {
        let at = self.at;
        if !self.is_clear(b"Comparator") {
            return Err(miss(Reason::Name, at));
        }
        self.expect(b"Comparator", Reason::Expression)?;
        self.expect(b".", Reason::Expression)?;
        let mut parts = Items::new(self.alloc);
        parts.push(SortPart::Key(self.sort_key(class, b"comparing")?))?;
        for _ in self.at..self.method.items.len() {
            if !self.is_next(b".") {
                return Ok(parts);
            }
            parts.push(self.sort_part(class)?)?;
        }
        Ok(parts)
    }

    /// The class of the rows of the slice's own list that an item names.
    fn sorted(&self, number: usize) -> Result<u32, Fault> {
        match self.own_many(number)? {
            JavaType::Rows(class) => Ok(class),
            _ => Err(miss(Reason::Statement, number)),
        }
    }

    fn sort(
        &mut self,
        at: usize,
        by_class: bool,
        list: usize,
        class: u32,
        out: &mut Vec<Statement>,
    ) -> Result<(), Fault> {
        let parts = self.comparator(class)?;
        self.expect(b")", Reason::Expression)?;
        let end = self.expect(b";", Reason::Expression)?;
        out.push(Statement::Sort {
            at,
            by_class,
            list,
            parts,
            end,
        })?;
        Ok(())
    }

    /// `xs.sort(C);`
    pub fn sort_list(&mut self, out: &mut Vec<Statement>) -> Result<(), Fault> {
        let at = self.at;
        let class = self.sorted(at)?;
        self.at = at.saturating_add(4);
        self.sort(at, false, at, class, out)
    }

    /// `Collections.sort(xs, C);`
    pub fn sort_by_class(&mut self, out: &mut Vec<Statement>) -> Result<(), Fault> {
        let at = self.at;
        let list = at.saturating_add(4);
        let class = self.sorted(list)?;
        self.at = list.saturating_add(1);
        self.expect(b",", Reason::Expression)?;
        self.sort(at, true, list, class, out)
    }
}
