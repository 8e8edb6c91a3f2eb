// Lists and sets: what is asked of them, and new ones.
use crate::deciding::contained;
use crate::expressions::Read;
use crate::reader::{Fault, Reader};
use crate::reason::{Reason, miss};
use qbs_base::boxed;
use view_rules::{Expression, JavaType, argument_at, element_of, is_int, is_list, is_many, truth};

fn list_of(element: JavaType) -> Option<JavaType> {
    match element {
        JavaType::Row(class) => Some(JavaType::Rows(class)),
        JavaType::Scalar(t) if t.boxed => Some(JavaType::Scalars(t.kind)),
        _ => None,
    }
}

fn set_of(element: JavaType) -> Option<JavaType> {
    match element {
        JavaType::Scalar(t) if t.boxed => Some(JavaType::Distinct(t.kind)),
        _ => None,
    }
}

/// What a list gives at a place.
fn element(java: JavaType) -> Option<JavaType> {
    if is_list(java) {
        element_of(java)
    } else {
        None
    }
}

/// What a new value is an object of.
#[derive(Clone, Copy, PartialEq, Eq)]
enum NewClass {
    List,
    Linked,
    Hashed,
}

fn class_of(word: &[u8]) -> Option<NewClass> {
    match word {
        b"ArrayList" => Some(NewClass::List),
        b"LinkedHashSet" => Some(NewClass::Linked),
        b"HashSet" => Some(NewClass::Hashed),
        _ => None,
    }
}

impl<'a> Reader<'a> {
    /// What is asked of a list or set of the slice's own that comes next.
    #[cycle(expression)]
    pub fn of_list(&mut self, java: JavaType, room: usize) -> Result<Read, Fault> {
        let at = self.at;
        let dot = at.saturating_add(1);
        if !self.is(dot, b".") {
            return Err(miss(Reason::Expression, at));
        }
        let name = dot.saturating_add(1);
        match self.bytes(name) {
            b"get" => self.got(java, room),
            b"contains" => self.containing(java, room),
            b"size" => self.asked(Expression::Size { at }, name),
            b"isEmpty" => self.asked(Expression::IsEmpty { at }, name),
            _ => Err(miss(Reason::Expression, name)),
        }
    }

    fn asked(&mut self, tree: Expression, name: usize) -> Result<Read, Fault> {
        let at = self.at;
        match self.leaf_at(tree, at)? {
            Some(read) => Ok(read),
            None => Err(miss(Reason::Expression, name)),
        }
    }

    /// The argument of a method, and the number of the parenthesis behind it.
    #[cycle(expression)]
    fn argument(&mut self, room: usize) -> Result<(Read, usize), Fault> {
        self.at = self.at.saturating_add(3);
        self.expect(b"(", Reason::Expression)?;
        let read = self.expression(room)?;
        let close = self.expect(b")", Reason::Expression)?;
        Ok((read, close))
    }

    #[cycle(expression)]
    fn got(&mut self, java: JavaType, room: usize) -> Result<Read, Fault> {
        let at = self.at;
        let name = at.saturating_add(2);
        let (place, close) = self.argument(room)?;
        match element(java) {
            Some(element) if self.gets && is_int(place.java) => {
                let tree = Expression::Get {
                    at,
                    place: place.tree,
                    close,
                };
                self.read(tree, element)
            }
            _ => Err(miss(Reason::Expression, name)),
        }
    }

    #[cycle(expression)]
    fn containing(&mut self, java: JavaType, room: usize) -> Result<Read, Fault> {
        let at = self.at;
        let name = at.saturating_add(2);
        let (value, close) = self.argument(room)?;
        match contained(self.method.map.texts_binary, java, value.java) {
            Ok(()) => {
                let tree = Expression::Contains {
                    at,
                    value: value.tree,
                    close,
                };
                self.read(tree, truth())
            }
            Err(reason) => Err(miss(reason, name)),
        }
    }

    /// What a for-each walks: a list or set of the slice's own, or a fresh one.
    pub fn walked(&mut self, room: usize) -> Result<Read, Fault> {
        let at = self.at;
        if self.is(at.saturating_add(1), b")") {
            if let Some(v) = self.variable(at) {
                if !v.outside && is_many(v.java) {
                    self.step();
                    return self.read(Expression::Variable { at }, v.java);
                }
            }
        }
        let read = self.expression(room)?;
        if is_many(read.java) {
            Ok(read)
        } else {
            Err(miss(Reason::Expression, at))
        }
    }

    // ---- New ones

    /// The type of a list or a set, by its argument at a number.
    fn spelled(&self, class: NewClass, number: usize) -> Option<JavaType> {
        let element = argument_at(&self.within(), number)?;
        if class == NewClass::List {
            list_of(element.java)
        } else {
            set_of(element.java)
        }
    }

    fn type_of_new(
        &self,
        class: NewClass,
        wanted: Option<JavaType>,
        number: usize,
    ) -> Option<JavaType> {
        if self.are(number, &[b"<", b">"]) {
            wanted
        } else {
            self.spelled(class, number)
        }
    }

    /// `new C<..>(..)` that comes next, where this type is wanted; a hash set, where it may be one.
    #[cycle(expression)]
    pub fn new_value(
        &mut self,
        wanted: Option<JavaType>,
        may_be_hashed: bool,
        room: usize,
    ) -> Result<Read, Fault> {
        let at = self.at;
        let Some(class) = class_of(self.bytes(at.saturating_add(1))) else {
            return Err(miss(Reason::Expression, at));
        };
        let hashed = class == NewClass::Hashed;
        let java = self.type_of_new(class, wanted, at.saturating_add(2));
        let Some(java) = java else {
            return Err(miss(Reason::Expression, at));
        };
        if hashed && !may_be_hashed {
            return Err(miss(Reason::Expression, at));
        }
        let leaf = if class == NewClass::List {
            Expression::NewList { at, java }
        } else {
            Expression::NewSet { at, hashed, java }
        };
        match self.leaf_at(leaf, at)? {
            Some(read) => Ok(read),
            None => self.new_set_of(hashed, java, room),
        }
    }

    /// The number of the parenthesis of a new value.
    fn new_parenthesis(&self, at: usize) -> Option<usize> {
        let number = at.saturating_add(2);
        if self.are(number, &[b"<", b">", b"("]) {
            return Some(number.saturating_add(2));
        }
        if self.is(number, b"<") && self.are(number.saturating_add(2), &[b">", b"("]) {
            return Some(number.saturating_add(3));
        }
        None
    }

    #[cycle(expression)]
    fn new_set_of(&mut self, hashed: bool, java: JavaType, room: usize) -> Result<Read, Fault> {
        let at = self.at;
        let Some(open) = self.new_parenthesis(at) else {
            return Err(miss(Reason::Expression, at));
        };
        self.at = open.saturating_add(1);
        let Some(query) = self.query(room)? else {
            return Err(miss(Reason::Expression, at));
        };
        let close = self.expect(b")", Reason::Expression)?;
        let tree = boxed(
            self.alloc,
            Expression::NewSetOf {
                at,
                hashed,
                java,
                query: query.tree,
                close,
            },
        )?;
        match self.seen(&tree, at) {
            Some((_, java)) => Ok(Read { tree, java }),
            None => Err(miss(Reason::Expression, at)),
        }
    }
}
