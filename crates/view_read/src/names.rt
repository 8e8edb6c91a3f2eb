// Variables, columns and constants, by their names, and the parameters of the slice.
use crate::expressions::Read;
use crate::reader::{Fault, Reader, Variable};
use crate::reason::{Reason, miss};
use qbs_base::{Bytes, NoMemory};
use view_map::{Member, ScalarKind, ScalarType};
use view_rules::{Expression, JavaType, Param};

/// A member that stands behind a dot: its number in the class, its type and column, and the number of the item behind it.
#[derive(Clone, Copy)]
pub struct Found {
    pub member: u32,
    pub java: ScalarType,
    pub column: u32,
    pub to: usize,
}

/// How many bytes of a column's name stand in that of a parameter: names that the source doesn't have are short.
const MOST_BYTES: usize = 64;

/// The front of a name, of so many bytes at most.
fn front_of(name: &[u8], most: usize) -> &[u8] {
    if most < name.len() {
        &name[..most]
    } else {
        name
    }
}

impl<'a> Reader<'a> {
    fn members(&self, class: u32) -> &'a [Member] {
        match self.method.map.classes.as_slice().get(class as usize) {
            Some(c) => c.members.as_slice(),
            None => &[],
        }
    }

    /// The number of the item behind a member, if it stands behind a dot.
    fn past_member(&self, m: &Member, dot: usize) -> Option<usize> {
        let name = dot.saturating_add(1);
        let behind = name.saturating_add(1);
        if !self.is(dot, b".") || !self.is(name, m.name.as_slice()) {
            return None;
        }
        if !m.is_call {
            if self.is(behind, b"(") {
                return None;
            }
            return Some(behind);
        }
        if self.are(behind, &[b"(", b")"]) {
            Some(behind.saturating_add(2))
        } else {
            None
        }
    }

    /// The member of a class that stands behind a dot.
    pub fn member(&self, class: u32, dot: usize) -> Option<Found> {
        let mut number: u32 = 0;
        for m in self.members(class) {
            if let Some(to) = self.past_member(m, dot) {
                return Some(Found {
                    member: number,
                    java: m.java,
                    column: m.column,
                    to,
                });
            }
            number = number.saturating_add(1);
        }
        None
    }

    // ---- Parameters

    fn same_column(a: Option<u32>, b: Option<u32>) -> bool {
        match (a, b) {
            (Some(a), Some(b)) => a == b,
            (None, None) => true,
            _ => false,
        }
    }

    fn find_param(&self, variable: &[u8], column: Option<u32>) -> Option<usize> {
        for (number, p) in self.params.iter().enumerate() {
            if p.variable.as_slice() == variable && Reader::same_column(p.column, column) {
                return Some(number);
            }
        }
        None
    }

    /// The schema's name of a column of a class.
    fn column_name(&self, class: u32, column: u32) -> &'a [u8] {
        let Some(c) = self.method.map.classes.as_slice().get(class as usize) else {
            return &[];
        };
        let Some(t) = self.method.tables.get(c.table as usize) else {
            return &[];
        };
        match t.columns.as_slice().get(column as usize) {
            Some(column) => column.name.as_slice(),
            None => &[],
        }
    }

    /// The name of the parameter for a column of a row: the row's, `_`, and the front of the column's.
    fn column_param(&self, row: &[u8], class: u32, column: u32) -> Result<Bytes, NoMemory> {
        let mut name = row.to_vec(self.alloc)?;
        name.push(b'_')?;
        name.extend_from_slice(front_of(self.column_name(class, column), MOST_BYTES))?;
        self.fresh_name(name.as_slice())
    }

    fn put_param(
        &mut self,
        variable: &[u8],
        column: Option<u32>,
        name: Bytes,
        kind: ScalarKind,
    ) -> Result<usize, NoMemory> {
        let number = self.params.len();
        let variable = self.copy(variable)?;
        self.params.push(Param {
            variable,
            column,
            name,
        })?;
        self.kinds.push(kind)?;
        Ok(number)
    }

    /// The number of the parameter for a scalar from outside that an item names, which is one from here on.
    pub fn scalar_param(&mut self, number: usize, v: Variable) -> Result<usize, Fault> {
        let JavaType::Scalar(t) = v.java else {
            return Err(miss(Reason::Outside, number));
        };
        if v.tested {
            return Err(miss(Reason::Null, number));
        }
        let variable = self.bytes(number);
        if let Some(found) = self.find_param(variable, None) {
            return Ok(found);
        }
        if self.given {
            return Err(miss(Reason::Outside, number));
        }
        let name = self.copy(variable)?;
        Ok(self.put_param(variable, None, name, t.kind)?)
    }

    // ---- Names

    /// A name that comes next.
    #[cycle(expression)]
    pub fn named(&mut self, room: usize) -> Result<Read, Fault> {
        let at = self.at;
        match self.variable(at) {
            Some(v) if v.outside => self.outer(v),
            Some(v) => self.own(v, room),
            None => {
                if self.is_clear(b"Objects") && self.are(at, &[b"Objects", b".", b"equals", b"("]) {
                    self.objects_equals(room)
                } else {
                    self.constant()
                }
            }
        }
    }

    /// A variable of the slice's own.
    #[cycle(expression)]
    fn own(&mut self, v: Variable, room: usize) -> Result<Read, Fault> {
        let at = self.at;
        match v.column {
            Some((class, member)) => self.named_column(v, class, member),
            None => match v.java {
                JavaType::Scalar(_) | JavaType::Row(_) => {
                    self.leaf(Expression::Variable { at }, at)
                }
                java => self.of_list(java, room),
            },
        }
    }

    /// An item that is the name of the row whose column a local name stands for.
    fn row_of(&self, at: usize) -> Option<usize> {
        let name = self.bytes(at);
        for (number, v) in self.sight.iter().enumerate() {
            if v.name.as_slice() == name {
                return match &v.column {
                    Some(c) => self.declared_at(number, c.row.as_slice()),
                    None => None,
                };
            }
        }
        None
    }

    /// The item where the variable of a name is declared, among those before a number.
    fn declared_at(&self, before: usize, name: &[u8]) -> Option<usize> {
        for (v, at) in self.sight.iter().zip(self.declared.iter()).take(before) {
            if v.name.as_slice() == name {
                return Some(*at);
            }
        }
        None
    }

    fn named_column(&mut self, v: Variable, class: u32, member: u32) -> Result<Read, Fault> {
        let at = self.at;
        match self.row_of(at) {
            Some(row) => {
                self.step();
                let tree = Expression::NamedColumn {
                    at,
                    row,
                    class,
                    member,
                };
                self.read(tree, v.java)
            }
            None => Err(miss(Reason::Name, at)),
        }
    }

    /// A variable from outside.
    fn outer(&mut self, v: Variable) -> Result<Read, Fault> {
        let at = self.at;
        match v.java {
            JavaType::Scalar(_) => {
                let number = self.scalar_param(at, v)?;
                self.step();
                self.read(Expression::Parameter { at, number }, v.java)
            }
            JavaType::Row(class) if self.is(at.saturating_add(1), b".") => {
                self.outer_column(v, class)
            }
            _ => Err(miss(Reason::Outside, at)),
        }
    }

    fn outer_column(&mut self, v: Variable, class: u32) -> Result<Read, Fault> {
        let at = self.at;
        if v.tested {
            return Err(miss(Reason::Null, at));
        }
        let Some(found) = self.member(class, at.saturating_add(1)) else {
            return Err(miss(Reason::Name, at.saturating_add(2)));
        };
        let number = self.outer_param(class, found)?;
        self.at = found.to;
        let tree = Expression::OuterColumn {
            at,
            class,
            member: found.member,
            number,
        };
        self.read(tree, JavaType::Scalar(found.java))
    }

    fn outer_param(&mut self, class: u32, found: Found) -> Result<usize, Fault> {
        let row = self.bytes(self.at);
        if let Some(number) = self.find_param(row, Some(found.column)) {
            return Ok(number);
        }
        if self.given {
            return Err(miss(Reason::Outside, self.at));
        }
        if !self.pay(self.method.end.saturating_sub(self.method.name)) {
            return Err(miss(Reason::Name, self.at));
        }
        let name = self.column_param(row, class, found.column)?;
        Ok(self.put_param(row, Some(found.column), name, found.java.kind)?)
    }

    // ---- Constants

    fn constant(&mut self) -> Result<Read, Fault> {
        let at = self.at;
        if let Some(read) = self.class_constant()? {
            return Ok(read);
        }
        if let Some(read) = self.map_constant()? {
            return Ok(read);
        }
        Err(miss(Reason::Name, at))
    }

    fn class_constant(&mut self) -> Result<Option<Read>, Fault> {
        let at = self.at;
        let name = self.bytes(at);
        let words = self.method.words;
        for (number, c) in words.constants.as_slice().iter().enumerate() {
            if c.name.as_slice() == name {
                return self.leaf_at(Expression::ClassConstant { at, number }, at);
            }
        }
        Ok(None)
    }

    /// Whether a constant of the map begins with the item that stands there.
    fn may_be_constant(&self, number: u32, at: usize) -> bool {
        match self.method.map.constants.as_slice().get(number as usize) {
            Some(c) => match c.names.as_slice() {
                [first, ..] => self.is(at, first.as_slice()),
                [] => false,
            },
            None => false,
        }
    }

    fn map_constant_at(&mut self, number: u32, at: usize) -> Result<Option<Read>, Fault> {
        if self.may_be_constant(number, at) {
            self.leaf_at(Expression::MapConstant { at, number }, at)
        } else {
            Ok(None)
        }
    }

    /// The constant of the map with the most names that stands there.
    fn map_constant(&mut self) -> Result<Option<Read>, Fault> {
        let at = self.at;
        let words = self.method.words;
        let mut longest: Option<Read> = None;
        let mut end = at;
        for number in words.map_constants.as_slice() {
            self.at = at;
            if let Some(read) = self.map_constant_at(*number, at)? {
                if end < self.at {
                    end = self.at;
                    longest = Some(read);
                }
            }
        }
        self.at = end;
        Ok(longest)
    }
}
