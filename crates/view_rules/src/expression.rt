// How expressions are seen.
use crate::JavaType;
use qbs_base::Items;

/// A binary operator.
#[derive(Clone, Copy)]
pub enum Operator {
    Or,
    And,
    Same,
    Other,
    Less,
    LessOrSame,
    Greater,
    GreaterOrSame,
    Plus,
    Minus,
    Times,
}

/// A test of a column for null, `r.m() != null` as a part of `&&` or `r.m() == null` as a part of `||`, from its first item on, in parentheses
/// where `wrapped`.
#[derive(Clone, Copy)]
pub struct NullTest {
    pub at: usize,
    pub wrapped: bool,
    pub null_first: bool,
    pub class: u32,
    pub member: u32,
}

/// How an expression of a file is seen. `at` is the number of its first item, but of an operator, where it is the operator's; `dot` and `comma` are those of
/// these items, and `close` is that of the last `)`. Classes, fetch patterns, templates and constants go by their numbers in the map,
/// members by those in their class.
#[cycle(expression)]
#[derive(Drop)]
pub enum Expression {
    /// A number, a text, `true` or `false`.
    Literal {
        at: usize,
    },
    /// `-` and a number, which stands at the second item.
    Negative {
        at: usize,
        digits: usize,
    },
    /// A scalar or a row of the slice's own.
    Variable {
        at: usize,
    },
    /// A scalar from outside, by the number of its parameter.
    Parameter {
        at: usize,
        number: usize,
    },
    /// A local name of a column, and an item that is the name of the row.
    NamedColumn {
        at: usize,
        row: usize,
        class: u32,
        member: u32,
    },
    /// A constant of the class.
    ClassConstant {
        at: usize,
        number: usize,
    },
    MapConstant {
        at: usize,
        number: u32,
    },
    /// `row.m` or `row.m()` of a row of the slice's own.
    Column {
        row: Box<Expression>,
        dot: usize,
        class: u32,
        member: u32,
    },
    /// `r.m` or `r.m()` of a row from outside, by the number of its parameter.
    OuterColumn {
        at: usize,
        class: u32,
        member: u32,
        number: usize,
    },
    Fetch {
        at: usize,
        number: u32,
    },
    /// `(inner)`.
    Group {
        at: usize,
        inner: Box<Expression>,
        close: usize,
    },
    /// `!of`.
    Not {
        at: usize,
        of: Box<Expression>,
    },
    Binary {
        operator: Operator,
        left: Box<Expression>,
        at: usize,
        right: Box<Expression>,
    },
    /// `left.equals(right)`.
    Equals {
        at: usize,
        texts: bool,
        left: Box<Expression>,
        dot: usize,
        right: Box<Expression>,
        close: usize,
    },
    /// `Objects.equals(left, right)`.
    ObjectsEquals {
        at: usize,
        texts: bool,
        left: Box<Expression>,
        comma: usize,
        right: Box<Expression>,
        close: usize,
    },
    /// `of.longValue()`, `of.intValue()` or `of.booleanValue()`.
    Unboxed {
        of: Box<Expression>,
        dot: usize,
    },
    /// Tests for null before a part of `&&`, where `all`, or of `||`. They fall away.
    TestedBefore {
        all: bool,
        tests: Items<NullTest>,
        kept: Box<Expression>,
    },
    /// The same behind it.
    TestedBehind {
        all: bool,
        kept: Box<Expression>,
        tests: Items<NullTest>,
    },
    /// `xs.size()`.
    Size {
        at: usize,
    },
    /// `xs.isEmpty()`.
    IsEmpty {
        at: usize,
    },
    /// `xs.get(place)`.
    Get {
        at: usize,
        place: Box<Expression>,
        close: usize,
    },
    /// `xs.contains(value)`.
    Contains {
        at: usize,
        value: Box<Expression>,
        close: usize,
    },
    /// `new ArrayList<..>()` of this type.
    NewList {
        at: usize,
        java: JavaType,
    },
    /// `new LinkedHashSet<..>()` of this type, or `new HashSet<..>()` where `hashed`.
    NewSet {
        at: usize,
        hashed: bool,
        java: JavaType,
    },
    /// A template, `(int)` before it where `cast`, with the item of its text. `java` is what a list query gives.
    Query {
        at: usize,
        cast: bool,
        number: u32,
        text: usize,
        java: JavaType,
        arguments: Box<Arguments>,
    },
    /// `new LinkedHashSet<..>(query)` of this type, or `new HashSet<..>(query)` where `hashed`.
    NewSetOf {
        at: usize,
        hashed: bool,
        java: JavaType,
        query: Box<Expression>,
        close: usize,
    },
}

/// The arguments of a query in order.
#[cycle(expression)]
#[derive(Drop)]
pub enum Arguments {
    End,
    Next {
        value: Box<Expression>,
        rest: Box<Arguments>,
    },
}
