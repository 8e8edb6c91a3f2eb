// How statements are seen.
use qbs_base::{Items, Name};
use view_rules::{Expression, JavaType};

/// A count of one, before or behind the name.
#[derive(Clone, Copy)]
pub enum Step {
    /// `x++;`
    Up,
    /// `++x;`
    UpFirst,
    /// `x--;`
    Down,
    /// `--x;`
    DownFirst,
}

/// The key of an order: `T::m`, `x -> x.m`, `(T x) -> x.m` or the same with `m()`, the class and the member by their numbers in the map.
#[derive(Clone, Copy)]
pub enum KeyForm {
    Reference,
    Lambda,
    TypedLambda,
}

/// A key of an order, and the number of its first item behind the parenthesis.
#[derive(Clone, Copy)]
pub struct SortKey {
    pub at: usize,
    pub form: KeyForm,
    pub class: u32,
    pub member: u32,
}

/// A part of an order: a key, by which what is the same so far is compared, or `.reversed()`, from the number of its dot on, which turns all
/// before it.
#[derive(Clone, Copy)]
pub enum SortPart {
    Key(SortKey),
    Reversed(usize),
}

/// How a statement of a file is seen. `at` is the number of its first item, `name` that of the variable's name, `java` its type, `close` the
/// number of the parenthesis that closes its head, and `end` that of its last item.
#[cycle(statement)]
#[derive(Drop)]
pub enum Statement {
    /// `[annotations] [final] T x = e;`
    Declaration {
        at: usize,
        name: usize,
        java: JavaType,
        value: Box<Expression>,
        end: usize,
    },
    /// `var x = e;`
    Inferred {
        at: usize,
        name: usize,
        java: JavaType,
        value: Box<Expression>,
        end: usize,
    },
    /// `xs = e;` of a list or set from outside, which is the slice's own from there on.
    FirstSet {
        name: usize,
        java: JavaType,
        value: Box<Expression>,
        end: usize,
    },
    /// `x = e;`
    Assignment {
        name: usize,
        value: Box<Expression>,
        end: usize,
    },
    /// `x += e;`
    Added {
        name: usize,
        value: Box<Expression>,
        end: usize,
    },
    /// `x -= e;`
    Lessened {
        name: usize,
        value: Box<Expression>,
        end: usize,
    },
    /// `x++;` and the like, with the number of the sign.
    Stepped {
        at: usize,
        step: Step,
        name: usize,
        sign: usize,
        end: usize,
    },
    /// `x = Math.max(x, e);`, `x = Math.max(e, x);`, or with `min`.
    Extreme {
        name: usize,
        greatest: bool,
        variable_first: bool,
        value: Box<Expression>,
        end: usize,
    },
    /// `xs.add(e);`
    Add {
        name: usize,
        value: Box<Expression>,
        close: usize,
        end: usize,
    },
    /// `xs.sort(C);`, or `Collections.sort(xs, C);` where `by_class`, with the number of the list's name.
    Sort {
        at: usize,
        by_class: bool,
        list: usize,
        parts: Items<SortPart>,
        end: usize,
    },
    /// `if (c) B`
    If {
        at: usize,
        condition: Box<Expression>,
        close: usize,
        braces: bool,
        body: Vec<Statement>,
        end: usize,
    },
    /// `if (c) B else B`, with `else` at an item.
    IfElse {
        at: usize,
        condition: Box<Expression>,
        close: usize,
        braces: bool,
        body: Vec<Statement>,
        other_at: usize,
        other_braces: bool,
        other: Vec<Statement>,
        end: usize,
    },
    /// `for ([final] T x : e) B`, with `var` for T where `inferred`.
    ForEach {
        at: usize,
        inferred: bool,
        name: usize,
        java: JavaType,
        walked: Box<Expression>,
        close: usize,
        braces: bool,
        body: Vec<Statement>,
        end: usize,
    },
    /// `for (int i = 0; i < xs.size(); i++) { T x = xs.get(i); B }`, with `++i` where `first`: the items of the list's name and of x.
    ForIndex {
        at: usize,
        list: usize,
        first: bool,
        name: usize,
        java: JavaType,
        body: Vec<Statement>,
        close: usize,
        end: usize,
    },
    /// `for (Iterator<E> it = xs.iterator(); it.hasNext();) { T x = it.next(); B }`
    ForIterator {
        at: usize,
        list: usize,
        name: usize,
        java: JavaType,
        body: Vec<Statement>,
        close: usize,
        end: usize,
    },
    /// `[final] T v = x.m();` in a loop: v stands for the column of the row.
    Named {
        at: usize,
        name: usize,
        java: JavaType,
        value: Box<Expression>,
        end: usize,
    },
    /// `while (c) B`
    While {
        at: usize,
        condition: Box<Expression>,
        close: usize,
        braces: bool,
        body: Vec<Statement>,
        end: usize,
    },
    /// `break;`
    Break {
        at: usize,
        end: usize,
    },
    /// Directly in the block of a for-each, `if (c) continue;` with or without braces, and all that follows in the block.
    Skip {
        at: usize,
        condition: Box<Expression>,
        close: usize,
        braces: bool,
        rest: Vec<Statement>,
        end: usize,
    },
    /// `return true;` or `return false;` in the for-each of a group, with the number of the literal.
    Found {
        at: usize,
        literal: usize,
        end: usize,
    },
}
