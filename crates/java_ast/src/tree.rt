// The tree of a program.
use qbs_base::{Bools, Items, Name, Names, Numbers, Scalar, Span, Text, Texts};

/// A program: one class. The package and each import are kept as they are written, dots and a last
/// `.*` among them, without white space.
#[derive(Drop)]
pub struct Program {
    pub package: Option<Text>,
    pub imports: Texts,
    pub public: bool,
    pub name: Name,
    pub methods: Methods,
}

pub type Methods = Items<Method>;

/// How a method may be reached.
#[derive(Clone, Copy)]
pub enum Access {
    Plain,
    Public,
    Private,
}

/// A method. `fixed` is true where it is static; `result` is none where it is void.
#[derive(Drop)]
pub struct Method {
    pub access: Access,
    pub fixed: bool,
    pub result: Option<JTy>,
    pub name: Name,
    pub params: Params,
    pub body: Stmts,
    pub span: Span,
}

/// A parameter of a method.
#[derive(Drop)]
pub struct Param {
    pub ty: JTy,
    pub name: Name,
}

pub type Params = Items<Param>;

/// A type as it is spelled. `int` and `long` are two spellings of one type. The boxed ones stand
/// only as elements of lists and sets.
#[derive(Drop)]
pub enum JTy {
    Int,
    Long,
    Boolean,
    String,
    BoxedInteger,
    BoxedLong,
    BoxedBoolean,
    Table(Name),
    List(Box<JTy>),
    Set(Box<JTy>),
}

/// A statement and where it stands: from its first token to its last one.
#[cycle(stmt)]
#[derive(Drop)]
pub struct Stmt {
    pub span: Span,
    pub node: StmtNode,
}

pub type Stmts = Items<Stmt>;

#[cycle(stmt)]
#[derive(Drop)]
pub enum StmtNode {
    Declare {
        ty: JTy,
        name: Name,
        value: Expr,
    },
    Assign {
        name: Name,
        value: Expr,
    },
    Add {
        name: Name,
        value: Expr,
    },
    /// The keys, the first one first, and for each whether it is down.
    Sort {
        name: Name,
        keys: Names,
        down: Bools,
    },
    If {
        cond: Expr,
        yes: Vec<Stmt>,
        other: Option<Vec<Stmt>>,
    },
    ForEach {
        ty: JTy,
        name: Name,
        list: Expr,
        body: Vec<Stmt>,
    },
    While {
        cond: Expr,
        body: Vec<Stmt>,
    },
    Print {
        value: Expr,
    },
    Return {
        value: Option<Expr>,
    },
    Break,
}

/// A binary operator.
#[derive(Clone, Copy)]
pub enum Op {
    Or,
    And,
    Eq,
    Ne,
    Lt,
    Le,
    Gt,
    Ge,
    Add,
    Sub,
    Mul,
}

/// An expression and where it stands, parentheses round the whole of it left out.
#[cycle(expr)]
#[derive(Drop)]
pub struct Expr {
    pub span: Span,
    pub node: ExprNode,
}

pub type Exprs = Items<Expr>;

#[cycle(expr)]
#[derive(Drop)]
pub enum ExprNode {
    Lit(Scalar),
    Var(Name),
    /// The column of a row.
    Field(Box<Expr>, Name),
    Binary(Op, Box<Expr>, Box<Expr>),
    Not(Box<Expr>),
    /// `.equals` of two texts.
    Equals(Box<Expr>, Box<Expr>),
    /// `.size()` of a variable.
    Size(Name),
    /// `.get(e)` of a variable.
    Get(Name, Box<Expr>),
    /// `.contains(e)` of a variable.
    Contains(Name, Box<Expr>),
    /// `db.fetch(T.class)`.
    Fetch(Name),
    /// `db.query(E.class, text, arguments)`.
    Query(JTy, Text, Vec<Expr>),
    QueryLong(Text, Vec<Expr>),
    QueryBoolean(Text, Vec<Expr>),
    /// `new ArrayList<>()`.
    NewList,
    /// `new LinkedHashSet<>()`, of a query or empty.
    NewSet(Option<Box<Expr>>),
}

/// Where a statement stands in a program: a method's number, a statement's number, and for each
/// level down a branch, 0 for the body or the `then`, 1 for the `else`, and a statement's number.
pub type Path = Numbers;

pub type Paths = Items<Path>;
