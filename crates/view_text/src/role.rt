// What cells are to those beside them.
ghost use Rattle.std.specs.Prelude.{◌≡◌};
ghost use Rattle.java_lex.specs.Bytes.{is_long_sign as is_long_sign_byte};
ghost use Rattle.view_text.specs.Roles as specs;

use qbs_base::{is_digit, is_name_part, is_name_start};

/// What a cell is to those beside it.
#[derive(Clone, Copy)]
pub enum Role {
    /// No cell at all: what stands before the first one.
    Start,
    /// `{`
    Brace,
    /// `}`
    BraceEnd,
    /// `(`
    Paren,
    /// `)`
    ParenEnd,
    /// `;`
    Semicolon,
    /// `,`
    Comma,
    /// `.`
    Dot,
    /// `++`
    Increment,
    /// `!`
    Not,
    /// `<` behind the name of a container, which begins the type of its elements.
    TypeOpen,
    /// The word behind it.
    Element,
    /// `>` behind either.
    TypeClose,
    /// `-` that ends no value: it belongs to the number behind it.
    Negative,
    /// Any other sign.
    Operator,
    /// `else`
    Else,
    /// `if`, `for`, `while` or `return`.
    Keyword,
    /// `List`, `Set`, `ArrayList` or `LinkedHashSet`.
    Container,
    /// Any other word.
    Name,
    /// An integer.
    Number,
    /// A text literal.
    Text,
}

fn is_else(word: &[u8]) -> bool
    ensures { result ≡ specs.is_else word.now }
{
    word == b"else".as_slice()
}

fn is_keyword(word: &[u8]) -> bool
    ensures { result ≡ specs.is_keyword word.now }
{
    word == b"if".as_slice()
        || word == b"for".as_slice()
        || word == b"while".as_slice()
        || word == b"return".as_slice()
}

fn is_container(word: &[u8]) -> bool
    ensures { result ≡ specs.is_container word.now }
{
    word == b"List".as_slice()
        || word == b"Set".as_slice()
        || word == b"ArrayList".as_slice()
        || word == b"LinkedHashSet".as_slice()
}

fn word_role(before: Role, word: &[u8]) -> Role
    ensures { result ≡ specs.word_role before word.now }
{
    if opens_type(before) {
        Role::Element
    } else if is_else(word) {
        Role::Else
    } else if is_keyword(word) {
        Role::Keyword
    } else if is_container(word) {
        Role::Container
    } else {
        Role::Name
    }
}

fn opens_type(before: Role) -> bool
    ensures { result ≡ specs.opens_type before }
{
    match before {
        Role::TypeOpen => true,
        _ => false,
    }
}

fn less_role(before: Role) -> Role
    ensures { result ≡ specs.less_role before }
{
    match before {
        Role::Container => Role::TypeOpen,
        _ => Role::Operator,
    }
}

fn more_role(before: Role) -> Role
    ensures { result ≡ specs.more_role before }
{
    match before {
        Role::TypeOpen | Role::Element => Role::TypeClose,
        _ => Role::Operator,
    }
}

fn minus_role(before: Role) -> Role
    ensures { result ≡ specs.minus_role before }
{
    match before {
        Role::Name | Role::Number | Role::Text | Role::ParenEnd => Role::Operator,
        Role::Container | Role::Element => Role::Operator,
        _ => Role::Negative,
    }
}

fn short_role(before: Role, sign: u8) -> Role
    ensures { result ≡ specs.short_role before sign }
{
    match sign {
        b'{' => Role::Brace,
        b'}' => Role::BraceEnd,
        b'(' => Role::Paren,
        b')' => Role::ParenEnd,
        b';' => Role::Semicolon,
        b',' => Role::Comma,
        b'.' => Role::Dot,
        b'!' => Role::Not,
        b'<' => less_role(before),
        b'>' => more_role(before),
        b'-' => minus_role(before),
        _ => Role::Operator,
    }
}

fn sign_role(before: Role, bytes: &[u8]) -> Role
    ensures { result ≡ specs.sign_role before bytes.now }
{
    match bytes {
        [sign] => short_role(before, *sign),
        [b'+', b'+'] => Role::Increment,
        _ => Role::Operator,
    }
}

/// The role of a cell, behind one of another role.
pub fn role_of(before: Role, bytes: &[u8]) -> Role
    ensures { result ≡ specs.role_of before bytes.now }
{
    let [first, ..] = bytes else {
        return Role::Operator;
    };
    if is_name_start(*first) {
        word_role(before, bytes)
    } else if is_digit(*first) {
        Role::Number
    } else if *first == b'"' {
        Role::Text
    } else {
        sign_role(before, bytes)
    }
}

fn is_start(before: Role) -> bool
    ensures { result ≡ specs.is_start before }
{
    match before {
        Role::Start => true,
        _ => false,
    }
}

fn is_brace_end(role: Role) -> bool
    ensures { result ≡ specs.is_brace_end role }
{
    match role {
        Role::BraceEnd => true,
        _ => false,
    }
}

fn is_other_branch(here: Role) -> bool
    ensures { result ≡ specs.is_other_branch here }
{
    match here {
        Role::Else => true,
        _ => false,
    }
}

fn ends_line(before: Role) -> bool
    ensures { result ≡ specs.ends_line before }
{
    match before {
        Role::Brace | Role::Semicolon => true,
        _ => false,
    }
}

fn starts_line(before: Role, here: Role) -> bool
    ensures { result ≡ specs.starts_line before here }
{
    is_brace_end(here) || ends_line(before) || (is_brace_end(before) && !is_other_branch(here))
}

fn hugs_left(here: Role) -> bool
    ensures { result ≡ specs.hugs_left here }
{
    match here {
        Role::Dot | Role::ParenEnd | Role::Semicolon | Role::Comma | Role::Increment => true,
        Role::TypeOpen | Role::TypeClose => true,
        _ => false,
    }
}

fn hugs_right(before: Role) -> bool
    ensures { result ≡ specs.hugs_right before }
{
    match before {
        Role::Dot | Role::Paren | Role::Not | Role::TypeOpen => true,
        _ => false,
    }
}

fn takes_arguments(before: Role) -> bool
    ensures { result ≡ specs.takes_arguments before }
{
    match before {
        Role::Name | Role::Container | Role::Element | Role::TypeClose => true,
        _ => false,
    }
}

fn is_paren(here: Role) -> bool
    ensures { result ≡ specs.is_paren here }
{
    match here {
        Role::Paren => true,
        _ => false,
    }
}

fn is_negative(before: Role) -> bool
    ensures { result ≡ specs.is_negative before }
{
    match before {
        Role::Negative => true,
        _ => false,
    }
}

fn is_number(here: Role) -> bool
    ensures { result ≡ specs.is_number here }
{
    match here {
        Role::Number => true,
        _ => false,
    }
}

fn touches(before: Role, here: Role) -> bool
    ensures { result ≡ specs.touches before here }
{
    hugs_left(here)
        || hugs_right(before)
        || (takes_arguments(before) && is_paren(here))
        || (is_negative(before) && is_number(here))
}

fn is_long_sign(first: u8, second: u8) -> bool
    ensures { result ≡ is_long_sign_byte first second }
{
    (first == b'-' && second == b'>')
        || (first == b'+' && (second == b'+' || second == b'='))
        || ((first == b'=' || first == b'!' || first == b'<' || first == b'>') && second == b'=')
        || (first == b'&' && second == b'&')
        || (first == b'|' && second == b'|')
}

fn joins(last: u8, bytes: &[u8]) -> bool
    ensures { result ≡ specs.joins last bytes.now }
{
    match bytes {
        [] => false,
        [first, ..] => (is_name_part(last) && is_name_part(*first)) || is_long_sign(last, *first),
    }
}

/// What stands between two cells.
#[derive(Clone, Copy)]
pub enum Gap {
    /// Nothing.
    None,
    /// One space.
    Space,
    /// The end of a line, and the margin of the next one.
    Line,
}

/// What stands before a cell, behind one of another role that ends in a byte.
pub fn gap_before(before: Role, last: u8, here: Role, bytes: &[u8]) -> Gap
    ensures { result ≡ specs.gap_before before last here bytes.now }
{
    if is_start(before) {
        Gap::None
    } else if starts_line(before, here) {
        Gap::Line
    } else if touches(before, here) && !joins(last, bytes) {
        Gap::None
    } else {
        Gap::Space
    }
}
