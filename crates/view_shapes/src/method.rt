// Methods by the numbers of their items.
use qbs_base::Items;

/// A parameter of a method, by the number of the first item of its type and that of its name.
#[derive(Clone, Copy, PartialEq, Eq)]
pub struct Parameter {
    pub ty: usize,
    pub name: usize,
}

/// A method: the number of its name, its parameters in order, whether its result is one truth value, and the items of its body, from the
/// first one to its closing brace.
#[derive(Drop)]
pub struct Method {
    pub name: usize,
    pub parameters: Items<Parameter>,
    pub gives_truth: bool,
    pub from: usize,
    pub to: usize,
}
