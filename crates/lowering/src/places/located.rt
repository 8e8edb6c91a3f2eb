// Where the fragment of a loop stands.
ghost use Rattle.std.specs.Prelude.{◌≡◌, [], IfOk, option_copied};
ghost use Rattle.java_ast.specs.Reading.{statements, method as plain_method, program as plain_program};
ghost use Rattle.loop_text.specs.Statements.Fragment as fragment;
ghost use Rattle.loop_text.specs.Statements.Fragment.{needed_at};
ghost use Rattle.lowering.specs.InCode.Locating.{fragment_located, IsFoundAt, IsFoundIn, IsSeenIn};
ghost use Rattle.java_loops.specs.Lowering.Placing.{scope_of_params};
ghost use Rattle.loop_setting.specs.Reading.{fragment_in_code};

use crate::lowering::beside::copy_names;
use crate::places::position::{Located, Spot};
use crate::places::scopes::{declare_all, declare_params, declare_within};
use java_ast::{Method, Path, Program, Stmt, branch};
use java_mean::Scope;
use loop_setting::kept::accumulators::accumulators;
use loop_setting::kept::live::live_among;
use loop_setting::places::setting::Fragment;
use loop_text::loops::limits::is_loop;
use loop_text::statements::block_parts::{before_number, numbered, split_run};
use loop_text::statements::runs::behind_number;
use qbs_base::{Names, NoMemory, boxed};
use schema::Schema;
use std::alloc::Global;

impl<'a> Located<'a> {
    /// The fragment.
    pub fn fragment(&self) -> Fragment<'_>
        ensures fragment { fragment_in_code result ≡ fragment_located self.now }
        ensures types { result.types.now ≡ self.now.types }
    {
        Fragment {
            visible: &self.visible,
            types: &self.types,
            run: self.run,
            looped: self.looped,
            behind: self.behind,
        }
    }
}

// The loop with this number in its block. What the block declares before the run gets visible, and what it declares before the
// loop among the types.
fn spot_here<'a>(
    schema: Option<&Schema>,
    block: &'a [Stmt],
    number: usize,
    visible: &mut Scope<'a>,
    types: &mut Scope<'a>,
) -> Result<Option<Spot<'a>>, NoMemory>
    requires { types.old ≡ visible.old }
    ensures { IfOk result (IsSeenIn (option_copied schema.entry) visible.old [] number (statements block.now) visible.new types.new) }
{
    let Some(looped) = block.get(number) else {
        return Ok(None);
    };
    if !is_loop(looped) {
        return Ok(None);
    }
    let before = before_number(block, number);
    let (front, run) = split_run(before);
    declare_all(schema, front, visible)?;
    declare_all(schema, before, types)?;
    Ok(Some(Spot {
        run,
        looped,
        behind: behind_number(block, number),
        first: front.len() as u64,
    }))
}

// The loop to which a path leads behind the number of a statement of the block, with what is declared on the way.
fn spot_below<'a>(
    schema: Option<&Schema>,
    block: &'a [Stmt],
    number: u64,
    path: &[u64],
    visible: &mut Scope<'a>,
    types: &mut Scope<'a>,
) -> Result<Option<Spot<'a>>, NoMemory>
    requires { types.old ≡ visible.old }
    ensures { IfOk result (IsSeenIn (option_copied schema.entry) visible.old path.now number (statements block.now) visible.new types.new) }
{
    let Some((at, below)) = path.split_first() else {
        return spot_here(schema, block, number as usize, visible, types);
    };
    let Some((further, rest)) = below.split_first() else {
        return Ok(None);
    };
    let Some(s) = numbered(block, number as usize) else {
        return Ok(None);
    };
    let Some(inner) = branch(s, *at) else {
        return Ok(None);
    };
    let before = before_number(block, number as usize);
    declare_within(schema, before, s, visible)?;
    declare_within(schema, before, s, types)?;
    spot_below(schema, inner, *further, rest, visible, types)
}

fn located_in_method<'a>(
    alloc: Global,
    schema: Option<&Schema>,
    m: &'a Method,
    number: u64,
    path: &[u64],
) -> Result<Option<Located<'a>>, NoMemory>
    ensures { IfOk result (
        IsFoundIn (option_copied schema.entry) (scope_of_params (option_copied schema.entry) [] (plain_method m.now).params) path.now number (plain_method m.now).body) }
{
    let mut visible = boxed(alloc, Scope::new(alloc))?;
    let mut types = boxed(alloc, Scope::new(alloc))?;
    declare_params(schema, m.params.as_slice(), &mut *visible)?;
    declare_params(schema, m.params.as_slice(), &mut *types)?;
    match spot_below(
        schema,
        m.body.as_slice(),
        number,
        path,
        &mut *visible,
        &mut *types,
    )? {
        None => Ok(None),
        Some(spot) => Ok(Some(Located {
            visible: Box::into_inner(visible),
            types: Box::into_inner(types),
            run: spot.run,
            looped: spot.looped,
            behind: spot.behind,
            first: spot.first,
        })),
    }
}

/// The loop to which a path leads, its variables with their types where a schema is given; none where the path leads to no
/// loop.
pub fn located<'a>(
    alloc: Global,
    schema: Option<&Schema>,
    program: &'a Program,
    path: &Path,
) -> Result<Option<Located<'a>>, NoMemory>
    ensures { IfOk result (IsFoundAt (option_copied schema.entry) path.now (plain_program program.now)) }
{
    let Some((number, below)) = path.as_slice().split_first() else {
        return Ok(None);
    };
    let Some((further, rest)) = below.split_first() else {
        return Ok(None);
    };
    let Some(m) = program.methods.as_slice().get(*number as usize) else {
        return Ok(None);
    };
    located_in_method(alloc, schema, m, *further, rest)
}

fn needed_of(alloc: Global, f: &Fragment) -> Result<Names, NoMemory>
    ensures { IfOk result (λ names. names ≡ fragment.needed_of (fragment_in_code f.now)) }
{
    let accs = accumulators(alloc, f)?;
    let needed = live_among(alloc, f, accs.names.as_slice())?;
    copy_names(alloc, needed.as_slice())
}

/// The needed accumulators of the loop to which a path leads, each once, in the order of their updates; none where the path
/// leads to no loop. The only error is want of memory.
pub fn needed(alloc: Global, program: &Program, path: &Path) -> Result<Names, NoMemory>
    ensures { IfOk result (λ names. names ≡ needed_at path.now (plain_program program.now)) }
{
    match located(alloc, None, program, path)? {
        None => Ok(Names::new(alloc)),
        Some(there) => needed_of(alloc, &there.fragment()),
    }
}
