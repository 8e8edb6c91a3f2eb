// What stands before a cell in the text.
ghost use Rattle.std.specs.Prelude.{◌≡◌, ◌++◌, ◌+◌, ◌<◌, ◌^◌, OnOk, IfOk};
ghost use Rattle.view_text.specs.Layout as specs;

use crate::role::{Gap, Role, gap_before, role_of};
use qbs_base::NoMemory;

/// What stands before a cell: how many braces are open, and the role and the last byte of the cell before it.
#[derive(Clone, Copy)]
pub struct Before {
    pub depth: usize,
    pub role: Role,
    pub last: u8,
}

impl Before {
    /// What stands before the first cell.
    pub const FIRST: Before = Before {
        depth: 0,
        role: Role::Start,
        last: b'\n',
    };
}

/// How many braces are open behind a cell of this role.
fn depth_behind(depth: usize, here: Role) -> usize
    requires { depth + 1 < 2 ^ 64 }
    ensures { result ≡ specs.depth_behind depth here }
{
    match here {
        Role::Brace => depth + 1,
        Role::BraceEnd => depth.saturating_sub(1),
        _ => depth,
    }
}

/// How many levels in a line stands that begins with a cell of this role.
fn depth_at(depth: usize, here: Role) -> usize
    ensures { result ≡ specs.depth_at depth here }
{
    match here {
        Role::BraceEnd => depth.saturating_sub(1),
        _ => depth,
    }
}

fn last_of(last: u8, bytes: &[u8]) -> u8
    ensures { result ≡ specs.last_of last bytes.now }
{
    match bytes {
        [] => last,
        [.., byte] => *byte,
    }
}

fn push_margin(out: &mut Vec<u8>, depth: usize) -> Result<(), NoMemory>
    ensures { OnOk result (out.new.items ≡ out.old.items ++ specs.margin depth) }
{
    for _ in 0..depth {
        out.extend_from_slice(b"    ".as_slice())?;
    }
    Ok(())
}

fn push_gap(out: &mut Vec<u8>, gap: Gap, depth: usize) -> Result<(), NoMemory>
    ensures { OnOk result (out.new.items ≡ out.old.items ++ specs.gap_text gap depth) }
{
    match gap {
        Gap::None => Ok(()),
        Gap::Space => Ok(out.push(b' ')?),
        Gap::Line => {
            out.push(b'\n')?;
            push_margin(out, depth)
        }
    }
}

/// Appends a cell behind the white space that stands before it, and gives what stands before the next one.
pub fn push_cell(out: &mut Vec<u8>, before: Before, bytes: &[u8]) -> Result<Before, NoMemory>
    requires { before.depth + 1 < 2 ^ 64 }
    ensures text { OnOk result (out.new.items ≡ out.old.items ++ (specs.gap before bytes.now ++ bytes.now)) }
    ensures behind { IfOk result (λ b. b ≡ specs.behind before bytes.now) }
{
    let role = role_of(before.role, bytes);
    let gap = gap_before(before.role, before.last, role, bytes);
    push_gap(out, gap, depth_at(before.depth, role))?;
    out.extend_from_slice(bytes)?;
    Ok(Before {
        depth: depth_behind(before.depth, role),
        role,
        last: last_of(before.last, bytes),
    })
}
