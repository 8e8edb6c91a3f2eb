// Names, each once.
ghost use Rattle.std.specs.Prelude.{◌≡◌, [], OnOk};
ghost use Rattle.loop_setting.specs.Listed.{IsListed};
ghost use Rattle.java_ast.specs.Names.{with_name, names_lent};

use java_mean::Scope;
use qbs_base::{Items, Name, NoMemory};
use std::alloc::Global;

/// Names, each once, in the order in which they came. A look-up takes one hash.
#[derive(Drop)]
pub struct NameList<'a> {
    pub seen: Scope<'a>,
    pub names: Items<&'a Name>,
}

impl<'a> NameList<'a> {
    /// No names.
    pub fn new(alloc: Global) -> NameList<'a>
        ensures empty { names_lent result.names ≡ [] }
        ensures listed { IsListed result }
    {
        NameList {
            seen: Scope::new(alloc),
            names: Items::new(alloc),
        }
    }

    /// Puts a name behind the others, where it isn't among them. Where memory runs out the list is of no use.
    #[tactic(auto, using(java_mean::proofs::Sets::sets))]
    pub fn put(&mut self, name: &'a Name) -> Result<(), NoMemory>
        requires { IsListed self.old }
        ensures names { OnOk result (names_lent self.new.names ≡ with_name (names_lent self.old.names) name.now) }
        ensures listed { OnOk result (IsListed self.new) }
    {
        if self.seen.has(name) {
            return Ok(());
        }
        self.seen.declare(name, None)?;
        self.names.push(name)?;
        Ok(())
    }
}
