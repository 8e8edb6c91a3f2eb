//! Laws of schemas, for the crates above. They do nothing.
ghost use Rattle.std.specs.Prelude.{◌≡◌, ℕ, List};
ghost use Rattle.qbs_base.specs.declared.columns.Table.{Table};
ghost use Rattle.schema.specs.declared.fault.SchemaFault.{SchemaFault};
ghost use Rattle.schema.specs.Faults.{IsFaultOf};
ghost use Rattle.schema.specs.Grammar.{HasSchema};
ghost use Rattle.schema.specs.Rules.{IsSchema, AreNamed};
ghost use Rattle.schema.specs.Tokens.{tokens_of, kinds_of};

/// The tables that a text declares by the grammar have names of letters, digits and `_`.
pub fn declared_tables_are_named()
    ensures { (text : List ℕ) (tables : List Table) → HasSchema (kinds_of (tokens_of text)) tables → AreNamed tables }
{}

/// A text has one fault by the grammar and the rules of names, and none where it has a schema.
pub fn a_text_has_one_fault()
    ensures one { (text : List ℕ) (f g : SchemaFault) → IsFaultOf text f → IsFaultOf text g → f ≡ g }
    ensures none { (text : List ℕ) (tables : List Table) (f : SchemaFault) → HasSchema (kinds_of (tokens_of text)) tables → IsSchema tables → IsFaultOf text f → ⊥ }
{}
