//! Worked queries, as a law that computes. It does nothing.
ghost use Rattle.std.specs.Prelude.{◌≡◌, [], ◌∷◌, true, false};
ghost use Rattle.qbs_base.specs.declared.scalar.Ty.TheVariants as tys;
ghost use Rattle.sql_ast.specs.Tree.{Everything, Where};
ghost use Rattle.select_parts.specs.Selects.{is_select};
ghost use Rattle.select_parts.specs.Worked.{users, by, listing_by, plain, texts_in_order, at_a_position};

/// All rows and those of a plain condition are selected in their order; rows of an order of texts or of a position, and those in the
/// opposite order, are not.
pub fn some_queries_are_selects()
    ensures all { is_select users (listing_by (by false) Everything []) ≡ true }
    ensures some { is_select users (listing_by (by false) (Where plain) (tys.Long ∷ tys.Text ∷ [])) ≡ true }
    ensures order { is_select users (listing_by (by false) (Where texts_in_order) (tys.Text ∷ [])) ≡ false }
    ensures position { is_select users (listing_by (by false) (Where at_a_position) (tys.Long ∷ [])) ≡ false }
    ensures opposite { is_select users (listing_by (by true) Everything []) ≡ false }
    ensures unordered { is_select users (listing_by [] Everything []) ≡ false }
{}
