// Whether lists that queries give have an order.
ghost use Rattle.std.specs.Prelude.{◌≡◌, option_copied};
ghost use Rattle.std.specs.Option.{option_map};
ghost use Rattle.sql_ast.specs.Reading.{query};
ghost use Rattle.java_mean.specs.Rules as rules;

use sql_ast::{Query, order_complete};

/// Whether a query for a list, where it is one, has a complete order.
pub fn has_order(q: Option<&Query>) -> bool
    ensures { result ≡ rules.has_order (option_map query (option_copied q.entry)) }
{
    match q {
        None => true,
        Some(q) => order_complete(q),
    }
}
