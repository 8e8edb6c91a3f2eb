//! What of a Java file is seen as expressions of the source language: Java types, the variables in sight, trees that say how an expression
//! is seen, the check of such a tree, and the tokens that it leaves.
#![tactic(auto)]

mod cells;
mod checking;
mod constants;
mod decisions;
mod expression;
mod gets;
mod java_type;
mod levels;
mod lists;
mod literals;
mod names;
mod nulls;
mod operators;
mod pushing;
mod queries;
mod sight;
mod spelled;
mod steps;
mod within;
pub mod worked;

pub use cells::{push_all_made, push_item, push_made, push_made_of, push_type};
pub use checking::{check_expression, check_walked};
pub use decisions::{
    arithmetic, contains, element_of, is_boolean, is_element, is_int, is_number, is_scalar,
    is_text_kind, may_be_added, may_be_assigned, may_be_walked, may_compare, may_equal,
    may_equal_objects, same_kind, same_type, truth, unboxed,
};
pub use expression::{Arguments, Expression, NullTest, Operator};
pub use gets::holds_get;
pub use java_type::JavaType;
pub use levels::level_of;
pub use lists::{is_list, is_many, many_at};
pub use literals::{literal_kind, signed_kind};
pub use names::{column_name, is_param, may_be_read, member_of, past_member, variable_at};
pub use pushing::{put_expression, put_wrapped};
pub use queries::fetch_at;
pub use sight::{ClassConstant, ColumnName, Param, Sighted, find_sighted};
pub use spelled::{Spelled, argument_at, kind_word, table_of, type_at};
pub use steps::{bytes_at, here, is_at, is_clear, is_name_among, next, past, past_all};
pub use within::Within;
