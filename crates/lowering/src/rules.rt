//! The rules of the kernel form, in their order.

pub mod judging;
pub mod k1_loop;
pub mod k2_lists;
pub mod k4_statements;
pub mod k5_updates;
pub mod k6_forms;
pub mod k7_conditions;
pub mod k7_known;
pub mod k7_operands;
pub mod k8_pools;
pub mod k8_sizes;
pub mod k9_starts;
