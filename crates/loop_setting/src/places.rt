//! A loop where it stands in its program: its fragment.

pub mod setting;
