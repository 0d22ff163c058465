//! The fields of the signals as they stand in a file: column by column.

pub mod column;
pub mod columns;
pub mod judge_columns;
