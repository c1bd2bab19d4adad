//! The fuel that evaluation spends, counted at no cost.

pub mod fuel;
