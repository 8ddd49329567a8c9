//! The script language.

pub mod names;
pub mod script;
pub mod words;
