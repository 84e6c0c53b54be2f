//! Laws of the names of a folder: what the definitions give on small lists.
pub mod declared;
pub mod infos;
pub mod names;
pub mod refusals;
