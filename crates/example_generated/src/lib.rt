//! Types as a program has them: one for each thing that `borsh_derive.py` can do. One comment above each, and the program
//! writes how they are encoded and decoded.
#![tactic(auto)]

pub mod enums;
mod enums_either;
mod enums_level;
mod enums_markers;
mod enums_message;
mod enums_xy;
pub mod generics;
mod generics_boxed;
mod generics_generic;
mod generics_grid;
mod generics_hashed;
mod generics_held;
pub mod keys;
mod keys_place;
mod keys_visits;
pub mod library;
mod library_library;
mod library_offer;
mod library_others;
pub mod readme;
mod readme_pair;
mod readme_request;
mod readme_stock;
pub mod records;
mod records_block;
mod records_code;
mod records_marker;
mod records_panel;
mod records_session;
pub mod wrappers;
mod wrappers_home;
mod wrappers_known;
mod wrappers_note;
mod wrappers_route;
