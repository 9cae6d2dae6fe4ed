//! A C library: an index of points or of texts that a C program keeps between calls.
#![tactic(auto)]

mod any;
mod any_changes;
mod any_images;
mod any_searches;
mod calls;
mod changes;
mod class;
mod conds;
mod exports_changes;
mod exports_searches;
mod exports_whole;
mod handing;
mod handle;
mod images;
mod refused;
mod searches;
mod seeking;
mod shell;
mod texts;
mod values;
mod whole;
