//! A small state that meets what a state keeps while an insert is below the root, a scan holds a copied
//! tuple, and a vacuum has a done place before a redirect.

mod looks;
mod sections;
mod start;
mod state;
mod tests;
mod vacuums;
