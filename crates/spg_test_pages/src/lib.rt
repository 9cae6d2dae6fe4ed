//! Tests of pages, of chains on a page, of the page table and of a vacuum that begins: tables of changes,
//! bytes and picks; of a class that is asked on copies; and of indexes that are built at once.
#![tactic(auto)]

#[cfg(test)]
mod built;
#[cfg(test)]
mod chains;
#[cfg(test)]
mod copied_scans;
#[cfg(test)]
mod inserts;
#[cfg(test)]
mod makes;
#[cfg(test)]
mod pages;
#[cfg(test)]
mod picks;
#[cfg(test)]
mod scans;
#[cfg(test)]
mod spelled;
#[cfg(test)]
mod sweeps;
#[cfg(test)]
mod vacuums;
