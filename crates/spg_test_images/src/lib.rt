//! Tests of images: names, images in memory and such whose calls fail, files of a folder beside images in
//! memory, the exact bytes of saved indexes, and for each clause an image that fails it and no earlier one.
//! And two of whole calls: a vacuum of many pages, and searches that only read an index.
#![tactic(auto)]

#[cfg(test)]
mod calls;
#[cfg(test)]
mod clauses;
#[cfg(test)]
mod files;
#[cfg(test)]
mod folder;
#[cfg(test)]
mod forms;
#[cfg(test)]
mod image;
#[cfg(test)]
mod many_pages;
#[cfg(test)]
mod peeks;
#[cfg(test)]
mod saved;
