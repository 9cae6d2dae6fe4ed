//! Tests of what is read and written: the words of a command line, beside `clap`; scripts both ways and their bad lines; the
//! printed lines.
#![tactic(auto)]

#[cfg(test)]
mod bad_lines;
#[cfg(test)]
mod beside;
#[cfg(test)]
mod loads;
#[cfg(test)]
mod reports;
#[cfg(test)]
mod scripts;
#[cfg(test)]
mod speech;
#[cfg(test)]
mod values;
