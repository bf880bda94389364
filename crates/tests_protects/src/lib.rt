//! Tests of protects by the public calls, from an image's bytes on: the least ones, certificates, weights by counted runs, and programs that declare
//! more variables than their commands name.
#![tactic(auto)]

#[cfg(test)]
mod certificates;
#[cfg(test)]
mod counts;
#[cfg(test)]
mod drawn;
#[cfg(test)]
mod images;
#[cfg(test)]
mod least;
#[cfg(test)]
mod named;
#[cfg(test)]
mod rows;
