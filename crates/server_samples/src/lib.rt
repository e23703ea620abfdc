//! What no clause says of roots, documents, their folder and notes: that calls succeed where there is
//! memory. Tests alone.
#![tactic(auto)]

#[cfg(test)]
mod documents;
#[cfg(test)]
mod folders;
#[cfg(test)]
mod given;
#[cfg(test)]
mod notes;
#[cfg(test)]
mod roots;
