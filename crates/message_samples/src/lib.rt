//! What no clause says of frames, messages, sessions and changes, over what editors send: tests alone.
#![tactic(auto)]

#[cfg(test)]
mod changes;
#[cfg(test)]
mod frames;
#[cfg(test)]
mod messages;
#[cfg(test)]
mod serving;
#[cfg(test)]
mod sessions;
