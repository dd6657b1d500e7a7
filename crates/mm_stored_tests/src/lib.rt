//! The test functions of what is kept as a keeper's entries: the image of a forest, the searches and fragments over it.
#![tactic(auto)]

#[cfg(test)]
mod answers;
#[cfg(test)]
mod damaged;
#[cfg(test)]
mod fragments;
#[cfg(test)]
mod image;
#[cfg(test)]
mod stored;
