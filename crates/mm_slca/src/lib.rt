//! Smallest lowest common ancestors by Indexed Lookup Eager (Xu and Papakonstantinou: "Efficient Keyword
//! Search for Smallest LCAs in XML Databases", SIGMOD 2005): one walk over the shortest keyword list, with a
//! left and a right match in each other list at each of its nodes.
#![tactic(auto)]

mod search;
mod walk;

pub use search::answers;
