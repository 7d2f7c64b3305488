//! The hash of the tables that are asked for names.
//!
//! Names come from files, and whoever writes a file may choose them so that they collide in a table. The hasher that std's tables have unless
//! told otherwise multiplies its words and has a known seed: letters that make one of its products 0 are found in a second, and then each name
//! that begins with them has the same hash, whatever comes after. Ten thousand such names take seconds, and the time is quadratic.
//!
//! Tables whose keys are or have names are made with `NameHash` in its place. It is SipHash-1-3 (after Aumasson and Bernstein, 2012): its state
//! has 256 bits, and no way is known to names of the same hash but to try one after another. Its key is fixed too, since a random one would have
//! to come from the system. So who tries finds names that begin at one place of a table with one tag, some 2^34 trials for 20,000, or names whose
//! places are near each other, four trials for each; these are passed one after another, in quadratic time with a small factor.
//! What a table answers never depends on its hash, nor does the order in which it lists its keys.
#![tactic(auto)]

use std::hash::{BuildHasherDefault, DefaultHasher};

/// The hash of the tables whose keys are or have names.
pub type NameHash = BuildHasherDefault<DefaultHasher>;
