//! The tokens of TPTP texts, up to the first fault (Sutcliffe, The TPTP Problem Library, 2017).
//!
//! `scan.rt` goes through a text piece by piece: blanks, comments, and tokens by their kinds (`piece.rt` and the files of each kind). A token
//! is the longest one that begins at its place. Tokens are places in the text and hold no copies; `text_token.rt` reads their bytes. Numbers,
//! distinct objects and `$$` words are tokens too, so that the reader can refuse them by name at their place.
//!
//! **What is proved.** `tokens` gives exactly the tokens of the definition in `specs/`, which says for each kind which bytes spell it, and
//! stops exactly at the first byte that begins nothing. Printing a name and reading it again gives the name.
//!
//! **Cost.** Linear in the text; a token takes a few words of memory.
#![tactic(auto)]

mod byte;
mod comment;
pub mod laws;
mod limits;
mod name;
mod number;
mod piece;
mod quote;
mod scan;
mod sign;
mod text_token;
mod token;
mod word;

pub use limits::MOST_TEXT_BYTES;
pub use name::{push_name, unquoted};
pub use scan::tokens;
pub use text_token::TextToken;
pub use token::{Kind, LexFault, Lexed, Token, Tokens};
pub use word::{are_digits, is_lower_word};
