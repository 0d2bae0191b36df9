//! A group as bytes on a worker's tuple queue: its key and its partial state.
//!
//! A tuple is the key after its length, the number of rows, the number of slots and the slots, each number lowest byte
//! first. `tuple_bytes` of `specs/Tuple.antt` is the format, and `refusal` says why bytes are none; `encode` and
//! `decode` are the two directions, and neither takes memory. `encode_into` and `decode_into` copy no key and no state.

#![tactic(auto)]

mod read;
mod write;

pub use read::{TupleRead, decode, decode_into};
pub use write::{TUPLE_BYTES, Tuple, encode, encode_into};
