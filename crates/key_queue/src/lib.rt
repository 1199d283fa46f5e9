//! A queue of slots by key: a slot whose key no other comes before is at hand, and the key of any
//! slot is changed in place. Every slot is always in the queue, so one that is not to come has a key
//! after all others. What slots and keys stand for is not known here.
//!
//! ```text
//! let mut queue = Queue::of(alloc, 3, Falling(0))?;
//! queue.set_key(1, Falling(5));
//! queue.set_key(2, Falling(7));
//! assert_eq!(rt; queue.top(), 2);
//! queue.set_key(2, Falling(1));
//! assert_eq!(rt; queue.top(), 1);
//! assert_eq!(rt; queue.key(2).0, 1);
//! ```
#![tactic(auto)]

mod key;
mod moving;
mod queue;

pub use key::{Falling, Key};
pub use queue::Queue;
