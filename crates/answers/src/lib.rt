#![tactic(auto)]
//! What a script is answered: the verdict on its net, what is shown of its tape, the sets that it asks for,
//! and the leaves that it adds.

mod leaf_lists;
mod net_answers;
mod pictures;
mod replies;
mod script_answers;
mod shown;
mod tape;

pub use leaf_lists::{AddedLeaf, LeafLists};
pub use net_answers::{NetAnswer, Verdict};
pub use pictures::Picture;
pub use replies::{Reply, answer_all};
pub use script_answers::{Replies, ScriptAnswer};
