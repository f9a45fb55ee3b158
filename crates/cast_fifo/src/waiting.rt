//! What is kept of a message whose turn has not come.
use cast_message::Item;

#[derive(Drop)]
pub struct Waiting {
    pub item: Item,
    /// Whether it was marked, so that it leaves as soon as its turn comes.
    pub known: bool,
}
