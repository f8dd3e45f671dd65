use plain_lists::Items;
use play_words::Item;

/// The votes that a question to an order goes by: the prepares for some numbers, each in its view, or all commits for one
/// number.
#[derive(Drop)]
pub enum Asked {
    Prepares(Items<Item>),
    Commits(u64),
}
