// A line of the cache: a word, and the number of the word that it is (its address without the low two bits).
#[derive(Clone, Copy)]
pub struct Line {
    pub(crate) tag: u32,
    pub(crate) word: u32,
}
