use mr_matroid::Matroid;
use mr_nogood::{Cite, RowList};

/// What a text says of a refutation of a matroid over the field with `q` elements: steps, and an end. Whether the steps follow
/// isn't said.
#[derive(Drop)]
pub struct Log {
    pub matroid: Matroid,
    pub q: u8,
    pub steps: RowList,
    pub last: Cite,
}
