use mr_set::Set;

/// What the test of a set needs: the rows and the columns of its part, and whether the set is a basis.
#[derive(Clone, Copy)]
pub(crate) struct Part {
    pub(crate) set: Set,
    pub(crate) rows: Set,
    pub(crate) columns: Set,
    pub(crate) basis: bool,
}
