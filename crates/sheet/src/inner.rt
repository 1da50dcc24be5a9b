//! How far the line of a sheet has come.
use law::Stage;

/// What a sheet keeps beside its rack and its rule.
// a struct for one field: by the rules of the product the stage stands in a plain struct of its own
#[derive(Clone, Copy)]
pub(crate) struct Inner {
    pub(crate) stage: Stage,
}
