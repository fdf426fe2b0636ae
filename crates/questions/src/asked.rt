// What is asked.
use transitions::{AcceptedModel, AcceptedRows};

// An accepted model, and an accepted formula for it.
#[derive(Clone, Copy)]
pub struct Asked<'a> {
    pub model: AcceptedModel<'a>,
    pub formula: AcceptedRows<'a>,
}
