// What the builder reads, with what is known of it since the message was accepted. None of it is copied: each value is a view of lent bytes.
ghost use Rattle.std.specs.Prelude.{◌<◌, ◌≤◌, length};
ghost use Rattle.transitions.specs.Held.{HoldsModel, HoldsRows, Starts, Reads};
ghost use Rattle.transitions.specs.Single.{model_single, rows_single, starts_single, reads_single};

// An accepted model: its bytes, and the counts of its header.
#[derive(Clone, Copy)]
pub struct AcceptedModel<'a> {
    pub bytes: &'a [u8],
    pub states: u32,
    pub propositions: u32,
    pub transitions: u32,
    pub ghost holds: { HoldsModel bytes.now states propositions transitions } by { model_single bytes.now states propositions transitions },
}

// The rows of an accepted formula: its bytes, how many rows, and the propositions of the model that it was accepted for.
#[derive(Clone, Copy)]
pub struct AcceptedRows<'a> {
    pub bytes: &'a [u8],
    pub rows: u32,
    pub propositions: u32,
    pub ghost holds: { HoldsRows bytes.now rows propositions } by { rows_single bytes.now rows propositions },
}

// An accepted model, and where each state's transitions start.
#[derive(Clone, Copy)]
pub struct Table<'a> {
    pub model: AcceptedModel<'a>,
    pub starts: &'a [u32],
    pub ghost long: { model.states < length starts.now },
    pub ghost right: { Starts model.bytes.now model.states model.transitions starts.now } by { starts_single model.bytes.now model.states model.transitions starts.now },
}

// Transitions that stand together in a model with so many states, as those of one state do: so many from one on.
#[derive(Clone, Copy)]
pub struct Out<'a> {
    pub bytes: &'a [u8],
    pub states: u32,
    pub first: u32,
    pub many: u32,
    pub ghost reads: { Reads bytes.now states first many } by { reads_single bytes.now states first many },
}

// What EX or AX looks at: actions from one to another, and weights up to this one.
#[derive(Clone, Copy)]
pub struct Look {
    pub low: u32,
    pub high: u32,
    pub most: u32,
    pub ghost ordered: { low ≤ high },
}
