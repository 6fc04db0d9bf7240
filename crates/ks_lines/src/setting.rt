//! What a run of scripts is served with.
ghost use Rattle.std.specs.Prelude.{◌≤◌};

/// What the calls of workers ask where they may begin, if their technique asks and the gate admits it: else each call begins at
/// the root. What is promised of the calls is the same in each case.
#[derive(Clone, Copy, Debug, PartialEq, Eq)]
pub enum Aiding {
    /// Each worker has a guide of its own, in which it notes where its calls were decided.
    Guides,
    /// All workers read one list of hints. Where the calls of the first caller at one key were decided is posted to it,
    /// and nothing else.
    Hints,
}

/// How large the dictionary is, and who serves its callers.
#[derive(Clone, Copy, Debug)]
pub struct Setting {
    /// How many nodes the dictionary has, 4 to 1,048,576.
    pub nodes: u32,
    /// How many workers there are, 1 to 64; if there are fewer callers, there is one for each caller.
    pub workers: u32,
    /// What calls at one key ask for the node at which they begin.
    pub aiding: Aiding,
    ghost nodes_fit: { (4 ≤ nodes) × (nodes ≤ 1048576) },
    ghost workers_fit: { (1 ≤ workers) × (workers ≤ 64) },
}
