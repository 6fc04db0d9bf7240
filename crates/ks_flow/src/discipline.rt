// Disciplines: what may be done to the nodes of a dictionary, so that its graph stays good.

ghost use Rattle.std.specs.Prelude.{ℕ, List};
ghost use Rattle.ks_keysets.specs.declared.Frame.{Frame};
ghost use Rattle.ks_keysets.specs.declared.NodeState.{NodeState};
ghost use Rattle.ks_keysets.specs.declared.Change.{Change};
ghost use Rattle.ks_flow.specs.Tree.{Tree as TreeFacts};
ghost use Rattle.ks_flow.specs.Link.{Link as LinkFacts, LastsUnderLink};
ghost use Rattle.ks_flow.specs.Discipline.{IsDiscipline, BeginsTree, TreeStep, LastsUnderTree, SameInset, SameKeyset, BeginsLink, LinkStep};

/// What a Shape may do to a graph of nodes: facts that hold from the opening on, and a condition on each Shape that
/// keeps them, and with them a graph good and what is found in it.
pub trait Discipline: Send + Sync {
    // what it requires of the frame of a blank body
    ghost begins: { Frame → Type 0 };

    // what holds of the graph and the frames between events
    ghost facts: { (ℕ → NodeState) → (ℕ → Frame) → Type 0 };

    // what a Shape with these changes must meet, in the graph and the frames before it
    ghost step: { (ℕ → NodeState) → (ℕ → Frame) → List Change → Type 0 };

    // what lasts from one state to a later one, whatever comes between
    ghost lasts: { (ℕ → NodeState) → (ℕ → Frame) → (ℕ → NodeState) → (ℕ → Frame) → Type 0 };

    // what stays at a node from one graph to a later one, if no Shape between names it
    ghost beside: { ℕ → (ℕ → NodeState) → (ℕ → NodeState) → Type 0 };

    /// The laws of the discipline. It computes nothing.
    fn laws()
        ensures { IsDiscipline begins facts step lasts beside };
}

/// Each node, except the root, has one node above it, and its inset is a span that begins at its low.
pub struct Tree;

impl Discipline for Tree {
    ghost begins = { BeginsTree };

    ghost facts = { TreeFacts };

    ghost step = { TreeStep };

    ghost lasts = { LastsUnderTree };

    ghost beside = { SameInset };

    fn laws() {}
}

/// Nodes are on levels. On each level their ranges cover all places once, and a link leads from each node to the next.
/// No node is made free.
pub struct Link;

impl Discipline for Link {
    ghost begins = { BeginsLink };

    ghost facts = { LinkFacts };

    ghost step = { LinkStep };

    ghost lasts = { LastsUnderLink };

    ghost beside = { SameKeyset };

    fn laws() {}
}
