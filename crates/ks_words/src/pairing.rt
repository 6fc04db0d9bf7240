//! The pairings of a structure of nodes and a technique: which are served, and what each serves beside calls at one key.

ghost use Rattle.std.specs.Prelude.{◌≡◌, IsTrue, IfSome, IfNone};
ghost use Rattle.ks_words.specs.Pairings.{structure_row, technique_row, is_served, does_scan};

/// What nodes hold the pairs in.
#[derive(Clone, Copy, Debug, PartialEq, Eq)]
pub enum Structure {
    /// Sorted lists.
    List,
    /// B+ trees.
    Bplus,
    /// Hash tables.
    Hash,
    /// Binary search trees.
    Bst,
}

impl Structure {
    /// Whether techniques that scan scan it.
    fn is_scanned(self) -> bool
        ensures { result ≡ (structure_row self).scans }
    {
        match self {
            Structure::Bplus => true,
            Structure::List | Structure::Hash | Structure::Bst => false,
        }
    }
}

/// How callers come from one node to the next.
#[derive(Clone, Copy, Debug, PartialEq, Eq)]
pub enum Technique {
    /// By lock coupling.
    Coupling,
    /// By giving up.
    GiveUp,
    /// Along links.
    LinkMove,
}

impl Technique {
    /// Whether it scans structures that can be scanned.
    fn scans(self) -> bool
        ensures { result ≡ (technique_row self).scans }
    {
        match self {
            Technique::GiveUp | Technique::LinkMove => true,
            Technique::Coupling => false,
        }
    }

    /// Whether it serves moves of a value.
    pub fn moves(self) -> bool
        ensures { result ≡ (technique_row self).moves }
    {
        match self {
            Technique::GiveUp => true,
            Technique::Coupling | Technique::LinkMove => false,
        }
    }

    /// Whether its calls can begin at hints.
    pub fn begins_at_hints(self) -> bool
        ensures { result ≡ (technique_row self).hints }
    {
        match self {
            Technique::LinkMove | Technique::GiveUp => true,
            Technique::Coupling => false,
        }
    }
}

/// A structure and a technique that serves it.
#[derive(Clone, Copy, Debug)]
pub struct Pairing {
    pub structure: Structure,
    pub technique: Technique,
    ghost served: { IsTrue (is_served structure technique) },
}

impl Pairing {
    /// The pairing of the two, if it is served.
    pub fn of(structure: Structure, technique: Technique) -> Option<Pairing>
        ensures some { IfSome result (λ pairing. (pairing.structure ≡ structure) × (pairing.technique ≡ technique)) }
        ensures none { IfNone result (¬ IsTrue (is_served structure technique)) }
    {
        match (structure, technique) {
            (_, Technique::Coupling | Technique::GiveUp)
            | (Structure::Bplus | Structure::Hash, Technique::LinkMove) => Some(Pairing {
                structure,
                technique,
            }),
            (Structure::List | Structure::Bst, Technique::LinkMove) => None,
        }
    }

    /// Whether ordered scans are served.
    pub fn scans(self) -> bool
        ensures { result ≡ does_scan self.structure self.technique }
    {
        self.structure.is_scanned() && self.technique.scans()
    }
}
