//! The words of the program, and the command that they ask for.

ghost use Rattle.std.specs.Prelude.{ℕ, ◌≡◌, ◌≢◌, ◌≤◌, IsTrue, ◌↔◌, [], ◌∷◌, string_bytes, IfSome, IfNone, codes};
ghost use Rattle.std.specs.Fmt.{decimal};
ghost use Rattle.ks_words.specs.declared.pairing.Pairing.{Pairing};
ghost use Rattle.ks_words.specs.declared.pairing.Structure.{Structure};
ghost use Rattle.ks_words.specs.declared.pairing.Technique.{Technique};
ghost use Rattle.ks_words.specs.Pairings.{structure_row, technique_row};
ghost use Rattle.ks_lines.specs.declared.setting.Aiding.TheVariants as aids;
ghost use Rattle.ks_words.specs.Words.{bytes_of, Spells, IsCommand};
ghost use Rattle.ks_words.specs.PairingWords.{Names, NamesArena};

use crate::pairing::{Pairing, Structure, Technique};
use itoa::Buffer;
use ks_lines::{Aiding, Setting};

/// How many workers there are at most, and how many if the words do not say how many.
pub const MOST_WORKERS: u32 = 64;

/// What the words ask for.
#[derive(Clone, Copy, Debug)]
pub enum Asked {
    /// To serve the script on the source by a pairing, with `Guides` for `run`, and with `Hints` for `hinted`.
    Run {
        pairing: Pairing,
        setting: Setting,
    },
    /// To serve a script that is made by a pairing, with `Guides` and `MOST_WORKERS` workers.
    Make {
        pairing: Pairing,
        setting: Setting,
        draft: Draft,
    },
    /// To judge the script and the printed run on the source.
    Check,
}

/// How a script is made: the number of callers, the number of calls of each, and the state from which the first number is
/// drawn.
#[derive(Clone, Copy, Debug, PartialEq, Eq)]
pub struct Draft {
    pub callers: u32,
    pub calls: u32,
    pub first: u64,
}

/// What is read from the source.
#[derive(Clone, Copy, Debug, PartialEq, Eq)]
pub enum Text {
    Script,
    /// A script and a printed run of it.
    Checked,
}

fn is(word: &String, text: &str) -> bool
    ensures { IsTrue result ↔ (string_bytes word.now ≡ text.now) }
{
    word.as_str() == text
}

/// The number that the word spells in decimal, with no sign and no leading zero, from `least` to `most`.
fn number(word: &String, least: u64, most: u64) -> Option<u64>
    ensures some { IfSome result (λ n. (string_bytes word.now ≡ decimal n) × (least ≤ n) × (n ≤ most)) }
    ensures none { IfNone result ((n : ℕ) → least ≤ n → n ≤ most → string_bytes word.now ≢ decimal n) }
{
    let Ok(number) = word.as_str().parse::<u64>() else {
        return None;
    };
    let mut buffer = Buffer::new();
    if is(word, buffer.format(number)) && least <= number && number <= most {
        Some(number)
    } else {
        None
    }
}

/// The structure with this word.
fn structure_named(word: &String) -> Option<Structure>
    ensures some { IfSome result (λ structure. string_bytes word.now ≡ (structure_row structure).word) }
    ensures none { IfNone result ((structure : Structure) → string_bytes word.now ≢ (structure_row structure).word) }
{
    match word.as_str() {
        "list" => Some(Structure::List),
        "bplus" => Some(Structure::Bplus),
        "hash" => Some(Structure::Hash),
        "bst" => Some(Structure::Bst),
        _ => None,
    }
}

/// The technique with this word.
fn technique_named(word: &String) -> Option<Technique>
    ensures some { IfSome result (λ technique. string_bytes word.now ≡ (technique_row technique).word) }
    ensures none { IfNone result ((technique : Technique) → string_bytes word.now ≢ (technique_row technique).word) }
{
    match word.as_str() {
        "coupling" => Some(Technique::Coupling),
        "giveup" => Some(Technique::GiveUp),
        "link" => Some(Technique::LinkMove),
        _ => None,
    }
}

/// The pairing with these words.
fn named(nodes: &String, template: &String) -> Option<Pairing>
    ensures some { IfSome result (λ pairing. Names (string_bytes nodes.now) (string_bytes template.now) pairing) }
    ensures none { IfNone result
        ((pairing : Pairing) → ¬ Names (string_bytes nodes.now) (string_bytes template.now) pairing) }
{
    let Some(structure) = structure_named(nodes) else {
        return None;
    };
    let Some(technique) = technique_named(template) else {
        return None;
    };
    Pairing::of(structure, technique)
}

/// The pairing and the number of nodes with these words, if the number is from 4 to 1048576.
fn arena_named(nodes: &String, template: &String, arena: &String) -> Option<(Pairing, u32)>
    ensures some { IfSome result (λ named.
        NamesArena (string_bytes nodes.now) (string_bytes template.now) (string_bytes arena.now) named.0 named.1) }
    ensures none { IfNone result ((pairing : Pairing) (count : ℕ) →
        ¬ NamesArena (string_bytes nodes.now) (string_bytes template.now) (string_bytes arena.now) pairing count) }
{
    let Some(pairing) = named(nodes, template) else {
        return None;
    };
    let Some(arena) = number(arena, 4, 1048576) else {
        return None;
    };
    Some((pairing, arena as u32))
}

/// This number of nodes, and as many workers as there can be, without hints.
fn most(nodes: u32) -> Setting
    requires { (4 ≤ nodes) × (nodes ≤ 1048576) }
    ensures nodes { result.nodes ≡ nodes }
    ensures workers { result.workers ≡ 64 }
    ensures aiding { result.aiding ≡ aids.Guides }
{
    Setting {
        nodes,
        workers: MOST_WORKERS,
        aiding: Aiding::Guides,
    }
}

/// The command to serve a script, if the words after the first are those of one that does not say the number of workers.
fn run_words(nodes: &String, template: &String, arena: &String) -> Option<Asked>
    ensures some { IfSome result
        (λ asked. Spells (codes "run" ∷ bytes_of (nodes.now ∷ template.now ∷ arena.now ∷ [])) asked) }
    ensures none { IfNone result (¬ IsCommand (codes "run" ∷ bytes_of (nodes.now ∷ template.now ∷ arena.now ∷ []))) }
{
    let Some((pairing, nodes)) = arena_named(nodes, template, arena) else {
        return None;
    };
    Some(Asked::Run {
        pairing,
        setting: most(nodes),
    })
}

/// The command to serve a script, if the words after the first are those of one that says the number of workers.
fn run_words_by(
    nodes: &String,
    template: &String,
    arena: &String,
    workers: &String,
) -> Option<Asked>
    ensures some { IfSome result (λ asked. Spells (codes "run" ∷
        bytes_of (nodes.now ∷ template.now ∷ arena.now ∷ workers.now ∷ [])) asked) }
    ensures none { IfNone result (¬ IsCommand (codes "run" ∷
        bytes_of (nodes.now ∷ template.now ∷ arena.now ∷ workers.now ∷ []))) }
{
    let Some((pairing, nodes)) = arena_named(nodes, template, arena) else {
        return None;
    };
    let Some(workers) = number(workers, 1, MOST_WORKERS as u64) else {
        return None;
    };
    Some(Asked::Run {
        pairing,
        setting: Setting {
            nodes,
            workers: workers as u32,
            aiding: Aiding::Guides,
        },
    })
}

/// The command to serve a script by calls that begin at hints, if the words after the first are those of one.
fn hinted_words(
    nodes: &String,
    template: &String,
    arena: &String,
    workers: &String,
) -> Option<Asked>
    ensures some { IfSome result (λ asked. Spells (codes "hinted" ∷
        bytes_of (nodes.now ∷ template.now ∷ arena.now ∷ workers.now ∷ [])) asked) }
    ensures none { IfNone result (¬ IsCommand (codes "hinted" ∷
        bytes_of (nodes.now ∷ template.now ∷ arena.now ∷ workers.now ∷ []))) }
{
    let Some((pairing, nodes)) = arena_named(nodes, template, arena) else {
        return None;
    };
    let Some(workers) = number(workers, 1, MOST_WORKERS as u64) else {
        return None;
    };
    if !pairing.technique.begins_at_hints() {
        return None;
    }
    Some(Asked::Run {
        pairing,
        setting: Setting {
            nodes,
            workers: workers as u32,
            aiding: Aiding::Hints,
        },
    })
}

/// The command to make a script and serve it, if the words after the first are those of one.
fn make_words(
    nodes: &String,
    template: &String,
    arena: &String,
    callers: &String,
    calls: &String,
    first: &String,
) -> Option<Asked>
    ensures some { IfSome result (λ asked. Spells (codes "make" ∷
        bytes_of (nodes.now ∷ template.now ∷ arena.now ∷ callers.now ∷ calls.now ∷ first.now ∷ [])) asked) }
    ensures none { IfNone result (¬ IsCommand (codes "make" ∷
        bytes_of (nodes.now ∷ template.now ∷ arena.now ∷ callers.now ∷ calls.now ∷ first.now ∷ []))) }
{
    let Some((pairing, nodes)) = arena_named(nodes, template, arena) else {
        return None;
    };
    let Some(callers) = number(callers, 1, 64) else {
        return None;
    };
    let Some(calls) = number(calls, 0, 16384) else {
        return None;
    };
    let Some(first) = number(first, 0, 18446744073709551615) else {
        return None;
    };
    let draft = Draft {
        callers: callers as u32,
        calls: calls as u32,
        first,
    };
    Some(Asked::Make {
        pairing,
        setting: most(nodes),
        draft,
    })
}

/// The command that the words are, if they are one.
pub fn command(words: &[String]) -> Option<Asked>
    ensures some { IfSome result (λ asked. Spells (bytes_of words.now) asked) }
    ensures none { IfNone result (¬ IsCommand (bytes_of words.now)) }
{
    match words {
        [verb, nodes, template, arena] => {
            if is(verb, "run") {
                return run_words(nodes, template, arena);
            }
            None
        }
        [verb, nodes, template, arena, workers] => {
            if is(verb, "run") {
                return run_words_by(nodes, template, arena, workers);
            }
            if is(verb, "hinted") {
                return hinted_words(nodes, template, arena, workers);
            }
            None
        }
        [verb, nodes, template, arena, callers, calls, first] => {
            if is(verb, "make") {
                return make_words(nodes, template, arena, callers, calls, first);
            }
            None
        }
        [check] => {
            if is(check, "check") {
                Some(Asked::Check)
            } else {
                None
            }
        }
        _ => None,
    }
}
