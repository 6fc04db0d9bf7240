//! The slices of a directory: equal parts of all places, each with the child that it leads to.
//!
//! A directory has a power of two of slices, so the slice of a place is found without looking at them. Neighbouring slices with
//! the same child are one edge of the record. A slice that is to be cut is halved with all others, which changes no
//! edge; then the slices from the cut to the end of the run get the new child.

ghost use Rattle.std.specs.Prelude.{◌≢◌, ◌≡◌, ℕ, suc, ◌+◌, ◌/◌, ◌%◌, ◌<◌, ◌≤◌, ◌++◌, ◌∷◌, [], IsTrue, Some, false, not, length, Option, find, position, nat_eq};
ghost use Rattle.std.specs.List.{list_all, prefix_len};
ghost use Rattle.ks_node.specs.Body.{starts_below, starts_from, led_to, begins, first_node, sole};
ghost use Rattle.ks_node.specs.Effect.{runs, without};
ghost use Rattle.ks_node.specs.Asks.{IsSpanOf};
ghost use Rattle.ks_hash.specs.Slices.{is_size, width_of, smallest, starts_of, repeats, before_at, IsRunBegin, doubled, run_led, with_run};
ghost use Rattle.ks_hash.specs.Hash.{run_span};

use arrayvec::ArrayVec;
use ks_keysets::Span;
use ks_node::Start;

/// The child of each slice.
pub(crate) type Slices = ArrayVec<u32, 64>;

/// Edges by where they start.
pub(crate) type Starts = ArrayVec<Start, 64>;

/// The places of a smallest slice: one of 64.
pub(crate) const SMALLEST: u64 = 0x400_0000_0000_0000;

/// How many places there are.
const PLACES: u128 = 0x1_0000_0000_0000_0000;

/// The places of each slice.
fn width(slices: &[u32]) -> u64
    requires { IsTrue (is_size (length slices.now)) }
    ensures { result ≡ width_of slices.now }
{
    u64::MAX / slices.len() as u64 + 1
}

/// The slice in which a place lies, by a product: a division takes many times as long.
fn slice_of(slices: &[u32], place: u64) -> usize
    requires { IsTrue (is_size (length slices.now)) }
    ensures is { result ≡ place / width_of slices.now }
    ensures within { result < length slices.now }
{
    (place as u128 * slices.len() as u128 / PLACES) as usize
}

/// The child of the slice in which a place lies.
pub(crate) fn child_at(slices: &[u32], place: u64) -> u32
    requires { IsTrue (is_size (length slices.now)) }
    ensures { led_to (starts_of slices.now) place ≡ Some result }
{
    slices[slice_of(slices, place)]
}

/// The first child that is not this one.
fn other_child(slices: &[u32], child: u32) -> Option<u32>
    ensures { result ≡ find (λ c. not (nat_eq c child)) slices.now }
{
    for slice in slices {
        if *slice != child {
            return Some(*slice);
        }
    }
    None
}

/// The child of the run after the one in which a place lies.
pub(crate) fn child_past(slices: &[u32], place: u64) -> Option<u32>
    requires { IsTrue (is_size (length slices.now)) }
    ensures { result ≡ first_node (starts_from (suc place) (starts_of slices.now)) }
{
    let at = slice_of(slices, place);
    let child = slices[at];
    let (_, later) = slices.split_at(at + 1);
    other_child(later, child)
}

/// Whether the slice before leads to the child too.
fn is_same(before: Option<u32>, child: u32) -> bool
    ensures { result ≡ repeats before child }
{
    match before {
        Some(last) => child == last,
        None => false,
    }
}

/// One start for each run of neighbouring slices with the same child.
pub(crate) fn runs_of(slices: &[u32]) -> Starts
    requires { IsTrue (is_size (length slices.now)) }
    ensures { result.items ≡ starts_of slices.now }
{
    let width = width(slices);
    let mut starts = Starts::new();
    let mut before = None;
    for (i, child) in slices.iter().enumerate() {
        if !is_same(before, *child) {
            starts.push(Start {
                low: i as u64 * width,
                node: *child,
            });
            before = Some(*child);
        }
    }
    starts
}

/// The child of the slice before a position.
fn child_before(slices: &[u32], at: usize) -> Option<u32>
    requires { at ≤ length slices.now }
    ensures { result ≡ before_at at slices.now }
{
    if at == 0 { None } else { Some(slices[at - 1]) }
}

/// Where the run begins in which a slice lies.
fn run_begin(slices: &[u32], at: usize) -> usize
    requires { at < length slices.now }
    ensures { IsRunBegin slices.now at result }
{
    let child = slices[at];
    let mut begin = at;
    while begin > 0 {
        if slices[begin - 1] != child {
            return begin;
        }
        begin -= 1;
    }
    0
}

/// How many slices in front lead to a child.
fn run_length(slices: &[u32], child: u32) -> usize
    ensures { result ≡ prefix_len (λ c. nat_eq c child) slices.now }
{
    for (i, slice) in slices.iter().enumerate() {
        if *slice != child {
            return i;
        }
    }
    slices.len()
}

/// The places of the run in which a place lies.
pub(crate) fn run_around(slices: &[u32], place: u64) -> Span
    requires { IsTrue (is_size (length slices.now)) }
    ensures is { run_span (starts_of slices.now) place ≡ Some result }
    ensures edge { IsSpanOf (starts_of slices.now) place result }
{
    let width = width(slices);
    let at = slice_of(slices, place);
    let child = slices[at];
    let (_, later) = slices.split_at(at + 1);
    let begin = run_begin(slices, at);
    let last = at + run_length(later, child);
    Span {
        low: begin as u64 * width,
        last: last as u64 * width + (width - 1),
    }
}

/// Whether a run begins at a place.
pub(crate) fn begins_run(slices: &[u32], place: u64) -> bool
    requires { IsTrue (is_size (length slices.now)) }
    ensures { result ≡ begins place (starts_of slices.now) }
{
    let width = width(slices);
    if place % width != 0 {
        return false;
    }
    let at = (place / width) as usize;
    !is_same(child_before(slices, at), slices[at])
}

/// Whether all slices lead to a child.
fn all_lead_to(slices: &[u32], child: u32) -> bool
    ensures { result ≡ list_all (λ c. nat_eq c child) slices.now }
{
    for slice in slices {
        if *slice != child {
            return false;
        }
    }
    true
}

/// The child to which all slices lead.
pub(crate) fn sole_child(slices: &[u32]) -> Option<u32>
    requires { 0 < length slices.now }
    ensures { result ≡ sole (starts_of slices.now) }
{
    let child = slices[0];
    if all_lead_to(slices, child) {
        Some(child)
    } else {
        None
    }
}

/// Cuts each slice in two.
fn double(slices: &mut Slices)
    requires { length slices.old.items ≤ 32 }
    ensures { slices.new.items ≡ doubled slices.old.items }
{
    let mut halves = Slices::new();
    for child in slices.as_slice() {
        halves.push(*child);
        halves.push(*child);
    }
    *slices = halves;
}

/// Cuts all slices in two until one begins at the place.
fn double_until(slices: &mut Slices, place: u64)
    requires size { IsTrue (is_size (length slices.old.items)) }
    requires whole { place % smallest ≡ 0 }
    ensures starts { starts_of slices.new.items ≡ starts_of slices.old.items }
    ensures size { IsTrue (is_size (length slices.new.items)) }
    ensures begins { place % width_of slices.new.items ≡ 0 }
{
    while place % width(slices.as_slice()) != 0 {
        double(slices);
    }
}

/// Leads the slices from a position to the end of its run to another child.
fn lead_run(slices: &mut [u32], at: usize, to: u32)
    requires { at < length slices.old }
    ensures { slices.new ≡ run_led at to slices.old }
{
    let child = slices[at];
    for i in at..slices.len() {
        if slices[i] != child {
            return;
        }
        slices[i] = to;
    }
}

/// Leads the places from a cut to the end of its run to a node.
pub(crate) fn adopt_slice(slices: &mut Slices, cut: u64, id: u32)
    requires size { IsTrue (is_size (length slices.old.items)) }
    requires whole { cut % smallest ≡ 0 }
    requires above { 0 < cut }
    requires free { begins cut (starts_of slices.old.items) ≡ false }
    ensures starts { starts_of slices.new.items ≡ with_run cut id (starts_of slices.old.items) }
    ensures size { IsTrue (is_size (length slices.new.items)) }
{
    double_until(slices, cut);
    let at = (cut / width(slices.as_slice())) as usize;
    lead_run(slices.as_mut_slice(), at, id);
}

/// Makes the slices two, each a half of all places.
pub(crate) fn halve(slices: &mut Slices, left: u32, right: u32)
    ensures { slices.new.items ≡ left ∷ right ∷ [] }
{
    slices.clear();
    slices.push(left);
    slices.push(right);
}

/// Returns the position of the first slice that leads to the child.
fn position_of(slices: &[u32], child: u32) -> Option<usize>
    ensures { result ≡ position (λ c. nat_eq c child) slices.now }
{
    slices.iter().position(|c| *c == child)
}

/// Leads the first run that leads to a child where the run before it leads.
pub(crate) fn forget_child(slices: &mut Slices, id: u32)
    requires size { IsTrue (is_size (length slices.old.items)) }
    requires later { first_node (starts_of slices.old.items) ≢ Some id }
    ensures starts { starts_of slices.new.items ≡ runs (without id (starts_of slices.old.items)) }
    ensures size { IsTrue (is_size (length slices.new.items)) }
{
    if let Some(at) = position_of(slices.as_slice(), id) {
        let before = slices.as_slice()[at - 1];
        lead_run(slices.as_mut_slice(), at, before);
    }
}
