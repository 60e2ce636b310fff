// Colouring a graph of conflicts.
ghost use Rattle.std.specs.Prelude.{◌≡◌, ℕ, ◌<◌, ◌≤◌, true, false, not, ◌&&◌, length, IfSome, MatchOption};
ghost use Rattle.sets.specs.Masks.{bit, count, First};
ghost use Rattle.colouring.specs.Colouring.{degree, under, lowest_of, busiest_of, next, holds, held, to_place, less, coloured};

use places::place::Place;
use sets::mask::{below, empty, has, intersection, lowest, single, size, union, without};

// Row v is the set of the temporaries that are in conflict with v. Those that are left are still to be removed, and get
// one of the registers from 0 on, or stay at home.
#[derive(Clone, Copy)]
pub(crate) struct Graph<'a> {
    pub(crate) rows: &'a [u64],
    pub(crate) left: u64,
    pub(crate) registers: u8,
    ghost few: { length rows.now ≤ 48 },
    ghost few_registers: { registers ≤ 14 },
    ghost within: { ((v : ℕ) → length rows.now ≤ v → bit left v ≡ false) },
}

impl<'a> Graph<'a> {
    ghost use Rattle.colouring.specs.Graphs.{order, edges};

    // How many of those left are in the row.
    fn degree(&self, row: u64) -> u32
        ensures { result ≡ count (order self.now) (λ u. bit row u && bit self.now.left u) }
    {
        size(intersection(row, self.left))
    }

    // Whether v is left, and of a degree under the number of registers.
    fn is_under(&self, v: usize) -> bool
        requires { v < order self.now }
        ensures { result ≡ under (order self.now) self.now.registers (edges self.now) (bit self.now.left) v }
    {
        has(self.left, v as u8) && self.degree(self.rows[v]) < self.registers as u32
    }

    // The lowest left of a degree under the number of registers.
    fn lowest_under(&self) -> Option<usize>
        ensures { result ≡ lowest_of (order self.now) (under (order self.now) self.now.registers (edges self.now) (bit self.now.left)) }
    {
        (0..self.rows.len()).find(|v| self.is_under(*v))
    }

    // The lowest left of greatest degree.
    fn busiest(&self) -> Option<usize>
        ensures { result ≡ busiest_of (degree (order self.now) (edges self.now) (bit self.now.left)) (order self.now) (bit self.now.left) }
    {
        let mut best: Option<(usize, u32)> = None;
        for (v, row) in self.rows.iter().enumerate() {
            if has(self.left, v as u8) {
                let degree = self.degree(*row);
                if best.is_none_or(|(_, most)| most < degree) {
                    best = Some((v, degree));
                }
            }
        }
        best.map(|(v, _)| v)
    }

    // The next to remove.
    fn next(&self) -> Option<usize>
        ensures value { result ≡ next (order self.now) self.now.registers (edges self.now) (bit self.now.left) }
        ensures within { IfSome result (λ v. v < order self.now) }
    {
        // no `or_else`: the proof learns nothing of what a closure that calls `busiest` returned
        match self.lowest_under() {
            None => self.busiest(),
            found => found,
        }
    }

    // What is left once v is removed.
    fn remove(&self, v: usize) -> Graph<'a>
        requires { v < order self.now }
        ensures rows { result.rows.now ≡ self.now.rows.now }
        ensures registers { result.registers ≡ self.now.registers }
        ensures left { (u : ℕ) → bit result.left u ≡ less (bit self.now.left) v u }
    {
        Graph {
            rows: self.rows,
            left: without(self.left, single(v as u8)),
            registers: self.registers,
        }
    }

    // Places for those left, at most `turns` of them; every other place becomes home.
    pub(crate) fn colour(&self, turns: usize, places: &mut [Place])
        requires { length places.old ≡ order self.now }
        ensures { places.new ≡ coloured (order self.now) self.now.registers (edges self.now) turns (bit self.now.left) }
    {
        if turns == 0 {
            places.fill(Place::Home);
            return;
        }
        match self.next() {
            None => places.fill(Place::Home),
            Some(v) => {
                self.remove(v).colour(turns - 1, places);
                places[v] = choose_place(places, self.rows[v], self.registers);
            }
        }
    }
}

// The register of a place, as a set.
fn register_set(place: Place) -> u64
    ensures { (r : ℕ) → r < 64 → bit result r ≡ holds place r }
{
    match place {
        Place::Home => empty(),
        Place::Register(x) => { if x < 64 { single(x) } else { empty() } }
    }
}

// The registers that temporaries of the set hold.
fn held_registers(places: &[Place], near: u64) -> u64
    requires { length places.now ≤ 48 }
    ensures { (r : ℕ) → r < 64 → bit result r ≡ held (length places.now) (bit near) places.now r }
{
    let mut registers = empty();
    for (u, place) in places.iter().enumerate() {
        if has(near, u as u8) {
            registers = union(registers, register_set(*place));
        }
    }
    registers
}

// The lowest register below k that is not held.
fn lowest_free(held: u64, k: u8) -> Option<u32>
    requires { k ≤ 14 }
    ensures { MatchOption result ((r : ℕ) → r < k → bit held r ≡ true) (λ t. (t < k) × First (λ r. not (bit held r)) t) }
{
    lowest(without(below(k), held))
}

// The lowest register below k that no temporary of the set holds, else home.
fn choose_place(places: &[Place], near: u64, k: u8) -> Place
    requires few { length places.now ≤ 48 }
    requires registers { k ≤ 14 }
    ensures { result ≡ to_place (lowest_of k (λ r. not (held (length places.now) (bit near) places.now r))) }
{
    match lowest_free(held_registers(places, near), k) {
        Some(r) => Place::Register(r as u8),
        None => Place::Home,
    }
}
