//! The position automaton of a pattern, in plain tables.
//!
//! Every name of a pattern is a position, 0 to 30, and 31 is the state before the first passage. The tables say which
//! position may follow which, and which fit a kind and a mark. An automaton recognises a tree if it accepts exactly the
//! words of pairs (kind, mark) that the tree reads (`specs/Readings.antt`, `specs/Tables.antt`). The combinators build
//! one from the parts of a pattern in place, and `step` moves a set of states, a mask, along the readings of the tree.
#![tactic(auto)]

ghost use Rattle.std.specs.Prelude.{◌≡◌, ℕ, ◌+◌, ◌<◌, ◌≤◌, true, ◌⊎◌, ◌↔◌, [], ◌∷◌, ◌++◌, slice_index};
ghost use Rattle.model.specs.Patterns.{Tree, name as one_name, empty as nothing, star, plus, maybe, Fits};
ghost use Rattle.model.specs.Records.{letter};
ghost use Rattle.bits.specs.Bit.{Has};
ghost use Rattle.automaton.specs.Positions.{FitAt, Known};
ghost use Rattle.automaton.specs.Readings.{Word, Reads};
ghost use Rattle.automaton.specs.Run.{then_frag, or_frag, Same};

use model::Label;

// The set that has only the state before the first passage.
const START: u32 = 1 << 31;

/// The tables: `follow[s]` has the positions that may come after the state s, `fits[k]` those of the kind k, `any` those
/// of every kind, `marked[m]` those with the mark m, and `accept` the states in which a pattern may end. The rows
/// lie in arrays and sets of states are masks, since there is no heap below the programs.
#[derive(Clone, Copy)]
pub struct Automaton {
    pub count: usize,
    pub follow: [u32; 32],
    pub fits: [u32; 8],
    pub any: u32,
    pub marked: [u32; 9],
    pub accept: u32,
}

/// A part of a pattern: whether it reads nothing, and the positions with which it can begin and end.
#[derive(Clone, Copy)]
pub struct Fragment {
    pub nullable: bool,
    pub first: u32,
    pub last: u32,
}

// The mask, or no position. (`test.then_some(mask).unwrap_or(0)` says the same in more words.)
fn only_if(test: bool, mask: u32) -> u32
    ensures { (q : ℕ) → Has result q ↔ ((test ≡ true) × Has mask q) }
{
    if test { mask } else { 0 }
}

// The row of a number, which is empty past the last.
fn row(rows: &[u32], i: u8) -> u32
    ensures { result ≡ slice_index rows.now i }
{
    rows.get(i as usize).copied().unwrap_or(0)
}

// Every position of `to` follows every state of `from`.
fn link(follow: &mut [u32; 32], from: u32, to: u32)
    ensures { (s q : ℕ) → Has (slice_index follow.new s) q ↔ (Has (slice_index follow.old s) q ⊎ (Has from s × Has to q)) }
{
    for (s, row) in follow.iter_mut().enumerate() {
        if (from >> s) & 1 == 1 {
            *row |= to;
        }
    }
}

// The position `p` fits the label's kinds. Two tables are lent, and not the automaton, whose others stay.
fn admit(fits: &mut [u32; 8], any: &mut u32, label: Label, p: usize)
    requires { (p < 31) × (Known label) }
    ensures { (k q : ℕ) → FitAt fits.new any.new k q ↔ (FitAt fits.old any.old k q ⊎ ((q ≡ p) × Fits label k)) }
{
    let bit = 1u32 << p;
    match label {
        Label::Kind(k) => fits[k as usize] |= bit,
        Label::Any => *any |= bit,
    }
}

impl Fragment {
    ghost use Rattle.automaton.specs.Tables.{frag};

    fn then(self, b: Fragment) -> Fragment
        ensures { Same (frag result) (then_frag (frag self) (frag b)) }
    {
        Fragment {
            nullable: self.nullable && b.nullable,
            first: self.first | only_if(self.nullable, b.first),
            last: b.last | only_if(b.nullable, self.last),
        }
    }

    fn or(self, b: Fragment) -> Fragment
        ensures { Same (frag result) (or_frag (frag self) (frag b)) }
    {
        Fragment {
            nullable: self.nullable || b.nullable,
            first: self.first | b.first,
            last: self.last | b.last,
        }
    }
}

impl Automaton {
    ghost use Rattle.automaton.specs.Step.{stepped};
    ghost use Rattle.automaton.specs.Tables.{Moves, Holds, Stands, Compiled, Built, Recognises, Keeps, InTurn, Either, Within};

    /// An automaton without positions.
    pub fn new() -> Automaton
        ensures none { result.count ≡ 0 }
        ensures within { Within result }
    {
        Automaton {
            count: 0,
            follow: [0; 32],
            fits: [0; 8],
            any: 0,
            marked: [0; 9],
            accept: 0,
        }
    }

    /// A new position, for a name. Only the parser of crate pattern calls it: it refuses the name after the 31st and has
    /// the place for that fault, so what is asked here is known there, and a second refusal would never come.
    pub fn name(&mut self, label: Label, mark: u8) -> Fragment
        requires room { self.old.count < 31 }
        requires marks { mark < 9 }
        requires known { Known label }
        requires within { Within self.old }
        ensures count { self.new.count ≡ self.old.count + 1 }
        ensures within { Within self.new }
        ensures built { Built self.old self.new result self.old.count (self.old.count + 1) (one_name label (letter mark)) }
    {
        let p = self.count;
        let bit = 1u32 << p;
        self.follow[p] = 0;
        admit(&mut self.fits, &mut self.any, label, p);
        self.marked[mark as usize] |= bit;
        self.count = p + 1;
        Fragment {
            nullable: false,
            first: bit,
            last: bit,
        }
    }

    /// `empty`.
    pub fn empty(&self) -> Fragment
        ensures { (lo : ℕ) → Compiled self.now result lo lo nothing }
    {
        Fragment {
            nullable: true,
            first: 0,
            last: 0,
        }
    }

    /// One part after the other.
    pub fn sequence(&mut self, a: Fragment, b: Fragment) -> Fragment
        ensures same { Keeps self.old self.new }
        ensures built { InTurn self.old self.new a b result }
    {
        link(&mut self.follow, a.last, b.first);
        a.then(b)
    }

    /// One part or the other.
    pub fn either(&self, a: Fragment, b: Fragment) -> Fragment
        ensures { Either self.now a b result }
    {
        a.or(b)
    }

    /// `*`: zero or more.
    pub fn many(&mut self, a: Fragment) -> Fragment
        ensures same { Keeps self.old self.new }
        ensures built { (lo hi : ℕ) (p : Tree) → Compiled self.old a lo hi p → Built self.old self.new result lo hi (star p) }
    {
        link(&mut self.follow, a.last, a.first);
        Fragment {
            nullable: true,
            ..a
        }
    }

    /// `+`: one or more.
    pub fn some(&mut self, part: Fragment) -> Fragment
        ensures same { Keeps self.old self.new }
        ensures built { (lo hi : ℕ) (p : Tree) → Compiled self.old part lo hi p → Built self.old self.new result lo hi (plus p) }
    {
        link(&mut self.follow, part.last, part.first);
        part
    }

    /// `?`: zero or one.
    pub fn optional(&self, part: Fragment) -> Fragment
        ensures { (lo hi : ℕ) (p : Tree) → Compiled self.now part lo hi p → Compiled self.now result lo hi (maybe p) }
    {
        Fragment {
            nullable: true,
            ..part
        }
    }

    /// The whole pattern is the fragment: the start state goes before its first positions. Only the parser of crate
    /// pattern calls it, which keeps the positions to 31, so that the start state is none of them.
    pub fn finish(&mut self, f: Fragment)
        requires { self.old.count ≤ 31 }
        ensures { (p : Tree) → Compiled self.old f 0 self.old.count p → Recognises self.new p }
    {
        self.follow[31] = f.first;
        self.accept = f.last | only_if(f.nullable, START);
    }

    /// The set of states before the first passage.
    pub fn start(&self) -> u32
        ensures value { result ≡ 2147483648 }
        ensures holds { Holds self.now [] result }
        ensures stands { (p : Tree) → Recognises self.now p → Stands self.now p [] result }
    {
        START
    }

    /// The states that a passage of the kind, collected under the mark, leads to.
    pub fn step(&self, mask: u32, kind: u8, mark: u8) -> u32
        ensures value { result ≡ stepped self.now mask kind mark }
        ensures moves { (q : ℕ) → Has result q ↔ Moves self.now mask (kind, mark) q }
        ensures holds { (w : Word) → Holds self.now w mask → Holds self.now (w ++ ((kind, mark) ∷ [])) result }
        ensures along { (p : Tree) (w : Word) → Stands self.now p w mask → Stands self.now p (w ++ ((kind, mark) ∷ [])) result }
    {
        let mut reach = 0;
        for (s, row) in self.follow.iter().enumerate() {
            if (mask >> s) & 1 == 1 {
                reach |= row;
            }
        }
        reach & (row(&self.fits, kind) | self.any) & row(&self.marked, mark)
    }

    /// Whether the pattern may end in one of the states.
    pub fn accepts(&self, mask: u32) -> bool
        ensures meets { (result ≡ true) ↔ ((q : ℕ) × Has mask q × Has self.now.accept q) }
        ensures reads { (p : Tree) (w : Word) → Stands self.now p w mask → (result ≡ true) ↔ Reads p w }
    {
        mask & self.accept != 0
    }

    /// Whether the pattern reads the word.
    pub fn reads(&self, word: &[(u8, u8)]) -> bool
        ensures { (p : Tree) → Recognises self.now p → (result ≡ true) ↔ Reads p word.now }
    {
        let mut mask = self.start();
        for &(kind, mark) in word {
            mask = self.step(mask, kind, mark);
        }
        self.accepts(mask)
    }
}
