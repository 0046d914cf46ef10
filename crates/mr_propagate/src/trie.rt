ghost use Rattle.std.specs.Prelude.{◌≡◌, ◌≢◌, ◌⊎◌, ◌<◌, ◌≤◌, ◌+◌, ◌*◌, ℕ, [], MatchBool, IfOk, OnErr, Some, length, slice_get, slice_index, slice_set};
ghost use Rattle.mr_assign.specs.Assign.{IsAssign};
ghost use Rattle.mr_assign.specs.declared.TheConstants.{POSITIONS, VALUES};
ghost use Rattle.mr_propagate.specs.declared.trie.Branch.{Branch as BranchIs};
ghost use Rattle.mr_propagate.specs.Private.Pairs.{IsGreatestPair, IsPairNumber};
ghost use Rattle.mr_propagate.specs.Private.Found.{lesser};
ghost use Rattle.mr_propagate.specs.Private.Trie.{pairs_of, IsTrie, Along, HasNoSlots, IsLeastBelow, IsNew, IsMore, IsChild, IsBeside, IsPushed, HasPair, IsOnTheWay, EndsThere};

use crate::pair::{greatest, pair_number};
use mr_assign::{Assign, POSITIONS, VALUES};
use std::alloc::{AllocError, Global};
use std::snapshot::Snapshot;

/// A pair of all clauses that have the same pairs above it. A link that leads nowhere is 0.
#[derive(Drop)]
pub(crate) struct Branch {
    position: u32,
    value: u8,
    // The first branch one pair further down.
    first: u32,
    // The next branch with the same pairs above it.
    next: u32,
    // The least slot whose clause ends here.
    slot: Option<u32>,
    // The pairs above it.
    above: Snapshot<Assign>,
}

/// Clauses by their pairs, from the greatest position down, with the least slot of each.
#[derive(Drop)]
pub(crate) struct Trie {
    branches: Vec<Branch>,
}

impl Trie {
    pub(crate) fn new(alloc: Global) -> Result<Trie, AllocError>
        ensures trie { IfOk result (λ trie. IsTrie trie.branches.items) }
        ensures none { IfOk result (λ trie. HasNoSlots trie.branches.items) }
    {
        let empty = Assign::empty();
        let mut branches = Vec::new(alloc);
        branches.push(new_branch(0, 0, &empty))?;
        for k in 0..POSITIONS * VALUES as u32 {
            let value = (k % VALUES as u32) as u8 + 1;
            branches.push(new_branch(k / VALUES as u32, value, &empty))?;
        }
        Ok(Trie { branches })
    }

    /// The least slot that is kept at a branch or below it, where the node has the pairs on the way.
    pub(crate) fn least_below(&self, at: usize, node: &Assign) -> Option<u32>
        requires trie { IsTrie self.now.branches.items }
        requires branch { at < length self.now.branches.items }
        ensures { IsLeastBelow self.now.branches.items node.now at result }
    {
        let branch = &self.branches[at];
        let mut found = branch.slot;
        let mut beside = branch.first as usize;
        while beside != 0 {
            let branch = &self.branches[beside];
            if node.get(branch.position) == branch.value {
                found = lesser(found, self.least_below(beside, node));
            }
            beside = branch.next as usize;
        }
        found
    }

    /// The branch at which a clause ends. What is missing on the way there is made.
    pub(crate) fn branch_of(&mut self, clause: &Assign) -> Result<usize, AllocError>
        requires { IsTrie self.old.branches.items }
        ensures more { IsMore self.old.branches.items self.new.branches.items }
        ensures ends { IfOk result (EndsThere self.new.branches.items clause.now) }
    {
        // The clauses of `words` say that it is a map.
        let _words = clause.words();
        match greatest(clause) {
            Some(p) => {
                let v = clause.get(p);
                let pairs = Assign::empty().with(p, v);
                self.branch_from(clause, p, pair_number(p, v), pairs)
            }
            None => Ok(0),
        }
    }

    // The same from the branch of the greatest pair on.
    fn branch_from(
        &mut self,
        clause: &Assign,
        p: u32,
        start: usize,
        pairs: Assign,
    ) -> Result<usize, AllocError>
        requires trie { IsTrie self.old.branches.items }
        requires clause { IsAssign clause.now }
        requires position { p < POSITIONS }
        requires way { IsOnTheWay self.old.branches.items clause.now start p pairs start }
        ensures more { IsMore self.old.branches.items self.new.branches.items }
        ensures ends { IfOk result (IsOnTheWay self.new.branches.items clause.now start 0 clause.now) }
    {
        let mut at = start;
        let mut pairs = pairs;
        let mut q = p;
        while q > 0 {
            q -= 1;
            let v = clause.get(q);
            if v != 0 {
                at = self.child(at, q, v, &pairs)?;
                pairs = pairs.with(q, v);
            }
        }
        Ok(at)
    }

    // The branch of one pair further down, which is made where it is missing.
    fn child(&mut self, at: usize, p: u32, v: u8, pairs: &Assign) -> Result<usize, AllocError>
        requires trie { IsTrie self.old.branches.items }
        requires branch { (b : BranchIs) × (slice_get self.old.branches.items at ≡ Some b) × (pairs_of b ≡ pairs.now) }
        requires position { p < POSITIONS }
        requires value { v ≢ 0 }
        ensures more { IsMore self.old.branches.items self.new.branches.items }
        ensures child { IfOk result (IsChild self.new.branches.items at p v pairs.now) }
    {
        let first = self.branches[at].first as usize;
        if first == 0 {
            return self.hang_under(at, p, v, pairs);
        }
        let beside = self.beside(first, p, v);
        if self.has_pair(beside, p, v) {
            return Ok(beside);
        }
        self.hang_beside(beside, p, v, pairs)
    }

    // The branch beside this one that has the pair, or the last one.
    fn beside(&self, first: usize, p: u32, v: u8) -> usize
        requires trie { IsTrie self.now.branches.items }
        requires branch { first < length self.now.branches.items }
        ensures along { Along self.now.branches.items first result }
        ensures within { result < length self.now.branches.items }
        ensures last { (b : BranchIs) → slice_get self.now.branches.items result ≡ Some b → HasPair p v b ⊎ (b.next ≡ 0) }
    {
        let mut at = first;
        'beside: loop {
            let branch = &self.branches[at];
            if is_pair_of(branch, p, v) {
                return at;
            }
            let next = branch.next as usize;
            if next == 0 {
                return at;
            }
            at = next;
        }
    }

    // Whether a branch has the pair.
    fn has_pair(&self, at: usize, p: u32, v: u8) -> bool
        requires { at < length self.now.branches.items }
        ensures { (b : BranchIs) → slice_get self.now.branches.items at ≡ Some b → MatchBool result (HasPair p v b) (¬ (HasPair p v b)) }
    {
        is_pair_of(&self.branches[at], p, v)
    }

    // Makes a branch below one that has none below it.
    fn hang_under(&mut self, at: usize, p: u32, v: u8, pairs: &Assign) -> Result<usize, AllocError>
        requires trie { IsTrie self.old.branches.items }
        requires branch { (b : BranchIs) × (slice_get self.old.branches.items at ≡ Some b) × (b.first ≡ 0) × (pairs_of b ≡ pairs.now) }
        requires position { p < POSITIONS }
        requires value { v ≢ 0 }
        ensures more { IsMore self.old.branches.items self.new.branches.items }
        ensures child { IfOk result (IsChild self.new.branches.items at p v pairs.now) }
    {
        let made = self.make(p, v, pairs)?;
        self.branches[at].first = made;
        Ok(made as usize)
    }

    // Makes a branch beside one that has none after it.
    fn hang_beside(&mut self, at: usize, p: u32, v: u8, pairs: &Assign) -> Result<usize, AllocError>
        requires trie { IsTrie self.old.branches.items }
        requires branch { (b : BranchIs) × (slice_get self.old.branches.items at ≡ Some b) × (b.next ≡ 0) × (b.above.value ≡ pairs.now) }
        requires position { p < POSITIONS }
        requires value { v ≢ 0 }
        ensures more { IsMore self.old.branches.items self.new.branches.items }
        ensures child { IfOk result (IsBeside self.old.branches.items self.new.branches.items at p v pairs.now) }
    {
        let made = self.make(p, v, pairs)?;
        self.branches[at].next = made;
        Ok(made as usize)
    }

    // Makes a branch without links to it. There is room for as many as have numbers of 32 bits.
    fn make(&mut self, p: u32, v: u8, pairs: &Assign) -> Result<u32, AllocError>
        ensures ok { IfOk result (λ n. (n ≡ length self.old.branches.items) × IsPushed self.old.branches.items p v pairs.now self.new.branches.items) }
        ensures err { OnErr result (self.new.branches.items ≡ self.old.branches.items) }
    {
        let count = self.branches.len();
        if count > u32::MAX as usize {
            return Err(AllocError);
        }
        self.branches.push(new_branch(p, v, pairs))?;
        Ok(count as u32)
    }

    /// Keeps a slot at a branch, if none below it is kept there.
    pub(crate) fn keep(&mut self, at: usize, slot: u32)
        requires { at < length self.old.branches.items }
        ensures { (b : BranchIs) → slice_get self.old.branches.items at ≡ Some b → self.new.branches.items ≡ slice_set self.old.branches.items at (record b { slot = lesser b.slot (Some slot) }) }
    {
        let least = lesser(self.branches[at].slot, Some(slot));
        self.branches[at].slot = least;
    }
}

// A new branch.
fn new_branch(position: u32, value: u8, above: &Assign) -> Branch
    ensures { IsNew position value above.now result }
{
    Branch {
        position,
        value,
        first: 0,
        next: 0,
        slot: None,
        above: Snapshot::of(above),
    }
}

// Whether the branch has the pair.
fn is_pair_of(branch: &Branch, p: u32, v: u8) -> bool
    ensures { MatchBool result (HasPair p v branch.now) (¬ (HasPair p v branch.now)) }
{
    if branch.position != p {
        return false;
    }
    branch.value == v
}

/// The lesser of two numbers, of which either may be missing.
pub(crate) fn lesser(a: Option<u32>, b: Option<u32>) -> Option<u32>
    ensures { result ≡ lesser a b }
{
    match (a, b) {
        (Some(x), Some(y)) => Some(x.min(y)),
        (Some(x), None) => Some(x),
        (None, y) => y,
    }
}
