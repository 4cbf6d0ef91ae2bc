//! Subtrees of the trie.
//!
//! 1. A subtree at level n has read all bytes of its keys but the last n. Its children are one level below it, and
//!    their bytes rise.
//! 2. Beside each child stand its last leaf, and whether that is its only one.
//! 3. After a refused call a subtree has the same leaves.

ghost use Rattle.std.specs.Prelude.{◌≡◌, ◌≢◌, ◌+◌, ◌<◌, ◌≤◌, ◌==◌, [], ◌∷◌, IfOk, OnOk, IfSome, IfNone, MatchBool, Some, None, ℕ, length, take};
ghost use Rattle.std.specs.List.{AllByRecursion};
ghost use Rattle.leaf_trie.specs.Path.{number, digit};
ghost use Rattle.leaf_trie.specs.Starts.{or_else, last_leaf, AreCandidates, IsThere, Lacks, ShareHead, Takes};
ghost use Rattle.leaf_trie.specs.Nodes.{IsNode, IsRank, HasRanks, HasBranch, HasSomeBranch, HasNoBranch, AreChildren, CanTake, HasRoom, TakesAmong, TakesOrIsAlone, PutsAmong, PutsInNode, PutsOrKeeps, all_starts, children_of};

use crate::path::byte_of;
use crate::start::{Candidates, LeafStart};
use graph_model::Key;
use std::alloc::{AllocError, Global};
use std::marker::Model;
use std::mem;

/// A subtree, with the byte that leads to it.
#[cycle(trie)]
#[derive(Drop)]
pub struct Branch {
    /// The byte that leads to it.
    byte: u8,
    /// One more than the number of the byte by which its children differ.
    level: u8,
    /// Whether it is a leaf and has no children.
    is_single: bool,
    /// The leaf with the greatest key in it.
    last: u32,
    /// Its children.
    node: Node,
}

/// Children are in the order of their bytes.
#[cycle(trie)]
#[derive(Drop)]
enum Node {
    /// All bytes are read; the least key of the leaf is that of these bytes.
    End(Key),
    /// At most 16 children.
    Few(Vec<Branch>),
    /// More, or so many once.
    Many(Box<Wide>),
}

/// Children with 256 places, each of which says how many children have lesser bytes.
#[cycle(trie)]
#[derive(Drop)]
struct Wide {
    /// By the byte of a child.
    places: [u8; 256],
    /// In rising order of their bytes.
    branches: Vec<Branch>,
}

impl Model for Branch {
    ghost use Rattle.leaf_trie.specs.Subtree.{Subtree};

    ghost Value = { Subtree };

    ghost use Rattle.leaf_trie.specs.Nodes.{starts_of, IsNode, IsSummary};

    ghost view = { λ b. record { byte = b.byte; level = b.level; starts = starts_of b.last b.node } };

    ghost invariant = { λ b. IsNode b.level b.node × IsSummary (starts_of b.last b.node) b.last b.is_single };

    ghost size = { λ s. s.level };

    ghost use Rattle.leaf_trie.specs.Falls.{level_falls};

    ghost size_decreases = { λ b h. level_falls b.level b.node h.0 };
}

impl Branch {
    fn byte(&self) -> u8
        ensures { result ≡ self.now.byte }
    {
        self.byte
    }

    fn level(&self) -> u8
        ensures { result ≡ self.now.level }
    {
        self.level
    }

    /// The last leaf.
    fn last(&self) -> u32
        ensures { last_leaf self.now.starts ≡ Some result }
    {
        self.last
    }

    /// Whether there is one leaf alone.
    fn is_single(&self) -> bool
        ensures { result ≡ (length self.now.starts == 1) }
    {
        self.is_single
    }

    /// The leaves whose ranges may hold the key.
    pub fn search(&self, key: Key) -> Candidates
        requires { ShareHead self.now.level key self.now.starts }
        ensures { AreCandidates key None self.now.starts result }
    {
        let mut branch = self;
        let mut before = None;
        'down: loop {
            if branch.is_single {
                return Candidates {
                    at: Some(branch.last),
                    before,
                };
            }
            let byte = byte_of(key, branch.level - 1);
            let branches = branch.node.branches();
            let place = branch.node.rank(byte);
            // The last leaf of the sibling before is the answer where all leaves on the way down begin above the key.
            before = last_before(branches, place, before);
            match branch_at(branches, place, byte) {
                Some(child) => branch = child,
                None => return Candidates { at: None, before },
            }
        }
    }
}

impl Branch {
    /// Puts a leaf at its place.
    #[cycle(insertion)]
    pub fn insert(&mut self, alloc: Global, start: LeafStart) -> Result<(), AllocError>
        requires share { ShareHead self.old.level start.low self.old.starts }
        requires absent { Lacks start.low self.old.starts }
        ensures { PutsOrKeeps start self.old self.new result }
    {
        let level = self.level - 1;
        self.node.put(alloc, level, start)?;
        self.last = last_of(self.node.branches());
        self.is_single = false;
        Ok(())
    }
}

impl Branch {
    /// Takes the leaf that begins at the key away, unless it is the only one. Answers whether it is.
    #[cycle(removal)]
    pub fn remove(&mut self, low: Key) -> bool
        requires share { ShareHead self.old.level low self.old.starts }
        requires there { IsThere low self.old.starts }
        ensures { TakesOrIsAlone low self.old self.new result }
    {
        if self.is_single {
            return true;
        }
        let level = self.level - 1;
        self.node.remove(level, low);
        self.last = last_of(self.node.branches());
        self.is_single = is_single_of(self.node.branches());
        false
    }
}

impl Node {
    /// Puts a leaf below this node, whose children are at the level.
    #[cycle(insertion)]
    fn put(&mut self, alloc: Global, level: u8, start: LeafStart) -> Result<(), AllocError>
        requires low { level < 16 }
        requires node { IsNode (level + 1) self.old }
        requires share { ShareHead (level + 1) start.low (all_starts (children_of self.old)) }
        requires absent { Lacks start.low (all_starts (children_of self.old)) }
        ensures { PutsInNode level start self.old self.new result }
    {
        let byte = byte_of(start.low, level);
        let place = self.rank(byte);
        self.make_room(alloc, place, byte)?;
        self.put_at(alloc, level, place, start)
    }

    /// The same, where the rank of its byte is known and there is room for one more child.
    #[cycle(insertion)]
    fn put_at(
        &mut self,
        alloc: Global,
        level: u8,
        place: usize,
        start: LeafStart,
    ) -> Result<(), AllocError>
        requires low { level < 16 }
        requires node { IsNode (level + 1) self.old }
        requires rank { IsRank (children_of self.old) (digit level start.low) place }
        requires room { HasRoom place (digit level start.low) self.old }
        requires share { ShareHead (level + 1) start.low (all_starts (children_of self.old)) }
        requires absent { Lacks start.low (all_starts (children_of self.old)) }
        ensures { PutsInNode level start self.old self.new result }
    {
        match self {
            Node::End(_) => unreachable!(),
            Node::Few(branches) => {
                put_among(branches, alloc, level, place, start)?;
                Ok(())
            }
            Node::Many(wide) => {
                if put_among(&mut wide.branches, alloc, level, place, start)? {
                    wide.places = ranks_of(&wide.branches);
                }
                Ok(())
            }
        }
    }

    /// Gives a list of 16 children places, if none of them has the byte.
    fn make_room(&mut self, alloc: Global, place: usize, byte: u8) -> Result<(), AllocError>
        requires { (level : ℕ) × IsNode (level + 1) self.old }
        ensures children { children_of self.new ≡ children_of self.old }
        ensures node { (level : ℕ) → IsNode (level + 1) self.old → IsNode (level + 1) self.new }
        ensures room { OnOk result (HasRoom place byte self.new) }
    {
        match self {
            // The 17th child makes it a table: a search of so long a list would cost more than the place of the byte.
            Node::Few(branches) if branches.len() == 16 && !has_byte(branches, place, byte) => {
                let places = ranks_of(branches);
                let mut wide = Box::new(
                    alloc,
                    Wide {
                        places,
                        branches: Vec::new(alloc),
                    },
                )?;
                mem::swap(&mut wide.branches, branches);
                *self = Node::Many(wide);
                Ok(())
            }
            _ => Ok(()),
        }
    }

    /// Takes a leaf away below this node, whose children are at the level, and which has more than one leaf.
    #[cycle(removal)]
    fn remove(&mut self, level: u8, low: Key)
        requires low { level < 16 }
        requires node { IsNode (level + 1) self.old }
        requires more { 2 ≤ length (all_starts (children_of self.old)) }
        requires share { ShareHead (level + 1) low (all_starts (children_of self.old)) }
        requires there { IsThere low (all_starts (children_of self.old)) }
        ensures node { IsNode (level + 1) self.new }
        ensures takes { Takes low (all_starts (children_of self.old)) (all_starts (children_of self.new)) }
    {
        let place = self.rank(byte_of(low, level));
        match self {
            Node::End(_) => unreachable!(),
            Node::Few(branches) => {
                remove_among(branches, place, low);
            }
            Node::Many(wide) => {
                if remove_among(&mut wide.branches, place, low) {
                    wide.places = ranks_of(&wide.branches);
                }
            }
        }
    }

    fn branches(&self) -> &[Branch]
        ensures { result.now ≡ children_of self.now }
    {
        match self {
            Node::End(_) => &[],
            Node::Few(branches) => branches.as_slice(),
            Node::Many(wide) => wide.branches.as_slice(),
        }
    }

    /// How many children have lesser bytes.
    fn rank(&self, byte: u8) -> usize
        ensures { (level : ℕ) → IsNode (level + 1) self.now → IsRank (children_of self.now) byte result }
    {
        match self {
            Node::End(_) => 0,
            Node::Few(branches) => rank_among(branches, byte),
            Node::Many(wide) => wide.places[byte as usize] as usize,
        }
    }
}

/// How many of the branches have lesser bytes.
fn rank_among(branches: &Vec<Branch>, byte: u8) -> usize
    ensures { (level least : ℕ) → AreChildren level least branches.now.items → IsRank branches.now.items byte result }
{
    rank_from(branches, 0, byte)
}

/// How many of the branches have lesser bytes, counted one by one from a place before which all have.
fn rank_from(branches: &Vec<Branch>, from: usize, byte: u8) -> usize
    requires within { from ≤ length branches.now.items }
    requires below { AllByRecursion (λ b. b.byte < byte) (take from branches.now.items) }
    ensures { (level least : ℕ) → AreChildren level least branches.now.items → IsRank branches.now.items byte result }
{
    for place in from..branches.len() {
        if byte <= branches[place].byte() {
            return place;
        }
    }
    branches.len()
}

/// The last leaf of the branches before the place, or the earlier one where there are none.
fn last_before(branches: &[Branch], place: usize, earlier: Option<u32>) -> Option<u32>
    requires { place ≤ length branches.now }
    ensures { result ≡ or_else (last_leaf (all_starts (take place branches.now))) earlier }
{
    if place == 0 {
        earlier
    } else {
        Some(branches[place - 1].last())
    }
}

/// The branch at the place, if it has the byte.
fn branch_at(branches: &[Branch], place: usize, byte: u8) -> Option<&Branch>
    ensures some { IfSome result (λ b. HasBranch branches.now place byte b.now) }
    ensures none { IfNone result (HasNoBranch branches.now place byte) }
{
    if place < branches.len() && branches[place].byte() == byte {
        Some(&branches[place])
    } else {
        None
    }
}

/// Puts a leaf below the branch of its byte, or below one of its own where there is none, and answers which: true is a
/// branch of its own.
#[cycle(insertion)]
fn put_among(
    branches: &mut Vec<Branch>,
    alloc: Global,
    level: u8,
    place: usize,
    start: LeafStart,
) -> Result<bool, AllocError>
    requires low { level < 16 }
    requires children { AreChildren level 0 branches.old.items }
    requires rank { IsRank branches.old.items (digit level start.low) place }
    requires share { ShareHead (level + 1) start.low (all_starts branches.old.items) }
    requires absent { Lacks start.low (all_starts branches.old.items) }
    ensures { PutsAmong level place start branches.old.items branches.new.items result }
{
    if has_byte(branches, place, byte_of(start.low, level)) {
        branches[place].insert(alloc, start)?;
        Ok(false)
    } else {
        let branch = chain(alloc, level, start)?;
        branches.reserve_exact(1)?;
        branches.insert(place, branch)?;
        Ok(true)
    }
}

/// Takes a leaf away below the branch at the place. Answers whether the branch went with it.
#[cycle(removal)]
fn remove_among(branches: &mut Vec<Branch>, place: usize, low: Key) -> bool
    requires { CanTake branches.old.items place low }
    ensures { TakesAmong low branches.old.items branches.new.items result }
{
    if branches[place].remove(low) {
        branches.remove(place);
        true
    } else {
        false
    }
}

/// Whether the branch at the place has the byte.
fn has_byte(branches: &Vec<Branch>, place: usize, byte: u8) -> bool
    ensures { MatchBool result (HasSomeBranch branches.now.items place byte)
        (HasNoBranch branches.now.items place byte) }
{
    match branch_at(branches.as_slice(), place, byte) {
        Some(_) => true,
        None => false,
    }
}

/// For each byte, how many of the branches have lesser bytes.
fn ranks_of(branches: &Vec<Branch>) -> [u8; 256]
    requires { (level : ℕ) × AreChildren level 0 branches.now.items }
    ensures { HasRanks result branches.now.items }
{
    let mut places = [0; 256];
    let mut rank = 0;
    'bytes: for byte in 0..256usize {
        rank = rank_from(branches, rank, byte as u8);
        places[byte] = rank as u8;
    }
    places
}

/// The last leaf below the branches.
fn last_of(branches: &[Branch]) -> u32
    requires { 0 < length branches.now }
    ensures { last_leaf (all_starts branches.now) ≡ Some result }
{
    branches[branches.len() - 1].last()
}

/// Whether there is one leaf alone below the branches.
fn is_single_of(branches: &[Branch]) -> bool
    requires { (level : ℕ) × AreChildren level 0 branches.now }
    ensures { result ≡ (length (all_starts branches.now) == 1) }
{
    branches.len() == 1 && branches[0].is_single()
}

/// A leaf whose key has no bytes left.
fn end_of(start: LeafStart) -> Branch
    ensures level { result.level ≡ 0 }
    ensures byte { result.byte ≡ digit 0 start.low }
    ensures starts { result.starts ≡ start ∷ [] }
{
    Branch {
        byte: byte_of(start.low, 0),
        level: 0,
        is_single: true,
        last: start.leaf,
        node: Node::End(start.low),
    }
}

/// A subtree with one child.
fn over(alloc: Global, byte: u8, child: Branch) -> Result<Branch, AllocError>
    requires low { child.level < 16 }
    requires some { 0 < length child.starts }
    requires here { AllByRecursion (λ s. digit child.level s.low ≡ child.byte) child.starts }
    ensures level { IfOk result (λ b. b.level ≡ child.level + 1) }
    ensures byte { IfOk result (λ b. b.byte ≡ byte) }
    ensures starts { IfOk result (λ b. b.starts ≡ child.starts) }
{
    let level = child.level() + 1;
    let is_single = child.is_single();
    let last = child.last();
    let mut branches = Vec::with_capacity(alloc, 1)?;
    branches.push(child)?;
    Ok(Branch {
        byte,
        level,
        is_single,
        last,
        node: Node::Few(branches),
    })
}

/// The subtrees from this level down to a leaf.
fn chain(alloc: Global, level: u8, start: LeafStart) -> Result<Branch, AllocError>
    requires { level < 16 }
    ensures level { IfOk result (λ b. b.level ≡ level) }
    ensures byte { IfOk result (λ b. b.byte ≡ digit level start.low) }
    ensures starts { IfOk result (λ b. b.starts ≡ start ∷ []) }
{
    let mut top = end_of(start);
    'up: for below in 0..level {
        top = over(alloc, byte_of(start.low, below + 1), top)?;
    }
    Ok(top)
}

/// All 16 levels over one leaf.
pub fn whole(alloc: Global, start: LeafStart) -> Result<Branch, AllocError>
    ensures level { IfOk result (λ b. b.level ≡ 16) }
    ensures starts { IfOk result (λ b. b.starts ≡ start ∷ []) }
{
    let below = chain(alloc, 15, start)?;
    over(alloc, 0, below)
}
