ghost use Rattle.std.specs.Bool.{OnTrue};
ghost use Rattle.std.specs.Option.{option_copied};
ghost use Rattle.std.specs.Prelude.{◌≡◌, ◌++◌, [], IfOk, OnOk, OnErr, IsTrue};
ghost use Rattle.subjects.specs.Subject.{Token, tail_is_last};
ghost use Rattle.sublist.specs.Tree.{matched, ids_at, child_of, contains, IsPut, IsSame, IsAdded, IsRemoved, HasOnly};

use crate::branch::{Branch, next_branch};
use crate::ids::Ids;
use base::{NoMemory, Pieces};
use std::alloc::Global;
use std::collections::HashMap;
use std::hash::RandomState;

/// The nodes below the literal tokens of one path.
type Children = HashMap<Vec<u8>, Box<Node>, RandomState>;

/// What stands at one path of the tree, and below it. A path is the tokens of a pattern. Most nodes are the ends of paths, with
/// nothing below them, so the table of what is below has a block of its own.
pub struct Node {
    ids: Ids,
    tail: Ids,
    star: Option<Box<Node>>,
    children: Option<Box<Children>>,
}

impl Drop for Node {
    fn drop(self) {
        let Self {
            ids: _,
            tail: _,
            star: _,
            children: _,
        } = self;
    }
}

impl Node {
    ghost use Rattle.std.specs.Prelude.{List};

    /// Returns a node with nothing below it.
    #[tactic(auto, unfolding(crate::specs::Tree::ids_at))]
    pub fn new() -> Node
        ensures { (path : List Token) → ids_at path result ≡ [] }
    {
        Node {
            ids: Ids::None,
            tail: Ids::None,
            star: None,
            children: None,
        }
    }

    /// Returns the node below a literal token.
    fn child(&self, token: &[u8]) -> Option<&Box<Node>>
        ensures { option_copied result ≡ child_of token.now self.now }
    {
        match &self.children {
            None => None,
            Some(children) => children.get(token),
        }
    }

    /// Appends the ids of the patterns that have a subject with these tokens.
    #[tactic(auto, unfolding(crate::specs::Tree::matched))]
    pub fn matching(&self, mut tokens: Pieces<'_>, found: &mut Vec<u64>) -> Result<(), NoMemory>
        ensures { OnOk result (found.new.items ≡ found.old.items ++ matched tokens.entry self.now) }
    {
        let Some(token) = tokens.next_piece() else {
            self.ids.append(found)?;
            return Ok(());
        };
        self.tail.append(found)?;
        if let Some(star) = &self.star {
            star.matching(tokens.again(), found)?;
        }
        match self.child(token) {
            Some(child) => child.matching(tokens, found),
            None => Ok(()),
        }
    }

    /// Adds an id at the path of a pattern.
    #[cycle(insert)]
    pub fn insert(
        &mut self,
        alloc: Global,
        keys: RandomState,
        mut path: Pieces<'_>,
        id: u64,
    ) -> Result<(), NoMemory>
        requires { IsTrue (tail_is_last path) }
        ensures ok { OnOk result (IsAdded path.entry id self.old self.new) }
        ensures err { OnErr result (IsSame self.old self.new) }
    {
        match next_branch(&mut path) {
            Branch::End => self.ids.add(alloc, id),
            Branch::Tail => self.tail.add(alloc, id),
            Branch::Star => match &mut self.star {
                Some(star) => star.insert(alloc, keys, path, id),
                None => {
                    self.star = Some(Node::grown(alloc, keys, path, id)?);
                    Ok(())
                }
            },
            Branch::Literal(token) => match &mut self.children {
                Some(children) => match children.get_mut(token) {
                    Some(child) => child.insert(alloc, keys, path, id),
                    None => {
                        let child = Node::grown(alloc, keys, path, id)?;
                        put(alloc, children, token, child)
                    }
                },
                None => {
                    let child = Node::grown(alloc, keys, path, id)?;
                    self.children = Some(alone(alloc, keys, token, child)?);
                    Ok(())
                }
            },
        }
    }

    /// Returns a node that has an id at the path of a pattern, and nothing else.
    #[cycle(insert)]
    fn grown(
        alloc: Global,
        keys: RandomState,
        path: Pieces<'_>,
        id: u64,
    ) -> Result<Box<Node>, NoMemory>
        requires { IsTrue (tail_is_last path) }
        ensures { IfOk result (λ node. HasOnly path.entry id node.value) }
    {
        let mut node = Node::new();
        node.insert(alloc, keys, path, id)?;
        let node = Box::new(alloc, node)?;
        Ok(node)
    }

    /// Takes an id out at the path of a pattern, and then each node on the way that has nothing left.
    pub fn remove(&mut self, mut path: Pieces<'_>, id: u64)
        requires { IsTrue (tail_is_last path) }
        ensures { IsRemoved path.entry id self.old self.new }
    {
        match next_branch(&mut path) {
            Branch::End => self.ids.take_out(id),
            Branch::Tail => self.tail.take_out(id),
            Branch::Star => match &mut self.star {
                None => (),
                Some(star) => {
                    star.remove(path, id);
                    if star.is_bare() {
                        self.star = None;
                    }
                }
            },
            Branch::Literal(token) => match &mut self.children {
                None => (),
                Some(children) => match children.get_mut(token) {
                    None => (),
                    Some(child) => {
                        child.remove(path, id);
                        if child.is_bare() {
                            children.remove(token);
                        }
                    }
                },
            },
        }
    }

    /// Returns whether the id stands at the path of a pattern.
    pub fn contains(&self, mut path: Pieces<'_>, id: u64) -> bool
        requires { IsTrue (tail_is_last path) }
        ensures { result ≡ contains (ids_at path.entry self.now) id }
    {
        match next_branch(&mut path) {
            Branch::End => self.ids.contains(id),
            Branch::Tail => self.tail.contains(id),
            Branch::Star => match &self.star {
                Some(star) => star.contains(path, id),
                None => false,
            },
            Branch::Literal(token) => match self.child(token) {
                Some(child) => child.contains(path, id),
                None => false,
            },
        }
    }

    /// Returns whether nothing stands here or below.
    fn is_bare(&self) -> bool
        ensures { OnTrue result ((path : List Token) → ids_at path self.now ≡ []) }
    {
        if !self.ids.is_empty() {
            return false;
        }
        if !self.tail.is_empty() {
            return false;
        }
        match &self.star {
            Some(_) => false,
            None => match &self.children {
                None => true,
                Some(children) => children.is_empty(),
            },
        }
    }
}

/// Puts a node below a token that has none.
fn put(
    alloc: Global,
    children: &mut Children,
    token: &[u8],
    child: Box<Node>,
) -> Result<(), NoMemory>
    ensures ok { OnOk result (IsPut children.old.entries token.now child children.new.entries) }
    ensures err { OnErr result (children.new.entries ≡ children.old.entries) }
{
    let key = Vec::from_slice(alloc, token)?;
    match children.insert(key, child) {
        Ok(_) => Ok(()),
        Err(_) => Err(NoMemory),
    }
}

/// Returns the table of one node below a token.
fn alone(
    alloc: Global,
    keys: RandomState,
    token: &[u8],
    child: Box<Node>,
) -> Result<Box<Children>, NoMemory>
    ensures { IfOk result (λ children. IsPut [] token.now child children.value.entries) }
{
    let mut children = HashMap::with_hasher(alloc, keys);
    put(alloc, &mut children, token, child)?;
    let children = Box::new(alloc, children)?;
    Ok(children)
}
