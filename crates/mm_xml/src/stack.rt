//! The elements that are open, and the tree that grows from them.

ghost use Rattle.std.specs.Prelude.{◌≡◌, ◌<◌, ◌≤◌, [], IfOk, IsTrue, not, true, false};
ghost use Rattle.std.specs.Str.{bytes_eq, chars};
ghost use Rattle.std.specs.List.{list_all};
ghost use Rattle.mm_tree.specs.Characters.{is_space as space_is};
ghost use Rattle.mm_tree.specs.Trees.{tree_of};
ghost use Rattle.mm_tree.specs.Forests.{level_limit};
ghost use Rattle.mm_xml.specs.Grammar.{Begin, End, end_name};
ghost use Rattle.mm_xml.specs.Inside.Machine.{place, leaf_at, text_step, open_step, start_step, end_step, finish_step, finished, frame_tree, closed, Before, depth_of};
ghost use Rattle.mm_xml.specs.Inside.Builds.{state_of, frame_of, frames_of, Steps, MovesTo, Places, Ends, Finishes};

use crate::attribute::text_of;
use crate::error::XmlError;
use mm_list::Items;
use mm_tree::characters::is_blank;
use mm_tree::{Kind, LEVEL_LIMIT, Plain, Text};
use std::alloc::{AllocError, Global};

/// An element that is open, and its children so far.
#[derive(Drop)]
pub struct Opened {
    pub kind: Kind,
    pub children: Vec<Plain>,
}

/// The elements that are open, the innermost last, or the tree that was closed. Children grow in lists
/// that are used again, so that those of the tree are no longer than they have to be.
#[derive(Drop)]
pub struct Stack {
    pub frames: Vec<Opened>,
    pub whole: Option<Plain>,
    pub spare: Vec<Vec<Plain>>,
}

/// The list, without what it holds, or a new one.
fn empty_list(alloc: Global, list: Option<Vec<Plain>>) -> Vec<Plain>
    ensures { result.items ≡ [] }
{
    match list {
        Some(mut list) => {
            list.clear();
            list
        }
        None => Vec::new(alloc),
    }
}

impl Opened {
    fn has_name(&self, name: &[u8]) -> bool
        ensures { result ≡ bytes_eq name.now (end_name self.now.kind) }
    {
        match &self.kind {
            Kind::Element { name: own, .. } => name == own.as_bytes(),
            Kind::Words { .. } => name.is_empty(),
        }
    }

    /// The element whole, with the list in which its children grew.
    fn into_tree(self, alloc: Global) -> Result<(Plain, Vec<Plain>), AllocError>
        ensures { IfOk result (λ r. tree_of r.0 ≡ frame_tree (frame_of self)) }
    {
        let Opened { kind, children } = self;
        let mut grown = children;
        let mut children = Vec::with_capacity(alloc, grown.len())?;
        children.append(&mut grown)?;
        let tree = Plain {
            kind,
            children: Items::from_vec(children),
        };
        Ok((tree, grown))
    }
}

impl Stack {
    pub fn new(alloc: Global) -> Stack
        ensures { state_of result ≡ Before }
    {
        Stack {
            frames: Vec::new(alloc),
            whole: None,
            spare: Vec::new(alloc),
        }
    }

    /// Whether a node inside the open elements would be on a level too many.
    fn is_full(&self) -> bool
        ensures full { IsTrue result → level_limit ≤ depth_of (state_of self.now) }
        ensures room { result ≡ false → depth_of (state_of self.now) < level_limit }
    {
        self.frames.len() >= LEVEL_LIMIT as usize
    }

    fn begin(&mut self, alloc: Global, kind: Kind) -> Result<(), XmlError>
        ensures { Steps result true (state_of self.old) (state_of self.new) (place (state_of self.old) (Begin kind)) }
    {
        if self.is_full() {
            return Err(XmlError::TooDeep);
        }
        if self.frames.is_empty() && self.whole.is_some() {
            return Err(XmlError::NotXml);
        }
        let children = empty_list(alloc, self.spare.pop());
        self.frames.push(Opened { kind, children })?;
        Ok(())
    }

    fn end(&mut self, alloc: Global, name: &Text) -> Result<(), XmlError>
        ensures { MovesTo result (state_of self.new) (place (state_of self.old) (End name.now)) }
    {
        let Some(top) = self.frames.pop() else {
            return Err(XmlError::NotXml);
        };
        if !top.has_name(name.as_bytes()) {
            return Err(XmlError::NotXml);
        }
        let (tree, grown) = top.into_tree(alloc)?;
        self.spare.push(grown)?;
        self.close(tree)
    }

    /// Puts a tree that is whole into its place.
    fn close(&mut self, tree: Plain) -> Result<(), XmlError>
        ensures { MovesTo result (state_of self.new) (Some (closed (tree_of tree) (frames_of self.old.frames.items))) }
    {
        match self.frames.pop() {
            None => {
                self.whole = Some(tree);
                Ok(())
            }
            Some(mut outer) => {
                outer.children.push(tree)?;
                self.frames.push(outer)?;
                Ok(())
            }
        }
    }

    /// A node without others in it.
    fn leaf(&mut self, alloc: Global, kind: Kind) -> Result<(), XmlError>
        ensures { Steps result true (state_of self.old) (state_of self.new) (leaf_at (state_of self.old) kind) }
    {
        if self.is_full() {
            return Err(XmlError::TooDeep);
        }
        if self.frames.is_empty() && self.whole.is_some() {
            return Err(XmlError::NotXml);
        }
        self.close(Plain {
            kind,
            children: Items::new(alloc),
        })
    }

    /// The characters between two tags, which make a text unless they are blank.
    fn text(&mut self, alloc: Global, run: &str) -> Result<(), XmlError>
        ensures { Steps result (not (list_all space_is (chars run.now))) (state_of self.old) (state_of self.new) (text_step (state_of self.old) (chars run.now)) }
    {
        if is_blank(run) {
            return Ok(());
        }
        let text = text_of(alloc, run)?;
        self.leaf(alloc, Kind::Words { text })
    }

    fn open(&mut self, alloc: Global, empty: bool, kind: Kind) -> Result<(), XmlError>
        ensures { Steps result true (state_of self.old) (state_of self.new) (open_step (state_of self.old) empty kind) }
    {
        if empty {
            self.leaf(alloc, kind)
        } else {
            self.begin(alloc, kind)
        }
    }

    /// A start tag behind these characters.
    pub fn start(
        &mut self,
        alloc: Global,
        run: &str,
        empty: bool,
        kind: Kind,
    ) -> Result<(), XmlError>
        ensures { Places result (state_of self.old) (state_of self.new) (start_step (state_of self.old) (chars run.now) empty kind) }
    {
        self.text(alloc, run)?;
        self.open(alloc, empty, kind)
    }

    /// An end tag behind these characters.
    pub fn finish_element(&mut self, alloc: Global, run: &str, name: &Text) -> Result<(), XmlError>
        ensures { Places result (state_of self.old) (state_of self.new) (end_step (state_of self.old) (chars run.now) name.now) }
    {
        self.text(alloc, run)?;
        self.end(alloc, name)
    }

    /// The characters behind the last tag, and the tree, where all is closed.
    pub fn finish(self, alloc: Global, run: &str) -> Result<Plain, XmlError>
        ensures { Finishes result (state_of self) (finish_step (state_of self) (chars run.now)) }
    {
        let mut stack = self;
        stack.text(alloc, run)?;
        stack.into_whole().ok_or(XmlError::NotXml)
    }

    fn into_whole(self) -> Option<Plain>
        ensures { Ends result (finished (state_of self)) }
    {
        if self.frames.is_empty() {
            self.whole
        } else {
            None
        }
    }
}
