//! The nodes that chunk entries spell, read entry by entry.

ghost use Rattle.std.specs.Prelude.{◌≡◌, ◌≤◌, ◌<◌, ◌+◌, ◌^◌, ◌&&◌, ◌==◌, List, [], Some, None, IfErr, length, nat_le, not};
ghost use Rattle.mm_label.specs.Label.{IsLabel, level};
ghost use Rattle.mm_tree.specs.Forests.{level_limit};
ghost use Rattle.mm_tree.specs.Numbering.{Labelled};
ghost use Rattle.mm_image.specs.Keys.{chunk_key};
ghost use Rattle.mm_check.specs.Reading.{Progress, begins_text, hangs, is_piece};
ghost use Rattle.mm_check.specs.Inside.Path.{ComeBefore, path_here, path_to};
ghost use Rattle.mm_check.specs.Inside.Reader.{Begins, Comes, Ends, Finishes, Kept, Stands, Steps, as_open, as_place, may_begin};
ghost use Rattle.mm_check.specs.Inside.Stopping.{WantsAlone};

use crate::path::takes;
use crate::pieces::{TEXT_MARK, go_on, named_at_end};
use crate::place::{Spot, is_piece, place_of};
use crate::started::Started;
use crate::stop::{Stop, not_due};
use mm_image::kind_of;
use mm_image::laws::key_order;
use mm_label::Label;
use mm_list::Items;
use mm_tree::{KeywordLists, Kind, LEVEL_LIMIT, put_words};
use std::alloc::{AllocError, Global};
use std::collections::BTreeMap;

/// What was read of chunk entries: how many nodes were begun, which of them hold each word, the elements at or above the
/// last of them, and the node that is being read.
#[derive(Drop)]
pub struct Reader {
    alloc: Global,
    pub nodes: u64,
    pub lists: KeywordLists,
    path: Items<Label>,
    node: Option<Started>,
}

/// What a first piece must be beside what it spells, apart from the labels above it.
fn is_top_or_low(label: &Label, value: &[u8]) -> bool
    ensures { result ≡ (nat_le (level label.now) level_limit && (is_piece value.now && not ((level label.now == 1) && begins_text value.now))) }
{
    let level = label.level();
    let is_text = value.first() == Some(&TEXT_MARK);
    level <= LEVEL_LIMIT && is_piece(value) && !(level == 1 && is_text)
}

impl Reader {
    pub fn new(alloc: Global) -> Reader
        ensures { Stands result (record { nodes = []; node = None }) }
    {
        Reader {
            alloc,
            nodes: 0,
            lists: BTreeMap::new(alloc),
            path: Items::new(alloc),
            node: None,
        }
    }

    /// Ends a node.
    fn end_node(&mut self, started: Started) -> Result<(), Stop>
        ensures ends { (nodes : List Labelled) → Kept self.old.lists nodes → ComeBefore nodes started.label → IsLabel started.label → self.old.path ≡ path_to started.label nodes → Ends nodes (as_open started) self.new result }
        ensures nodes { self.new.nodes ≡ self.old.nodes }
        ensures wants { IfErr result WantsAlone }
    {
        let Some(kind) = kind_of(self.alloc, started.content.as_slice())? else {
            return Err(Stop::Named(named_at_end(self.alloc, &started)?));
        };
        put_words(self.alloc, &mut self.lists, &started.label, &kind)?;
        if let Kind::Element { .. } = kind {
            self.path.push(started.label)?;
        }
        Ok(())
    }

    /// Ends the node that is being read, if there is one.
    pub fn end(&mut self) -> Result<(), Stop>
        ensures finishes { (p : Progress) → Stands self.old p → Finishes p self.new result }
        ensures nodes { self.new.nodes ≡ self.old.nodes }
        ensures wants { IfErr result WantsAlone }
    {
        match self.node.take() {
            Some(started) => self.end_node(started),
            None => Ok(()),
        }
    }

    /// Begins a node.
    fn begin(&mut self, spot: Spot, key: &[u8], value: &[u8]) -> Result<(), Stop>
        requires key { chunk_key spot.label spot.number ≡ key.now }
        requires room { self.old.nodes + 1 < 2 ^ 64 }
        ensures begins { (nodes : List Labelled) → self.old.nodes ≡ length nodes → Kept self.old.lists nodes → ComeBefore nodes spot.label → IsLabel spot.label → self.old.path ≡ path_here nodes → Begins nodes (as_place spot) (key.now, value.now) self.new result }
        ensures nodes { self.new.nodes ≤ self.old.nodes + 1 }
        ensures wants { IfErr result WantsAlone }
    {
        let hangs = takes(&mut self.path, &spot.label);
        if spot.number != 0 || !hangs || !is_top_or_low(&spot.label, value) {
            return Err(Stop::Named(not_due(self.alloc, key, value)?));
        }
        self.node = Some(Started {
            label: spot.label,
            number: 0,
            content: Vec::from_slice(self.alloc, value)?,
        });
        self.nodes += 1;
        Ok(())
    }

    /// Reads an entry more of the chunks.
    pub fn step(&mut self, key: &[u8], value: &[u8]) -> Result<(), Stop>
        requires { self.old.nodes + 1 < 2 ^ 64 }
        ensures steps { (p : Progress) → Stands self.old p → Comes p.nodes p.node key.now → Steps p (key.now, value.now) self.new result }
        ensures nodes { self.new.nodes ≤ self.old.nodes + 1 }
        ensures wants { IfErr result WantsAlone }
    {
        key_order();
        let Some(spot) = place_of(self.alloc, key)? else {
            self.end()?;
            return Err(Stop::Named(not_due(self.alloc, key, value)?));
        };
        let Some(started) = self.node.take() else {
            return self.begin(spot, key, value);
        };
        if started.label == spot.label {
            self.node = Some(go_on(self.alloc, started, spot.number, key, value)?);
            return Ok(());
        }
        self.end_node(started)?;
        self.begin(spot, key, value)
    }
}
