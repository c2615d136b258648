//! A field of kind Item that is being read: an Item between spaces (RFC 9651 section 4.2).
ghost use Rattle.std.specs.Option.{option_map};
ghost use Rattle.std.specs.Prelude.{◌≡◌, [], IfOk, IsOk};
ghost use Rattle.sf_value.specs.declared.value.Field.TheVariants as field;
ghost use Rattle.sf_parse.specs.ItemFieldView.{item_field_stuck};
ghost use Rattle.sf_parse.specs.AllocationFree.{FieldFree};
ghost use Rattle.sf_parse.specs.StaysFree.{field_keeps};
ghost use Rattle.sf_parse.specs.Machine.States.{BeforeItem};
ghost use Rattle.sf_parse.specs.Machine.Fields.{step as step_of, finish as finish_of};
ghost use Rattle.sf_parse.specs.Machine.Tests.{may_end as may_end_at};

use crate::bare::BareReader;
use crate::context::Context;
use crate::item::ItemReader;
use crate::level::Level;
use sf_scan::byte_sets::{SPACE, set_if};
use sf_value::classes::{Space, few_prefix};
use sf_value::{Dialect, Item, OutOfMemory};
use std::marker::Model;
use std::mem;

/// The part of a field between spaces that is being read.
#[derive(Clone, Copy)]
pub enum ItemFieldPhase {
    /// Before the item.
    Before,
    /// In the item.
    Inside,
    /// After a space that follows the Item.
    After,
}

/// What was read of an item between spaces: the item that is open, or the one that is complete.
#[derive(Drop)]
pub struct ItemFieldReader {
    phase: ItemFieldPhase,
    item: ItemReader,
    whole: Option<Item>,
}

impl Model for ItemFieldReader {
    ghost use Rattle.sf_parse.specs.Machine.States.{State};

    ghost Value = { State };

    ghost use Rattle.sf_parse.specs.ItemFieldView.{item_field_of, FitsItemField};

    ghost view = { λ r. item_field_of r.phase r.item r.whole };

    ghost invariant = { λ r. FitsItemField r.phase r.whole };
}

impl ItemFieldReader {
    /// Before the item. It does not allocate.
    pub fn new(context: &Context) -> ItemFieldReader
        ensures { result ≡ BeforeItem }
    {
        ItemFieldReader {
            phase: ItemFieldPhase::Before,
            item: ItemReader::new(context),
            whole: None,
        }
    }

    /// The item, if the field may end here. Its value is taken out of the reader.
    pub fn finish(&mut self, context: &Context) -> Result<Option<Item>, OutOfMemory>
        // The item is the value that the state has at the end, if it has one.
        ensures value { IfOk result (λ item. option_map field.Item item ≡ finish_of self.old) }
        // If the state is allocation-free, the call does not fail.
        ensures allocation_free { FieldFree self.old [] → IsOk result }
    {
        match self.phase {
            ItemFieldPhase::Before => return Ok(None),
            ItemFieldPhase::Inside => {
                let mut whole = None;
                self.item.end(context, &mut whole)?;
                return Ok(whole);
            }
            ItemFieldPhase::After => {
                self.phase = ItemFieldPhase::Before;
                return Ok(mem::replace(&mut self.whole, None));
            }
        }
    }
}

impl Level for ItemFieldReader {
    ghost next = { step_of };

    ghost stuck = { item_field_stuck };

    ghost ends = { may_end_at };

    ghost allocation_free = { λ d s more. FieldFree s more };

    ghost keeps = { field_keeps };

    fn take_part<'a>(
        &mut self,
        context: &Context,
        chunk: &'a [u8],
    ) -> Result<&'a [u8], OutOfMemory> {
        match self.phase {
            ItemFieldPhase::Before => {
                let (_, rest) = few_prefix::<Space>(chunk);
                return Ok(rest);
            }
            ItemFieldPhase::After => {
                let (_, rest) = few_prefix::<Space>(chunk);
                return Ok(rest);
            }
            ItemFieldPhase::Inside => return self.item.take(context, chunk),
        }
    }

    fn push_part(&mut self, context: &Context, byte: u8) -> Result<bool, OutOfMemory> {
        match self.phase {
            ItemFieldPhase::Inside => return self.item.push(context, byte),
            ItemFieldPhase::Before | ItemFieldPhase::After => return Ok(false),
        }
    }

    #[inline(always)]
    fn turn(&mut self, context: &Context, byte: u8) -> Result<bool, OutOfMemory> {
        match self.phase {
            ItemFieldPhase::Before => {
                if byte == b' ' {
                    return Ok(true);
                }
                if !self.item.start(context, byte)? {
                    return Ok(false);
                }
                self.phase = ItemFieldPhase::Inside;
                return Ok(true);
            }
            ItemFieldPhase::Inside => {
                if byte != b' ' {
                    return Ok(false);
                }
                if !self.item.end(context, &mut self.whole)? {
                    return Ok(false);
                }
                self.phase = ItemFieldPhase::After;
                return Ok(true);
            }
            ItemFieldPhase::After => return Ok(byte == b' '),
        }
    }

    fn expected(&self, dialect: Dialect) -> u128 {
        match self.phase {
            ItemFieldPhase::Before => return SPACE | BareReader::first_bytes(dialect),
            ItemFieldPhase::Inside => {
                return self.item.expected(dialect) | set_if(self.item.may_end(), SPACE);
            }
            ItemFieldPhase::After => return SPACE,
        }
    }

    fn may_end(&self) -> bool {
        match self.phase {
            ItemFieldPhase::Before => false,
            ItemFieldPhase::Inside => self.item.may_end(),
            ItemFieldPhase::After => true,
        }
    }
}
