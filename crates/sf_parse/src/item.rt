//! An Item that is being read (RFC 9651 section 4.2.3).
ghost use Rattle.std.specs.Option.{option_map};
ghost use Rattle.std.specs.Prelude.{◌≡◌, ℕ, List as Seq, [], Some, true, false, is_some};
ghost use Rattle.std.specs.Prelude.{IfOk, IfSome, IfNone, IsOk};
ghost use Rattle.sf_value.specs.declared.value.Bare.{Bare};
ghost use Rattle.sf_value.specs.declared.value.Bare.TheVariants as bare_is;
ghost use Rattle.sf_value.specs.Grammar.Items.{item};
ghost use Rattle.sf_parse.specs.AllocationFree.{ItemFree};
ghost use Rattle.sf_parse.specs.StaysFree.{item_keeps};
ghost use Rattle.sf_parse.specs.Prefixes.{Starts};
ghost use Rattle.sf_parse.specs.ItemView.{item_stuck};
ghost use Rattle.sf_parse.specs.SeriesView.{Ends};
ghost use Rattle.sf_parse.specs.Machine.Params.{ParamsState, Between, Opened, params_finish};
ghost use Rattle.sf_parse.specs.Machine.Items.{InParams, item_start, item_step, item_finish};

use crate::bare::BareReader;
use crate::context::Context;
use crate::gathering::Gather;
use crate::level::Level;
use crate::parameters::ParamsReader;
use sf_scan::byte_sets::{SEMICOLON, set_if};
use sf_value::{Bare, Dialect, Entries, Item, OutOfMemory};
use std::marker::Model;

/// What was read of an item: its bare item, which stays in its reader until the item ends, and its
/// parameters.
pub struct ItemReader {
    in_params: bool,
    bare: BareReader,
    params: ParamsReader,
}

impl Model for ItemReader {
    ghost use Rattle.sf_parse.specs.Machine.Items.{ItemState};

    ghost Value = { ItemState };

    ghost use Rattle.sf_parse.specs.ItemView.{item_of, FitsItem};

    ghost view = { λ r. item_of r.in_params r.bare r.params };

    ghost invariant = { λ r. FitsItem r.in_params r.bare };
}

// Written out, so that a reader is dropped where it is and not moved first.
impl Drop for ItemReader {
    #[inline(always)]
    fn drop(self) {
        let ItemReader {
            in_params: _,
            bare: _,
            params: _,
        } = self;
    }
}

impl ItemReader {
    /// A reader in which no item was begun. It does not allocate.
    pub fn new(context: &Context) -> ItemReader {
        ItemReader {
            in_params: false,
            bare: BareReader::new(context),
            params: ParamsReader::new(context),
        }
    }

    /// Begins an item with this byte, or reports that none begins with it.
    pub fn start(&mut self, context: &Context, byte: u8) -> Result<bool, OutOfMemory>
        // The new state is the one that the byte begins, or none begins with it.
        ensures start { IfOk result (λ took. Starts took (item_start context.now.dialect byte)
            self.new) }
        // It does not fail.
        ensures allocation_free { IsOk result }
    {
        self.in_params = false;
        self.bare.start(context, byte)
    }

    /// Begins the parameters of Boolean true, after the first semicolon.
    pub fn open_flag(&mut self, context: &Context)
        // The parameters of Boolean true are open, and none is complete.
        ensures { self.new ≡ InParams (bare_is.Boolean true) (Opened []) }
    {
        // Open parameters have a whole bare item before them: none are open while it is replaced.
        self.in_params = false;
        self.bare.set_true();
        self.params.open(context);
        self.in_params = true;
    }

    /// Begins parameters that belong to no bare item: those after a closing bracket.
    pub fn begin_params(&mut self, context: &Context)
        // They are those of Boolean true, which is no bare item here, and none was begun.
        ensures { self.new ≡ InParams (bare_is.Boolean true) (Between []) }
    {
        self.in_params = false;
        self.bare.set_true();
        self.params.begin(context);
        self.in_params = true;
    }

    /// The parameters alone, if the last one is complete. Their value is taken out of the reader.
    pub fn finish_params(&mut self, context: &Context) -> Result<Option<Entries<Bare>>, OutOfMemory>
        // In parameters, they are the value that the state has at the end, if it has one.
        ensures value { IfOk result (λ params. (x : Bare) (s : ParamsState)
            → self.old ≡ InParams x s → params ≡ params_finish s) }
        // Otherwise the reader is unchanged.
        ensures kept { IfOk result (λ params. IfNone params (self.new ≡ self.old)) }
    {
        self.params.finish(context)
    }

    /// The bare item of an item without parameters, if it is complete. It is taken out of the
    /// reader. None says nothing about the item.
    #[inline(always)]
    pub fn finish_bare(&mut self, context: &Context) -> Option<Bare>
        // The item may end, and has this bare item.
        ensures value { IfSome result (λ bare. item_finish self.old ≡ Some (item bare [])) }
        // Otherwise the reader is unchanged.
        ensures kept { IfNone result (self.new ≡ self.old) }
    {
        if self.in_params {
            return None;
        }
        self.bare.finish(context)
    }

    /// Adds the item, if it is complete; otherwise returns false and changes nothing. Its value is
    /// taken out of the reader.
    #[inline(always)]
    pub fn end<G: Gather<Item>>(
        &mut self,
        context: &Context,
        given: &mut G,
    ) -> Result<bool, OutOfMemory>
        // The item was added to what was given, or may not end and nothing was added.
        ensures ended { IfOk result (λ ended. Ends ended (option_map (G.with given.old)
            (item_finish self.old)) given.old given.new) }
        // If nothing was added, the reader is unchanged.
        ensures kept { IfOk result (λ ended. ended ≡ false → self.new ≡ self.old) }
        // Without parameters the end does not allocate if adding the item doesn't.
        ensures allocation_free { G.free → (more : Seq ℕ) → ItemFree self.old more → IsOk result }
    {
        if !self.in_params {
            let Some(bare) = self.bare.finish(context) else {
                return Ok(false);
            };
            let params = Entries::new(context.alloc, &context.seed);
            given.add(Item { bare, params })?;
            return Ok(true);
        }
        let Some(params) = self.params.finish(context)? else {
            return Ok(false);
        };
        self.in_params = false;
        let Some(bare) = self.bare.finish(context) else {
            unreachable!()
        };
        given.add(Item { bare, params })?;
        Ok(true)
    }
}

impl Level for ItemReader {
    ghost next = { item_step };

    ghost stuck = { item_stuck };

    ghost ends = { λ s. is_some (item_finish s) };

    ghost allocation_free = { λ d s more. ItemFree s more };

    ghost keeps = { item_keeps };

    fn take_part<'a>(
        &mut self,
        context: &Context,
        chunk: &'a [u8],
    ) -> Result<&'a [u8], OutOfMemory> {
        if self.in_params {
            return self.params.take(context, chunk);
        }
        self.bare.take(context, chunk)
    }

    fn push_part(&mut self, context: &Context, byte: u8) -> Result<bool, OutOfMemory> {
        if self.in_params {
            return self.params.push(context, byte);
        }
        self.bare.push(context, byte)
    }

    #[inline(always)]
    fn turn(&mut self, context: &Context, byte: u8) -> Result<bool, OutOfMemory> {
        if self.in_params || byte != b';' || !self.bare.may_end() {
            return Ok(false);
        }
        self.params.open(context);
        self.in_params = true;
        Ok(true)
    }

    fn expected(&self, dialect: Dialect) -> u128 {
        if self.in_params {
            return self.params.expected(dialect);
        }
        self.bare.expected(dialect) | set_if(self.bare.may_end(), SEMICOLON)
    }

    fn may_end(&self) -> bool {
        if self.in_params {
            return self.params.may_end();
        }
        self.bare.may_end()
    }
}
