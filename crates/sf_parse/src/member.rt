//! A member of a List that is being read: an Item or an Inner List (RFC 9651 sections 4.2.1.1 and
//! 4.2.1.2).
ghost use Rattle.std.specs.Prelude.{◌≡◌, ℕ, List, Some, is_some, [], true, false, IfOk};
ghost use Rattle.std.specs.Prelude.{IfSome, IfNone};
ghost use Rattle.sf_value.specs.declared.dialect.Dialect.{Dialect};
ghost use Rattle.sf_value.specs.declared.value.Bare.TheVariants as bare_is;
ghost use Rattle.sf_value.specs.declared.value.Member.TheVariants as member_is;
ghost use Rattle.sf_value.specs.Grammar.Items.{item};
ghost use Rattle.sf_parse.specs.Expected.{MarksStep};
ghost use Rattle.sf_parse.specs.Prefixes.{Goes, Starts};
ghost use Rattle.sf_parse.specs.MemberView.{member_stuck};
ghost use Rattle.sf_parse.specs.Machine.Params.{Opened};
ghost use Rattle.sf_parse.specs.Machine.Items.{InParams};
ghost use Rattle.sf_parse.specs.SeriesView.{Ends};
ghost use Rattle.sf_parse.specs.MemberEnds.{with_member};
ghost use Rattle.sf_parse.specs.Machine.Inners.{InnerState, BetweenItems, inner_finish};
ghost use Rattle.sf_parse.specs.Machine.Members.{InOne, InMany, member_start, member_step};
ghost use Rattle.sf_parse.specs.Machine.Members.{member_finish};

use crate::bare::BareReader;
use crate::context::Context;
use crate::item::ItemReader;
use crate::level::Level;
use crate::whole_parts::add_items;
use sf_scan::byte_sets::{AFTER_ITEM, CLOSE_BRACKET, OPEN_BRACKET, SPACE, set_if};
use sf_value::classes::{Space, few_prefix};
use sf_value::{Bare, Dialect, Inner, Item, Member, OutOfMemory, Sequence};
use std::marker::Model;
use std::mem;

/// The part of a member that is being read.
#[derive(Clone, Copy)]
pub enum MemberPhase {
    /// In an item that is the member.
    One,
    /// In an inner list, after the opening bracket or a space.
    BetweenItems,
    /// In an item of an inner list.
    InItem,
    /// In the parameters after the closing bracket of an inner list.
    Closing,
}

/// What was read of a member: the complete items of an inner list, and the item that is open. The
/// parameters after a closing bracket are read by the reader of items.
pub struct MemberReader {
    phase: MemberPhase,
    item: ItemReader,
    items: Sequence<Item>,
}

impl Model for MemberReader {
    ghost use Rattle.sf_parse.specs.Machine.Members.{MemberState};

    ghost Value = { MemberState };

    ghost use Rattle.sf_parse.specs.MemberView.{member_of, FitsMember};

    ghost view = { λ r. member_of r.phase r.item r.items };

    ghost invariant = { λ r. FitsMember r.phase r.item };
}

// Written out, so that a reader is dropped where it is and not moved first.
impl Drop for MemberReader {
    #[inline(always)]
    fn drop(self) {
        let MemberReader {
            phase: _,
            item: _,
            items: _,
        } = self;
    }
}

impl MemberReader {
    /// A reader in which no member was begun. It does not allocate.
    pub fn new(context: &Context) -> MemberReader {
        MemberReader {
            phase: MemberPhase::One,
            item: ItemReader::new(context),
            items: Sequence::new(context.alloc),
        }
    }

    /// Begins a member with this byte, or reports that none begins with it.
    pub fn start(&mut self, context: &Context, byte: u8) -> Result<bool, OutOfMemory>
        // The new state is the one that the byte begins, or none begins with it.
        ensures { IfOk result (λ took. Starts took (member_start context.now.dialect byte)
            self.new) }
    {
        if byte == b'(' {
            self.items = Sequence::new(context.alloc);
            self.phase = MemberPhase::BetweenItems;
            return Ok(true);
        }
        self.phase = MemberPhase::One;
        self.item.start(context, byte)
    }

    /// Begins the parameters of Boolean true, after the first semicolon.
    pub fn open_flag(&mut self, context: &Context)
        // The parameters of Boolean true are open, and none is complete.
        ensures { self.new ≡ InOne (InParams (bare_is.Boolean true) (Opened [])) }
    {
        self.phase = MemberPhase::One;
        self.item.open_flag(context);
    }

    /// The bytes that a member may begin with.
    pub fn first_bytes(dialect: Dialect) -> u128
        ensures { MarksStep result (member_start dialect) }
    {
        BareReader::first_bytes(dialect) | OPEN_BRACKET
    }

    /// The inner list whose closing bracket was read, if its last parameter is complete.
    #[inline(never)]
    fn finish_inner(&mut self, context: &Context) -> Result<Option<Inner>, OutOfMemory>
        // In an inner list, it is the value that the state has at the end, if it has one.
        ensures value { IfOk result (λ inner. (s : InnerState) → self.old ≡ InMany s
            → inner ≡ inner_finish s) }
        // Otherwise the reader is unchanged.
        ensures kept { IfOk result (λ inner. IfNone inner (self.new ≡ self.old)) }
    {
        match self.phase {
            MemberPhase::One | MemberPhase::BetweenItems | MemberPhase::InItem => return Ok(None),
            MemberPhase::Closing => {
                // This phase requires that the item is in parameters, which need not hold after a
                // failure.
                self.phase = MemberPhase::BetweenItems;
                let Some(params) = self.item.finish_params(context)? else {
                    self.phase = MemberPhase::Closing;
                    return Ok(None);
                };
                let items = mem::replace(&mut self.items, Sequence::new(context.alloc));
                return Ok(Some(Inner { items, params }));
            }
        }
    }

    /// The bare item of a member that is an Item without parameters, if it is complete. It is taken
    /// out of the reader. None says nothing about the member.
    #[inline(always)]
    pub fn finish_bare(&mut self, context: &Context) -> Option<Bare>
        // The member may end, and is the Item of this bare item.
        ensures value { IfSome result (λ bare. member_finish self.old
            ≡ Some (member_is.Item (item bare []))) }
        // Otherwise the reader is unchanged.
        ensures kept { IfNone result (self.new ≡ self.old) }
    {
        match self.phase {
            MemberPhase::One => return self.item.finish_bare(context),
            MemberPhase::BetweenItems | MemberPhase::InItem | MemberPhase::Closing => return None,
        }
    }

    /// The member, if it is complete. Its value is taken out of the reader.
    pub fn finish(&mut self, context: &Context) -> Result<Option<Member>, OutOfMemory>
        // The member is the value that the state has at the end, if it has one.
        ensures value { IfOk result (λ member. member ≡ member_finish self.old) }
        // Otherwise the reader is unchanged.
        ensures kept { IfOk result (λ member. IfNone member (self.new ≡ self.old)) }
    {
        match self.phase {
            MemberPhase::One => {
                let mut member = None;
                self.item.end(context, &mut member)?;
                return Ok(member);
            }
            MemberPhase::BetweenItems | MemberPhase::InItem => return Ok(None),
            MemberPhase::Closing => {
                let Some(inner) = self.finish_inner(context)? else {
                    return Ok(None);
                };
                return Ok(Some(Member::Inner(inner)));
            }
        }
    }

    /// Adds the member, if it is complete; otherwise returns false and changes nothing. Its value
    /// is taken out of the reader.
    pub fn end(
        &mut self,
        context: &Context,
        given: &mut Sequence<Member>,
    ) -> Result<bool, OutOfMemory>
        // The member was added to what was given, or may not end and nothing was added.
        ensures ended { IfOk result (λ ended. Ends ended (with_member self.old given.old) given.old
            given.new) }
        // If nothing was added, the reader is unchanged.
        ensures kept { IfOk result (λ ended. ended ≡ false → self.new ≡ self.old) }
    {
        match self.phase {
            MemberPhase::One => return self.item.end(context, given),
            MemberPhase::BetweenItems | MemberPhase::InItem => return Ok(false),
            MemberPhase::Closing => return self.end_inner(context, given),
        }
    }

    /// The same for an inner list whose closing bracket was read.
    #[inline(never)]
    fn end_inner(
        &mut self,
        context: &Context,
        given: &mut Sequence<Member>,
    ) -> Result<bool, OutOfMemory>
        // The inner list was added to what was given, or may not end and nothing was added.
        ensures ended { IfOk result (λ ended. (s : InnerState) → self.old ≡ InMany s
            → Ends ended (with_member (InMany s) given.old) given.old given.new) }
        // If nothing was added, the reader is unchanged.
        ensures kept { IfOk result (λ ended. ended ≡ false → self.new ≡ self.old) }
    {
        let Some(inner) = self.finish_inner(context)? else {
            return Ok(false);
        };
        if given.push(Member::Inner(inner)).is_err() {
            return Err(OutOfMemory);
        }
        Ok(true)
    }
}

impl Level for MemberReader {
    ghost next = { member_step };

    ghost stuck = { member_stuck };

    ghost ends = { λ s. is_some (member_finish s) };

    ghost allocation_free = { λ d s more. ⊥ };

    ghost keeps = { λ d s t b more h e. absurd h };

    fn take_part<'a>(
        &mut self,
        context: &Context,
        chunk: &'a [u8],
    ) -> Result<&'a [u8], OutOfMemory> {
        match self.phase {
            MemberPhase::BetweenItems => {
                let (_, items) = few_prefix::<Space>(chunk);
                // Taken apart: see `FieldState::take_run`.
                let rest = add_items(context, items, &mut self.items)?;
                return Ok(rest);
            }
            MemberPhase::One => return self.item.take(context, chunk),
            MemberPhase::InItem => return self.item.take(context, chunk),
            MemberPhase::Closing => {
                // This phase requires that the item is in parameters, which need not hold after a
                // failure.
                self.phase = MemberPhase::BetweenItems;
                let rest = self.item.take(context, chunk)?;
                self.phase = MemberPhase::Closing;
                return Ok(rest);
            }
        }
    }

    fn push_part(&mut self, context: &Context, byte: u8) -> Result<bool, OutOfMemory> {
        match self.phase {
            MemberPhase::BetweenItems => return Ok(false),
            MemberPhase::One => return self.item.push(context, byte),
            MemberPhase::InItem => return self.item.push(context, byte),
            MemberPhase::Closing => {
                // This phase requires that the item is in parameters, which need not hold after a
                // failure.
                self.phase = MemberPhase::BetweenItems;
                let took = self.item.push(context, byte)?;
                self.phase = MemberPhase::Closing;
                return Ok(took);
            }
        }
    }

    #[inline(always)]
    fn turn(&mut self, context: &Context, byte: u8) -> Result<bool, OutOfMemory> {
        match self.phase {
            MemberPhase::One | MemberPhase::Closing => return Ok(false),
            MemberPhase::BetweenItems => {
                if byte == b' ' {
                    return Ok(true);
                }
                if byte == b')' {
                    self.item.begin_params(context);
                    self.phase = MemberPhase::Closing;
                    return Ok(true);
                }
                if !self.item.start(context, byte)? {
                    return Ok(false);
                }
                self.phase = MemberPhase::InItem;
                return Ok(true);
            }
            MemberPhase::InItem => {
                if byte != b' ' && byte != b')' {
                    return Ok(false);
                }
                if !self.item.end(context, &mut self.items)? {
                    return Ok(false);
                }
                self.phase = MemberPhase::BetweenItems;
                if byte == b')' {
                    self.item.begin_params(context);
                    self.phase = MemberPhase::Closing;
                }
                return Ok(true);
            }
        }
    }

    fn expected(&self, dialect: Dialect) -> u128 {
        match self.phase {
            MemberPhase::One => return self.item.expected(dialect),
            MemberPhase::Closing => return self.item.expected(dialect),
            MemberPhase::BetweenItems => {
                return SPACE | (CLOSE_BRACKET | BareReader::first_bytes(dialect));
            }
            MemberPhase::InItem => {
                return self.item.expected(dialect) | set_if(self.item.may_end(), AFTER_ITEM);
            }
        }
    }

    fn may_end(&self) -> bool {
        match self.phase {
            MemberPhase::One | MemberPhase::Closing => self.item.may_end(),
            MemberPhase::BetweenItems | MemberPhase::InItem => false,
        }
    }
}
