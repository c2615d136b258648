//! A member of a Dictionary that is being read (RFC 9651 section 4.2.2).
ghost use Rattle.std.specs.Prelude.{◌≡◌, is_some, [], ◌∷◌, false, IfOk, OnOk};
ghost use Rattle.sf_value.specs.Ascii.{asterisk};
ghost use Rattle.sf_value.specs.Grammar.Fields.{flag as flag_member};
ghost use Rattle.sf_value.specs.Grammar.Pairs.{put as put_pair};
ghost use Rattle.sf_value.specs.Grammar.Tokens.{IsKey};
ghost use Rattle.sf_parse.specs.Prefixes.{Starts};
ghost use Rattle.sf_parse.specs.EntryView.{entry_stuck};
ghost use Rattle.sf_parse.specs.MemberEnds.{with_entry};
ghost use Rattle.sf_parse.specs.SeriesView.{Ends};
ghost use Rattle.sf_parse.specs.Machine.Entries.{InMemberValue, entry_start, entry_step};
ghost use Rattle.sf_parse.specs.Machine.Entries.{entry_finish};

use crate::context::Context;
use crate::gathering::extend;
use crate::level::Level;
use crate::member::MemberReader;
use sf_scan::byte_sets::AFTER_KEY;
use sf_value::classes::{ByteClass, InKey, any_prefix};
use sf_value::{Bare, Dialect, Entries, Item, Key, Member, OutOfMemory, ShortBytes, can_start_key};
use std::marker::Model;
use std::mem;

/// The part of a dictionary's member that is being read.
#[derive(Clone, Copy)]
pub enum EntryPhase {
    /// In its key.
    InKey,
    /// After the equals sign.
    Equals,
    /// In its value.
    InMemberValue,
    /// In the parameters of Boolean true.
    InFlag,
}

/// What was read of a dictionary's member. The parameters after a key alone are read as those of
/// the Item Boolean true.
#[derive(Drop)]
pub struct EntryReader {
    phase: EntryPhase,
    key: ShortBytes,
    member: MemberReader,
}

impl Model for EntryReader {
    ghost use Rattle.sf_parse.specs.Machine.Entries.{EntryState};

    ghost Value = { EntryState };

    ghost use Rattle.sf_parse.specs.EntryView.{entry_of, FitsEntry};

    ghost view = { λ r. entry_of r.phase r.key r.member };

    ghost invariant = { λ r. FitsEntry r.phase r.key r.member };
}

impl EntryReader {
    /// A reader in which no member was begun. It does not allocate.
    pub fn new(context: &Context) -> EntryReader {
        EntryReader {
            phase: EntryPhase::InKey,
            key: no_key(context),
            member: MemberReader::new(context),
        }
    }

    /// Begins a member with this byte, or reports that none begins with it.
    pub fn start(&mut self, context: &Context, byte: u8) -> Result<bool, OutOfMemory>
        // The new state is the one that the byte begins, or none begins with it.
        ensures { IfOk result (λ took. Starts took (entry_start byte) self.new) }
    {
        if !can_start_key(byte) {
            return Ok(false);
        }
        self.key = ShortBytes::one(context.alloc, byte);
        self.phase = EntryPhase::InKey;
        Ok(true)
    }

    /// Puts the member at its key, if it is complete; otherwise returns false and changes nothing.
    /// Its value is taken out of the reader.
    pub fn end(
        &mut self,
        context: &Context,
        given: &mut Entries<Member>,
    ) -> Result<bool, OutOfMemory>
        // The member was put at its key, or may not end and nothing was put.
        ensures ended { IfOk result (λ ended. Ends ended (with_entry self.old given.old) given.old
            given.new) }
        // If nothing was put, the reader is unchanged.
        ensures kept { IfOk result (λ ended. ended ≡ false → self.new ≡ self.old) }
    {
        match self.phase {
            EntryPhase::InKey => {
                let params = Entries::new(context.alloc, &context.seed);
                put(given, &mut self.key, context, flag(params))?;
                return Ok(true);
            }
            EntryPhase::Equals => return Ok(false),
            EntryPhase::InMemberValue => {
                let Some(bare) = self.member.finish_bare(context) else {
                    return put_value(given, &mut self.key, context, &mut self.member);
                };
                let params = Entries::new(context.alloc, &context.seed);
                let member = Member::Item(Item { bare, params });
                put(given, &mut self.key, context, member)?;
                return Ok(true);
            }
            EntryPhase::InFlag => {
                // This phase requires that the member is a flag, which need not hold after a
                // failure.
                self.phase = EntryPhase::InMemberValue;
                if !put_value(given, &mut self.key, context, &mut self.member)? {
                    self.phase = EntryPhase::InFlag;
                    return Ok(false);
                }
                return Ok(true);
            }
        }
    }
}

impl Level for EntryReader {
    ghost next = { entry_step };

    ghost stuck = { entry_stuck };

    ghost ends = { λ s. is_some (entry_finish s) };

    ghost allocation_free = { λ d s more. ⊥ };

    ghost keeps = { λ d s t b more h e. absurd h };

    fn take_part<'a>(
        &mut self,
        context: &Context,
        chunk: &'a [u8],
    ) -> Result<&'a [u8], OutOfMemory> {
        match self.phase {
            EntryPhase::InKey => {
                let (run, rest) = any_prefix::<InKey>(chunk);
                extend(&mut self.key, run)?;
                return Ok(rest);
            }
            EntryPhase::Equals => return Ok(chunk),
            EntryPhase::InMemberValue => return self.member.take(context, chunk),
            EntryPhase::InFlag => {
                // This phase requires that the member is a flag, which need not hold after a
                // failure.
                self.phase = EntryPhase::InMemberValue;
                let rest = self.member.take(context, chunk)?;
                self.phase = EntryPhase::InFlag;
                return Ok(rest);
            }
        }
    }

    #[inline(always)]
    fn push_part(&mut self, context: &Context, byte: u8) -> Result<bool, OutOfMemory> {
        match self.phase {
            EntryPhase::InKey | EntryPhase::Equals => return Ok(false),
            EntryPhase::InMemberValue => return self.member.push(context, byte),
            EntryPhase::InFlag => {
                // This phase requires that the member is a flag, which need not hold after a
                // failure.
                self.phase = EntryPhase::InMemberValue;
                let took = self.member.push(context, byte)?;
                self.phase = EntryPhase::InFlag;
                return Ok(took);
            }
        }
    }

    #[inline(always)]
    fn turn(&mut self, context: &Context, byte: u8) -> Result<bool, OutOfMemory> {
        match self.phase {
            EntryPhase::InKey => {
                if byte == b'=' {
                    self.phase = EntryPhase::Equals;
                    return Ok(true);
                }
                if byte == b';' {
                    self.member.open_flag(context);
                    self.phase = EntryPhase::InFlag;
                    return Ok(true);
                }
                if !InKey::has(byte) {
                    return Ok(false);
                }
                self.key.push(byte)?;
                return Ok(true);
            }
            EntryPhase::Equals => {
                if !self.member.start(context, byte)? {
                    return Ok(false);
                }
                self.phase = EntryPhase::InMemberValue;
                return Ok(true);
            }
            EntryPhase::InMemberValue | EntryPhase::InFlag => return Ok(false),
        }
    }

    fn expected(&self, dialect: Dialect) -> u128 {
        match self.phase {
            EntryPhase::InKey => return AFTER_KEY,
            EntryPhase::Equals => return MemberReader::first_bytes(dialect),
            EntryPhase::InMemberValue => return self.member.expected(dialect),
            EntryPhase::InFlag => return self.member.expected(dialect),
        }
    }

    fn may_end(&self) -> bool {
        match self.phase {
            EntryPhase::InKey => true,
            EntryPhase::Equals => false,
            EntryPhase::InMemberValue | EntryPhase::InFlag => self.member.may_end(),
        }
    }
}

/// Puts a member at the key that was read. A later member of a key overwrites an earlier one.
#[inline(always)]
fn put(
    given: &mut Entries<Member>,
    key: &mut ShortBytes,
    context: &Context,
    member: Member,
) -> Result<(), OutOfMemory>
    requires { IsKey key.old }
    ensures put { OnOk result (given.new ≡ put_pair given.old key.old member) }
    ensures key { IsKey key.new }
{
    let key = mem::replace(key, no_key(context));
    given.set(Key::from_bytes(key), member)
}

/// Puts the member that was read at the key that was read, if it is complete; otherwise returns
/// false and changes nothing. It is not inlined: most members are bare items, which are put without
/// it, and would pay for clearing its stack.
#[inline(never)]
fn put_value(
    given: &mut Entries<Member>,
    key: &mut ShortBytes,
    context: &Context,
    member: &mut MemberReader,
) -> Result<bool, OutOfMemory>
    requires { IsKey key.old }
    // The member was put at the key, or may not end and nothing was put.
    ensures ended { IfOk result (λ ended. Ends ended
        (with_entry (InMemberValue key.old member.old) given.old) given.old given.new) }
    // If nothing was put, the readers are unchanged.
    ensures kept { IfOk result (λ ended. ended ≡ false
        → (member.new ≡ member.old) × (key.new ≡ key.old)) }
    ensures key { IsKey key.new }
{
    let Some(member) = member.finish(context)? else {
        return Ok(false);
    };
    put(given, key, context, member)?;
    Ok(true)
}

/// The key of a reader before a member begins, and after the key of a member was taken out: a key
/// can't be empty.
fn no_key(context: &Context) -> ShortBytes
    ensures { result ≡ asterisk ∷ [] }
{
    ShortBytes::one(context.alloc, b'*')
}

/// Boolean true with parameters.
fn flag(params: Entries<Bare>) -> Member
    ensures { result ≡ flag_member params }
{
    Member::Item(Item {
        bare: Bare::Boolean(true),
        params,
    })
}
