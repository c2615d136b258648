//! How the members of a List and of a Dictionary begin and are added (RFC 9651 sections 4.2.1 and
//! 4.2.2).
ghost use Rattle.std.specs.Prelude.{[], ◌∷◌, ◌++◌, ⊤};
ghost use Rattle.sf_value.specs.Grammar.Pairs.{put};
ghost use Rattle.sf_value.specs.Grammar.Tokens.{IsKey};
ghost use Rattle.sf_parse.specs.Machine.Members.{member_start, member_finish};
ghost use Rattle.sf_parse.specs.Machine.Entries.{entry_start, entry_finish};
ghost use Rattle.sf_parse.specs.MemberEnds.{with_member, with_entry, some_map};

use crate::context::Context;
use crate::entry::EntryReader;
use crate::leaf::find_leaf;
use crate::level::Level;
use crate::member::MemberReader;
use crate::series::SeriesMember;
use crate::whole_parts::{Begun, Found, find_value};
use sf_scan::byte_sets::KEY_START;
use sf_scan::param::find_key;
use sf_value::classes::{split, strip_byte};
use sf_value::{Dialect, Entries, Member, OutOfMemory, Sequence, can_start_key, can_start_token};

impl SeriesMember<Sequence<Member>> for MemberReader {
    ghost first = { member_start };

    ghost none = { [] };

    ghost added = { with_member };

    ghost is_key = { λ key. ⊤ };

    ghost with = { λ given keyed. given ++ keyed.1 ∷ [] };

    ghost adds = { λ s given. some_map _ (member_finish s) };

    fn new(context: &Context) -> MemberReader {
        MemberReader::new(context)
    }

    fn none(context: &Context) -> Sequence<Member> {
        Sequence::new(context.alloc)
    }

    fn first_bytes(dialect: Dialect) -> u128 {
        MemberReader::first_bytes(dialect)
    }

    fn start(&mut self, context: &Context, byte: u8) -> Result<bool, OutOfMemory> {
        MemberReader::start(self, context, byte)
    }

    fn end(
        &mut self,
        context: &Context,
        given: &mut Sequence<Member>,
    ) -> Result<bool, OutOfMemory> {
        MemberReader::end(self, context, given)
    }

    #[inline(always)]
    fn may_begin(text: &[u8]) -> bool {
        match split(text) {
            Some((b'"' | b'-' | b'?' | b':' | b'(' | b'@' | b'%' | b'0'..=b'9', _)) => true,
            Some((first, _)) => can_start_token(first),
            None => false,
        }
    }

    #[inline(always)]
    fn begin(dialect: Dialect, text: &[u8]) -> Option<Begun<'_>> {
        if let Some(inside) = strip_byte(text, b'(') {
            return Some(Begun::Inner(&[], inside));
        }
        let (leaf, rest) = find_leaf(dialect, text)?;
        Some(Begun::Item(Found { key: &[], leaf }, rest))
    }

    #[inline(always)]
    fn add(
        _context: &Context,
        given: &mut Sequence<Member>,
        _key: &[u8],
        member: Member,
    ) -> Result<(), OutOfMemory> {
        given.push_or_drop(member)
    }
}

impl SeriesMember<Entries<Member>> for EntryReader {
    ghost first = { λ d. entry_start };

    ghost none = { [] };

    ghost added = { with_entry };

    ghost is_key = { IsKey };

    ghost with = { λ given keyed. put given keyed.0 keyed.1 };

    ghost adds = { λ s given. some_map _ (entry_finish s) };

    fn new(context: &Context) -> EntryReader {
        EntryReader::new(context)
    }

    fn none(context: &Context) -> Entries<Member> {
        Entries::new(context.alloc, &context.seed)
    }

    fn first_bytes(_dialect: Dialect) -> u128 {
        KEY_START
    }

    fn start(&mut self, context: &Context, byte: u8) -> Result<bool, OutOfMemory> {
        EntryReader::start(self, context, byte)
    }

    fn end(&mut self, context: &Context, given: &mut Entries<Member>) -> Result<bool, OutOfMemory> {
        EntryReader::end(self, context, given)
    }

    #[inline(always)]
    fn may_begin(text: &[u8]) -> bool {
        match split(text) {
            Some((first, _)) => can_start_key(first),
            None => false,
        }
    }

    #[inline(always)]
    fn begin(dialect: Dialect, text: &[u8]) -> Option<Begun<'_>> {
        let (key, after) = find_key(text)?;
        if let Some(value) = strip_byte(after, b'=') {
            if let Some(inside) = strip_byte(value, b'(') {
                return Some(Begun::Inner(key, inside));
            }
        }
        let (found, rest) = find_value(dialect, key, after)?;
        Some(Begun::Item(found, rest))
    }

    #[inline(always)]
    fn add(
        context: &Context,
        given: &mut Entries<Member>,
        key: &[u8],
        member: Member,
    ) -> Result<(), OutOfMemory> {
        given.set_named(context.alloc, key, member)
    }
}
