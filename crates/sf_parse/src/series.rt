//! Members with commas between them that are being read: the members of a List or a Dictionary (RFC
//! 9651 sections 4.2.1 and 4.2.2).
ghost use Rattle.std.specs.Prelude.{◌≡◌, ◌<◌, ℕ, List, [], false, true, length};
ghost use Rattle.std.specs.Prelude.{is_some, Option, IfOk, OnOk, IsOk, IfSome};
ghost use Rattle.sf_value.specs.declared.dialect.Dialect.{Dialect};
ghost use Rattle.sf_value.specs.declared.value.Member.{Member as Whole};
ghost use Rattle.sf_parse.specs.Expected.{MarksStep};
ghost use Rattle.sf_parse.specs.Leaves.{IsLeaf};
ghost use Rattle.sf_parse.specs.WholeParts.{found_member};
ghost use Rattle.sf_parse.specs.Prefixes.{Goes, FirstIs, Starts};
ghost use Rattle.sf_parse.specs.SeriesView.{series_next, series_end, series_stuck, Ends};
ghost use Rattle.sf_parse.specs.Machine.Series.{Begin};
ghost use Rattle.sf_parse.specs.AllocationFree.{SeriesFree};
ghost use Rattle.sf_parse.specs.StaysFree.{series_keeps};
ghost use Rattle.sf_parse.specs.SeriesView.{series_of};
ghost use Rattle.sf_parse.specs.WholeMembers.{IsBegun, MayBegin, MayEnd, NoneOpen};
ghost use Rattle.sf_parse.specs.WholeMembers.{TakesMembers, IsAfterMember};
ghost use Rattle.sf_parse.specs.declared.series.SeriesPhase.TheVariants as phase_is;
ghost use Rattle.sf_parse.specs.declared.whole_parts.Begun.TheVariants as begun_is;

use crate::ahead::{after_window, has_comma, near, window};
use crate::context::Context;
use crate::leaf::make;
use crate::level::Level;
use crate::whole_parts::{
    Begun, Found, Unread, WHOLE_PARTS, begins_param, may_begin_params, read_inner, read_params,
};
use sf_scan::byte_sets::{AFTER_MEMBER, OWS, SPACE, set_if};
use sf_value::classes::{Ows, Space, ends, few_prefix, split, strip_byte};
use sf_value::{Bare, Dialect, Entries, Item, Member, OutOfMemory, is_ows};
use std::marker::Model;
use std::mem;

/// A member between commas; complete ones are added to a `G`.
pub trait SeriesMember<G>: Level {
    // The state after the first byte of a member.
    ghost first: { Dialect → ℕ → Option Self };

    // The value without members.
    ghost none: { G };

    // The value with this member, if it may end.
    ghost added: { Self → G → Option G };

    // What the key of a member is; a List has members without keys.
    ghost is_key: { List ℕ → Type 0 };

    // The value with the member of this key.
    ghost with: { G → List ℕ × Whole → G };

    /// A reader in which no member was begun. It does not allocate.
    fn new(context: &Context) -> Self;

    /// The value before any member is complete. It does not allocate.
    fn none(context: &Context) -> G
        ensures { result ≡ none };

    /// The bytes below 128 that a member may begin with, a bit for each.
    fn first_bytes(dialect: Dialect) -> u128
        ensures { MarksStep result (first dialect) };

    /// Begins a member with this byte, or reports that none begins with it.
    fn start(&mut self, context: &Context, byte: u8) -> Result<bool, OutOfMemory>
        // The new state is the one that the byte begins, or none begins with it.
        ensures { IfOk result (λ took. Starts took (first context.now.dialect byte) self.new) };

    /// Adds the member, if it is complete; otherwise returns false and changes nothing.
    fn end(&mut self, context: &Context, given: &mut G) -> Result<bool, OutOfMemory>
        // The member was added to what was given, or may not end and nothing was added.
        ensures ended { IfOk result (λ ended. Ends ended (added self.old given.old) given.old
            given.new) }
        // If nothing was added, the reader is unchanged.
        ensures kept { IfOk result (λ ended. ended ≡ false → self.new ≡ self.old) };

    /// Whether the text may begin with a member. It is a hint that saves time; no proof relies on
    /// it.
    fn may_begin(text: &[u8]) -> bool;

    /// How the member begins that the text begins with; None if there is none.
    fn begin(dialect: Dialect, text: &[u8]) -> Option<Begun<'_>>
        ensures { IfSome result (IsBegun is_key (first dialect) (Self.Level.next dialect) added with
            dialect text.now) };

    /// Adds the member of this key.
    fn add(context: &Context, given: &mut G, key: &[u8], member: Member) -> Result<(), OutOfMemory>
        requires { is_key key.now }
        ensures { OnOk result (given.new ≡ with given.old (key.now, member)) };

    // A member is added exactly if it may end.
    ghost adds: { (s : Self) (given : G) → is_some (added s given) ≡ Self.Level.ends s };
}

/// The part of members with commas that is being read.
#[derive(Clone, Copy)]
pub enum SeriesPhase {
    /// Before the first member.
    Begin,
    /// In a member.
    InMember,
    /// After a member.
    Gap,
    /// After a comma.
    Comma,
}

/// What was read of members with commas: the value of the complete ones, and the member that is
/// open.
#[derive(Drop)]
pub struct SeriesReader<P, G> {
    phase: SeriesPhase,
    given: G,
    member: P,
}

impl<P, G> Model for SeriesReader<P, G> {
    ghost use Rattle.sf_parse.specs.Machine.Series.{SeriesState};

    ghost Value = { SeriesState P G };

    ghost use Rattle.sf_parse.specs.SeriesView.{series_of};

    ghost view = { λ r. series_of r.phase r.given r.member };
}

impl<P: SeriesMember<G>, G: Drop> SeriesReader<P, G> {
    /// Before the first member.
    pub fn new(context: &Context, member: P) -> SeriesReader<P, G>
        ensures { result ≡ Begin }
    {
        SeriesReader {
            phase: SeriesPhase::Begin,
            given: P::none(context),
            member,
        }
    }

    /// Takes whole members where one may begin, and returns the rest. It is not inlined: a chunk
    /// without whole members would pay for clearing its stack.
    #[inline(never)]
    fn take_members<'a>(
        &mut self,
        context: &Context,
        chunk: &'a [u8],
    ) -> Result<&'a [u8], OutOfMemory>
        // The bytes before the rest lead to the new state.
        ensures goes { IfOk result (λ rest. Goes (series_next (P.first context.now.dialect)
            (P.next context.now.dialect) P.added P.none) self.old chunk.now rest.now self.new) }
        // A member that is open can't continue with the first byte of the rest.
        ensures stuck { IfOk result (λ rest. FirstIs (series_stuck (P.next context.now.dialect)
            self.new) rest.now) }
        ensures allocation_free { SeriesFree self.old chunk.now → IsOk result }
    {
        match self.phase {
            SeriesPhase::InMember => return self.member.take(context, chunk),
            SeriesPhase::Gap => return Ok(chunk),
            // Before the first member no value was given, whatever the reader holds.
            SeriesPhase::Begin => self.given = P::none(context),
            SeriesPhase::Comma => {}
        }
        let begin = window(chunk);
        let left = add_each_member::<P, G>(
            context,
            begin,
            false,
            &mut self.phase,
            &mut self.given,
        )?;
        Ok(after_window(chunk, begin, left))
    }

    /// The value of the members, if the last one is complete. It is taken out of the reader.
    pub fn finish(&mut self, context: &Context) -> Result<Option<G>, OutOfMemory>
        // It is the value of the members, if they may end.
        ensures value { IfOk result (λ given. given ≡ series_end P.added P.none self.old) }
        // Before the first member the end does not allocate.
        ensures allocation_free { SeriesFree self.old [] → IsOk result }
    {
        match self.phase {
            SeriesPhase::Begin => return Ok(Some(P::none(context))),
            SeriesPhase::Comma => return Ok(None),
            SeriesPhase::InMember => {
                if !self.member.end(context, &mut self.given)? {
                    return Ok(None);
                }
                return Ok(Some(mem::replace(&mut self.given, P::none(context))));
            }
            SeriesPhase::Gap => {
                return Ok(Some(mem::replace(&mut self.given, P::none(context))));
            }
        }
    }
}

impl<P: SeriesMember<G>, G: Drop> Level for SeriesReader<P, G> {
    ghost next = { λ d. series_next (P.first d) (P.next d) P.added P.none };

    ghost stuck = { λ d. series_stuck (P.next d) };

    ghost ends = { λ s. is_some (series_end P.added P.none s) };

    ghost allocation_free = { λ d s more. SeriesFree s more };

    ghost keeps = { λ d s t b more h e.
        series_keeps (P.first d) (P.next d) P.added P.none s t b more h e };

    fn take_part<'a>(
        &mut self,
        context: &Context,
        chunk: &'a [u8],
    ) -> Result<&'a [u8], OutOfMemory> {
        match self.phase {
            SeriesPhase::Begin => {
                let (_, rest) = few_prefix::<Space>(chunk);
                if !may_add::<P, G>(context.dialect, rest) {
                    return Ok(rest);
                }
                return self.take_members(context, rest);
            }
            SeriesPhase::Gap => {
                let (_, rest) = few_prefix::<Ows>(chunk);
                return Ok(rest);
            }
            SeriesPhase::Comma => {
                let (_, rest) = few_prefix::<Ows>(chunk);
                if !may_add::<P, G>(context.dialect, rest) {
                    return Ok(rest);
                }
                return self.take_members(context, rest);
            }
            SeriesPhase::InMember => return self.member.take(context, chunk),
        }
    }

    #[inline(always)]
    fn push_part(&mut self, context: &Context, byte: u8) -> Result<bool, OutOfMemory> {
        match self.phase {
            SeriesPhase::InMember => return self.member.push(context, byte),
            SeriesPhase::Begin | SeriesPhase::Gap | SeriesPhase::Comma => return Ok(false),
        }
    }

    #[inline(always)]
    fn turn(&mut self, context: &Context, byte: u8) -> Result<bool, OutOfMemory> {
        match self.phase {
            SeriesPhase::Begin => {
                if byte == b' ' {
                    return Ok(true);
                }
                if !self.member.start(context, byte)? {
                    return Ok(false);
                }
                self.given = P::none(context);
                self.phase = SeriesPhase::InMember;
                return Ok(true);
            }
            SeriesPhase::Comma => {
                if is_ows(byte) {
                    return Ok(true);
                }
                if !self.member.start(context, byte)? {
                    return Ok(false);
                }
                self.phase = SeriesPhase::InMember;
                return Ok(true);
            }
            SeriesPhase::InMember => {
                if byte == b',' {
                    if !self.member.end(context, &mut self.given)? {
                        return Ok(false);
                    }
                    self.phase = SeriesPhase::Comma;
                    return Ok(true);
                }
                if !is_ows(byte) {
                    return Ok(false);
                }
                if !self.member.end(context, &mut self.given)? {
                    return Ok(false);
                }
                self.phase = SeriesPhase::Gap;
                return Ok(true);
            }
            SeriesPhase::Gap => {
                if is_ows(byte) {
                    return Ok(true);
                }
                if byte != b',' {
                    return Ok(false);
                }
                self.phase = SeriesPhase::Comma;
                return Ok(true);
            }
        }
    }

    fn expected(&self, dialect: Dialect) -> u128 {
        match self.phase {
            SeriesPhase::Begin => return SPACE | P::first_bytes(dialect),
            SeriesPhase::InMember => {
                return self.member.expected(dialect) | set_if(self.member.may_end(), AFTER_MEMBER);
            }
            SeriesPhase::Gap => return AFTER_MEMBER,
            SeriesPhase::Comma => return OWS | P::first_bytes(dialect),
        }
    }

    fn may_end(&self) -> bool {
        match self.phase {
            SeriesPhase::Begin | SeriesPhase::Gap => true,
            SeriesPhase::InMember => self.member.may_end(),
            SeriesPhase::Comma => false,
        }
    }
}

/// Whether whole members are all of a text, of which this rest is left after them.
pub fn are_all(phase: SeriesPhase, rest: &[u8]) -> bool
    ensures { result ≡ true → (rest.now ≡ []) × MayEnd phase }
{
    match phase {
        SeriesPhase::Begin | SeriesPhase::Gap => ends(rest),
        SeriesPhase::InMember | SeriesPhase::Comma => false,
    }
}

/// Adds the whole members that `text` begins with, and returns the rest. The text is whole at its
/// end: it is the suffix of a whole text. Each member is taken with the white space and the comma
/// after it; the last one may have neither.
#[inline(always)]
pub fn add_members<'a, P: SeriesMember<G>, G>(
    context: &Context,
    text: &'a [u8],
    phase: &mut SeriesPhase,
    given: &mut G,
) -> Result<&'a [u8], OutOfMemory>
    // A member may begin.
    requires may_begin { MayBegin P.none phase.old given.old }
    // The bytes before the rest lead to the new phase and value, whatever member was read last; or
    // no byte is left, and the value is that of the members.
    ensures goes { IfOk result (λ rest. (s : P) → TakesMembers
        (series_next (P.first context.now.dialect) (P.next context.now.dialect) P.added P.none)
        (series_end P.added P.none) true (series_of phase.old given.old s) text.now rest.now
        phase.new given.new s) }
    // No member is open.
    ensures none_open { IfOk result (λ _. NoneOpen P.none phase.new given.new) }
    // Before the first member spaces do not allocate.
    ensures allocation_free { (s : P) → SeriesFree (series_of phase.old given.old s) text.now
        → IsOk result }
{
    if !P::may_begin(text) {
        return Ok(text);
    }
    add_each_member::<P, G>(context, text, true, phase, given)
}

/// Whether whole members are looked for in a chunk: only if the first one may be whole. It is a
/// hint that saves time; no proof relies on it.
#[inline(always)]
fn may_add<P: SeriesMember<G>, G>(dialect: Dialect, chunk: &[u8]) -> bool {
    chunk.len() >= WHOLE_PARTS && P::may_begin(chunk) && has_end::<P, G>(dialect, chunk)
}

/// Whether the first member of a chunk may be whole in it. The chunk is searched for a comma only
/// if what comes after the bare item that is found, and after a parameter that is found next, is
/// allowed there, so that a chunk that is refused there isn't searched. No proof relies on it.
#[inline(always)]
fn has_end<P: SeriesMember<G>, G>(dialect: Dialect, chunk: &[u8]) -> bool {
    match P::begin(dialect, window(chunk)) {
        Some(Begun::Item(_, after)) => match split(after) {
            Some((b',' | b' ' | b'\t', _)) => true,
            Some((b';', _)) => begins_param(dialect, near(after)) && has_comma(after),
            _ => false,
        },
        Some(Begun::Inner(_, inside)) => has_comma(inside),
        None => false,
    }
}

/// Whether a member may be whole in this text: if a comma is near, or if `is_near` says that none
/// is needed, as in a whole text, or that [`has_end`] tested it, as for the first member of a
/// chunk. Another member is left to its reader, which would have to read it again. It is a hint
/// that saves time; no proof relies on it.
#[inline(always)]
fn may_be_whole(is_near: bool, text: &[u8]) -> bool {
    is_near || has_comma(text)
}

/// As [`add_members`], also for a chunk: [`add_members`] itself only tests whether there may be a
/// member, since a call clears its stack.
#[inline(never)]
fn add_each_member<'a, P: SeriesMember<G>, G>(
    context: &Context,
    text: &'a [u8],
    is_whole: bool,
    phase: &mut SeriesPhase,
    given: &mut G,
) -> Result<&'a [u8], OutOfMemory>
    // A member may begin.
    requires may_begin { MayBegin P.none phase.old given.old }
    // The bytes before the rest lead to the new phase and value, whatever member was read last; or
    // no byte is left of a whole text, and the value is that of the members.
    ensures goes { IfOk result (λ rest. (s : P) → TakesMembers
        (series_next (P.first context.now.dialect) (P.next context.now.dialect) P.added P.none)
        (series_end P.added P.none) is_whole (series_of phase.old given.old s) text.now rest.now
        phase.new given.new s) }
    // No member is open.
    ensures none_open { IfOk result (λ _. NoneOpen P.none phase.new given.new) }
    // Before the first member spaces do not allocate.
    ensures allocation_free { (s : P) → SeriesFree (series_of phase.old given.old s) text.now
        → IsOk result }
{
    let mut rest = text;
    let mut is_near = true;
    while is_whole || rest.len() >= WHOLE_PARTS {
        let left = add_member::<P, G>(context, rest, is_near, is_whole, phase, given)?;
        if !goes_on(*phase, rest, left) {
            return Ok(left);
        }
        rest = left;
        is_near = is_whole;
    }
    Ok(rest)
}

/// Whether a comma was read in a text, of which this is left, so that another member may begin. The
/// phase alone is not enough: if nothing was read, it is that of an earlier comma.
#[inline(always)]
fn goes_on(phase: SeriesPhase, text: &[u8], left: &[u8]) -> bool
    ensures comma { result ≡ true → phase ≡ phase_is.Comma }
    ensures less { result ≡ true → length left.now < length text.now }
{
    matches!(phase, SeriesPhase::Comma) && left.len() < text.len()
}

/// Adds the whole member that a text begins with, with the comma or the white space after it, and
/// returns the rest. If there is none, it returns all of the text. `is_near` is that of
/// [`may_be_whole`].
#[inline(always)]
fn add_member<'a, P: SeriesMember<G>, G>(
    context: &Context,
    text: &'a [u8],
    is_near: bool,
    is_whole: bool,
    phase: &mut SeriesPhase,
    given: &mut G,
) -> Result<&'a [u8], OutOfMemory>
    // A member may begin.
    requires may_begin { MayBegin P.none phase.old given.old }
    // The bytes before the rest lead to the new phase and value, whatever member was read last; or
    // no byte is left of a whole text, and the value is that of the members.
    ensures goes { IfOk result (λ rest. (s : P) → TakesMembers
        (series_next (P.first context.now.dialect) (P.next context.now.dialect) P.added P.none)
        (series_end P.added P.none) is_whole (series_of phase.old given.old s) text.now rest.now
        phase.new given.new s) }
    // No member is open.
    ensures none_open { IfOk result (λ _. NoneOpen P.none phase.new given.new) }
    // Before the first member spaces do not allocate.
    ensures allocation_free { (s : P) → SeriesFree (series_of phase.old given.old s) text.now
        → IsOk result }
{
    match P::begin(context.dialect, text) {
        Some(Begun::Item(found, after)) => {
            let Some((next, more)) = after_member(after, is_whole) else {
                if !may_begin_params(after) || !may_be_whole(is_near, after) {
                    return Ok(text);
                }
                return add_with_params::<P, G>(context, text, found, after, is_whole, phase, given);
            };
            let params = Entries::new(context.alloc, &context.seed);
            add_found::<P, G>(context, given, found, params)?;
            *phase = next;
            Ok(more)
        }
        Some(Begun::Inner(key, inside)) => {
            if !may_be_whole(is_near, inside) {
                return Ok(text);
            }
            add_inner::<P, G>(context, text, key, inside, is_whole, phase, given)
        }
        None => Ok(text),
    }
}

/// Adds a member that is an Item and that was found.
#[inline(always)]
fn add_found<P: SeriesMember<G>, G>(
    context: &Context,
    given: &mut G,
    found: Found<'_>,
    params: Entries<Bare>,
) -> Result<(), OutOfMemory>
    requires key { P.is_key found.key.now }
    requires leaf { IsLeaf found.leaf }
    ensures { OnOk result (given.new ≡ P.with given.old (found_member found.entry params)) }
{
    let bare = make(context, found.leaf)?;
    P::add(
        context,
        given,
        found.key,
        Member::Item(Item { bare, params }),
    )
}

/// Adds the member that a text begins with and that was found, with the parameters after it and the
/// comma or white space after those, and returns the rest. If they are not whole, it returns all of
/// the text. It is not inlined: a call clears its stack.
#[inline(never)]
fn add_with_params<'a, P: SeriesMember<G>, G>(
    context: &Context,
    text: &'a [u8],
    found: Found<'_>,
    after: &'a [u8],
    is_whole: bool,
    phase: &mut SeriesPhase,
    given: &mut G,
) -> Result<&'a [u8], OutOfMemory>
    // A member may begin.
    requires may_begin { MayBegin P.none phase.old given.old }
    requires begun { IsBegun P.is_key (P.first context.now.dialect) (P.next context.now.dialect)
        P.added P.with context.now.dialect text.now (begun_is.Item found after) }
    // The bytes before the rest lead to the new phase and value, whatever member was read last; or
    // no byte is left of a whole text, and the value is that of the members.
    ensures goes { IfOk result (λ rest. (s : P) → TakesMembers
        (series_next (P.first context.now.dialect) (P.next context.now.dialect) P.added P.none)
        (series_end P.added P.none) is_whole (series_of phase.old given.old s) text.now rest.now
        phase.new given.new s) }
    // No member is open.
    ensures none_open { IfOk result (λ _. NoneOpen P.none phase.new given.new) }
    // Before the first member spaces do not allocate.
    ensures allocation_free { (s : P) → SeriesFree (series_of phase.old given.old s) text.now
        → IsOk result }
{
    let mut params = Entries::new(context.alloc, &context.seed);
    let rest = read_params(context, after, &mut params)?;
    let Some((next, more)) = after_member(rest, is_whole) else {
        return Ok(text);
    };
    add_found::<P, G>(context, given, found, params)?;
    *phase = next;
    Ok(more)
}

/// Adds the member that a text begins with and that is an Inner List, of which this is left after its
/// opening bracket, with the comma or white space after it, and returns the rest. If the member is
/// not whole, it returns all of the text. It is not inlined: a call clears its stack.
#[inline(never)]
fn add_inner<'a, P: SeriesMember<G>, G>(
    context: &Context,
    text: &'a [u8],
    key: &[u8],
    inside: &'a [u8],
    is_whole: bool,
    phase: &mut SeriesPhase,
    given: &mut G,
) -> Result<&'a [u8], OutOfMemory>
    // A member may begin.
    requires may_begin { MayBegin P.none phase.old given.old }
    requires begun { IsBegun P.is_key (P.first context.now.dialect) (P.next context.now.dialect)
        P.added P.with context.now.dialect text.now (begun_is.Inner key inside) }
    // The bytes before the rest lead to the new phase and value, whatever member was read last; or
    // no byte is left of a whole text, and the value is that of the members.
    ensures goes { IfOk result (λ rest. (s : P) → TakesMembers
        (series_next (P.first context.now.dialect) (P.next context.now.dialect) P.added P.none)
        (series_end P.added P.none) is_whole (series_of phase.old given.old s) text.now rest.now
        phase.new given.new s) }
    // No member is open.
    ensures none_open { IfOk result (λ _. NoneOpen P.none phase.new given.new) }
    // Before the first member spaces do not allocate.
    ensures allocation_free { (s : P) → SeriesFree (series_of phase.old given.old s) text.now
        → IsOk result }
{
    let (inner, after) = match read_inner(context, inside) {
        Ok(read) => read,
        Err(Unread::NotWhole) => return Ok(text),
        Err(Unread::OutOfMemory) => return Err(OutOfMemory),
    };
    let Some((next, more)) = after_member(after, is_whole) else {
        return Ok(text);
    };
    P::add(context, given, key, Member::Inner(inner))?;
    *phase = next;
    Ok(more)
}

/// The phase after a member, and the rest: after white space, a comma and white space; or after
/// white space alone, of which there may be none only at the end of a whole text.
#[inline(always)]
fn after_member(text: &[u8], is_whole: bool) -> Option<(SeriesPhase, &[u8])>
    ensures { IfSome result (λ r. IsAfterMember is_whole text.now r.0 r.1.now) }
{
    let (white, end) = few_prefix::<Ows>(text);
    let Some(more) = strip_byte(end, b',') else {
        if !ends(white) {
            return Some((SeriesPhase::Gap, end));
        }
        if !is_whole || !ends(end) {
            return None;
        }
        return Some((SeriesPhase::Gap, end));
    };
    let (_, rest) = few_prefix::<Ows>(more);
    Some((SeriesPhase::Comma, rest))
}
