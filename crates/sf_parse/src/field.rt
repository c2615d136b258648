//! Whole texts, each parsed by the reader of its kind (RFC 9651 section 4.2).
ghost use Rattle.std.specs.Option.{option_map};
ghost use Rattle.std.specs.Prelude.{◌≡◌, ℕ, List as Seq, [], IfOk, IsOk, IfErr, refl};
ghost use Rattle.sf_value.specs.declared.dialect.Dialect.{Dialect};
ghost use Rattle.sf_value.specs.declared.value.Field.{Field};
ghost use Rattle.sf_value.specs.declared.value.Field.TheVariants as field_is;
ghost use Rattle.sf_value.specs.declared.value.Kind.{Kind};
ghost use Rattle.sf_value.specs.declared.value.Kind.TheVariants as kind_is;
ghost use Rattle.sf_parse.specs.Parsers.{IsOnly, Parses, Makes, NeedsValue};
ghost use Rattle.sf_parse.specs.AllocationFree.{TakesNoMemory, FieldFree};
ghost use Rattle.sf_parse.specs.AllocationFreeParsers.{IsOther};
ghost use Rattle.sf_parse.specs.FieldSteps.{item_field_steps, list_steps, dict_steps};
ghost use Rattle.sf_parse.specs.FieldSteps.{list_ends, dict_ends};
ghost use Rattle.sf_parse.specs.Machine.States.{State, InList, InDict};
ghost use Rattle.sf_parse.specs.Machine.Fields.{begin as begin_at, step as step_of};
ghost use Rattle.sf_parse.specs.Machine.Fields.{finish as finish_of};
ghost use Rattle.sf_parse.specs.Machine.Tests.{may_end as may_end_at};

use crate::context::Context;
use crate::entry::EntryReader;
use crate::item_field::ItemFieldReader;
use crate::leaf::{find_leaf, make};
use crate::level::Level;
use crate::member::MemberReader;
use crate::refusal::Refusal;
use crate::refusing::refuse_text;
use crate::series::{SeriesPhase, SeriesReader, add_members, are_all};
use crate::whole_parts::read_params;
use sf_value::classes::{after_spaces, ends};
use sf_value::{Dict, Entries, Item, Kind, List, Member, OutOfMemory, Sequence};

/// The members of a List that are being read.
pub type ListReader = SeriesReader<MemberReader, Sequence<Member>>;

/// The members of a Dictionary that are being read.
pub type DictReader = SeriesReader<EntryReader, Entries<Member>>;

/// A field of one kind that is being read.
pub trait WholeField: Level + Drop {
    /// The type of a whole field of the kind.
    type Whole;

    // The kind.
    ghost kind: { Kind };

    // The field that it is.
    ghost field: { Self.Whole → Field };

    // The state of the machine of fields that corresponds to what was read.
    ghost state: { Self → State };

    /// Before the first byte. It does not allocate.
    fn begin(context: &Context) -> Self
        // Its state is the first one of its kind.
        ensures { state result ≡ begin_at kind };

    /// The field, if it may end here. Its value is taken out of the reader.
    fn finish_whole(&mut self, context: &Context) -> Result<Option<Self::Whole>, OutOfMemory>
        // The field is the value that the state has at the end, if it has one.
        ensures value { IfOk result (λ whole. option_map field whole ≡ finish_of (state self.old)) }
        // If the state is allocation-free, the call does not fail.
        ensures allocation_free { FieldFree (state self.old) [] → IsOk result };

    // The machine of fields takes the same steps as the level, and may end exactly if it may.
    ghost steps: { (d : Dialect) (s : Self) (b : ℕ)
        → step_of d (state s) b ≡ option_map state (Self.next d s b) };

    ghost ends_too: { (s : Self) → Self.ends s ≡ may_end_at (state s) };

    // If the state is allocation-free for some bytes, so is the level.
    ghost free_too: { (d : Dialect) (s : Self) (more : Seq ℕ) → FieldFree (state s) more
        → Self.allocation_free d s more };
}

impl WholeField for ItemFieldReader {
    type Whole = Item;

    ghost kind = { kind_is.Item };

    ghost field = { field_is.Item };

    ghost state = { λ s. s };

    ghost steps = { item_field_steps };

    ghost ends_too = { λ s. refl };

    ghost free_too = { λ d s more h. h };

    fn begin(context: &Context) -> ItemFieldReader {
        ItemFieldReader::new(context)
    }

    fn finish_whole(&mut self, context: &Context) -> Result<Option<Item>, OutOfMemory> {
        self.finish(context)
    }
}

impl WholeField for ListReader {
    type Whole = List;

    ghost kind = { kind_is.List };

    ghost field = { field_is.List };

    ghost state = { InList };

    ghost steps = { list_steps };

    ghost ends_too = { list_ends };

    ghost free_too = { λ d s more h. h };

    fn begin(context: &Context) -> ListReader {
        SeriesReader::new(context, MemberReader::new(context))
    }

    fn finish_whole(&mut self, context: &Context) -> Result<Option<List>, OutOfMemory> {
        match self.finish(context)? {
            Some(members) => Ok(Some(List { members })),
            None => Ok(None),
        }
    }
}

impl WholeField for DictReader {
    type Whole = Dict;

    ghost kind = { kind_is.Dict };

    ghost field = { field_is.Dict };

    ghost state = { InDict };

    ghost steps = { dict_steps };

    ghost ends_too = { dict_ends };

    ghost free_too = { λ d s more h. h };

    fn begin(context: &Context) -> DictReader {
        SeriesReader::new(context, EntryReader::new(context))
    }

    fn finish_whole(&mut self, context: &Context) -> Result<Option<Dict>, OutOfMemory> {
        match self.finish(context)? {
            Some(members) => Ok(Some(Dict { members })),
            None => Ok(None),
        }
    }
}

/// A field of one kind that is parsed from a whole text.
pub trait WholeText: WholeField {
    /// The field of this kind that the text spells, or the exact refusal of the text. What is whole
    /// in the text is read directly, without a reader.
    fn parse(context: &Context, text: &[u8]) -> Result<Self::Whole, Refusal>
        // The text spells only this value, or this is its exact refusal; otherwise an allocation
        // failed.
        ensures parses { Makes Self.WholeField.field
            (Parses context.now.dialect Self.WholeField.kind text.now) result }
        // An allocation-free text is not refused as out of memory.
        ensures allocation_free { TakesNoMemory Self.WholeField.kind text.now
            → IfErr result IsOther }
        // A malformed text is not refused as out of memory.
        ensures needs_value { NeedsValue context.now.dialect Self.WholeField.kind text.now result };
}

impl WholeText for ItemFieldReader {
    fn parse(context: &Context, text: &[u8]) -> Result<Item, Refusal> {
        let inside = after_spaces(text);
        let Some((leaf, after)) = find_leaf(context.dialect, inside) else {
            return refuse_or_read::<ItemFieldReader>(context, Kind::Item, text);
        };
        let mut params = Entries::new(context.alloc, &context.seed);
        let Ok(rest) = read_params(context, after, &mut params) else {
            return refuse_unbuilt::<ItemFieldReader>(context, Kind::Item, text);
        };
        if ends(after_spaces(rest)) {
            return match make(context, leaf) {
                Ok(bare) => Ok(Item { bare, params }),
                Err(_) => refuse_unbuilt::<ItemFieldReader>(context, Kind::Item, text),
            };
        }
        drop(params);
        refuse_or_read::<ItemFieldReader>(context, Kind::Item, text)
    }
}

impl WholeText for ListReader {
    fn parse(context: &Context, text: &[u8]) -> Result<List, Refusal> {
        let mut phase = SeriesPhase::Begin;
        let mut members = Sequence::new(context.alloc);
        match add_members::<MemberReader, Sequence<Member>>(
            context,
            after_spaces(text),
            &mut phase,
            &mut members,
        ) {
            Ok(rest) => {
                if are_all(phase, rest) {
                    return Ok(List { members });
                }
            }
            Err(_) => return refuse_unbuilt::<ListReader>(context, Kind::List, text),
        }
        drop(members);
        refuse_or_read::<ListReader>(context, Kind::List, text)
    }
}

impl WholeText for DictReader {
    fn parse(context: &Context, text: &[u8]) -> Result<Dict, Refusal> {
        let mut phase = SeriesPhase::Begin;
        let mut members = Entries::new(context.alloc, &context.seed);
        match add_members::<EntryReader, Entries<Member>>(
            context,
            after_spaces(text),
            &mut phase,
            &mut members,
        ) {
            Ok(rest) => {
                if are_all(phase, rest) {
                    return Ok(Dict { members });
                }
            }
            Err(_) => return refuse_unbuilt::<DictReader>(context, Kind::Dict, text),
        }
        drop(members);
        refuse_or_read::<DictReader>(context, Kind::Dict, text)
    }
}

/// The field of this kind that the text spells, or the exact refusal of the text.
pub fn parse_whole<W: WholeText>(context: &Context, text: &[u8]) -> Result<W::Whole, Refusal>
    // The text spells only this value, or this is its exact refusal; otherwise an allocation
    // failed.
    ensures parses { Makes W.field (Parses context.now.dialect W.kind text.now) result }
    // An allocation-free text is not refused as out of memory.
    ensures allocation_free { TakesNoMemory W.kind text.now → IfErr result IsOther }
    // A malformed text is not refused as out of memory.
    ensures needs_value { NeedsValue context.now.dialect W.kind text.now result }
{
    W::parse(context, text)
}

/// Refuses a text of which not all was read directly. If it is well-formed after all, the reader of
/// its kind reads all of it: no contract says that such a text is read directly. It is not inlined,
/// nor is [`read_text`]: a text that is read directly would pay for clearing their stack.
#[inline(never)]
fn refuse_or_read<W: WholeField>(
    context: &Context,
    kind: Kind,
    text: &[u8],
) -> Result<W::Whole, Refusal>
    requires { kind ≡ W.kind }
    // The text spells only this value, or this is its exact refusal; otherwise an allocation
    // failed.
    ensures parses { Makes W.field (Parses context.now.dialect W.kind text.now) result }
    // An allocation-free text is not refused as out of memory.
    ensures allocation_free { TakesNoMemory W.kind text.now → IfErr result IsOther }
    ensures needs_value { NeedsValue context.now.dialect W.kind text.now result }
{
    match refuse_text(context.dialect, kind, text) {
        Some(refusal) => Err(refusal),
        None => read_text::<W>(context, text),
    }
}

/// Refuses a text for which an allocation failed: for its mistake, if it has one.
#[inline(never)]
fn refuse_unbuilt<W: WholeField>(
    context: &Context,
    kind: Kind,
    text: &[u8],
) -> Result<W::Whole, Refusal>
    requires { kind ≡ W.kind }
    ensures parses { Makes W.field (Parses context.now.dialect W.kind text.now) result }
    ensures needs_value { NeedsValue context.now.dialect W.kind text.now result }
{
    match refuse_text(context.dialect, kind, text) {
        Some(refusal) => Err(refusal),
        None => Err(Refusal::OutOfMemory),
    }
}

/// Reads a text by the reader of its kind.
#[inline(never)]
fn read_text<W: WholeField>(context: &Context, text: &[u8]) -> Result<W::Whole, Refusal>
    requires { (v : Field) × IsOnly context.now.dialect W.kind text.now v }
    // The text spells only this value, or this is its exact refusal; otherwise an allocation
    // failed.
    ensures parses { Makes W.field (Parses context.now.dialect W.kind text.now) result }
    // An allocation-free text is not refused as out of memory.
    ensures allocation_free { TakesNoMemory W.kind text.now → IfErr result IsOther }
    ensures needs_value { NeedsValue context.now.dialect W.kind text.now result }
{
    let mut field = W::begin(context);
    let rest = field.take(context, text)?;
    let found = rest.first().copied();
    let may_end = field.may_end();
    if found.is_some() || !may_end {
        let place = (text.len() - rest.len()) as u64;
        return Err(field.refuse(context.dialect, place, found));
    }
    match field.finish_whole(context)? {
        Some(value) => Ok(value),
        None => unreachable!(),
    }
}
