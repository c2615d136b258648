//! The canonical text of a view, written from its nodes (RFC 9651 section 4.1).
ghost use Rattle.std.specs.Prelude.{◌≡◌, ◌≤◌, ◌<◌, ◌∷◌, [], ℕ, List as Seq, IfSome, length};
ghost use Rattle.sf_value.specs.declared.dialect.Dialect.{Dialect as Which};
ghost use Rattle.sf_value.specs.declared.value.Bare.{Bare as Value};
ghost use Rattle.sf_value.specs.declared.value.Bare.TheVariants as value_is;
ghost use Rattle.sf_value.specs.declared.value.Field.{Field as FieldValue};
ghost use Rattle.sf_value.specs.declared.value.Inner.{Inner as InnerValue};
ghost use Rattle.sf_value.specs.declared.value.Item.{Item as ItemValue};
ghost use Rattle.sf_value.specs.declared.value.Member.{Member as MemberValue};
ghost use Rattle.sf_value.specs.Grammar.ByteSequences.{SpellsByteSequence};
ghost use Rattle.sf_value.specs.Grammar.DisplayStrings.{SpellsDisplayString};
ghost use Rattle.sf_value.specs.Grammar.Canonical.{canon, canon_bare, canon_base64, canon_shown};
ghost use Rattle.sf_value.specs.Grammar.Canonical.{canon_params, canon_item, canon_items, canon_inner};
ghost use Rattle.sf_value.specs.Grammar.Canonical.{canon_member, canon_behind, canon_entry, canon_series};
ghost use Rattle.sf_value.specs.Grammar.Canonical.{canon_flag, canon_value};
ghost use Rattle.sf_value.specs.Grammar.Fields.{kind_of};
ghost use Rattle.sf_value.specs.Grammar.Pairs.{Pairs};
ghost use Rattle.sf_write.specs.Writing.{Follows, WritesText};
ghost use Rattle.sf_view.specs.declared.node_types.Role.{Role as Place};
ghost use Rattle.sf_view.specs.declared.bytes.Coding.TheVariants as coding_is;
ghost use Rattle.sf_view.specs.View.{DescribesText, DescribesItem, DescribesItems, DescribesInner};
ghost use Rattle.sf_view.specs.View.{DescribesParams, DescribesMember, DescribesMembers};
ghost use Rattle.sf_view.specs.View.{DescribesEntries, DescribesField};
ghost use Rattle.sf_view.specs.Decoding.{Remains};
ghost use Rattle.sf_view.specs.CanonicalParts.{canon_param, encoding, is_flag, CanonicalRun, IsNeededEscape};
ghost use Rattle.sf_view.specs.Views.{IsBorrowed};

use crate::bytes::{Coding, fill, first_of, unencoded};
use crate::view::{BareView, Slice, View};
use sf_value::classes::{UnencodedByte, Unescaped, ends, long_prefix};
use sf_value::{Kind, Sink, stands_for_itself};
use sf_write::{
    Sent, WriteFault, percent_escape, put, put_base64, put_blob, put_boolean, put_display_string,
    put_number, put_seconds, put_string, put_thousandths,
};

/// Writes the canonical text of the field of this kind that a view shows, as [`write_view`] does,
/// after what was sent before, as [`sf_write::put`] does. Does not allocate.
///
/// ```
/// let sent = put_view(&view, Kind::Dict, Ok(0), &mut out);
/// let count = put(b"\n", sent, &mut out)?;
/// ```
pub fn put_view<W: Sink>(view: &View, kind: Kind, before: Sent, out: &mut W) -> Sent
    // Whatever field of the kind the nodes describe, its canonical text follows.
    ensures { (d : Which) (v : FieldValue)
        → DescribesField d view.now.text.now view.now.nodes.now v
        → kind_of v ≡ kind
        → Follows W.state W.send_gives out.old out.new before result (canon v) }
{
    match kind {
        Kind::Item => return put_item(*view, before, out),
        Kind::List => return put_members(*view, before, out),
        Kind::Dict => return put_entries(*view, before, out),
    }
}

/// Writes the canonical text (RFC 9651 section 4.1) of the field of this kind that a view shows to
/// a sink, part by part, and returns its length in bytes. The text is the one that
/// [`sf_write::write_field`] writes of the field, and so are the results. Does not allocate.
///
/// ```
/// let view = View::scan(Dialect::Rfc9651, Kind::Dict, b"u=1,  i=?1", &mut nodes)?;
/// let length = write_view(&view, Kind::Dict, &mut out)?; // 6: u=1, i
/// ```
pub fn write_view<W: Sink>(view: &View, kind: Kind, out: &mut W) -> Result<u64, WriteFault>
    // Whatever field of the kind the nodes describe, its whole canonical text was written, or
    // exactly its first `written` bytes and then a send failed. If one fails when the count is
    // saturated, nothing is claimed of which bytes were written.
    ensures { (d : Which) (v : FieldValue)
        → DescribesField d view.now.text.now view.now.nodes.now v
        → kind_of v ≡ kind
        → WritesText (W.state out.old) (W.state out.new) result (canon v) }
{
    put_view(view, kind, Ok(0), out)
}

/// Writes the canonical text of the member of a Dictionary that a view shows, with its key, after
/// what was sent before, as [`sf_write::put`] does. Does not allocate.
///
/// ```
/// let (member, others) = view.split_first()?;
/// let sent = put_entry_view(&member, Ok(0), &mut out);
/// let sent = put(b", x", sent, &mut out);
/// ```
#[inline(always)]
pub fn put_entry_view<W: Sink>(view: &View, before: Sent, out: &mut W) -> Sent
    // Whatever member the nodes describe, its canonical text follows.
    ensures { (d : Which) (k : Seq ℕ) (m : MemberValue)
        → DescribesMember d view.now.text.now k view.now.nodes.now m
        → Follows W.state W.send_gives out.old out.new before result (canon_entry (k, m)) }
{
    put_entry(*view, before, out)
}

/// Writes the canonical text of a bare item that borrows a text after what was sent before, as
/// [`sf_write::put_bare`] does of a bare item. Does not allocate.
///
/// ```
/// let sent = put(b"q=", Ok(0), &mut out);
/// let count = put_bare_view(&BareView::Integer(1), sent, &mut out)?; // 3
/// ```
#[inline(always)]
pub fn put_bare_view<W: Sink>(bare: &BareView, before: Sent, out: &mut W) -> Sent
    // Whatever bare item this is, its canonical text follows.
    ensures { (d : Which) (x : Value) → IsBorrowed d bare.now x
        → Follows W.state W.send_gives out.old out.new before result (canon_bare x) }
{
    match bare {
        BareView::Integer(number) => return put_number(*number, before, out),
        BareView::Decimal(number) => return put_thousandths(*number, before, out),
        BareView::Text(slice) => return put_text(*slice, before, out),
        BareView::Token(bytes) => return put(bytes, before, out),
        BareView::Blob(slice) => return put_bytes(*slice, before, out),
        BareView::Boolean(value) => return put_boolean(*value, before, out),
        BareView::Date(second) => return put_seconds(*second, before, out),
        BareView::Shown(slice) => return put_shown(*slice, before, out),
    }
}

/// Writes a String. The text of a coded one is canonical: a String has one text only. One that is
/// not coded needs escapes only in nodes that no scan made.
fn put_text<W: Sink>(slice: Slice, before: Sent, out: &mut W) -> Sent
    ensures { (d : Which) (t : Seq ℕ)
        → DescribesText d slice.entry.coded slice.entry.bytes.now (value_is.Text t)
        → Follows W.state W.send_gives out.old out.new before result
        (canon_bare (value_is.Text t)) }
{
    if slice.coded {
        return put(slice.bytes, before, out);
    }
    let (_, escaped) = long_prefix::<Unescaped>(slice.bytes);
    if !ends(escaped) {
        return put_string(slice.bytes, before, out);
    }
    let sent = put(b"\"", before, out);
    let sent = put(slice.bytes, sent, out);
    put(b"\"", sent, out)
}

/// Writes a Byte Sequence.
fn put_bytes<W: Sink>(slice: Slice, before: Sent, out: &mut W) -> Sent
    ensures { (d : Which) (t : Seq ℕ)
        → DescribesText d slice.entry.coded slice.entry.bytes.now (value_is.Blob t)
        → Follows W.state W.send_gives out.old out.new before result
        (canon_bare (value_is.Blob t)) }
{
    if slice.coded {
        return put_base64_text(slice.bytes, before, out);
    }
    put_blob(slice.bytes, before, out)
}

/// Writes a Byte Sequence of this text.
fn put_base64_text<W: Sink>(text: &[u8], before: Sent, out: &mut W) -> Sent
    ensures { (t : Seq ℕ) → SpellsByteSequence text.now t
        → Follows W.state W.send_gives out.old out.new before result
        (canon_bare (value_is.Blob t)) }
{
    let Some((_, inside)) = first_of(text) else {
        return before;
    };
    let sent = put(b":", before, out);
    put_groups(inside, sent, out)
}

/// Writes the base64 of a Byte Sequence and the colon after it. Whole groups are sent as they are,
/// and the last one is encoded again, with its padding and without pad bits.
fn put_groups<W: Sink>(text: &[u8], before: Sent, out: &mut W) -> Sent
    ensures { (t : Seq ℕ) → Remains coding_is.First text.now t
        → Follows W.state W.send_gives out.old out.new before result (canon_base64 t) }
{
    // After these characters the rest spells at most three bytes.
    let whole = text.len().saturating_sub(2) / 4 * 4;
    let (groups, rest) = text.split_at(whole);
    let sent = put(groups, before, out);
    let mut bytes = [0; 3];
    let Some(count) = fill(Coding::First, rest, &mut bytes) else {
        return sent;
    };
    put_base64(&bytes[..count], sent, out)
}

/// Writes a Display String.
fn put_shown<W: Sink>(slice: Slice, before: Sent, out: &mut W) -> Sent
    ensures { (d : Which) (t : Seq ℕ)
        → DescribesText d slice.entry.coded slice.entry.bytes.now (value_is.Shown t)
        → Follows W.state W.send_gives out.old out.new before result
        (canon_bare (value_is.Shown t)) }
{
    if slice.coded {
        return put_shown_text(slice.bytes, before, out);
    }
    put_display_string(slice.bytes, before, out)
}

/// Writes a Display String of this text. Its unescaped bytes are sent as they are, and an escape
/// only if its byte needs one.
fn put_shown_text<W: Sink>(text: &[u8], before: Sent, out: &mut W) -> Sent
    ensures { (t : Seq ℕ) → SpellsDisplayString text.now t
        → Follows W.state W.send_gives out.old out.new before result
        (canon_bare (value_is.Shown t)) }
{
    let Some((_, quoted)) = first_of(text) else {
        return before;
    };
    let Some((_, inside)) = first_of(quoted) else {
        return before;
    };
    let sent = put(b"%\"", before, out);
    put_encoded(inside, sent, out)
}

/// Writes the bytes of a Display String and the quote after them.
fn put_encoded<W: Sink>(text: &[u8], before: Sent, out: &mut W) -> Sent
    ensures { (t : Seq ℕ) → Remains coding_is.Percent text.now t
        → Follows W.state W.send_gives out.old out.new before result (canon_shown t) }
{
    let mut sent = before;
    let mut rest = text;
    loop {
        let (canonical, stop) = canonical_prefix(rest);
        sent = put(canonical, sent, out);
        let Some((byte, later)) = unencoded(stop) else {
            return put(b"\"", sent, out);
        };
        sent = put_shown_byte(byte, sent, out);
        rest = later;
    }
}

/// The bytes of a Display String that are canonical as they are, up to the first escape that is not
/// needed or the quote, and the rest.
fn canonical_prefix(text: &[u8]) -> (&[u8], &[u8])
    ensures run { (t : Seq ℕ) → Remains coding_is.Percent text.now t
        → CanonicalRun result.0.now result.1.now t }
    ensures shorter { length result.1.now ≤ length text.now }
{
    let mut rest = text;
    loop {
        let (_, stop) = long_prefix::<UnencodedByte>(rest);
        let Some(later) = needed_escape(stop) else {
            return text.split_at(text.len().saturating_sub(stop.len()));
        };
        rest = later;
    }
}

/// The rest after the escape of a byte that needs one; `None` if the text begins with none.
#[inline]
fn needed_escape(text: &[u8]) -> Option<&[u8]>
    ensures escape { IfSome result (λ rest. IsNeededEscape text.now rest.now) }
    ensures shorter { IfSome result (λ rest. length rest.now < length text.now) }
{
    let Some((byte, _)) = unencoded(text) else {
        return None;
    };
    if stands_for_itself(byte) {
        return None;
    }
    match text {
        [_, _, _, rest @ ..] => return Some(rest),
        _ => return None,
    }
}

/// Writes a byte of a Display String: itself, or its escape if it needs one.
fn put_shown_byte<W: Sink>(byte: u8, before: Sent, out: &mut W) -> Sent
    ensures { Follows W.state W.send_gives out.old out.new before result (encoding byte) }
{
    if stands_for_itself(byte) {
        return put(&[byte], before, out);
    }
    put(&percent_escape(byte), before, out)
}

/// Whether a value is Boolean true, which is written as its key alone.
fn is_true(bare: &BareView) -> bool
    ensures { result ≡ is_flag bare.now }
{
    matches!(bare, BareView::Boolean(true))
}

/// Writes what follows a key: nothing for Boolean true, otherwise `=` and the bare item.
#[inline(always)]
fn put_value<W: Sink>(bare: &BareView, before: Sent, out: &mut W) -> Sent
    ensures { (d : Which) (x : Value) → IsBorrowed d bare.now x
        → Follows W.state W.send_gives out.old out.new before result (canon_value x) }
{
    if is_true(bare) {
        return before;
    }
    let sent = put(b"=", before, out);
    put_bare_view(bare, sent, out)
}

/// Writes a parameter: `;`, its key and its value.
#[inline(always)]
fn put_param<W: Sink>(param: View, before: Sent, out: &mut W) -> Sent
    ensures { (d : Which) (r : Place) (k : Seq ℕ) (x : Value)
        → DescribesParams d param.entry.text.now r param.entry.nodes.now ((k, x) ∷ [])
        → Follows W.state W.send_gives out.old out.new before result (canon_param (k, x)) }
{
    let Some(value) = param.bare() else {
        return before;
    };
    let sent = put(b";", before, out);
    let sent = put(param.key(), sent, out);
    put_value(&value, sent, out)
}

/// Writes parameters. Without parameters it costs no call.
#[inline(always)]
fn put_params<W: Sink>(view: View, before: Sent, out: &mut W) -> Sent
    ensures { (d : Which) (r : Place) (ps : Pairs Value)
        → DescribesParams d view.entry.text.now r view.entry.nodes.now ps
        → Follows W.state W.send_gives out.old out.new before result (canon_params ps) }
{
    if view.nodes.is_empty() {
        return before;
    }
    put_each_param(view, before, out)
}

/// As [`put_params`].
#[inline(never)]
fn put_each_param<W: Sink>(view: View, before: Sent, out: &mut W) -> Sent
    ensures { (d : Which) (r : Place) (ps : Pairs Value)
        → DescribesParams d view.entry.text.now r view.entry.nodes.now ps
        → Follows W.state W.send_gives out.old out.new before result (canon_params ps) }
{
    let mut sent = before;
    let mut rest = view;
    loop {
        let Some((param, others)) = rest.split_first() else {
            return sent;
        };
        sent = put_param(param, sent, out);
        rest = others;
    }
}

/// Writes an Item: its bare item and its parameters.
#[inline(always)]
fn put_item<W: Sink>(view: View, before: Sent, out: &mut W) -> Sent
    ensures { (d : Which) (r : Place) (k : Seq ℕ) (i : ItemValue)
        → DescribesItem d view.entry.text.now r k view.entry.nodes.now i
        → Follows W.state W.send_gives out.old out.new before result (canon_item i) }
{
    let Some(bare) = view.bare() else {
        return before;
    };
    let sent = put_bare_view(&bare, before, out);
    put_params(view.params(), sent, out)
}

/// Writes the Items of an Inner List, with one space between two.
fn put_items<W: Sink>(view: View, before: Sent, out: &mut W) -> Sent
    ensures { (d : Which) (is : Seq ItemValue)
        → DescribesItems d view.entry.text.now view.entry.nodes.now is
        → Follows W.state W.send_gives out.old out.new before result (canon_items is) }
{
    let Some((first, others)) = view.split_first() else {
        return before;
    };
    let mut sent = put_item(first, before, out);
    let mut rest = others;
    loop {
        let Some((part, others)) = rest.split_first() else {
            return sent;
        };
        sent = put(b" ", sent, out);
        sent = put_item(part, sent, out);
        rest = others;
    }
}

/// Writes an Inner List, whose Items are these: in parentheses, and its parameters.
fn put_inner<W: Sink>(items: View, params: View, before: Sent, out: &mut W) -> Sent
    ensures { (d : Which) (l : InnerValue)
        → DescribesItems d items.entry.text.now items.entry.nodes.now l.items
        → (r : Place) → DescribesParams d params.entry.text.now r params.entry.nodes.now l.params
        → Follows W.state W.send_gives out.old out.new before result (canon_inner l) }
{
    let sent = put(b"(", before, out);
    let sent = put_items(items, sent, out);
    let sent = put(b")", sent, out);
    put_params(params, sent, out)
}

/// Writes a member of a List: an Item or an Inner List.
#[inline(always)]
fn put_member<W: Sink>(view: View, before: Sent, out: &mut W) -> Sent
    ensures { (d : Which) (k : Seq ℕ) (m : MemberValue)
        → DescribesMember d view.entry.text.now k view.entry.nodes.now m
        → Follows W.state W.send_gives out.old out.new before result (canon_member m) }
{
    match view.items() {
        Some(items) => return put_inner(items, view.params(), before, out),
        None => return put_item(view, before, out),
    }
}

/// Writes an Item after its key: only its parameters if it is Boolean true, otherwise `=` and its
/// text.
#[inline(always)]
fn put_item_after<W: Sink>(view: View, before: Sent, out: &mut W) -> Sent
    ensures { (d : Which) (r : Place) (k : Seq ℕ) (i : ItemValue)
        → DescribesItem d view.entry.text.now r k view.entry.nodes.now i
        → Follows W.state W.send_gives out.old out.new before result
        (canon_flag i.bare i.params) }
{
    let Some(bare) = view.bare() else {
        return before;
    };
    let sent = put_value(&bare, before, out);
    put_params(view.params(), sent, out)
}

/// Writes what follows the key of a member.
#[inline(always)]
fn put_after<W: Sink>(view: View, before: Sent, out: &mut W) -> Sent
    ensures { (d : Which) (k : Seq ℕ) (m : MemberValue)
        → DescribesMember d view.entry.text.now k view.entry.nodes.now m
        → Follows W.state W.send_gives out.old out.new before result (canon_behind m) }
{
    match view.items() {
        Some(items) => {
            let sent = put(b"=", before, out);
            return put_inner(items, view.params(), sent, out);
        }
        None => return put_item_after(view, before, out),
    }
}

/// Writes a member of a Dictionary: its key and what follows the key.
#[inline(always)]
fn put_entry<W: Sink>(view: View, before: Sent, out: &mut W) -> Sent
    ensures { (d : Which) (k : Seq ℕ) (m : MemberValue)
        → DescribesMember d view.entry.text.now k view.entry.nodes.now m
        → Follows W.state W.send_gives out.old out.new before result (canon_entry (k, m)) }
{
    let sent = put(view.key(), before, out);
    put_after(view, sent, out)
}

/// Writes a List: its members, with a comma and a space between two.
fn put_members<W: Sink>(view: View, before: Sent, out: &mut W) -> Sent
    ensures { (d : Which) (ms : Seq MemberValue)
        → DescribesMembers d view.entry.text.now view.entry.nodes.now ms
        → Follows W.state W.send_gives out.old out.new before result
        (canon_series canon_member ms) }
{
    let Some((first, others)) = view.split_first() else {
        return before;
    };
    let mut sent = put_member(first, before, out);
    let mut rest = others;
    loop {
        let Some((part, others)) = rest.split_first() else {
            return sent;
        };
        sent = put(b", ", sent, out);
        sent = put_member(part, sent, out);
        rest = others;
    }
}

/// Writes a Dictionary: its members, with a comma and a space between two.
fn put_entries<W: Sink>(view: View, before: Sent, out: &mut W) -> Sent
    ensures { (d : Which) (ps : Pairs MemberValue)
        → DescribesEntries d view.entry.text.now view.entry.nodes.now ps
        → Follows W.state W.send_gives out.old out.new before result
        (canon_series canon_entry ps) }
{
    let Some((first, others)) = view.split_first() else {
        return before;
    };
    let mut sent = put_entry(first, before, out);
    let mut rest = others;
    loop {
        let Some((part, others)) = rest.split_first() else {
            return sent;
        };
        sent = put(b", ", sent, out);
        sent = put_entry(part, sent, out);
        rest = others;
    }
}
