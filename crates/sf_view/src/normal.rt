//! Canonical texts, in memory.
ghost use Rattle.std.specs.Prelude.{◌≡◌, ℕ, List as Seq, IfOk, IfSome, MatchResult, Err};
ghost use Rattle.sf_value.specs.declared.dialect.Dialect.{Dialect as Which};
ghost use Rattle.sf_value.specs.declared.value.Field.{Field as FieldValue};
ghost use Rattle.sf_value.specs.Grammar.Canonical.{canon};
ghost use Rattle.sf_value.specs.Grammar.Fields.{kind_of};
ghost use Rattle.sf_parse.specs.Parsers.{Parses};
ghost use Rattle.sf_view.specs.View.{DescribesField};
ghost use Rattle.sf_view.specs.Views.{IsViewed};
ghost use Rattle.sf_view.specs.CanonicalParts.{IsCanonicalOf};
ghost use Rattle.sf_view.specs.Settling.{IsRaw};

use crate::declined::parse_declined;
use crate::growing::{grown_parts, scan_or_settle};
use crate::node::Node;
use crate::series::scan_parts;
use crate::settling::{STACK_NODES, settle_few};
use crate::view::{Unviewed, View};
use crate::writing::write_view;
use sf_parse::Refusal;
use sf_value::{Dialect, Kind, OutOfMemory, Writing};
use sf_write::to_text;
use std::alloc::Global;
use std::hash::RandomState;

/// Returns the canonical text (RFC 9651 section 4.1) of the field of this kind that a view shows:
/// the text that [`sf_write::to_text`] returns of that field. It fails only if an allocation fails.
///
/// ```
/// let view = View::scan(Dialect::Rfc9651, Kind::Dict, b"u=1,  i=?1", &mut nodes)?;
/// let text = view_text(alloc, &view, Kind::Dict)?; // u=1, i
/// ```
pub fn view_text(alloc: Global, view: &View, kind: Kind) -> Result<Vec<u8>, OutOfMemory>
    // Whatever field of the kind the nodes describe, this is its canonical text.
    ensures canon { (d : Which) (v : FieldValue)
        → DescribesField d view.now.text.now view.now.nodes.now v
        → kind_of v ≡ kind
        → IfOk result (λ text. text.items ≡ canon v) }
    // Of a view that a scan returned, it is that of the field that the scanned text spells.
    ensures scanned { (d : Which) (t : Seq ℕ) → IsViewed d kind t view.now
        → IfOk result (λ text. IsCanonicalOf d kind t text.items) }
{
    let mut out = Writing::new(Vec::with_capacity(alloc, longest(view.text.len()))?);
    match write_view(view, kind, &mut out) {
        Ok(_) => Ok(out.into_inner()),
        Err(_) => Err(OutOfMemory),
    }
}

/// Returns the canonical text (RFC 9651 section 4.1) of the field that a text spells in a dialect,
/// or the refusal that [`sf_parse::parse_text_in`] returns. The canonical text is written from
/// nodes that point into the text; only if it has none, for example because a key of parameters is
/// repeated, the field is built. It allocates the canonical text, and nodes if there are more than
/// 32. If a key of the Dictionary is repeated or there are many keys, it also allocates the
/// canonical text once more and, for more than 32 nodes, settled nodes and an index of the members.
///
/// ```
/// normalise(alloc, &seed, Dialect::Rfc9651, Kind::Dict, b"u=1,  i=?1") // Ok: u=1, i
/// ```
pub fn normalise(
    alloc: Global,
    seed: &RandomState,
    dialect: Dialect,
    kind: Kind,
    text: &[u8],
) -> Result<Vec<u8>, Refusal>
    // The canonical text of the only value that the text spells, or the refusal of the text.
    ensures { MatchResult result (λ c. IsCanonicalOf dialect kind text.now c.items)
        (λ e. Parses dialect kind text.now (Err e)) }
{
    if let Some(canonical) = settled_text(alloc, dialect, kind, text)? {
        return Ok(canonical);
    }
    by_field(alloc, seed, dialect, kind, text)
}

/// Returns the canonical text (RFC 9651 section 4.1) of the field that a text spells in a dialect,
/// written from nodes; `None` if the text has no view: call [`crate::parse_declined`] then, or
/// [`settled_text`] in place of this. It fails only if an allocation fails. It allocates the
/// canonical text, and nodes if there are more than 32.
///
/// ```
/// canonical_text(alloc, Dialect::Rfc9651, Kind::Dict, b"u=1,  i=?1") // Ok(Some(..)): u=1, i
/// ```
pub fn canonical_text(
    alloc: Global,
    dialect: Dialect,
    kind: Kind,
    text: &[u8],
) -> Result<Option<Vec<u8>>, OutOfMemory>
    // The canonical text of the only value that the text spells.
    ensures { IfOk result
        (λ found. IfSome found (λ c. IsCanonicalOf dialect kind text.now c.items)) }
{
    let mut few = [Node::NONE; STACK_NODES];
    match View::scan(dialect, kind, text, &mut few) {
        Ok(view) => return Ok(Some(view_text(alloc, &view, kind)?)),
        Err(Unviewed::ShortBuffer) => return by_many_nodes(alloc, dialect, kind, text),
        Err(_) => return Ok(None),
    }
}

/// The same for a text with more nodes than are on the stack.
fn by_many_nodes(
    alloc: Global,
    dialect: Dialect,
    kind: Kind,
    text: &[u8],
) -> Result<Option<Vec<u8>>, OutOfMemory>
    ensures { IfOk result
        (λ found. IfSome found (λ c. IsCanonicalOf dialect kind text.now c.items)) }
{
    let mut nodes = Vec::new(alloc);
    let mut repeated = false;
    let Some(count) = grown_parts(alloc, dialect, kind, &mut repeated, text, &mut nodes)? else {
        return Ok(None);
    };
    if repeated {
        return Ok(None);
    }
    let view = View {
        text,
        nodes: &nodes.as_slice()[..count],
    };
    Ok(Some(view_text(alloc, &view, kind)?))
}

/// Returns the canonical text as [`canonical_text`] does, also if a key of the Dictionary is
/// repeated, or there are many keys: `None` if the text has no nodes, as for
/// [`crate::scan_settled`]. For a repeated key it also allocates the canonical text once more and,
/// for more than 32 nodes, settled nodes and an index of the members; if one of these allocations
/// or the first one of the text fails, it returns `None`.
///
/// ```
/// settled_text(alloc, Dialect::Rfc9651, Kind::Dict, b"u=1, i, u=2") // Ok(Some(..)): u=2, i
/// ```
pub fn settled_text(
    alloc: Global,
    dialect: Dialect,
    kind: Kind,
    text: &[u8],
) -> Result<Option<Vec<u8>>, OutOfMemory>
    // The canonical text of the only value that the text spells.
    ensures { IfOk result
        (λ found. IfSome found (λ c. IsCanonicalOf dialect kind text.now c.items)) }
{
    let mut few = [Node::NONE; STACK_NODES];
    let mut repeated = false;
    let Some(count) = scan_parts(dialect, kind, &mut repeated, text, &mut few) else {
        // A text has no more nodes than bytes: a short one did not lack nodes.
        if text.len() <= STACK_NODES || text.len() > 0xffff_ffff {
            return Ok(None);
        }
        return by_settled_buffer(alloc, dialect, kind, text);
    };
    if repeated {
        return by_settled_nodes(alloc, dialect, kind, text, &few[..count]);
    }
    let view = View {
        text,
        nodes: &few[..count],
    };
    Ok(Some(view_text(alloc, &view, kind)?))
}

/// As [`settled_text`], for a Dictionary whose members these nodes describe one by one.
#[inline(never)]
fn by_settled_nodes(
    alloc: Global,
    dialect: Dialect,
    kind: Kind,
    text: &[u8],
    raw: &[Node],
) -> Result<Option<Vec<u8>>, OutOfMemory>
    requires { IsRaw dialect kind text.now raw.now }
    ensures { IfOk result
        (λ found. IfSome found (λ c. IsCanonicalOf dialect kind text.now c.items)) }
{
    let mut few = [Node::NONE; STACK_NODES];
    let Some(count) = settle_few(text, raw, &mut few) else {
        return Ok(None);
    };
    let view = View {
        text,
        nodes: &few[..count],
    };
    Ok(fitted_text(alloc, &view, kind))
}

/// The same for a text with more nodes than are on the stack.
fn by_settled_buffer(
    alloc: Global,
    dialect: Dialect,
    kind: Kind,
    text: &[u8],
) -> Result<Option<Vec<u8>>, OutOfMemory>
    ensures { IfOk result
        (λ found. IfSome found (λ c. IsCanonicalOf dialect kind text.now c.items)) }
{
    let mut nodes = Vec::new(alloc);
    let mut repeated = false;
    let Some(view) = scan_or_settle(alloc, dialect, kind, &mut repeated, text, &mut nodes)? else {
        return Ok(None);
    };
    if repeated {
        return Ok(fitted_text(alloc, &view, kind));
    }
    Ok(Some(view_text(alloc, &view, kind)?))
}

/// The text that [`view_text`] returns, in memory of its own length, since it may be much shorter
/// than the source; `None` if an allocation fails.
fn fitted_text(alloc: Global, view: &View, kind: Kind) -> Option<Vec<u8>>
    ensures { (d : Which) (t : Seq ℕ) → IsViewed d kind t view.now
        → IfSome result (λ text. IsCanonicalOf d kind t text.items) }
{
    let text = view_text(alloc, view, kind).ok()?;
    Vec::from_slice(alloc, text.as_slice()).ok()
}

/// The canonical text, written from the field.
fn by_field(
    alloc: Global,
    seed: &RandomState,
    dialect: Dialect,
    kind: Kind,
    text: &[u8],
) -> Result<Vec<u8>, Refusal>
    ensures { MatchResult result (λ c. IsCanonicalOf dialect kind text.now c.items)
        (λ e. Parses dialect kind text.now (Err e)) }
{
    let field = parse_declined(alloc, seed, dialect, kind, text)?;
    let canonical = to_text(alloc, &field);
    drop(field);
    Ok(canonical?)
}

/// The largest length of the canonical text of a text of this length, which is eight fifths of it.
/// It is only a capacity: if it were too small, the buffer would grow.
fn longest(length: usize) -> usize {
    (length / 5).saturating_add(1).saturating_mul(8)
}
