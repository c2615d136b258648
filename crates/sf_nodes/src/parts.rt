//! The nodes of a value before their offsets are known, and the bytes that they point into.
ghost use Rattle.std.specs.Prelude.{◌≡◌, ◌+◌, ◌++◌, ◌≤◌, ◌<◌, ◌^◌, [], ◌∷◌, ℕ, List, length, map, take, drop};
ghost use Rattle.std.specs.Prelude.{IfOk, MatchResult};
ghost use Rattle.sf_value.specs.declared.dialect.Dialect.{Dialect as Which};
ghost use Rattle.sf_value.specs.declared.value.Field.{Field as FieldValue};
ghost use Rattle.sf_value.specs.Grammar.Words.{Each};
ghost use Rattle.sf_view.specs.View.{DescribesField};
ghost use Rattle.sf_nodes.specs.NodeBytes.{IsDecoded, IsInOne};
ghost use Rattle.sf_nodes.specs.NodeContents.{content_size, node_of as node_of_part, IsPartSmall};
ghost use Rattle.sf_nodes.specs.Nodes.{field_content};

use sf_value::OutOfMemory;
use sf_view::{Node, NodeType, Role};
use std::alloc::Global;
use std::marker::Model;

/// The largest offset of a node.
const OFFSET_MAX: usize = 0xffff_ffff;

/// A node before its offsets are known: they count in the bytes alone.
#[derive(Clone, Copy, Drop)]
pub(crate) struct Part {
    pub number: i64,
    pub key_at: usize,
    pub key_length: usize,
    pub text_at: usize,
    pub text_length: usize,
    pub size: u32,
    pub node_type: NodeType,
    pub role: Role,
}

/// The role, type, number and size of a part, without its key and bytes.
#[derive(Clone, Copy)]
pub(crate) struct Shape {
    pub role: Role,
    pub node_type: NodeType,
    pub number: i64,
    pub size: u32,
}

/// The nodes of a value before their offsets are known, and the bytes that they point into: those
/// of each key, and of each String, Token, Byte Sequence and Display String (RFC 9651 section 3),
/// decoded. [`crate::flatten`] makes it. Contracts see what the nodes describe.
///
/// ```
/// let flat = flatten(alloc, &field)?; // of a=b;c
/// flat.node_count() // 2
/// flat.byte_count() // 3: a, b, c
/// ```
#[derive(Drop)]
pub struct Flat {
    parts: Vec<Part>,
    bytes: Vec<u8>,
}

impl Model for Flat {
    ghost use Rattle.std.specs.Prelude.{List, map};
    ghost use Rattle.sf_nodes.specs.NodeContents.{NodeContent, content_by, HoldsUp};

    ghost Value = { List NodeContent };

    ghost view = { λ f. map (content_by f.bytes.items) f.parts.items };

    ghost invariant = { λ f. HoldsUp f.bytes.items f.parts.items };
}

impl Part {
    /// The node of the part, if the bytes follow a text of this length.
    fn node(&self, start: usize) -> Node
        requires key { start + self.now.key_at < 2 ^ 32 }
        requires key_length { self.now.key_length < 2 ^ 32 }
        requires text { start + self.now.text_at < 2 ^ 32 }
        requires text_length { self.now.text_length < 2 ^ 32 }
        ensures { result ≡ node_of_part start self.now }
    {
        Node {
            number: self.number,
            key_at: (start + self.key_at) as u32,
            key_length: self.key_length as u32,
            text_at: (start + self.text_at) as u32,
            text_length: self.text_length as u32,
            size: self.size,
            node_type: self.node_type.code(),
            role: self.role.code(),
            coded: 0,
        }
    }
}

impl Flat {
    /// No parts.
    pub(crate) fn new(alloc: Global) -> Flat
        ensures { result ≡ [] }
    {
        Flat {
            parts: Vec::new(alloc),
            bytes: Vec::new(alloc),
        }
    }

    /// Returns the number of nodes: one for each bare item and for each Inner List.
    ///
    /// ```
    /// flatten(alloc, &field)?.node_count() // of a=b;c: 2
    /// ```
    pub fn node_count(&self) -> usize
        ensures { result ≡ length self.now }
    {
        self.parts.as_slice().len()
    }

    /// Returns the number of bytes: those of each key, and of each String, Token, Byte Sequence and
    /// Display String.
    ///
    /// ```
    /// flatten(alloc, &field)?.byte_count() // of a=b;c: 3
    /// ```
    pub fn byte_count(&self) -> usize
        ensures { result ≡ content_size self.now }
    {
        self.bytes.as_slice().len()
    }

    /// Writes the nodes and the bytes to the beginning of buffers that are large enough. Offsets
    /// count from the beginning of a text of `start` bytes that the bytes follow; with `start` 0
    /// the bytes are alone. Together the text and the bytes must have less than 2^32 bytes. It does
    /// not allocate.
    ///
    /// ```
    /// let flat = flatten(alloc, &field)?; // of a=b;c
    /// flat.write(0, &mut nodes, &mut bytes); // the first 3 bytes are abc
    /// let view = View { text: &bytes[..3], nodes: &nodes[..2] };
    /// ```
    pub fn write(&self, start: usize, nodes: &mut [Node], bytes: &mut [u8])
        requires nodes { length self.now ≤ length nodes.old }
        requires bytes { content_size self.now ≤ length bytes.old }
        requires small { start + content_size self.now < 2 ^ 32 }
        ensures same_nodes { length nodes.new ≡ length nodes.old }
        ensures same_bytes { length bytes.new ≡ length bytes.old }
        // What comes after them in the buffers is unchanged.
        ensures other_nodes { drop (length self.now) nodes.new ≡ drop (length self.now) nodes.old }
        ensures other_bytes { drop (content_size self.now) bytes.new
            ≡ drop (content_size self.now) bytes.old }
        // After any text of that length they describe the value.
        ensures describes { (d : Which) (source : List ℕ) (v : FieldValue)
            → length source ≡ start
            → self.now ≡ field_content v
            → DescribesField d (source ++ take (content_size self.now) bytes.new)
            (take (length self.now) nodes.new) v }
        ensures decoded { Each IsDecoded (take (length self.now) nodes.new) }
        ensures in_one { Each (IsInOne start) (take (length self.now) nodes.new) }
    {
        put(bytes, self.bytes.as_slice());
        write_parts(self.parts.as_slice(), start, nodes);
    }

    /// The bytes, and the nodes that point into them.
    pub(crate) fn into_nodes(self, alloc: Global) -> Result<(Vec<u8>, Vec<Node>), OutOfMemory>
        // In both dialects, they describe the value.
        ensures { IfOk result (λ made. (d : Which) (v : FieldValue)
            → self ≡ field_content v
            → DescribesField d made.0.items made.1.items v) }
    {
        let Flat { parts, bytes } = self;
        if bytes.as_slice().len() > OFFSET_MAX {
            return Err(OutOfMemory);
        }
        let nodes = nodes_of(alloc, parts.as_slice())?;
        Ok((bytes, nodes))
    }

    /// Adds a part, with its key and its bytes; if an allocation fails, nothing changes.
    pub(crate) fn push(&mut self, shape: Shape, key: &[u8], text: &[u8]) -> Result<(), OutOfMemory>
        ensures { IfOk result (λ _. self.new ≡ self.old ++ record {
          role = shape.role;
          node_type = shape.node_type;
          number = shape.number;
          key = key.now;
          text = text.now;
          size = shape.size;
        } ∷ []) }
    {
        let key_at = self.bytes.as_slice().len();
        let text_at = add(key_at, key.len())?;
        extend(&mut self.bytes, key, text)?;
        let part = Part {
            number: shape.number,
            key_at,
            key_length: key.len(),
            text_at,
            text_length: text.len(),
            size: shape.size,
            node_type: shape.node_type,
            role: shape.role,
        };
        if self.parts.push(part).is_err() {
            self.bytes.truncate(key_at);
            return Err(OutOfMemory);
        }
        Ok(())
    }
}

/// The sum. It does not overflow in practice: fewer than 2^64 of what is counted fit in memory.
pub(crate) fn add(count: usize, more: usize) -> Result<usize, OutOfMemory>
    // It fails only if the sum overflows.
    ensures { MatchResult result (λ n. n ≡ count + more) (λ _. 2 ^ 64 ≤ count + more) }
{
    count.checked_add(more).ok_or(OutOfMemory)
}

/// Puts bytes at the start of a buffer.
fn put(buffer: &mut [u8], bytes: &[u8])
    requires { length bytes.now ≤ length buffer.old }
    ensures { buffer.new ≡ bytes.now ++ drop (length bytes.now) buffer.old }
{
    let (prefix, _) = buffer.split_at_mut(bytes.len());
    prefix.copy_from_slice(bytes);
}

/// Puts the nodes of the parts at the start of a buffer that is long enough.
fn write_parts(parts: &[Part], start: usize, nodes: &mut [Node])
    requires nodes { length parts.now ≤ length nodes.old }
    requires small { Each (IsPartSmall start) parts.now }
    ensures same { length nodes.new ≡ length nodes.old }
    ensures nodes { take (length parts.now) nodes.new ≡ map (node_of_part start) parts.now }
    ensures others { drop (length parts.now) nodes.new ≡ drop (length parts.now) nodes.old }
{
    let mut count = 0;
    while count < parts.len() {
        nodes[count] = parts[count].node(start);
        count += 1;
    }
}

/// The nodes of the parts, without a text before the bytes.
fn nodes_of(alloc: Global, parts: &[Part]) -> Result<Vec<Node>, OutOfMemory>
    requires small { Each (IsPartSmall 0) parts.now }
    ensures { IfOk result (λ nodes. nodes.items ≡ map (node_of_part 0) parts.now) }
{
    let mut nodes = Vec::with_capacity(alloc, parts.len())?;
    let mut count = 0;
    while count < parts.len() {
        nodes.push(parts[count].node(0))?;
        count += 1;
    }
    Ok(nodes)
}

/// Appends a key and a text to the bytes; if an allocation fails, the bytes are unchanged.
fn extend(bytes: &mut Vec<u8>, key: &[u8], text: &[u8]) -> Result<(), OutOfMemory>
    ensures { MatchResult result (λ _. bytes.new.items ≡ (bytes.old.items ++ key.now) ++ text.now)
        (λ _. bytes.new.items ≡ bytes.old.items) }
{
    let length = bytes.as_slice().len();
    if bytes.extend_from_slice(key).is_err() {
        return Err(OutOfMemory);
    }
    if bytes.extend_from_slice(text).is_err() {
        bytes.truncate(length);
        return Err(OutOfMemory);
    }
    Ok(())
}
