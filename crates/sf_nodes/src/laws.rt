//! Laws of nodes, each as the contract of a function that does nothing.
ghost use Rattle.sf_nodes.specs.Laws.{BytesAreFew, NodesAreFew, NodesAreTheirs, DescribeOneValue};

use sf_parse::laws::one_value;
use sf_value::laws::{canon_is_short, spelled_is_valid};

/// Nodes, with the bytes that they point into, describe at most one value of a kind.
pub fn nodes_describe_one_value()
    ensures { DescribeOneValue }
{
    one_value();
}

/// Nodes that describe a value are as many as the value has.
pub fn nodes_are_theirs()
    ensures { NodesAreTheirs }
{}

/// The value of a text has at most four fifths of the text's length in nodes, rounded to the
/// nearest number, and at most eight fifths of it in bytes.
pub fn nodes_are_few()
    ensures nodes { NodesAreFew }
    ensures bytes { BytesAreFew }
{
    canon_is_short();
    spelled_is_valid();
}
