//! Laws of the hops and of a priority, each as the contract of a function that does nothing.
ghost use Rattle.sf_c.specs.Laws.{HopBytesAreFew, HopsAreFew, PriorityIsRead, DescribeOnePath};

use sf_nodes::laws::nodes_are_few;

/// Structs of hops, with the bytes that they point into, describe at most one path.
pub fn hops_describe_one_path()
    ensures { DescribeOnePath }
{}

/// The path that a text spells has at most four fifths of the text's length in hops, rounded to the
/// nearest number, and at most eight fifths of it in bytes.
pub fn hops_are_few()
    ensures hops { HopsAreFew }
    ensures bytes { HopBytesAreFew }
{
    nodes_are_few();
}

/// The text that is written for the struct of a priority is read as what the struct sets.
pub fn priority_is_read()
    ensures { PriorityIsRead }
{}
