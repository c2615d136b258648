//! Laws of priorities (RFC 9218 sections 4, 5 and 8), each as the contract of a function that does
//! nothing. [`request_priority`] and [`merged`] use the calls of `sf_use`, with the RFC's
//! sentences as their contracts.
ghost use Rattle.std.specs.Prelude.{◌≡◌};
ghost use Rattle.sf_rfc_use.specs.Rfc9218.{parameters, request_urgency, request_incremental};
ghost use Rattle.sf_rfc_use.specs.PriorityLaws.{ParametersAgree, LinesAgree, UnknownIgnored};
ghost use Rattle.sf_rfc_use.specs.PriorityLaws.{RequestsAgree, MergingAgrees, IsMerged};
ghost use Rattle.sf_rfc_use.specs.PriorityLaws.{RepliesAgree, RequestsEncode, ResponsesAgree};
ghost use Rattle.sf_rfc_use.specs.PriorityLaws.{ResponsesEncode};

use sf_use::{Asked, Priority, merge};
use sf_value::Dict;

/// For every Dictionary: what it sets are its priority parameters, without those that are unknown,
/// out of range or of another type (section 4). The same of the lines of a field in each dialect,
/// by the steps of RFC 9651 section 4.2.
pub fn parameters_agree()
    ensures parameters { ParametersAgree }
    ensures lines { LinesAgree }
    ensures unknown { UnknownIgnored }
{}

/// For every Dictionary of a request: the priority has the default for each parameter that is not
/// set (sections 4, 4.1 and 4.2).
pub fn requests_agree()
    ensures { RequestsAgree }
{}

/// For all Dictionaries of a request and its response: a merged parameter keeps the request's where
/// the response has none, and is the response's otherwise, as in the example of section 8.
pub fn merging_agrees()
    ensures { MergingAgrees }
{}

/// For every Dictionary of a response: it sets its priority parameters and no defaults. For a
/// request, a parameter that it does not set is the client's or the default, and otherwise the
/// response's, as in the example of section 8.
pub fn responses_agree()
    ensures set { ResponsesAgree }
    ensures replies { RepliesAgree }
{}

/// The field that is written for a response has exactly the parameters that are set, and that of a
/// request has parameters that mean its priority (sections 4 and 8).
pub fn writing_agrees()
    ensures responses { ResponsesEncode }
    ensures requests { RequestsEncode }
{}

/// Returns the priority of a request with this Dictionary (section 4).
pub fn request_priority(dict: &Dict) -> Priority
    ensures urgency { result.urgency ≡ request_urgency (parameters dict.now.members) }
    ensures incremental { result.incremental ≡ request_incremental (parameters dict.now.members) }
{
    Priority::from_dict(dict).with_defaults()
}

/// Returns what the Dictionaries of a request and of its response set together (section 8).
pub fn merged(client: &Dict, server: &Dict) -> Asked
    ensures { IsMerged (parameters client.now.members) (parameters server.now.members) result }
{
    merge(Priority::from_dict(client), Priority::from_dict(server))
}
