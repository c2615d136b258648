//! The priority of a response, by the client and the server (RFC 9218 section 8).
ghost use Rattle.sf_use.specs.Priority.{merge_params};
ghost use Rattle.sf_use.specs.ResponsePriority.{asked_of};
ghost use Rattle.sf_c.specs.Priorities.{SaysAsked, params_of_flags};
ghost use Rattle.sf_c.specs.ResponsePriorities.{response_of_flags};

use crate::priority::PriorityFlags;
use crate::response_priority::ResponsePriorityFlags;
use sf_use::merge;

/// Merges the priority of a request and that of its response (RFC 9218 section 8): each parameter
/// is the server's if the server sets it, otherwise the client's; defaults are filled in. A flag
/// counts as 1 if it is not 0, and an urgency above 7 as not set.
#[unsafe(no_mangle)]
pub extern "C" fn sf_priority_merge(
    request: &PriorityFlags,
    response: &ResponsePriorityFlags,
) -> PriorityFlags
    // Each parameter is the server's if the server sets it, otherwise the client's if the client
    // sets it, otherwise the default.
    ensures { SaysAsked result
        (merge_params (params_of_flags request.now) (asked_of (response_of_flags response.now))) }
{
    PriorityFlags::of(merge(request.asked(), response.priority().as_asked()))
}
