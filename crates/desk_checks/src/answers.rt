//! What a request is answered.
ghost use Rattle.std.specs.Prelude.{◌≡◌, ◌<◌};
ghost use Rattle.gt_base.specs.declared.limits.TheConstants.{MAX_STEPS};
ghost use Rattle.desk_checks.specs.Tallies.{reply_at};

use gt_base::{Instant, Reply, Request, SessionId};

/// The reply at the instant now, where so many entries are held. A session has the number of the
/// entry that opens it.
pub(crate) fn answer(now: Instant, held: usize, request: &Request) -> Reply
    requires { held < MAX_STEPS }
    ensures { result ≡ reply_at now held request.now }
{
    match request {
        Request::Now => Reply::Now(now),
        Request::OpenSession => Reply::Session(SessionId(held as u32 + 1)),
        _ => Reply::Done,
    }
}
