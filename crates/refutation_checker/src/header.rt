// The header of a log's text, judged.
ghost use Rattle.rwsp_model.specs.Refusals.{MatchAnswer};
ghost use Rattle.refutation_terms.specs.Verdict.{IsRefused};
ghost use Rattle.refutation_checker.specs.Turns.{HasSoundHeader};

use crate::turn::turn_refusal;
use refutation_log::{Header, read_header};
use refutation_terms::{LogKind, LogRefusal};
use rwsp_model::{Fail, Problem};
use std::alloc::Global;

/// The header of a text, as one of a log of this kind, where it is refused for no cause.
pub fn judge_header<'a>(
    alloc: Global,
    problem: &Problem,
    kind: LogKind,
    bytes: &'a [u8],
) -> Result<Header<'a>, Fail<LogRefusal>>
    ensures { MatchAnswer result (HasSoundHeader problem.now kind bytes.now) (IsRefused problem.now kind bytes.now) }
{
    problem.prove_limits();
    let header = match read_header(alloc, problem, kind, bytes) {
        Ok(header) => header,
        Err(fail) => return Err(fail),
    };
    match turn_refusal(problem, &header.named, &header.opening) {
        None => Ok(header),
        Some(why) => Err(Fail::Refused(why)),
    }
}
