// What is said of a log's refusal.
ghost use Rattle.std.specs.Prelude.{◌≡◌, ◌∷◌, [], IfOk};
ghost use Rattle.refutation_log.specs.RefusalText.{log_refusal_text, HasSymbols};
ghost use Rattle.plain_words.specs.Statements.{told_lines};
ghost use Rattle.plain_words.specs.Told.{log_refusal_statement};
ghost use Rattle.commands.specs.Lines.{line};

use plain_words::put_log_refusal_told;
use refutation_log::{LogRefusal, put_log_refusal};
use rwsp_model::Problem;
use std::alloc::{AllocError, Global};

/// The line of a refusal.
pub fn log_refusal_line(
    alloc: Global,
    problem: &Problem,
    why: &LogRefusal,
) -> Result<Vec<u8>, AllocError>
    requires { HasSymbols problem.now why.now }
    ensures { IfOk result (λ v. v.items ≡ line (log_refusal_text problem.now why.now)) }
{
    let mut out = Vec::new(alloc);
    put_log_refusal(&mut out, problem, why)?;
    out.push(b'\n')?;
    Ok(out)
}

/// What is told of a refusal.
pub fn log_refusal_told(
    alloc: Global,
    problem: &Problem,
    why: &LogRefusal,
) -> Result<Vec<u8>, AllocError>
    requires { HasSymbols problem.now why.now }
    ensures { IfOk result (λ v. v.items ≡ told_lines problem.now (log_refusal_statement why.now ∷ [])) }
{
    let mut out = Vec::new(alloc);
    put_log_refusal_told(&mut out, problem, why)?;
    Ok(out)
}
