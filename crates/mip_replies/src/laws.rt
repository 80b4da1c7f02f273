//! What an audit is good for.

ghost use Rattle.std.specs.Prelude.{ℕ, List};
ghost use Rattle.std.specs.declared.option.Option.{Option};
ghost use Rattle.mip_replies.specs.Answers.{form_answer};
ghost use Rattle.mip_replies.specs.Audits.{IsAudited};
ghost use Rattle.mip_replies.specs.Told.{Told};
ghost use Rattle.mip_replies.specs.declared.input_form.InputForm.TheVariants as forms;

use mip_audit::first_differences_are_found;
use mip_replay::each_acceptance_is_marked;

/// Where the answer to an audit was told, a yes says that the trace is that of the permitted history, in which each acceptance has its
/// mark, and a no has the first line that differs. Each permitted trace within the bounds gets a yes, unless a call failed or memory
/// ran out.
pub fn each_audit_is_right()
    ensures { (bytes : List ℕ) (given : ℕ) (old new : Option (List ℕ)) → Told (form_answer forms.Audit bytes) given old new
        → IsAudited bytes given old new }
{
    each_acceptance_is_marked();
    first_differences_are_found();
}
