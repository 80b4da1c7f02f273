//! Whole runs: what the program `mip` writes of them.

ghost use Rattle.mip_replies.specs.Answers.{form_answer};
ghost use Rattle.mip_replies.specs.declared.input_form.InputForm.TheVariants as forms;
ghost use Rattle.mip_replies.specs.declared.told_run.ToldRun.TheVariants.{Trace};
ghost use Rattle.mip_c_runs.specs.Replies.{Replies};

use crate::replies::tell_answer;
use mip_replies::{InputForm, ToldRun};
use std::alloc::Global;

/// Runs a schedule, and writes the trace of its run, as `mip replay` does. Where the schedule is bad it writes the line that
/// tells which of its lines is, and why. The run is made anew each time that it is asked for, also with too little room.
/// Tells `MIP_OK`; `MIP_BAD`; `MIP_TOO_LONG` where the schedule has more than 16,777,216 bytes or 20,000 lines of events;
/// `MIP_NO_ROOM` with size; `MIP_MEMORY`.
#[unsafe(no_mangle)]
pub extern "C" fn mip_replay(
    alloc: Global,
    schedule: &[u8],
    out: &mut [u8],
    size: &mut usize,
) -> u32
    ensures { Replies (form_answer (forms.Schedule Trace) schedule.now) result out.old out.new size.old size.new }
{
    tell_answer(
        alloc,
        InputForm::Schedule(ToldRun::Trace),
        schedule,
        out,
        size,
    )
}

/// Judges the trace that stands behind a schedule and a line `trace`, as `mip audit` does: it writes `yes` where it is the
/// trace of the schedule's run, and else `no` with the number of the first line that differs.
/// Tells `MIP_OK`, where it is; `MIP_DIFFERS`; `MIP_BAD`; `MIP_TOO_LONG` where the input has more than 16,777,216 bytes, 2,000
/// lines of events, or 20,000 of the trace; `MIP_NO_ROOM` with size; `MIP_MEMORY`.
#[unsafe(no_mangle)]
pub extern "C" fn mip_audit(alloc: Global, input: &[u8], out: &mut [u8], size: &mut usize) -> u32
    ensures { Replies (form_answer forms.Audit input.now) result out.old out.new size.old size.new }
{
    tell_answer(alloc, InputForm::Audit, input, out, size)
}
