// The steps of a case, in order.
ghost use Rattle.steps.specs.WorkingTables.{state_of};
ghost use Rattle.checker.specs.StepRuns.{RunGives};

use case_file::Case;
use case_parts::{STEPS, count_of};
use steps::{StepTables, each_use_labels, take_step};
use words::Refusal;

// The steps in order, up to the first that is refused.
pub fn run_steps(case: &Case, tables: &mut StepTables) -> Result<(), Refusal>
    ensures { RunGives case.now.file.now (state_of tables.old.left tables.old.cited tables.old.discharged) result tables.new.left tables.new.cited tables.new.discharged }
{
    let each_use = each_use_labels(case.file);
    let n = count_of(case.file, STEPS);
    for k in 0..n {
        take_step(case, each_use, k, tables)?;
    }
    Ok(())
}
