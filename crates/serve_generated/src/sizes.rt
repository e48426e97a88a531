ghost use Rattle.std.specs.Prelude.{◌≡◌, ◌≤◌, IfSome, IsNone};
ghost use Rattle.command_line.specs.GenerateTask.{IsAllowedGenerated};
ghost use Rattle.run_resources.specs.Opened.{HasRunSizes};
ghost use Rattle.serve_generated.specs.Generated.{IsTooMuch, generated_sizes};

use crate::demand::generated_demand;
use command_line::GenTask;
use serve_inputs::RunSizes;

/// The most buffers of each class that a pool can have.
const MOST_SMALL: u32 = 65_536;

const MOST_LARGE: u32 = 16_384;

/// The usual sizes, with as many buffers of each class as the commands may claim, and at least one large one; none
/// where no pool can have as many.
pub(crate) fn sizes_for(task: &GenTask) -> Option<RunSizes>
    requires { IsAllowedGenerated task.now }
    ensures sizes { IfSome result (λ sizes. sizes ≡ generated_sizes task.now) }
    ensures sized { IfSome result (λ sizes. HasRunSizes task.now.sessions sizes) }
    ensures too_much { IsNone result → IsTooMuch task.now }
    ensures enough { IfSome result (λ sizes. IsTooMuch task.now → ⊥) }
{
    let demand = generated_demand(task.number, task.sessions, task.requests);
    if demand.small > MOST_SMALL || demand.large > MOST_LARGE {
        return None;
    }
    Some(RunSizes {
        shards: 8,
        small: demand.small,
        large: demand.large.max(1),
        ring: 1160,
        threshold: 512,
        dump: None,
        mtu: None,
    })
}
