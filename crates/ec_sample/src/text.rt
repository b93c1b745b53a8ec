//! The text of the sample.
ghost use Rattle.std.specs.Prelude.{◌≡◌, ◌≤◌, IfOk};
ghost use Rattle.ec_sample.specs.Text.{sample_text};

use std::alloc::{AllocError, Global};

/// The text of the sample of n steps, for n from 1 to 40. It takes time and memory in proportion to the text.
pub fn sample(alloc: Global, n: u32) -> Result<Vec<u8>, AllocError>
    requires some { 1 ≤ n }
    requires few { n ≤ 40 }
    ensures { IfOk result (λ text. text.items ≡ sample_text n) }
{
    let last = n + 1;
    let text = format!(in alloc;
        "sort step: integer\n\
         range step 1 {n}\n\
         range time 0 {last}\n\
         fluent Done(step)\n\
         event Do(step)\n\
         [step,time] Initiates(Do(step),Done(step),time).\n\
         [step] !HoldsAt(Done(step),0).\n\
         [step,time] Happens(Do(step),time) -> !HoldsAt(Done(step),time).\n\
         [step,time] Happens(Do(step+1),time) -> HoldsAt(Done(step),time).\n\
         [event1,event2,time] Happens(event1,time) & Happens(event2,time) -> event1=event2.\n\
         [step] HoldsAt(Done(step),{last}).\n"
    )?;
    Ok(text.into_bytes())
}
